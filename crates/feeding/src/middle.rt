// The middle of a piece: characters that are formatted by themselves, before the base that the feed holds.
ghost use Rattle.std.specs.Prelude.{◌≡◌, true, ◌+◌, ◌≤◌, length};
ghost use Rattle.base.specs.Output.{PutAt};
ghost use Rattle.base.specs.Refusals.{text_limit};
ghost use Rattle.utf8.specs.Rfc3629.{chars, encode_all, valid_up_to_of};
ghost use Rattle.policy.specs.PolicyBytes.{policy_of};
ghost use Rattle.analysis.specs.CellView.{format_cells, total_cells};
ghost use Rattle.analysis.specs.Counts.{total};

use crate::Settled;
use analysis::types::NonCanonicality;
use formatting::write_formatted;
use text_pass::findings::{FindingSpan, next_finding};

// Adds up the counts of the findings of a text within the limit.
fn text_totals(text: &[u8], policy: &[u8]) -> NonCanonicality
    requires { length text.now ≤ text_limit }
    ensures { result ≡ total_cells (policy_of policy.now) (chars text.now) }
{
    let mut at = 0;
    let mut totals = NonCanonicality::empty();
    loop {
        let FindingSpan {
            start: _,
            end,
            counts,
            present,
            passed: _,
        } = next_finding(text, policy, 0, at);
        if !present {
            return totals;
        }
        at = end;
        totals = totals.add(counts);
    }
}

// Writes what formatting makes of a well-formed text, for which there is room, and counts it. `plain` means that nothing is counted in it.
pub(crate) fn put_middle(
    policy: &[u8],
    text: &[u8],
    plain: bool,
    out: &mut [u8],
    at: usize,
) -> Settled
    requires { (length text.now ≤ text_limit) × (valid_up_to_of text.now ≡ length text.now)
        × (plain ≡ true → total (total_cells (policy_of policy.now) (chars text.now)) ≡ 0)
        × (at + length (encode_all (format_cells (policy_of policy.now) (chars text.now))) ≤ length out.old) }
    ensures text { PutAt out.old at (encode_all (format_cells (policy_of policy.now) (chars text.now)))
        out.new result.end }
    ensures counts { result.counts ≡ total_cells (policy_of policy.now) (chars text.now) }
{
    if plain {
        base::write_bytes(out, at, text);
        let counts = NonCanonicality::empty();
        return Settled {
            end: at + text.len(),
            counts,
        };
    }
    let counts = text_totals(text, policy);
    let end = write_formatted(text, policy, out, at);
    Settled { end, counts }
}
