// Mending one finding of a text (document 01, "Replacement and text", "Turned back"): once every test has passed, `mend` writes the whole
// text, with the finding exchanged for its replacement. `mend` equals `mend` of crates/formatter/specs/Mend.antt.
#![tactic(auto)]

ghost use Rattle.std.specs.Prelude.{◌≡◌, map, ◌+◌, ◌-◌, ◌≤◌, drop, length, take};
ghost use Rattle.std.proofs.lemmas.List.Edits.{sets};
ghost use Rattle.base.specs.Answers.{EndsAs, answer_row};
ghost use Rattle.base.specs.Refusals.{text_limit};
ghost use Rattle.utf8.specs.Rfc3629.{valid_up_to_of};
ghost use Rattle.policy.specs.PolicyBytes.{policy_of};
ghost use Rattle.analysis.specs.Decisions.{meaning, write_out};
ghost use Rattle.formatter.specs.Demand3.{Accepted};
ghost use Rattle.formatter.specs.Mend.{mend};
ghost use Rattle.mending.specs.Parts.{FindingStarting, Starts, cells_written, with_cells_written};

use base::Refusal;
use formatter::intake::first_tests;
use policy::Policy;
use replacing::decisions::check_decisions;
use replacing::measure::{Measure, measure_cells};
use replacing::render::write_cells;
use text_pass::findings::next_finding;

// Whether a finding starts at a given offset, and where the search for it ended: at the end of the first finding that ends after the
// offset, or at the end of the longest well-formed beginning. Up to `end` the text is well-formed. `end` counts in both cases, so an
// `Option` would not hold it.
#[derive(Clone, Copy, Debug, PartialEq, Eq)]
struct FindingStart {
    end: usize,
    present: bool,
}

// Looks for a finding that starts at an offset. There is none if an item starts before the offset and ends after it.
fn finding_starting(text: &[u8], policy: &[u8], offset: usize) -> FindingStart
    ensures starts { FindingStarting (policy_of policy.now) text.now offset result }
    ensures valid { (result.end ≤ length text.now)
        × (result.end + valid_up_to_of (drop result.end text.now) ≡ valid_up_to_of text.now) }
{
    let next = next_finding(text, policy, offset, 0);
    FindingStart {
        end: next.end,
        present: next.present && next.start == offset,
    }
}

// Puts the bytes of a text before `start` and those from `end` on into the output, with `len` bytes between them.
fn put_around(text: &[u8], start: usize, end: usize, len: usize, out: &mut [u8])
    requires { (start ≤ end) × (end ≤ length text.now) × (start + len + (length text.now - end) ≤ length out.old) }
    ensures { out.new ≡ sets (sets out.old 0 (take start text.now)) (start + len)
        (drop end text.now) }
{
    base::write_bytes(out, 0, &text[..start]);
    base::write_bytes(out, start + len, &text[end..]);
}

// Writes the text, with the bytes from `start` up to `end` exchanged for their cells written under the decisions, if the output has room.
// The written cells have `len` bytes; a run of selectors has no cells, and `len` is 0.
fn exchange(
    text: &[u8],
    start: usize,
    end: usize,
    len: usize,
    policy: Policy,
    decisions: &[u8],
    out: &mut [u8],
) -> Result<usize, Refusal>
    requires { (start ≤ end) × (end ≤ length text.now) × (length text.now ≤ text_limit)
        × (len ≡ length (cells_written policy text.now start end (map meaning decisions.now))) }
    ensures { record { answer = result; buffer = out.new }
        ≡ write_out (with_cells_written policy text.now start end (map meaning decisions.now)) out.old }
{
    let stop = start + len;
    let wanted = stop + (text.len() - end);
    if out.len() < wanted {
        return Err(Refusal::OutputTooShort { wanted });
    }
    put_around(text, start, end, len, out);
    if len == 0 {
        return Ok(wanted);
    }
    write_cells(&text[start..end], policy, decisions, &mut out[start..stop])?;
    Ok(wanted)
}

// Mends the finding from `offset` up to `end` of an accepted text, if the decisions are valid and the output has room.
fn mend_finding(
    text: &[u8],
    policy: &[u8],
    offset: usize,
    end: usize,
    decisions: &[u8],
    out: &mut [u8],
) -> Result<usize, Refusal>
    requires { Accepted policy.now text.now × Starts (policy_of policy.now) text.now offset end }
    ensures { record { answer = result; buffer = out.new }
        ≡ mend text.now policy.now offset decisions.now out.old }
{
    let accepted_policy = policy::read_policy(policy).policy;
    let Measure { counts, len } = measure_cells(&text[offset..end], accepted_policy);
    check_decisions(decisions, counts.presentation_decisions)?;
    exchange(text, offset, end, len, accepted_policy, decisions, out)
}

// Mends the finding that starts at the offset: writes the text, with the finding exchanged for its replacement under the decisions.
pub fn mend(
    text: &[u8],
    policy: &[u8],
    offset: usize,
    decisions: &[u8],
    out: &mut [u8],
) -> Result<usize, Refusal>
    ensures { EndsAs answer_row (mend text.now policy.now offset decisions.now out.old) result
        out.new }
{
    first_tests(text, policy)?;
    let FindingStart { end, present } = finding_starting(text, policy, offset);
    let valid_up_to = end + utf8_validity::valid_up_to(&text[end..]);
    if valid_up_to != text.len() {
        return Err(Refusal::NotWellFormed { valid_up_to });
    }
    if !present {
        return Err(Refusal::NoFinding);
    }
    mend_finding(text, policy, offset, end, decisions, out)
}
