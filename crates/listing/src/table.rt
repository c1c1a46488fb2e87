// Listing the findings of a text into a table of structs (document 01, "Counts and finding": "The findings are listed in text order into a
// table lent by the caller"). `first_finding` returns each finding by value, and `list_into_table` stores it. It equals `list` of
// crates/formatter/specs/List.antt. The theorem `ListedAsBytes` of crates/formatter/specs/Theorems.antt says that the table of bytes of
// lib.rt agrees with it.
ghost use Rattle.std.specs.Prelude.{◌≡◌};
ghost use Rattle.base.specs.Answers.{EndsAs, answer_row};
ghost use Rattle.positions.specs.Positions.{AtPosition};
ghost use Rattle.formatter.specs.List.{list};
ghost use Rattle.listing.specs.Table.{few_findings, first_finding, no_finding};

use crate::{FindingCount, count_findings};
use analysis::ItemAnalysis;
use analysis::types::{Finding, NonCanonicality};
use base::Refusal;
use formatter::intake::intake;
use policy::{Policy, ReadPolicy};
use positions::TextCount;
use replacing::analyze_scan_item;

// The number of places in the table of `list_few`.
pub const FEW: usize = 8;

// The answer of `list_few`, and its table with the findings at the front.
#[derive(Clone, Copy)]
pub struct FewFindings {
    pub answer: Result<usize, Refusal>,
    pub findings: [Finding; FEW],
}

// An empty finding: it fills a place of the table that has none.
fn no_finding() -> Finding
    ensures { result ≡ no_finding 0 }
{
    let counts = NonCanonicality::empty();
    Finding {
        start: 0,
        end: 0,
        counts,
        char_start: 0,
        char_end: 0,
        unit_start: 0,
        unit_end: 0,
    }
}

// The first finding from an offset on, if there is one. Characters and units are counted on from those before the offset, which the
// caller gives.
fn first_finding(text: &[u8], start: usize, before: TextCount, policy: Policy) -> Option<Finding>
    ensures { AtPosition text.now start before → result ≡ first_finding policy text.now start }
{
    let mut at = start;
    let mut before = before;
    loop {
        match analyze_scan_item(text, at, before, policy) {
            ItemAnalysis::End => return None,
            ItemAnalysis::Canonical {
                end,
                char_end,
                unit_end,
            } => {
                at = end;
                before = TextCount {
                    chars: char_end,
                    units: unit_end,
                };
            }
            ItemAnalysis::NonCanonical(finding) => return Some(finding),
        }
    }
}

// Lists the findings of a text under a policy: stores them in the table in text order. The policy is given as bytes. The loop ends with
// the last finding, so the text after it is not analysed again.
pub fn list_into_table(text: &[u8], policy: &[u8], table: &mut [Finding]) -> Result<usize, Refusal>
    ensures { EndsAs answer_row (list text.now policy.now table.old) result table.new }
{
    intake(text, policy)?;
    let FindingCount {
        findings,
        valid_up_to: _,
    } = count_findings(text, policy);
    if table.len() < findings {
        return Err(Refusal::TableTooShort { findings });
    }
    let ReadPolicy {
        accepted: _,
        policy: read,
    } = policy::read_policy(policy);
    let mut at = 0;
    let mut before = TextCount { chars: 0, units: 0 };
    for place in 0..findings {
        let Some(finding) = first_finding(text, at, before, read) else {
            return Ok(findings);
        };
        table[place] = finding;
        at = finding.end;
        before = TextCount {
            chars: finding.char_end,
            units: finding.unit_end,
        };
    }
    Ok(findings)
}

// Lists the findings of a text that has at most eight of them.
pub fn list_few(text: &[u8], policy: &[u8]) -> FewFindings
    ensures { result ≡ few_findings text.now policy.now }
{
    let mut findings = [no_finding(); FEW];
    let answer = list_into_table(text, policy, &mut findings);
    FewFindings { answer, findings }
}
