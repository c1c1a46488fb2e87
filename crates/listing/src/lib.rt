// Listing the findings of a text into a table lent by the caller (document 01, "Counts and finding", "Turned back"). A row is fourteen
// numbers of 8 bytes each, lowest byte first: start, end, the eight counts, start and end in characters, start and end in UTF-16 units
// (document 02, v). `list_findings` goes through the text from finding to finding (crate text_pass): once to count the findings, and once
// more to write their rows, if there are any and all fit. Characters and units are counted from finding to finding, each byte once.
// `list_findings` equals `list_bytes` of crates/formatter/specs/List.antt.
#![tactic(auto)]

pub mod items;
pub mod table;

ghost use Rattle.std.specs.Prelude.{◌≡◌, ◌+◌, ◌*◌, ◌≤◌, length};
ghost use Rattle.base.specs.Tables.{fill_table, rows_bytes};
ghost use Rattle.base.specs.Answers.{EndsAs, answer_row};
ghost use Rattle.base.specs.Output.{PutAt};
ghost use Rattle.base.specs.Words.{bytes_of};
ghost use Rattle.utf8.specs.Rfc3629.{valid_up_to_of};
ghost use Rattle.policy.specs.PolicyBytes.{policy_of};
ghost use Rattle.analysis.specs.Findings.{findings_from};
ghost use Rattle.formatter.specs.List.{list_bytes, row_bytes, row_numbers};
ghost use Rattle.listing.specs.Table.{finding_rows};

use analysis::types::Finding;
use base::{Refusal, WORD_BYTES};
use formatter::intake::first_tests;
use positions::{TextCount, add_counts, count_between};
use text_pass::findings::{FindingSpan, next_finding};

// How many numbers a row has.
pub const ROW_NUMBERS: usize = 14;

// How many bytes a row has.
pub const ROW_BYTES: usize = ROW_NUMBERS * WORD_BYTES;

// The number of findings of a text, and the length of its longest well-formed beginning.
#[derive(Clone, Copy)]
pub(crate) struct FindingCount {
    pub(crate) findings: usize,
    pub(crate) valid_up_to: usize,
}

// Counts the findings of a text. With the end of the text as its limit, `next_finding` passes all of them.
pub(crate) fn count_findings(text: &[u8], policy: &[u8]) -> FindingCount
    ensures findings { result.findings ≡ length (findings_from (policy_of policy.now) text.now 0) }
    ensures valid { result.valid_up_to ≡ valid_up_to_of text.now }
{
    let FindingSpan {
        start,
        end: _,
        counts: _,
        present: _,
        passed,
    } = next_finding(text, policy, text.len(), 0);
    FindingCount {
        findings: passed,
        valid_up_to: start,
    }
}

// The numbers of a finding's row.
pub fn row_numbers(finding: Finding) -> [usize; ROW_NUMBERS]
    ensures { result ≡ row_numbers finding }
{
    let counts = finding.counts;
    [
        finding.start,
        finding.end,
        counts.unsanctioned_selectors,
        counts.modifier_defective_selectors,
        counts.additional_defective_selectors,
        counts.tag_conflicting_selectors,
        counts.tag_forced_presentations,
        counts.tag_redundant_selectors,
        counts.policy_redundant_selectors,
        counts.presentation_decisions,
        finding.char_start,
        finding.char_end,
        finding.unit_start,
        finding.unit_end,
    ]
}

// Puts the row of a finding into the table, which has room for it, and returns where it ends.
fn put_row(table: &mut [u8], start: usize, finding: Finding) -> usize
    requires { start + row_bytes ≤ length table.old }
    ensures { PutAt table.old start (bytes_of (row_numbers finding)) table.new result }
{
    let numbers = row_numbers(finding);
    base::write_numbers(table, start, &numbers);
    start + ROW_BYTES
}

// Puts the row of each finding into the table, which has room for all, and returns where the last one ends.
fn put_findings(text: &[u8], policy: &[u8], table: &mut [u8]) -> usize
    requires { length (rows_bytes row_numbers (finding_rows text.now policy.now)) ≤ length table.old }
    ensures { PutAt table.old 0 (rows_bytes row_numbers (finding_rows text.now policy.now))
        table.new result }
{
    let mut at = 0;
    let mut before = TextCount { chars: 0, units: 0 };
    let mut to = 0;
    loop {
        let FindingSpan {
            start,
            end,
            counts,
            present,
            passed: _,
        } = next_finding(text, policy, 0, at);
        if !present {
            return to;
        }
        let first = add_counts(before, count_between(text, at, start));
        let last = add_counts(first, count_between(text, start, end));
        at = end;
        before = last;
        to = put_row(
            table,
            to,
            Finding {
                start,
                end,
                counts,
                char_start: first.chars,
                char_end: last.chars,
                unit_start: first.units,
                unit_end: last.units,
            },
        );
    }
}

// Lists the findings of a text, if the table has room for all. `findings` is their number.
fn fill_table(
    text: &[u8],
    policy: &[u8],
    findings: usize,
    table: &mut [u8],
) -> Result<usize, Refusal>
    requires { findings ≡ length (findings_from (policy_of policy.now) text.now 0) }
    ensures { record { answer = result; buffer = table.new }
        ≡ fill_table row_numbers row_bytes (finding_rows text.now policy.now) table.old }
{
    if findings == 0 {
        return Ok(findings);
    }
    if table.len() / ROW_BYTES < findings {
        return Err(Refusal::TableTooShort { findings });
    }
    put_findings(text, policy, table);
    Ok(findings)
}

// Lists the findings of a text under a policy. The text and the policy are given as bytes.
pub fn list_findings(text: &[u8], policy: &[u8], table: &mut [u8]) -> Result<usize, Refusal>
    ensures { EndsAs answer_row (list_bytes text.now policy.now table.old) result table.new }
{
    first_tests(text, policy)?;
    let FindingCount {
        findings,
        valid_up_to,
    } = count_findings(text, policy);
    if valid_up_to != text.len() {
        return Err(Refusal::NotWellFormed { valid_up_to });
    }
    fill_table(text, policy, findings, table)
}
