// The report of a message (document 01, "Programs"): a line for each finding and a line for the totals, or the line of
// a refusal. `write_report` writes it at the front of a lent buffer that is long enough for every report, and equals
// `reported` of specs/Report.antt.
ghost use Rattle.std.specs.Prelude.{◌≡◌, ◌+◌, ◌≤◌, drop, length, take};
ghost use Rattle.base.specs.Output.{PutAt};
ghost use Rattle.base.specs.Refusals.{checked};
ghost use Rattle.policy.specs.DefaultPolicy.{default_policy};
ghost use Rattle.policy.specs.PolicyBytes.{policy_bytes};
ghost use Rattle.message_io.specs.Lines.{finding_line, refusal_line, total_line};
ghost use Rattle.formatter.specs.List.{count_numbers};
ghost use Rattle.formatter.specs.Intake.{intake_refusal};
ghost use Rattle.report.specs.Report.{lines_from, report_lines, report_numbers, reported};
ghost use Rattle.io.specs.Counts.{IsPrefixLen};

use analysis::ItemAnalysis;
use analysis::types::{Finding, NonCanonicality};
use base::Refusal;
use formatter::intake::intake;
use message_io::line::LINE_ROOM;
use policy::{POLICY_BYTES, Policy};
use positions::TextCount;
use replacing::analyze_scan_item;
use replacing::measure::{Measure, measure_cells};

// "Programs read at most 12,288 bytes under the default policy; more gives `refused 1`."
pub(crate) const MESSAGE_LIMIT: usize = 12_288;

// The length of the longest report (specs/Theorems.antt, ReportFits). For each byte of a message there is at most one
// line of a finding, with ten numbers of up to five digits and a blank or the 0A after each. Then comes the line of the
// totals.
pub(crate) const REPORT_ROOM: usize = 60 * MESSAGE_LIMIT + 54;

// Returns the eight counts, in document 01's order.
fn count_numbers(counts: NonCanonicality) -> [usize; 8]
    ensures { result ≡ count_numbers counts }
{
    [
        counts.unsanctioned_selectors,
        counts.modifier_defective_selectors,
        counts.additional_defective_selectors,
        counts.tag_conflicting_selectors,
        counts.tag_forced_presentations,
        counts.tag_redundant_selectors,
        counts.policy_redundant_selectors,
        counts.presentation_decisions,
    ]
}

// Writes a line that fits at an offset, and returns the offset after it.
fn put_line(out: &mut [u8], start: usize, line: &[u8]) -> usize
    requires { start + length line.now ≤ length out.old }
    ensures { PutAt out.old start line.now out.new result }
{
    base::write_bytes(out, start, line);
    start + line.len()
}

// Writes the line of a finding.
fn put_finding(out: &mut [u8], start: usize, finding: Finding) -> usize
    requires { start + length (finding_line (report_numbers finding)) ≤ length out.old }
    ensures { PutAt out.old start (finding_line (report_numbers finding)) out.new result }
{
    let numbers = count_numbers(finding.counts);
    let mut line = [0u8; LINE_ROOM];
    let len = message_io::line::finding_line(finding.start, finding.end, &numbers, &mut line);
    put_line(out, start, &line[..len])
}

// Writes the line of the totals.
fn put_totals(out: &mut [u8], start: usize, totals: NonCanonicality) -> usize
    requires { start + length (total_line (count_numbers totals)) ≤ length out.old }
    ensures { PutAt out.old start (total_line (count_numbers totals)) out.new result }
{
    let numbers = count_numbers(totals);
    let mut line = [0u8; LINE_ROOM];
    let len = message_io::line::total_line(&numbers, &mut line);
    put_line(out, start, &line[..len])
}

// Writes the line of a refusal.
fn put_refusal(out: &mut [u8], refusal: Refusal) -> usize
    requires { 210 ≤ length out.old }
    ensures { PutAt out.old 0 (refusal_line refusal) out.new result × (result ≤ 210) }
{
    let mut line = [0u8; LINE_ROOM];
    let len = message_io::line::refusal_line(refusal, &mut line);
    put_line(out, 0, &line[..len])
}

// Writes the line of each finding. "The report keeps its byte columns" (document 02, v): it has no column for characters or units, so
// they need not be counted from the start of the message.
fn put_findings(message: &[u8], policy: Policy, out: &mut [u8]) -> usize
    requires { length (lines_from policy message.now 0) ≤ length out.old }
    ensures { PutAt out.old 0 (lines_from policy message.now 0) out.new result }
{
    let mut at = 0;
    let mut to = 0;
    loop {
        match analyze_scan_item(message, at, TextCount { chars: 0, units: 0 }, policy) {
            ItemAnalysis::End => {
                return to;
            }
            ItemAnalysis::Canonical {
                end,
                char_end: _,
                unit_end: _,
            } => {
                at = end;
            }
            ItemAnalysis::NonCanonical(finding) => {
                at = finding.end;
                to = put_finding(out, to, finding);
            }
        }
    }
}

// Writes the lines of the findings, and the line of the totals.
fn put_report(message: &[u8], policy: Policy, out: &mut [u8]) -> usize
    requires { length (report_lines policy message.now) ≤ length out.old }
    ensures { PutAt out.old 0 (report_lines policy message.now) out.new result }
{
    let end = put_findings(message, policy, out);
    let Measure { counts, len: _ } = measure_cells(message, policy);
    put_totals(out, end, counts)
}

// Runs the tests of a message, under the default policy.
fn check_message(message: &[u8]) -> Result<(), Refusal>
    ensures { result ≡ checked (intake_refusal message.now (policy_bytes default_policy)) }
{
    let mut policy = [0u8; POLICY_BYTES];
    message_io::put_default_policy(&mut policy);
    intake(message, &policy)
}

// Writes the report of a message, or the line of a refusal, at the front of the buffer. Returns its length.
pub(crate) fn write_report(message: &[u8], out: &mut [u8; REPORT_ROOM]) -> usize
    ensures prefix_len { IsPrefixLen result out.new }
    ensures out_after { take result out.new ≡ reported message.now }
    ensures out_unchanged { drop result out.new ≡ drop result out.old }
{
    if MESSAGE_LIMIT < message.len() {
        return put_refusal(out, Refusal::TextTooLong);
    }
    if let Err(refusal) = check_message(message) {
        return put_refusal(out, refusal);
    }
    put_report(message, Policy::default(), out)
}
