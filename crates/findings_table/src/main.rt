// Compares two ways of listing findings. For each line of standard input it lists the findings under the default policy
// into a table of structs and into a table of bytes, and compares the two tables place by place. It writes the number
// of lines, of findings, of refusals, and of lines for which the two tables differ.
#![tactic(auto)]

use analysis::types::Finding;
use base::{Refusal, WORD_BYTES};
use listing::table::{FEW, FewFindings, list_few};
use listing::{ROW_BYTES, list_findings, row_numbers};
use message_io::{Ending, Message};
use policy::POLICY_BYTES;
use std::fmt::Write;
use std::{fmt, io};
use tilghorz::answer_word::answer_word;

// The length of the longest input. The buffer is one byte longer, so that the program notices a longer input.
const INPUT_LIMIT: usize = 12_288;

const INPUT_ROOM: usize = INPUT_LIMIT + 1;

// The number of bytes of a table of `FEW` rows.
const TABLE_BYTES: usize = FEW * ROW_BYTES;

// The counts for the lines so far.
#[derive(Clone, Copy, Debug, Default, PartialEq, Eq)]
struct Seen {
    lines: usize,
    findings: usize,
    refused: usize,
    different: usize,
}

impl Seen {
    // Adds a line: its answer, and whether the two tables were equal.
    fn add_line(&mut self, answer: Result<usize, Refusal>, is_same: bool) {
        self.lines = self.lines.saturating_add(1);
        match answer {
            Ok(findings) => self.findings = self.findings.saturating_add(findings),
            Err(_) => self.refused = self.refused.saturating_add(1),
        }
        if !is_same {
            self.different = self.different.saturating_add(1);
        }
    }
}

impl fmt::Display for Seen {
    fn fmt<W: Write>(&self, f: &mut fmt::Formatter<W>) -> fmt::Result {
        let Seen {
            lines,
            findings,
            refused,
            different,
        } = *self;
        write!(
            f,
            "{lines} lines, {findings} findings, {refused} refused, {different} different"
        )
    }
}

// Tests whether the bytes are the row of a finding.
fn is_row(finding: Finding, row: &[u8]) -> bool {
    let (words, _) = row.as_chunks::<WORD_BYTES>();
    words
        .iter()
        .map(|word| u64::from_le_bytes(*word))
        .eq(row_numbers(finding).iter().map(|number| *number as u64))
}

// Tests whether the two tables are equal in every place, also in the places after the findings.
fn same_tables(findings: &[Finding; FEW], bytes: &[u8; TABLE_BYTES]) -> bool {
    findings
        .iter()
        .zip(bytes.chunks_exact(ROW_BYTES))
        .all(|(finding, row)| is_row(*finding, row))
}

// Lists the findings of a line both ways, and adds it to the counts.
fn list_line(line: &[u8], policy: &[u8], seen: &mut Seen) {
    let FewFindings { answer, findings } = list_few(line, policy);
    let mut bytes = [0u8; TABLE_BYTES];
    let listed = list_findings(line, policy, &mut bytes);
    let is_same = answer_word(answer) == answer_word(listed) && same_tables(&findings, &bytes);
    seen.add_line(answer, is_same);
}

// Lists the findings of each line of a message.
fn list_lines(message: &[u8], policy: &[u8]) -> Seen {
    let mut seen = Seen::default();
    for line in message.split_inclusive(|b| *b == b'\n') {
        list_line(line.strip_suffix(b"\n").unwrap_or(line), policy, &mut seen);
    }
    seen
}

// Lists the findings of each line under the default policy, and writes the counts.
fn list_message(rt: &impl Print, message: &[u8]) -> io::Result<()> {
    let mut policy = [0u8; POLICY_BYTES];
    message_io::put_default_policy(&mut policy);
    println!(rt; "{}", list_lines(message, &policy))
}

fn main(rt: HostRuntime) -> io::Result<()> {
    let mut buf = [0u8; INPUT_ROOM];
    let Message { ending, len } = message_io::read_message(&mut rt.stdin(), &mut buf);
    match ending {
        Ending::Whole => list_message(&rt, &buf[..len]),
        Ending::TooLong => eprintln!(rt; "more than 12,288 bytes"),
        Ending::Failed => Err(io::Error::other("standard input")),
    }
}
