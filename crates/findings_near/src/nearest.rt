// The finding nearest to an offset (document 02, ix). One pass from finding to finding (crate text_pass) keeps the nearest finding so far.
// `nearest_finding` equals `give_nearest` of specs/Nearest.antt.
ghost use Rattle.std.specs.Prelude.{◌≡◌, true, ◌++◌, ◌∷◌, [], ◌<◌, ◌≤◌, length};
ghost use Rattle.base.specs.Answers.{EndsAs, optional_row};
ghost use Rattle.base.specs.Output.{PutAt};
ghost use Rattle.base.specs.Words.{bytes_of};
ghost use Rattle.utf8.specs.Rfc3629.{valid_up_to_of};
ghost use Rattle.formatter.specs.Findings.{listed};
ghost use Rattle.formatter.specs.List.{row_numbers};
ghost use Rattle.findings_near.specs.Helpers.{HasByte, closer};
ghost use Rattle.findings_near.specs.Nearest.{distance, give_nearest, nearest, nearest_bytes, write_nearest};

use crate::rows::{NextRow, next_row, put_row_if};
use analysis::types::Finding;
use base::{Refusal, WORD_BYTES};
use formatter::intake::first_tests;
use listing::ROW_BYTES;
use positions::TextCount;

// The bytes of a finding's row and of the distance.
const NEAREST_BYTES: usize = ROW_BYTES + WORD_BYTES;

// The nearest finding, if one was found, and the length of the longest well-formed beginning.
#[derive(Clone, Copy)]
struct Nearby {
    finding: Option<Finding>,
    valid_up_to: usize,
}

// The distance of an offset from a finding, which has a byte.
fn distance_to(offset: usize, finding: Finding) -> usize
    requires { finding.start < finding.end }
    ensures { result ≡ distance offset finding }
{
    if offset < finding.start {
        return finding.start - offset;
    }
    if finding.end <= offset {
        return offset - (finding.end - 1);
    }
    0
}

// The nearer of a finding and the best of those before it, if there is one.
fn closer_of(offset: usize, best: Option<Finding>, finding: Finding) -> Finding
    requires { HasByte best × (finding.start < finding.end) }
    ensures { result ≡ closer offset best finding }
{
    let Some(best) = best else {
        return finding;
    };
    let old = distance_to(offset, best);
    let new = distance_to(offset, finding);
    if old <= new { best } else { finding }
}

// Finds the finding that is nearest to an offset.
fn nearest_in(text: &[u8], policy: &[u8], offset: usize) -> Nearby
    ensures nearest { result.finding ≡ nearest offset (listed text.now policy.now) }
    ensures valid { result.valid_up_to ≡ valid_up_to_of text.now }
    ensures some { HasByte result.finding }
{
    let mut best = None;
    let mut at = 0;
    let mut before = TextCount { chars: 0, units: 0 };
    loop {
        match next_row(text, policy, at, before) {
            NextRow::Found(finding) => {
                best = Some(closer_of(offset, best, finding));
                at = finding.end;
                before = TextCount {
                    chars: finding.char_end,
                    units: finding.unit_end,
                };
            }
            NextRow::End { valid_up_to } => {
                return Nearby {
                    finding: best,
                    valid_up_to,
                };
            }
        }
    }
}

// Puts the row of a finding and its distance into a buffer that has room for them.
fn put_nearest(row: &mut [u8], finding: Finding, distance: usize) -> usize
    requires { nearest_bytes ≤ length row.old }
    ensures { PutAt row.old 0 (bytes_of (row_numbers finding ++ (distance ∷ []))) row.new result }
{
    let to = put_row_if(true, row, 0, finding);
    let last = [distance];
    base::write_numbers(row, to, &last);
    to + WORD_BYTES
}

// Writes the finding that was found, if there is one.
fn write_found(
    offset: usize,
    found: Option<Finding>,
    row: &mut [u8],
) -> Result<Option<usize>, Refusal>
    requires { HasByte found }
    ensures { record { answer = result; buffer = row.new } ≡ write_nearest offset found row.old }
{
    let Some(finding) = found else {
        return Ok(None);
    };
    if row.len() < NEAREST_BYTES {
        return Err(Refusal::TableTooShort { findings: 1 });
    }
    let distance = distance_to(offset, finding);
    put_nearest(row, finding, distance);
    Ok(Some(1))
}

// Writes the finding of a text under a policy that is nearest to an offset, and its distance.
pub fn nearest_finding(
    text: &[u8],
    policy: &[u8],
    offset: usize,
    row: &mut [u8],
) -> Result<Option<usize>, Refusal>
    ensures { EndsAs optional_row (give_nearest text.now policy.now offset row.old) result
        row.new }
{
    first_tests(text, policy)?;
    let Nearby {
        finding,
        valid_up_to,
    } = nearest_in(text, policy, offset);
    if valid_up_to != text.len() {
        return Err(Refusal::NotWellFormed { valid_up_to });
    }
    write_found(offset, finding, row)
}
