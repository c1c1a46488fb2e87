// The findings around a stretch of bytes (document 02, ix). One pass over the text (crate text_pass) tests it and counts both lists, and a
// second pass up to the end of the stretch writes them. The text after the stretch is tested for UTF-8 alone. `findings_around` equals
// `list_around` of specs/Around.antt.
ghost use Rattle.std.specs.Prelude.{◌≡◌, ◌&&◌, ◌≤◌, ltb, length};
ghost use Rattle.base.specs.Lists.{filter};
ghost use Rattle.base.specs.Output.{PutAt};
ghost use Rattle.base.specs.Tables.{rows_bytes};
ghost use Rattle.utf8.specs.Rfc3629.{valid_up_to_of};
ghost use Rattle.formatter.specs.Findings.{listed};
ghost use Rattle.formatter.specs.List.{row_numbers};
ghost use Rattle.findings_near.specs.Around.{EndsAround, fill_both, holds, inside, list_around, meets, only_shares, stretch_end};

use crate::ListedAround;
use crate::rows::{SpanPositions, put_row_if, span_positions};
use analysis::types::Finding;
use base::Refusal;
use formatter::intake::first_tests;
use listing::ROW_BYTES;
use positions::TextCount;
use text_pass::findings::{FindingSpan, next_finding};

// How many findings lie inside a stretch, how many only share a byte with it, and the length of the longest well-formed beginning.
#[derive(Clone, Copy)]
struct AroundCount {
    inside: usize,
    sharing: usize,
    valid_up_to: usize,
}

// Where the rows of the two tables end.
#[derive(Clone, Copy)]
struct RowEnds {
    inner: usize,
    outer: usize,
}

// The end of a stretch that is cut at the end of the text.
fn stretch_end(text: &[u8], to: usize) -> usize
    ensures { result ≡ stretch_end text.now to }
{
    to.min(text.len())
}

// Whether the bytes from `start` up to `end` lie wholly inside a stretch.
#[tactic(auto, unfolding(crate::specs::Around::holds))]
fn is_inside(from: usize, to: usize, start: usize, end: usize) -> bool
    ensures { result ≡ holds from to start end }
{
    from < to && from <= start && end <= to
}

// Whether the bytes from `start` up to `end` only share a byte with a stretch.
#[tactic(auto, unfolding(crate::specs::Around::meets))]
fn is_sharing(from: usize, to: usize, start: usize, end: usize) -> bool
    ensures { result ≡ meets from to start end }
{
    from < to && start < to && from < end && !is_inside(from, to, start, end)
}

// Whether a finding is present and starts before the end of the stretch.
fn is_before(present: bool, start: usize, to: usize) -> bool
    ensures { result ≡ present && ltb start to }
{
    present && start < to
}

// Counts the findings of both lists. The first search passes the findings that end before the stretch. The second passes those that lie
// inside, from the first of them on, and stops at the first finding that ends after the stretch. No byte is read twice: the second search
// goes on where the first one ends, and the test for UTF-8 where the second one ends.
fn count_around(text: &[u8], policy: &[u8], from: usize, to: usize) -> AroundCount
    ensures inside { result.inside ≡ length (filter (inside from to) (listed text.now policy.now)) }
    ensures sharing { result.sharing ≡ length (filter (only_shares from to) (listed text.now policy.now)) }
    ensures valid { result.valid_up_to ≡ valid_up_to_of text.now }
{
    let FindingSpan {
        start,
        end,
        counts: _,
        present,
        passed: _,
    } = next_finding(text, policy, from, 0);
    if !is_before(present, start, to) {
        let valid_up_to = utf8_validity::valid_end(text, end);
        return AroundCount {
            inside: 0,
            sharing: 0,
            valid_up_to,
        };
    }
    let FindingSpan {
        start: last_start,
        end: last_end,
        counts: _,
        present: last_present,
        passed,
    } = next_finding(text, policy, to, end);
    let inside = usize::from(is_inside(from, to, start, end)) + passed;
    let first_sharing = usize::from(is_sharing(from, to, start, end));
    let sharing = first_sharing + usize::from(is_before(last_present, last_start, to));
    let valid_up_to = utf8_validity::valid_end(text, last_end);
    AroundCount {
        inside,
        sharing,
        valid_up_to,
    }
}

// Writes the rows of both lists into the tables, which have room for them, and says where they end.
fn put_both(
    text: &[u8],
    policy: &[u8],
    from: usize,
    to: usize,
    inner: &mut [u8],
    outer: &mut [u8],
) -> RowEnds
    requires { (length (rows_bytes row_numbers (filter (inside from to) (listed text.now policy.now))) ≤ length inner.old)
        × (length (rows_bytes row_numbers (filter (only_shares from to) (listed text.now policy.now))) ≤ length outer.old) }
    ensures inside { PutAt inner.old 0
        (rows_bytes row_numbers (filter (inside from to) (listed text.now policy.now)))
        inner.new result.inner }
    ensures sharing { PutAt outer.old 0
        (rows_bytes row_numbers (filter (only_shares from to) (listed text.now policy.now)))
        outer.new result.outer }
{
    let mut at = 0;
    let mut before = TextCount { chars: 0, units: 0 };
    let mut inner_to = 0;
    let mut outer_to = 0;
    loop {
        let FindingSpan {
            start,
            end,
            counts,
            present,
            passed: _,
        } = next_finding(text, policy, 0, at);
        if !is_before(present, start, to) {
            return RowEnds {
                inner: inner_to,
                outer: outer_to,
            };
        }
        let SpanPositions { first, last } = span_positions(text, at, start, end, before);
        let finding = Finding {
            start,
            end,
            counts,
            char_start: first.chars,
            char_end: last.chars,
            unit_start: first.units,
            unit_end: last.units,
        };
        let inside = is_inside(from, to, start, end);
        let sharing = is_sharing(from, to, start, end);
        inner_to = put_row_if(inside, inner, inner_to, finding);
        outer_to = put_row_if(sharing, outer, outer_to, finding);
        at = end;
        before = last;
    }
}

// Fills both tables, if each has a place for each finding of its list. `inner_rows` and `outer_rows` are the numbers of findings.
fn fill_tables(
    text: &[u8],
    policy: &[u8],
    from: usize,
    to: usize,
    inner_rows: usize,
    outer_rows: usize,
    inner: &mut [u8],
    outer: &mut [u8],
) -> Result<ListedAround, Refusal>
    requires { (inner_rows ≡ length (filter (inside from to) (listed text.now policy.now)))
        × (outer_rows ≡ length (filter (only_shares from to) (listed text.now policy.now))) }
    ensures { record { answer = result; inner = inner.new; outer = outer.new }
        ≡ fill_both (filter (inside from to) (listed text.now policy.now))
        (filter (only_shares from to) (listed text.now policy.now)) inner.old outer.old }
{
    if inner.len() / ROW_BYTES < inner_rows {
        return Err(Refusal::TableTooShort {
            findings: inner_rows,
        });
    }
    if outer.len() / ROW_BYTES < outer_rows {
        return Err(Refusal::TableTooShort {
            findings: outer_rows,
        });
    }
    if inner_rows == 0 && outer_rows == 0 {
        return Ok(ListedAround {
            inside: inner_rows,
            sharing: outer_rows,
        });
    }
    put_both(text, policy, from, to, inner, outer);
    Ok(ListedAround {
        inside: inner_rows,
        sharing: outer_rows,
    })
}

// Lists the findings of a text under a policy that lie inside a stretch, and those that only share a byte with it. The stretch is the bytes
// from `from` up to, not including, `to`.
pub fn findings_around(
    text: &[u8],
    policy: &[u8],
    from: usize,
    to: usize,
    inner: &mut [u8],
    outer: &mut [u8],
) -> Result<ListedAround, Refusal>
    ensures { EndsAround (list_around text.now policy.now from to inner.old outer.old) result
        inner.new outer.new }
{
    first_tests(text, policy)?;
    let end = stretch_end(text, to);
    let AroundCount {
        inside,
        sharing,
        valid_up_to,
    } = count_around(text, policy, from, end);
    if valid_up_to != text.len() {
        return Err(Refusal::NotWellFormed { valid_up_to });
    }
    fill_tables(text, policy, from, end, inside, sharing, inner, outer)
}
