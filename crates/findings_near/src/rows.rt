// The next finding of a text with its positions, and the row of a finding in a table. Characters and units are counted on from the end of
// the finding before, so that each byte is counted once.
ghost use Rattle.std.specs.Prelude.{◌≡◌, true, cond, [], ◌+◌, ◌≤◌, length};
ghost use Rattle.base.specs.Output.{PutAt};
ghost use Rattle.base.specs.Words.{bytes_of};
ghost use Rattle.policy.specs.PolicyBytes.{policy_of};
ghost use Rattle.positions.specs.Positions.{AtPosition, capped_plus, count_between};
ghost use Rattle.formatter.specs.List.{row_bytes, row_numbers};
ghost use Rattle.findings_near.specs.Helpers.{GivesRow};

use analysis::types::Finding;
use listing::{ROW_BYTES, row_numbers};
use positions::{TextCount, add_counts, count_between};
use text_pass::findings::{FindingSpan, next_finding};

// The next finding, or the end of the longest well-formed beginning if there is none.
#[derive(Clone, Copy)]
pub(crate) enum NextRow {
    Found(Finding),
    End { valid_up_to: usize },
}

// The positions of a finding's start and of its end.
#[derive(Clone, Copy)]
pub(crate) struct SpanPositions {
    pub(crate) first: TextCount,
    pub(crate) last: TextCount,
}

// The positions of a finding's start and of its end, counted on from the position `before` of the offset `at`.
pub(crate) fn span_positions(
    text: &[u8],
    at: usize,
    start: usize,
    end: usize,
    before: TextCount,
) -> SpanPositions
    ensures first { result.first ≡ capped_plus before (count_between text.now at start) }
    ensures last { result.last ≡ capped_plus result.first (count_between text.now start end) }
{
    let first = add_counts(before, count_between(text, at, start));
    let last = add_counts(first, count_between(text, start, end));
    SpanPositions { first, last }
}

// Finds the next finding from an offset on, with its positions. `before` is the position of the offset.
pub(crate) fn next_row(text: &[u8], policy: &[u8], at: usize, before: TextCount) -> NextRow
    requires { AtPosition text.now at before }
    ensures { GivesRow (policy_of policy.now) text.now at result }
{
    let FindingSpan {
        start,
        end,
        counts,
        present,
        passed: _,
    } = next_finding(text, policy, 0, at);
    if !present {
        return NextRow::End { valid_up_to: start };
    }
    let SpanPositions { first, last } = span_positions(text, at, start, end, before);
    NextRow::Found(Finding {
        start,
        end,
        counts,
        char_start: first.chars,
        char_end: last.chars,
        unit_start: first.units,
        unit_end: last.units,
    })
}

// Puts the row of a finding into the table if it is wanted, and returns where it ends. The table has room for it then.
pub(crate) fn put_row_if(wanted: bool, table: &mut [u8], to: usize, finding: Finding) -> usize
    requires { wanted ≡ true → to + row_bytes ≤ length table.old }
    ensures { PutAt table.old to (cond wanted (bytes_of (row_numbers finding)) []) table.new result }
{
    if !wanted {
        return to;
    }
    let numbers = row_numbers(finding);
    base::write_numbers(table, to, &numbers);
    to + ROW_BYTES
}
