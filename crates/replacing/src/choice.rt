// The choices of an item, one for each decision: `ReplacementChoice` of types.rs of the crate evfmt; document 01, "Counts and
// finding". The Rust has a `Vec` of choices; here a cursor reads them from the item's bytes.
// `next_choice` equals `choice_at`, and `choice_replacement` equals `replace_unit` of crate analysis, specs/ChoicesAt.antt, for every
// slice.
ghost use Rattle.std.specs.Prelude.{◌≡◌, ◌+◌};
ghost use Rattle.base.specs.Answers.{EndsAs, answer_row};
ghost use Rattle.analysis.specs.Analysis.{up_to_link};
ghost use Rattle.analysis.specs.ChoicesAt.{cells_length, cells_from, cells_start, choice_at, front_unit, replace_unit};

use crate::measure::{CellOutcome, cell_outcome};
use crate::render::write_cells;
use analysis::singleton::Slot;
use analysis::types::ReplacementChoice;
use base::{Refusal, TEXT_LIMIT};
use emoji::presentation::Presentation;
use policy::Policy;
use scanner::char_class::{Class, peek};
use scanner::char_runs::{RunKind, run_end};

// The offset of the next link at or after an offset, or the end of the text.
fn end_before_link(raw: &[u8], at: usize) -> usize
    ensures { result ≡ cells_start raw.now at + cells_length (up_to_link (cells_from raw.now at)) }
{
    let mut end = at;
    while let Some(seen) = peek(raw, end) {
        if let Class::Link = seen.class {
            return end;
        }
        end = seen.end;
    }
    end
}

// The first choice of an item's bytes from an offset on.
pub fn next_choice(raw: &[u8], at: usize, policy: Policy) -> Option<ReplacementChoice>
    ensures { result ≡ choice_at policy raw.now at }
{
    let mut start = at;
    while let Some(seen) = peek(raw, start) {
        if let Class::Selector = seen.class {
            start = seen.end;
            continue;
        }
        let CellOutcome { outcome, end } = cell_outcome(raw, seen.end, seen.value, policy);
        if let Slot::Decided(default) = outcome.slot {
            return Some(ReplacementChoice {
                start,
                end: end_before_link(raw, end),
                next: end,
                default,
            });
        }
        start = end;
    }
    None
}

// The end of the unit at an offset. Its base is the first character that is no selector; the unit ends at the next link after that.
fn unit_end(raw: &[u8], at: usize) -> usize
    ensures { result ≡ cells_start raw.now at + cells_length (front_unit (cells_from raw.now at)) }
{
    let start = run_end(raw, at, RunKind::Selectors);
    match peek(raw, start) {
        Some(seen) => end_before_link(raw, seen.end),
        None => start,
    }
}

// Writes the unit at an offset of an item's bytes under a decision: one of a choice's two replacements.
pub fn choice_replacement(
    raw: &[u8],
    at: usize,
    policy: Policy,
    decision: Presentation,
    out: &mut [u8],
) -> Result<usize, Refusal>
    ensures { EndsAs answer_row (replace_unit policy raw.now at decision out.old) result out.new }
{
    if TEXT_LIMIT < raw.len() {
        return Err(Refusal::TextTooLong);
    }
    if raw.len() <= at {
        return Ok(0);
    }
    let end = unit_end(raw, at);
    write_cells(&raw[at..end], policy, &[decision as u8], out)
}
