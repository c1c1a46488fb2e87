// The cells of a slice, one after the other (document 01, "Counts and finding"). A cell is a character that is no selector and the
// selectors after it; of the next cell, only the class of its character matters. Each cell is read once.
// This pass serves the analysis of an item, mending and the report. Listing sums up the same outcomes in its own pass (crate
// text_pass).
// `measure_cells` equals `total_cells` and the length of `format_cells` of crate analysis, specs/CellView.antt.
ghost use Rattle.std.specs.Prelude.{◌≡◌, ◌+◌, ◌*◌, drop, length};
ghost use Rattle.base.specs.Sums.{capped};
ghost use Rattle.utf8.specs.Rfc3629.{chars};
ghost use Rattle.scanner.specs.Spans.{size, width};
ghost use Rattle.analysis.specs.Analysis.{following};
ghost use Rattle.analysis.specs.Helpers.{slot_length};
ghost use Rattle.analysis.specs.CellView.{format_cells, total_cells};
ghost use Rattle.analysis.specs.Cells.{cells, leading};
ghost use Rattle.analysis.specs.Rules.{outcome};

use analysis::singleton::{Outcome, Slot, analyze_singleton_base_selectors, class_at};
use analysis::types::NonCanonicality;
use base::add_count;
use policy::Policy;
use scanner::char_class::Class;
use scanner::selectors::{
    PresentationSelectors, SELECTOR_BYTES, consume_presentation_selectors, selectors_end,
};

// The result of the rules for a cell, and the offset of the cell's end.
#[derive(Clone, Copy, Debug, PartialEq, Eq)]
pub struct CellOutcome {
    pub outcome: Outcome,
    pub end: usize,
}

// The result of the rules for a cell. Its character is `base`, and its selectors begin at the offset.
pub fn cell_outcome(text: &[u8], at: usize, base: u32, policy: Policy) -> CellOutcome
    ensures outcome { result.outcome ≡ outcome policy base (following (cells (chars (drop at text.now))))
        (leading (chars (drop at text.now))) }
    ensures end { result.end ≡ at + 3 * length (leading (chars (drop at text.now))) }
{
    let PresentationSelectors {
        first,
        count,
        end,
        ..
    } = consume_presentation_selectors(text, at);
    let next = class_at(text, end);
    let outcome = analyze_singleton_base_selectors(base, next, first, count, policy);
    CellOutcome { outcome, end }
}

// The counts of a slice, and the number of bytes of its renewed cells, which is the same under all decisions.
#[derive(Clone, Copy, Debug, PartialEq, Eq)]
pub struct Measure {
    pub counts: NonCanonicality,
    pub len: usize,
}

// The number of bytes of the selector that a slot holds; 0 if it holds none.
fn slot_len(slot: Slot) -> usize
    ensures { result ≡ slot_length slot }
{
    match slot {
        Slot::Bare => 0,
        Slot::Fixed(_) | Slot::Decided(_) => SELECTOR_BYTES,
    }
}

// Counts and measures a slice: its cells, and the selectors before the first cell, which are unsanctioned. For a character without
// a variation entry (rule 1) the character after its selectors does not matter.
pub fn measure_cells(text: &[u8], policy: Policy) -> Measure
    ensures counts { result.counts ≡ total_cells policy (chars text.now) }
    ensures len { result.len ≡ capped (size width (format_cells policy (chars text.now))) }
{
    let PresentationSelectors { count, end, .. } = consume_presentation_selectors(text, 0);
    let mut counts = NonCanonicality::unsanctioned(count);
    let mut len = 0;
    let mut at = end;
    loop {
        let packed = utf8::decode(text, at);
        if packed == 0 {
            return Measure { counts, len };
        }
        let width = (packed % 8) as usize;
        let after = at + width;
        if emoji::has_variation_sequence_by_block(packed / 8) {
            let CellOutcome { outcome, end } = cell_outcome(text, after, packed / 8, policy);
            counts = counts.add(outcome.counts);
            len = add_count(len, width + slot_len(outcome.slot));
            at = end;
        } else {
            let end = selectors_end(text, after);
            counts = counts.add(NonCanonicality::unsanctioned((end - after) / SELECTOR_BYTES));
            len = add_count(len, width);
            at = end;
        }
    }
}
