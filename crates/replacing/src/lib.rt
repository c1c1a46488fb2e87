// Counts, findings and replacements of the items of a text under a policy: the functions of analysis.rs and render.rs of the crate
// evfmt; document 01, "Counts and finding", "Replacement and text". The crate analysis has the definitions, the types and the six
// rules.
// The functions read the item from the text itself. They take no item from the caller, so that no field of one must be trusted.
// `analyze_scan_item` equals `analysis_at` of crate analysis, specs/ItemAt.antt.
#![tactic(auto)]

pub mod choice;
pub mod decisions;
pub mod measure;
pub mod render;

ghost use Rattle.std.specs.Prelude.{◌≡◌};
ghost use Rattle.analysis.specs.ItemAt.{analysis_at};

use analysis::ItemAnalysis;
use analysis::types::Finding;
use measure::measure_cells;
use policy::Policy;
use positions::TextCount;
use scanner::ScanKind;

// The analysis of the item of a text at an offset under a policy. `before` is the count of the text before the offset.
pub fn analyze_scan_item(text: &[u8], at: usize, before: TextCount, policy: Policy) -> ItemAnalysis
    ensures { result ≡ analysis_at policy text.now at before }
{
    let Some(item) = item_scanner::next_item(text, at, before) else {
        return ItemAnalysis::End;
    };
    let canonical = ItemAnalysis::Canonical {
        end: item.end,
        char_end: item.char_end,
        unit_end: item.unit_end,
    };
    if let ScanKind::Passthrough = item.kind {
        return canonical;
    }
    let counts = measure_cells(&text[at..item.end], policy).counts;
    if counts.is_empty() {
        return canonical;
    }
    ItemAnalysis::NonCanonical(Finding {
        start: at,
        end: item.end,
        counts,
        char_start: before.chars,
        char_end: item.char_end,
        unit_start: before.units,
        unit_end: item.unit_end,
    })
}
