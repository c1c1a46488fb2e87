// Counts, findings and replacements of items under a policy: the definitions, their laws, the types and the six rules. They come
// from analysis.rs and types.rs of the crate evfmt; document 01, "Counts and finding", "Replacement and text". The crate replacing
// has the functions that read an item from a text.
#![tactic(auto)]

pub mod singleton;
pub mod types;

use types::Finding;

// The analysis of an item under a policy. The item is canonical, with its end in bytes, characters and UTF-16 units; or it is a finding;
// or the text has ended.
#[derive(Clone, Copy, Debug, PartialEq, Eq)]
pub enum ItemAnalysis {
    End,
    Canonical {
        end: usize,
        char_end: usize,
        unit_end: usize,
    },
    NonCanonical(Finding),
}
