// The items of a text: scanner.rs of the crate evfmt; document 01, "Item".
// This crate has the types and the definitions of items, the theorems about them, and the functions that read a character, a run of
// selectors and a run of characters of one kind. The automaton of src/state.rt says where an item ends. The crate item_scanner finds
// items, and the crate item_parts reads their parts. An item has its start and end in bytes, characters and UTF-16 units (document 02,
// v).
// Functions take a text and an offset of it, and return offsets of the whole text. A struct of the two is no plainer: each call would
// make one, and each callee would take it apart. `Scanner` of the crate text_scanner is the one value that keeps both.
#![tactic(auto)]

pub mod char_class;
pub mod char_runs;
pub mod selectors;
pub mod state;
pub mod text_check;

ghost use Rattle.std.specs.Prelude.{◌≡◌, ◌↔◌, true};
ghost use Rattle.scanner.specs.Spans.{kind_number};

// The kind of an item.
#[derive(Clone, Copy, Debug, PartialEq, Eq)]
pub enum ScanKind {
    Passthrough,
    UnsanctionedPresentationSelectors,
    LinksOnly,
    EmojiHeaded,
}

// An item: its bytes from start up to end, its kind, whether its tags are complete, and its start and end in characters and in UTF-16
// units.
#[derive(Clone, Copy, Debug, PartialEq, Eq)]
pub struct ScanItem {
    pub start: usize,
    pub end: usize,
    pub kind: ScanKind,
    pub tags_complete: bool,
    pub char_start: usize,
    pub char_end: usize,
    pub unit_start: usize,
    pub unit_end: usize,
}

// The number of a kind.
#[tactic(auto, unfolding(crate::specs::Spans::kind_number))]
pub fn kind_number(kind: ScanKind) -> usize
    ensures { result ≡ kind_number kind }
{
    kind as usize
}

impl ScanItem {
    // Whether two items are equal.
    pub fn eq(self, rhs: Self) -> bool
        ensures { (result ≡ true) ↔ (self ≡ rhs) }
    {
        self == rhs
    }
}
