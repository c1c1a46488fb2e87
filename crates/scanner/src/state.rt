// The automaton of items. A state says where in an item a character stands; `transition` gives the next state if the item goes on.
// It is the loops of scanner.rs of the crate evfmt as one table; document 01, "Item". The table is a word for each state, so no jump
// depends on the class of a character.
// `start_state`, `transition`, `begins_tags` and `kind_of` equal `start_state`, `transition`, `begins_tags` and `kind_of` of
// specs/Items.antt for every state and class.
ghost use Rattle.std.specs.Prelude.{◌≡◌, ◌/◌, ◌%◌, ◌^◌, ◌≤◌};
ghost use Rattle.scanner.specs.Classes.{Class as ClassValue};
ghost use Rattle.scanner.specs.Items.{start_state, begins_tags, kind_of, next_of, transition};
ghost use Rattle.scanner.specs.Rows.{class_place, numbered, state_of};

use crate::ScanKind;
use crate::char_class::Class;

#[derive(Clone, Copy, Debug, PartialEq, Eq)]
pub enum State {
    // in passthrough
    Plain,
    // in a run of selectors
    Selectors,
    // in a run of links
    Links,
    // in a unit whose stem is one RI so far
    OneRi,
    // in a unit whose stem is complete
    Unit,
    // after a unit and one link
    Joined,
    // after a unit and two or more links
    LeftOver,
}

// Where the number for a class begins in a row of the automaton, in bits.
fn class_place(k: Class) -> u32
    ensures { (result ≡ class_place k) × (result ≤ 28) }
{
    4 * k as u32
}

// The state that has a number.
#[tactic(auto, unfolding(crate::specs::Rows::state_of))]
fn state_of(n: u32) -> State
    ensures { result ≡ state_of n }
{
    match n {
        0 => State::Plain,
        1 => State::Selectors,
        2 => State::Links,
        3 => State::OneRi,
        4 => State::Unit,
        5 => State::Joined,
        _ => State::LeftOver,
    }
}

// The row of a state: the number of the next state for each class, or 7 where the item ends. The class of selectors has the lowest bits.
fn row_of(p: State) -> u32
    ensures { (k : ClassValue) → numbered (result / 2 ^ class_place k % 8) ≡ next_of (transition p k) }
{
    match p {
        State::Plain => 0x0007_7777,
        State::Selectors => 0x7777_7771,
        State::Links => 0x7777_7722,
        State::OneRi => 0x7447_4453,
        State::Unit => 0x7447_4754,
        State::Joined => 0x7774_4365,
        State::LeftOver => 0x7777_7766,
    }
}

// The state after the first character of an item.
#[tactic(auto, unfolding(crate::specs::Items::start_state))]
pub fn start_state(k: Class) -> State
    ensures { result ≡ start_state k }
{
    match k {
        Class::Selector => State::Selectors,
        Class::Link => State::Links,
        Class::Ri => State::OneRi,
        Class::Modifier | Class::Emoji => State::Unit,
        Class::Keycap | Class::Tag | Class::Other => State::Plain,
    }
}

// The same by a row, without a jump that depends on the class. It is faster where items of many kinds follow each other. Where the
// caller matches on the state at once, the match above is: its arms become the caller's.
pub fn start_state_by_row(k: Class) -> State
    ensures { result ≡ start_state k }
{
    state_of((0x0004_4321 >> class_place(k)) % 8)
}

// The state after a character of the class, if the item goes on with it.
pub fn transition(p: State, k: Class) -> Option<State>
    ensures { result ≡ next_of (transition p k) }
{
    match (row_of(p) >> class_place(k)) % 8 {
        7 => None,
        n => Some(state_of(n)),
    }
}

// Whether a tag modification begins with a character of class k that leads to state p.
#[tactic(auto, unfolding(crate::specs::Items::begins_tags))]
pub fn begins_tags(p: State, k: Class) -> bool
    ensures { result ≡ begins_tags p k }
{
    matches!((p, k), (State::Unit, Class::Tag))
}

// The kind of an item, by the state after any of its characters.
#[tactic(auto, unfolding(crate::specs::Items::kind_of))]
pub fn kind_of(p: State) -> ScanKind
    ensures { result ≡ kind_of p }
{
    match p {
        State::Plain => ScanKind::Passthrough,
        State::Selectors => ScanKind::UnsanctionedPresentationSelectors,
        State::Links => ScanKind::LinksOnly,
        State::OneRi | State::Unit | State::Joined | State::LeftOver => ScanKind::EmojiHeaded,
    }
}
