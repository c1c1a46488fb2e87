// A feed in lent bytes: a thread that is formatted as it arrives (document 02, iii). The Rust crate formats whole texts and has no such
// type. This crate has the types of the state and the functions that test, read and write it: `is_feed` equals the definition of its
// name, `read_state` equals `state_of`, and `write_state` writes the bytes of `state_words` (specs/Bytes.antt). The calls are in crate
// feeding.
#![tactic(auto)]

ghost use Rattle.std.specs.Prelude.{true, ◌≡◌, ◌%◌, ◌<◌, ◌≤◌, length};
ghost use Rattle.base.specs.Sums.{one_if};
ghost use Rattle.base.specs.Output.{WritesAt};
ghost use Rattle.base.specs.Words.{bytes_of, little_endian, word_at};
ghost use Rattle.utf8.specs.Subparts.{unfinished};
ghost use Rattle.analysis.specs.Rules.{selector_number};
ghost use Rattle.feed.specs.Bytes.{counts_of, held_of, is_feed, selector_of, small_to};
ghost use Rattle.feed.specs.Bytes.{state_bytes, state_of, state_words};

use analysis::types::NonCanonicality;
use base::{Refusal, TEXT_LIMIT};
use emoji::presentation::Presentation;

// The held base, or 0 if none is held, its first selector, and the number of its selectors.
#[derive(Clone, Copy, Debug, PartialEq, Eq)]
pub struct Held {
    pub base: u32,
    pub first: Option<Presentation>,
    pub count: usize,
}

// The words of a feed. The unfinished bytes are a number, lowest byte first.
#[derive(Clone, Copy, Debug, PartialEq, Eq)]
pub struct State {
    pub ended: bool,
    pub held: Held,
    pub rest_len: usize,
    pub rest: usize,
    pub len: usize,
    pub counts: NonCanonicality,
}

// The number of words of the state, and of their bytes. The bytes of the policy follow them.
pub const STATE_WORDS: usize = 15;

pub const STATE_BYTES: usize = 120;

pub const FEED_BYTES: usize = 320;

// Returns a word of a feed.
fn word(feed: &[u8], k: usize) -> usize
    requires { k < 15 }
    ensures { result ≡ word_at k feed.now }
{
    base::read_word(feed, 8 * k) as usize
}

// Returns the low half of a word.
fn low(w: usize) -> u32
    ensures { result ≡ w % 4294967296 }
{
    (w % 4_294_967_296) as u32
}

// Returns the first selector that a word encodes.
fn selector_of(w: usize) -> Option<Presentation>
    ensures { result ≡ selector_of w }
{
    match w {
        0 => None,
        1 => Some(Presentation::Text),
        _ => Some(Presentation::Emoji),
    }
}

// Reads the held base.
fn read_held(feed: &[u8]) -> Held
    ensures { result ≡ held_of feed.now }
{
    let base = low(word(feed, 1));
    let first = selector_of(word(feed, 2));
    let count = word(feed, 3);
    Held { base, first, count }
}

// Reads the totals.
fn read_counts(feed: &[u8]) -> NonCanonicality
    ensures { result ≡ counts_of feed.now }
{
    NonCanonicality {
        unsanctioned_selectors: word(feed, 7),
        modifier_defective_selectors: word(feed, 8),
        additional_defective_selectors: word(feed, 9),
        tag_conflicting_selectors: word(feed, 10),
        tag_forced_presentations: word(feed, 11),
        tag_redundant_selectors: word(feed, 12),
        policy_redundant_selectors: word(feed, 13),
        presentation_decisions: word(feed, 14),
    }
}

// Returns the state of a feed that has ended, with nothing in it.
fn no_state() -> State
    ensures { result.ended ≡ true }
{
    let held = Held {
        base: 0,
        first: None,
        count: 0,
    };
    let counts = NonCanonicality::empty();
    State {
        ended: true,
        held,
        rest_len: 0,
        rest: 0,
        len: 0,
        counts,
    }
}

// Returns the state that the words of a feed have. For bytes that are too short, it returns a state that has ended; its
// other fields are then the program's choice. The length is tested here, so that the compiler knows it wherever a word is read.
pub fn read_state(feed: &[u8]) -> State
    ensures words { state_bytes ≤ length feed.now → result ≡ state_of feed.now }
    ensures short { length feed.now < state_bytes → result.ended ≡ true }
{
    if feed.len() < STATE_BYTES {
        return no_state();
    }
    let ended = word(feed, 0) != 0;
    let held = read_held(feed);
    let rest_len = word(feed, 4);
    let rest = word(feed, 5);
    let len = word(feed, 6);
    let counts = read_counts(feed);
    State {
        ended,
        held,
        rest_len,
        rest,
        len,
        counts,
    }
}

// Tests whether no word of the state is above the length limit.
fn is_small(feed: &[u8]) -> bool
    ensures { result ≡ small_to 15 feed.now }
{
    let mut k: usize = STATE_WORDS;
    while 0 < k {
        k -= 1;
        if TEXT_LIMIT < word(feed, k) {
            return false;
        }
    }
    true
}

// Returns the lowest byte of a number.
pub fn low_byte(x: usize) -> u8
    ensures { result ≡ x % 256 }
{
    (x % 256) as u8
}

// Tests whether the n lowest bytes of a number, lowest byte first, are an unfinished character or no bytes at all.
pub fn is_unfinished(n: usize, rest: usize) -> bool
    ensures { result ≡ unfinished (little_endian n rest) }
{
    if n == 0 {
        return true;
    }
    let a = low_byte(rest);
    if n == 1 {
        return utf8::in_range(0xC2, 0xF4, a);
    }
    let b = low_byte(rest / 256);
    if n == 2 {
        return utf8::second_fits(a, b);
    }
    if 3 < n {
        return false;
    }
    let third = low_byte(rest / 256 / 256);
    if !utf8::second_fits(a, b) {
        return false;
    }
    if a < 0xF0 {
        return false;
    }
    utf8::in_range(0x80, 0xBF, third)
}

// Tests whether bytes are a feed.
pub fn is_feed(feed: &[u8]) -> bool
    ensures { result ≡ is_feed feed.now }
{
    if feed.len() != FEED_BYTES {
        return false;
    }
    if !is_small(feed) {
        return false;
    }
    if !utf8::is_scalar(low(word(feed, 1))) {
        return false;
    }
    if !is_unfinished(word(feed, 4), word(feed, 5)) {
        return false;
    }
    policy::policy_bytes::is_policy(&feed[STATE_BYTES..])
}

// Returns 1 for a feed that has ended, and 0 for one that goes on.
fn ended_word(ended: bool) -> usize
    ensures { result ≡ one_if ended }
{
    usize::from(ended)
}

// Returns the word of a first selector.
fn selector_word(first: Option<Presentation>) -> usize
    ensures { result ≡ selector_number first }
{
    match first {
        None => 0,
        Some(Presentation::Text) => 1,
        Some(Presentation::Emoji) => 2,
    }
}

// Returns the words of a state.
fn state_words(state: State) -> [usize; STATE_WORDS]
    ensures { result ≡ state_words state }
{
    let State { held, counts, .. } = state;
    [
        ended_word(state.ended),
        held.base as usize,
        selector_word(held.first),
        held.count,
        state.rest_len,
        state.rest,
        state.len,
        counts.unsanctioned_selectors,
        counts.modifier_defective_selectors,
        counts.additional_defective_selectors,
        counts.tag_conflicting_selectors,
        counts.tag_forced_presentations,
        counts.tag_redundant_selectors,
        counts.policy_redundant_selectors,
        counts.presentation_decisions,
    ]
}

// Writes the words of a state at the front and returns true. Without room for them it returns false and changes nothing.
pub fn write_state(feed: &mut [u8], state: State) -> bool
    ensures { WritesAt (bytes_of (state_words state)) feed.old 0 result feed.new }
{
    let words = state_words(state);
    base::write_numbers(feed, 0, &words)
}
