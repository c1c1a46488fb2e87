// The calls of a feed: document 02, (iii). A feed is lent bytes (crate feed). `begin` equals `begun`, `piece` and `end` equal `called`, and
// `totals` writes the eight counts of `totals_of` (crate feed, specs/Bytes.antt), each for any bytes.
// A piece goes through formatting's own passes, part by part (`take_all`): the character that it completes, its first selectors, the
// characters that are formatted by themselves, and the last base, which is held. The definition takes the characters one after the other
// (`take_chars` of crate feed, specs/Feed.antt).
#![tactic(auto)]

mod ascii;
pub mod later;
mod middle;
mod scan;
mod tail;

ghost use Rattle.std.specs.Prelude.{◌≡◌, true, List, [], ◌∷◌, ◌++◌, map, ℕ, ◌+◌, ◌*◌, ◌-◌, ◌/◌, ◌≤◌, ◌<◌, drop, get_or, length, take};
ghost use Rattle.base.specs.Answers.{EndsAs, answer_row};
ghost use Rattle.base.specs.Output.{PutAt, Wrote};
ghost use Rattle.base.specs.Words.{bytes_of, little_endian};
ghost use Rattle.base.specs.Refusals.{text_limit};
ghost use Rattle.utf8.specs.Rfc3629.{chars, encode, encode_all, is_scalar, packed, read_char, valid_up_to_of};
ghost use Rattle.emoji.specs.Presentation.{as_selector, from_selector};
ghost use Rattle.policy.specs.PolicyBytes.{policy_of};
ghost use Rattle.policy.specs.declared.Policy.{Policy as GivenPolicy};
ghost use Rattle.scanner.specs.SelectorRun.{first_selector};
ghost use Rattle.analysis.specs.Analysis.{chosen};
ghost use Rattle.analysis.specs.Rules.{run_with};
ghost use Rattle.analysis.specs.Counts.{total};
ghost use Rattle.analysis.specs.CellView.{total_cells};
ghost use Rattle.formatter.specs.List.{count_numbers};
ghost use Rattle.feed.specs.Bytes.{EndsCalled, begun, called, held_for, pending_of, state_for, state_words, totals_of};
ghost use Rattle.feed.specs.Calls as Calls;
ghost use Rattle.feed.specs.Feed.{fed_as, settle, take_chars};
ghost use Rattle.feed.specs.Feed as Feed;
ghost use Rattle.feeding.specs.Copied.{CopiesAscii};
ghost use Rattle.feeding.specs.Helpers.{LeftAt, TakenBy, ended_state, open_state};
ghost use Rattle.feeding.specs.Parts.{FrontTaken, ScanFits, char_of, scanned_chars};

use analysis::singleton::{Slot, analyze_by_policy_bytes};
use analysis::types::NonCanonicality;
use ascii::{base_word, copies_ascii, is_copied_piece, last_held, len_word, put_ascii, put_words};
use base::{Refusal, TEXT_LIMIT};
use emoji::presentation::Presentation;
use feed::{
    FEED_BYTES, Held, STATE_BYTES, State, is_feed, is_unfinished, low_byte, read_state, write_state,
};
use middle::put_middle;
use policy::policy_bytes::{is_policy, policy_refusal};
use scan::{PieceScan, scan_piece};
use scanner::char_class::{Class, class_of};
use scanner::selectors::{SELECTOR_BYTES, selector_at};
use tail::find_tail;

// What every piece has room for besides 4 bytes for each of its bytes. The end has this room too.
pub(crate) const END_ROOM: usize = 16;

const TOTALS_BYTES: usize = 64;

// Writes the words of a state at the front of a feed.
pub(crate) fn put_state(feed: &mut [u8], state: State)
    requires { 120 ≤ length feed.old }
    ensures { PutAt feed.old 0 (bytes_of (state_words state)) feed.new 120 }
{
    write_state(feed, state);
}

// A base without selectors, or no base (0).
pub(crate) fn new_held(base: u32) -> Held
    ensures { result ≡ record { base = base; first = None; count = 0 } }
{
    Held {
        base,
        first: None,
        count: 0,
    }
}

// The state of a new feed.
fn new_state() -> State
    ensures { (p : GivenPolicy) → result ≡ state_for (Calls.new_feed p) }
{
    let held = Held {
        base: 0,
        first: None,
        count: 0,
    };
    let counts = NonCanonicality::empty();
    State {
        ended: false,
        held,
        rest_len: 0,
        rest: 0,
        len: 0,
        counts,
    }
}

// Begins a feed under a policy: writes its words and the policy at the front of the buffer, or refuses.
pub fn begin(policy: &[u8], feed: &mut [u8]) -> Result<usize, Refusal>
    ensures { EndsAs answer_row (begun policy.now feed.old) result feed.new }
{
    if !is_policy(policy) {
        return Err(policy_refusal(policy));
    }
    if feed.len() < FEED_BYTES {
        return Err(Refusal::OutputTooShort { wanted: FEED_BYTES });
    }
    put_state(feed, new_state());
    base::write_bytes(feed, STATE_BYTES, policy);
    Ok(FEED_BYTES)
}

// Writes the bytes of a character. The caller has tested that there is room.
fn put_char(out: &mut [u8], at: usize, ch: u32) -> usize
    requires { (is_scalar ch ≡ true) × (at + length (encode ch) ≤ length out.old) }
    ensures { PutAt out.old at (encode ch) out.new result }
{
    match utf8_encoding::write_char(ch, out, at) {
        Ok(width) => at + width,
        Err(_) => at,
    }
}

// Writes the bytes of a selector, if there is one. The caller has tested that there is room.
fn put_selector(out: &mut [u8], at: usize, selector: Option<Presentation>) -> usize
    requires { at + length (encode_all (map as_selector (run_with selector 1))) ≤ length out.old }
    ensures { PutAt out.old at (encode_all (map as_selector (run_with selector 1))) out.new result }
{
    match selector {
        Some(presentation) => put_char(out, at, presentation.as_selector()),
        None => at,
    }
}

// Returns the selector that a slot holds without a decision.
fn selector_of(slot: Slot) -> Option<Presentation>
    ensures { run_with result 1 ≡ chosen slot [] }
{
    match slot {
        Slot::Bare => None,
        Slot::Fixed(presentation) => Some(presentation),
        Slot::Decided(default) => Some(default),
    }
}

// Where the held base ends in the output, and its counts.
#[derive(Clone, Copy)]
pub(crate) struct Settled {
    pub(crate) end: usize,
    pub(crate) counts: NonCanonicality,
}

// Returns the counts of the held base before a character of the class.
fn held_counts(policy: &[u8], held: Held, next: Class) -> NonCanonicality
    ensures { result ≡ (settle (pending_of (policy_of policy.now) held) next).counts }
{
    let base = held.base;
    if base == 0 {
        return NonCanonicality::empty();
    }
    let first = held.first;
    let outcome = analyze_by_policy_bytes(policy, base, next, first, held.count);
    outcome.counts
}

// Writes the held base with the selector that the rules give it before a character of the class. The caller has tested that there is room.
pub(crate) fn put_held(policy: &[u8], held: Held, next: Class, out: &mut [u8], at: usize) -> Settled
    requires { (is_scalar held.base ≡ true)
        × (at + length (encode_all (settle (pending_of (policy_of policy.now) held) next).text) ≤ length out.old) }
    ensures text { PutAt out.old at (encode_all (settle (pending_of (policy_of policy.now) held) next).text)
        out.new result.end }
    ensures counts { result.counts ≡ (settle (pending_of (policy_of policy.now) held) next).counts }
{
    let base = held.base;
    if base == 0 {
        let counts = NonCanonicality::empty();
        return Settled { end: at, counts };
    }
    let first = held.first;
    let outcome = analyze_by_policy_bytes(policy, base, next, first, held.count);
    let slot = outcome.slot;
    let counts = outcome.counts;
    let after = put_char(out, at, base);
    let end = put_selector(out, after, selector_of(slot));
    Settled { end, counts }
}

// Returns the totals, for bytes that have the length of a feed.
fn feed_totals(feed: &[u8]) -> NonCanonicality
    requires { length feed.now ≡ 320 }
    ensures { result ≡ totals_of feed.now }
{
    if !is_feed(feed) {
        return NonCanonicality::empty();
    }
    let state = read_state(feed);
    let held = state.held;
    let counts = state.counts;
    counts.add(held_counts(&feed[STATE_BYTES..], held, Class::Other))
}

// Returns the totals, as if the thread ended here.
fn totals_now(feed: &[u8]) -> NonCanonicality
    ensures { result ≡ totals_of feed.now }
{
    if feed.len() != FEED_BYTES {
        return NonCanonicality::empty();
    }
    feed_totals(feed)
}

// Returns the eight counts in document 01's order.
fn count_words(counts: NonCanonicality) -> [usize; 8]
    ensures { result ≡ count_numbers counts }
{
    [
        counts.unsanctioned_selectors,
        counts.modifier_defective_selectors,
        counts.additional_defective_selectors,
        counts.tag_conflicting_selectors,
        counts.tag_forced_presentations,
        counts.tag_redundant_selectors,
        counts.policy_redundant_selectors,
        counts.presentation_decisions,
    ]
}

// Writes the eight totals, or refuses.
pub fn totals(feed: &[u8], out: &mut [u8]) -> Result<usize, Refusal>
    ensures { Wrote (bytes_of (count_numbers (totals_of feed.now))) out.old out.new result }
{
    let words = count_words(totals_now(feed));
    if base::write_numbers(out, 0, &words) {
        return Ok(TOTALS_BYTES);
    }
    Err(Refusal::OutputTooShort {
        wanted: TOTALS_BYTES,
    })
}

// Returns the state of a feed that has ended.
fn ended_state(len: usize, counts: NonCanonicality) -> State
    ensures { result ≡ ended_state len counts }
{
    let held = Held {
        base: 0,
        first: None,
        count: 0,
    };
    State {
        ended: true,
        held,
        rest_len: 0,
        rest: 0,
        len,
        counts,
    }
}

// Ends a feed, for bytes that have the length of a feed.
fn end_feed(feed: &mut [u8], out: &mut [u8]) -> Result<usize, Refusal>
    requires { length feed.old ≡ 320 }
    ensures { EndsCalled (called feed.old (Calls.end out.old)) result feed.new out.new }
{
    if !is_feed(feed) {
        return Err(Refusal::FeedEnded);
    }
    let state = read_state(feed);
    if state.ended {
        return Err(Refusal::FeedEnded);
    }
    if state.rest_len != 0 {
        return Err(Refusal::UnfinishedCharacter);
    }
    if out.len() < END_ROOM {
        return Err(Refusal::OutputTooShort { wanted: END_ROOM });
    }
    let held = state.held;
    let settled = put_held(&feed[STATE_BYTES..], held, Class::Other, out, 0);
    let counts = state.counts;
    let last = settled.counts;
    put_state(feed, ended_state(state.len, counts.add(last)));
    Ok(settled.end)
}

// Ends a feed: writes the held base, or refuses.
pub fn end(feed: &mut [u8], out: &mut [u8]) -> Result<usize, Refusal>
    ensures { EndsCalled (called feed.old (Calls.end out.old)) result feed.new out.new }
{
    if feed.len() != FEED_BYTES {
        return Err(Refusal::FeedEnded);
    }
    end_feed(feed, out)
}

// Returns byte k of the unfinished bytes and the piece after them, or 0 after their end.
fn joined_byte(n: usize, rest: usize, piece: &[u8], k: usize) -> u8
    requires { n ≤ 3 }
    ensures { result ≡ get_or (little_endian n rest ++ piece.now) k 0 }
{
    if n <= k {
        return base::byte_at(piece, 0, k - n);
    }
    if k == 0 {
        return low_byte(rest);
    }
    if k == 1 {
        return low_byte(rest / 256);
    }
    low_byte(rest / 256 / 256)
}

// Returns the packed number of the character there, or 0 if none begins there.
pub(crate) fn joined_char(n: usize, rest: usize, piece: &[u8], k: usize) -> u32
    requires { (n ≤ 3) × (length piece.now ≤ 16777216) }
    ensures { result ≡ packed (read_char (drop k (little_endian n rest ++ piece.now))) }
{
    if n + piece.len() <= k {
        return 0;
    }
    let four = [
        joined_byte(n, rest, piece, k),
        joined_byte(n, rest, piece, k + 1),
        joined_byte(n, rest, piece, k + 2),
        joined_byte(n, rest, piece, k + 3),
    ];
    utf8::decode(&four, 0)
}

// The bytes after the well-formed ones: whether they are unfinished, how many they are, and the number that they encode.
#[derive(Clone, Copy)]
pub(crate) struct Left {
    pub(crate) good: bool,
    pub(crate) len: usize,
    pub(crate) bytes: usize,
}

// Returns the number that three bytes encode, lowest byte first.
fn three(a: u8, b: u8, d: u8) -> usize
    ensures { result ≡ a + 256 * (b + 256 * d) }
{
    (a as usize) + 256 * ((b as usize) + 256 * (d as usize))
}

// Returns the bytes that are left after an offset.
pub(crate) fn left_after(n: usize, rest: usize, piece: &[u8], at: usize) -> Left
    requires { (n ≤ 3) × (length piece.now ≤ 16777216) × (at ≤ n + length piece.now) }
    ensures { LeftAt (little_endian n rest ++ piece.now) at result }
{
    let len = n + piece.len() - at;
    if len == 0 {
        return Left {
            good: true,
            len: 0,
            bytes: 0,
        };
    }
    if 3 < len {
        return Left {
            good: false,
            len: 0,
            bytes: 0,
        };
    }
    let a = joined_byte(n, rest, piece, at);
    let b = joined_byte(n, rest, piece, at + 1);
    let d = joined_byte(n, rest, piece, at + 2);
    let bytes = three(a, b, d);
    let good = is_unfinished(len, bytes);
    Left { good, len, bytes }
}

// The held base after characters that were taken, where their text ends in the output, and the counts.
#[derive(Clone, Copy)]
pub(crate) struct Taken {
    pub(crate) held: Held,
    pub(crate) end: usize,
    pub(crate) counts: NonCanonicality,
}

// Returns the first selector of a base when one more follows.
fn first_after(first: Option<Presentation>, presentation: Presentation) -> Option<Presentation>
    ensures { result ≡ Feed.first_of first presentation }
{
    first.or(Some(presentation))
}

// Takes a selector: one more of the held base, or an unsanctioned one.
fn take_selector(taken: Taken, presentation: Presentation) -> Taken
    requires { (is_scalar taken.held.base ≡ true) × (total taken.counts + taken.held.count ≤ 1000000000000) }
    ensures { (p : GivenPolicy) (o : List ℕ)
        → TakenBy p taken.held taken.counts (fed_as p (as_selector presentation ∷ [])) o taken.end o result }
{
    let held = taken.held;
    let end = taken.end;
    let counts = taken.counts;
    let base = held.base;
    if base == 0 {
        let more = counts.add(NonCanonicality::unsanctioned(1));
        return Taken {
            held,
            end,
            counts: more,
        };
    }
    let first = held.first;
    let next = first_after(first, presentation);
    let count = held.count + 1;
    let held = Held {
        base,
        first: next,
        count,
    };
    Taken { held, end, counts }
}

// Takes a character that is no selector: it settles the held base, and then it is held or written.
pub(crate) fn take_other(policy: &[u8], taken: Taken, ch: u32, out: &mut [u8]) -> Taken
    requires { (is_scalar taken.held.base ≡ true) × (is_scalar ch ≡ true) × (from_selector ch ≡ None)
        × (total taken.counts + taken.held.count ≤ 1000000000000)
        × (taken.end + length (encode_all (take_chars (pending_of (policy_of policy.now) taken.held)
        (fed_as (policy_of policy.now) (ch ∷ []))).1.text) ≤ length out.old) }
    ensures { TakenBy (policy_of policy.now) taken.held taken.counts
        (fed_as (policy_of policy.now) (ch ∷ [])) out.old taken.end out.new result }
{
    let held = taken.held;
    let counts = taken.counts;
    let settled = put_held(policy, held, class_of(ch), out, taken.end);
    let last = settled.counts;
    let counts = counts.add(last);
    let end = settled.end;
    if emoji::has_variation_sequence(ch) {
        let held = new_held(ch);
        return Taken { held, end, counts };
    }
    let end = put_char(out, end, ch);
    let held = new_held(0);
    Taken { held, end, counts }
}

// Takes one character.
fn take_char(policy: &[u8], taken: Taken, ch: u32, out: &mut [u8]) -> Taken
    requires { (is_scalar taken.held.base ≡ true) × (is_scalar ch ≡ true)
        × (total taken.counts + taken.held.count ≤ 1000000000000)
        × (taken.end + length (encode_all (take_chars (pending_of (policy_of policy.now) taken.held)
        (fed_as (policy_of policy.now) (ch ∷ []))).1.text) ≤ length out.old) }
    ensures { TakenBy (policy_of policy.now) taken.held taken.counts
        (fed_as (policy_of policy.now) (ch ∷ [])) out.old taken.end out.new result }
{
    match Presentation::from_selector(ch) {
        Some(presentation) => take_selector(taken, presentation),
        None => take_other(policy, taken, ch, out),
    }
}

// Selectors at the front of a piece that were taken, and the offset after them.
#[derive(Clone, Copy)]
pub(crate) struct Front {
    pub(crate) taken: Taken,
    pub(crate) at: usize,
}

// Takes the completed character, given as one number, if it is not 0.
pub(crate) fn take_first(
    policy: &[u8],
    held: Held,
    counts: NonCanonicality,
    first: u32,
    out: &mut [u8],
) -> Taken
    requires { (is_scalar held.base ≡ true) × ((first ≡ 0 → ⊥) → is_scalar (first / 8) ≡ true)
        × (total counts + held.count ≤ 200000000)
        × (0 + length (encode_all (take_chars (pending_of (policy_of policy.now) held)
        (fed_as (policy_of policy.now) (char_of first))).1.text) ≤ length out.old) }
    ensures { TakenBy (policy_of policy.now) held counts (fed_as (policy_of policy.now) (char_of first))
        out.old 0 out.new result }
{
    let taken = Taken {
        held,
        end: 0,
        counts,
    };
    if first == 0 {
        return taken;
    }
    take_char(policy, taken, first / 8, out)
}

// Takes the selectors that begin at an offset of a piece.
pub(crate) fn take_selectors(start: Taken, piece: &[u8], from: usize) -> Front
    requires { (is_scalar start.held.base ≡ true) × (total start.counts + start.held.count ≤ 300000000)
        × (length piece.now ≤ text_limit) × (from ≤ length piece.now) }
    ensures { FrontTaken piece.now from start result }
{
    let mut taken = start;
    let mut at = from;
    loop {
        match selector_at(piece, at) {
            Some(presentation) => {
                taken = take_selector(taken, presentation);
                at += SELECTOR_BYTES;
            }
            None => {
                return Front { taken, at };
            }
        }
    }
}

// Tests whether the middle of a piece is copied: nothing is counted in it, and no base is held before it.
fn is_copied(plain: bool, base: u32) -> bool
    ensures { result ≡ true → (plain ≡ true) × (base ≡ 0) }
{
    if !plain {
        return false;
    }
    base == 0
}

// Copies a part of a piece, for which there is room, and returns where it ends in the output.
fn put_part(piece: &[u8], from: usize, to: usize, out: &mut [u8], at: usize) -> usize
    requires { (from ≤ to) × (to ≤ length piece.now) × (at + (to - from) ≤ length out.old) }
    ensures { PutAt out.old at (take (to - from) (drop from piece.now)) out.new result }
{
    base::write_bytes(out, at, &piece[from..to]);
    at + (to - from)
}

// Takes the characters of a piece between two offsets. They end the well-formed bytes of the piece, and the first is no selector. It
// settles the held base. The last base that has a variation entry is held, with its selectors. The characters between are formatted by
// themselves. `plain` means that nothing is counted in them.
pub(crate) fn take_rest(
    policy: &[u8],
    taken: Taken,
    piece: &[u8],
    at: usize,
    end: usize,
    plain: bool,
    out: &mut [u8],
) -> Taken
    requires { (is_scalar taken.held.base ≡ true) × (total taken.counts + taken.held.count ≤ 1000000000000)
        × (length piece.now ≤ text_limit) × (at < end) × (end ≡ at + valid_up_to_of (drop at piece.now))
        × (first_selector (chars (drop at piece.now)) ≡ None)
        × (plain ≡ true → total (total_cells (policy_of policy.now) (chars (drop at piece.now))) ≡ 0)
        × (taken.end + length (encode_all (take_chars (pending_of (policy_of policy.now) taken.held)
        (fed_as (policy_of policy.now) (chars (drop at piece.now)))).1.text) ≤ length out.old) }
    ensures { TakenBy (policy_of policy.now) taken.held taken.counts
        (fed_as (policy_of policy.now) (chars (drop at piece.now))) out.old taken.end
        out.new result }
{
    let tail = find_tail(piece, at, end);
    let start = tail.start;
    let held = taken.held;
    let base = held.base;
    if is_copied(plain, base) {
        let to = put_part(piece, at, start, out, taken.end);
        let counts = taken.counts;
        let last = tail.held;
        return Taken {
            held: last,
            end: to,
            counts,
        };
    }
    let class = class_of(utf8::decode(piece, at) / 8);
    let settled = put_held(policy, held, class, out, taken.end);
    let middle = put_middle(policy, &piece[at..start], plain, out, settled.end);
    let before = taken.counts;
    let counts = before.add(settled.counts);
    let counts = counts.add(middle.counts);
    let last = tail.held;
    Taken {
        held: last,
        end: middle.end,
        counts,
    }
}

// Takes every character of a piece, by what its tests found.
fn take_all(
    policy: &[u8],
    held: Held,
    counts: NonCanonicality,
    scan: PieceScan,
    piece: &[u8],
    out: &mut [u8],
) -> Taken
    requires { (is_scalar held.base ≡ true) × (length piece.now ≤ text_limit) × (total counts + held.count ≤ 200000000)
        × ScanFits (policy_of policy.now) piece.now scan
        × (length (encode_all (take_chars (pending_of (policy_of policy.now) held)
        (fed_as (policy_of policy.now) (scanned_chars piece.now scan))).1.text) ≤ length out.old) }
    ensures { TakenBy (policy_of policy.now) held counts
        (fed_as (policy_of policy.now) (scanned_chars piece.now scan)) out.old 0 out.new result }
{
    let first = take_first(policy, held, counts, scan.first, out);
    let front = take_selectors(first, piece, scan.from);
    let at = front.at;
    let taken = front.taken;
    if scan.end <= at {
        return taken;
    }
    take_rest(policy, taken, piece, at, scan.end, scan.plain, out)
}

// Returns what is held in one form: without a base there is no selector.
pub(crate) fn kept_held(held: Held) -> Held
    ensures { (p : GivenPolicy) → result ≡ held_for (pending_of p held) }
{
    if held.base == 0 {
        return new_held(0);
    }
    held
}

// Returns the state of a feed that goes on.
pub(crate) fn open_state(
    held: Held,
    rest_len: usize,
    rest: usize,
    len: usize,
    counts: NonCanonicality,
) -> State
    ensures { result ≡ open_state held rest_len rest len counts }
{
    State {
        ended: false,
        held,
        rest_len,
        rest,
        len,
        counts,
    }
}

// Takes a piece, for bytes that have the length of a feed.
fn take_piece(feed: &mut [u8], piece: &[u8], out: &mut [u8]) -> Result<usize, Refusal>
    requires { length feed.old ≡ 320 }
    ensures { EndsCalled (called feed.old (Calls.piece piece.now out.old)) result feed.new
        out.new }
{
    if !is_feed(feed) {
        return Err(Refusal::FeedEnded);
    }
    let state = read_state(feed);
    if state.ended {
        return Err(Refusal::FeedEnded);
    }
    let len = state.len;
    if TEXT_LIMIT - len < piece.len() {
        return Err(Refusal::TextTooLong);
    }
    let n = state.rest_len;
    let rest = state.rest;
    let scan = scan_piece(&feed[STATE_BYTES..], n, rest, piece);
    let valid = scan.valid;
    let left = left_after(n, rest, piece, valid);
    if !left.good {
        let valid_up_to = len.saturating_sub(n) + valid;
        return Err(Refusal::NotWellFormed { valid_up_to });
    }
    let wanted = 4 * piece.len() + END_ROOM;
    if out.len() < wanted {
        return Err(Refusal::OutputTooShort { wanted });
    }
    let held = state.held;
    let counts = state.counts;
    let taken = take_all(&feed[STATE_BYTES..], held, counts, scan, piece, out);
    let last = taken.held;
    let sums = taken.counts;
    let kept = kept_held(last);
    put_state(
        feed,
        open_state(kept, left.len, left.bytes, len + piece.len(), sums),
    );
    Ok(taken.end)
}

// Takes a piece, for a feed that copies ASCII.
fn copy_piece(feed: &mut [u8], piece: &[u8], out: &mut [u8]) -> Result<usize, Refusal>
    requires { CopiesAscii feed.old }
    ensures { EndsCalled (called feed.old (Calls.piece piece.now out.old)) result feed.new
        out.new }
{
    let len = len_word(feed);
    if !is_copied_piece(len, piece, out.len()) {
        return take_piece(feed, piece, out);
    }
    let base = base_word(feed);
    let last = last_held(piece);
    let end = put_ascii(out, base, piece, last);
    put_words(feed, last, len + piece.len());
    Ok(end)
}

// Takes a piece: writes all but an unfinished character and a last base that has a variation entry, with its selectors. Or it refuses.
// The length is tested here, so that the compiler knows it wherever the words of the feed are read and written.
pub fn piece(feed: &mut [u8], piece: &[u8], out: &mut [u8]) -> Result<usize, Refusal>
    ensures { EndsCalled (called feed.old (Calls.piece piece.now out.old)) result feed.new
        out.new }
{
    if feed.len() != FEED_BYTES {
        return Err(Refusal::FeedEnded);
    }
    if !copies_ascii(feed) {
        return take_piece(feed, piece, out);
    }
    copy_piece(feed, piece, out)
}
