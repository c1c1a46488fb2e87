// The sets that the pieces of a sheet mean. `with_closed` adds a piece to the policy. The sets then hold what `in_set` (crate policy_sheet,
// specs/Meaning.antt) says of the pieces.
ghost use Rattle.std.specs.Prelude.{◌≡◌, Bool, ◌||◌, List, [], ◌∷◌, ◌++◌, ℕ, ◌+◌, ◌<◌, ◌≤◌, ltb, get_or, length, Some};
ghost use Rattle.base.specs.Bits.{one};
ghost use Rattle.base.specs.Ranges.{within};
ghost use Rattle.emoji.specs.UnicodeData.{variation_entries};
ghost use Rattle.policy_key_set.specs.Sets.{Holds};
ghost use Rattle.policy.specs.PolicyBytes.{PolicyValue, SetValue};
ghost use Rattle.policy_sheet.specs.Grammar.{Piece};
ghost use Rattle.policy_sheet.specs.Meaning.{in_set};
ghost use Rattle.policy_sheet.specs.Reader.{State, piece_read, transition};
ghost use Rattle.sheet_reading.specs.Tracking.{SetsHold, Spans, Tracks, closing};

use crate::cursor::{Cursor, is_allowed};
use emoji::unicode_data::VARIATION_ENTRIES;
use policy::Policy;
use policy_key_set::PolicyKeySet;
use policy_key_set::char_set::CharSet;
use policy_key_set::named_sets::CHARSET_WORDS;

// Returns the number of variation entries below a code point.
fn entries_below(ch: u64) -> usize
    ensures few { result ≤ 354 }
    ensures below { (i : ℕ) → i < 354 → ltb i result ≡ ltb (get_or variation_entries i 0) ch }
{
    VARIATION_ENTRIES.partition_point(|&entry| (entry as u64) < ch)
}

// Returns the word whose bit k is 1 if start + k is below n.
fn bits_below(n: usize, start: usize) -> u64
    requires { start ≤ 320 }
    ensures { (k : ℕ) → k < 64 → one k result ≡ ltb (start + k) n }
{
    if n <= start {
        return 0;
    }
    if start + 64 <= n {
        return 0xFFFF_FFFF_FFFF_FFFF;
    }
    (1u64 << (n - start)) - 1
}

// Returns the set of the first n variation entries.
fn first_entries(n: usize) -> CharSet
    requires { n ≤ 354 }
    ensures { Holds (λ (i : ℕ). ltb i n) result.bits }
{
    let mut bits = [0; CHARSET_WORDS];
    for i in 0..CHARSET_WORDS {
        bits[i] = bits_below(n, 64 * i);
    }
    CharSet { bits }
}

// Adds the variation entries of a range to a set. The time does not depend on the range.
fn with_range(set: CharSet, lo: u32, hi: u32) -> CharSet
    ensures { (p : ℕ → Bool) → Holds p set.bits
        → Holds (λ (i : ℕ). p i || within lo hi (get_or variation_entries i 0)) result.bits }
{
    let below = first_entries(entries_below(lo as u64));
    let up_to = first_entries(entries_below(hi as u64 + 1));
    set | (up_to - below)
}

// Adds a piece to set k, if the piece is in line k.
fn with_piece_in(set: CharSet, k: u32, line: u32, lo: u32, hi: u32) -> CharSet
    ensures { (xs : List Piece) (x : Piece) → Spans x line lo hi → Holds (in_set xs k) set.bits
        → Holds (in_set (xs ++ (x ∷ [])) k) result.bits }
{
    if line == k {
        return with_range(set, lo, hi);
    }
    set
}

// Adds a piece to the policy.
fn with_piece(p: Policy, line: u32, lo: u32, hi: u32) -> Policy
    ensures { (xs : List Piece) (x : Piece) → Spans x line lo hi → SetsHold xs p → SetsHold (xs ++ (x ∷ [])) result }
{
    Policy {
        prefer_bare: PolicyKeySet {
            chars: with_piece_in(p.prefer_bare.chars, 0, line, lo, hi),
            keycap_chars: with_piece_in(p.prefer_bare.keycap_chars, 1, line, lo, hi),
        },
        bare_as_text: PolicyKeySet {
            chars: with_piece_in(p.bare_as_text.chars, 2, line, lo, hi),
            keycap_chars: with_piece_in(p.bare_as_text.keycap_chars, 3, line, lo, hi),
        },
    }
}

// Tests whether a byte closes a piece whose last number has the digits.
#[tactic(auto, unfolding(crate::specs::Tracking::closing))]
fn is_closing(b: u8, count: u32) -> bool
    ensures { result ≡ closing b count }
{
    match b {
        b',' | b'\n' => is_allowed(count),
        _ => false,
    }
}

// Returns the first code point of the piece that was read.
fn first_of(c: Cursor) -> u32
    ensures { (r : State) → Tracks c r → result ≡ (piece_read r).first.value }
{
    match c.first {
        Some(first) => first.value,
        None => c.value,
    }
}

// Adds the piece that a byte closes, if it closes one, to the policy.
pub(crate) fn with_closed(p: Policy, c: Cursor, b: u8) -> Policy
    ensures { (at : ℕ) (r t : State) → Tracks c r → transition at r b ≡ Some t → SetsHold r.pieces p
        → SetsHold t.pieces result }
{
    if is_closing(b, c.count) {
        let lo = first_of(c);
        return with_piece(p, c.line, lo, c.value);
    }
    p
}

// Returns the policy of a sheet without pieces.
pub(crate) fn no_pieces() -> Policy
    ensures { SetsHold [] result }
{
    Policy {
        prefer_bare: PolicyKeySet::none(),
        bare_as_text: PolicyKeySet::none(),
    }
}

// States that the six words of a set have 64 bits. The prover knows it of every parameter of this type.
fn is_set(words: &[u64])
    requires { length words.now ≡ 6 }
    ensures { SetValue words.now }
{}

// States that a policy has four such sets.
pub(crate) fn is_value(p: Policy)
    ensures { PolicyValue p }
{
    is_set(&p.prefer_bare.chars.bits);
    is_set(&p.prefer_bare.keycap_chars.bits);
    is_set(&p.bare_as_text.chars.bits);
    is_set(&p.bare_as_text.keycap_chars.bits);
}
