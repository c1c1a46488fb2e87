// Sets of variation entries: `CharSet` of policy_key_set.rs of the crate evfmt; document 01, "Key set and policy".
// `Holds` of specs/Sets.antt says which entries a set holds, and that the unused bits are 0. An argument may have
// unused bits that are 1; the operations clear them. One loop over the words, `zip_words`, serves the four operators.
ghost use Rattle.std.specs.Prelude.{◌≡◌, ◌&&◌, ◌||◌, true, false, ℕ, ◌<◌, ◌≤◌, ◌^◌, ◌*◌, Bool, eqb, length};
ghost use Rattle.base.specs.Bits.{one};
ghost use Rattle.policy_key_set.specs.Sets.{
  but_not,
  contains,
  count_below,
  differ,
  Holds,
  HoldsChars,
  MadeBy,
  member,
  same_entries,
  size_of,
};

use crate::named_sets::{ALL_BITS, CHARSET_WORDS};
use std::ops::{BitAnd, BitOr, BitXor, Sub};

#[derive(Clone, Copy, Debug)]
pub struct CharSet {
    pub bits: [u64; CHARSET_WORDS],
}

// Returns the set whose words `f` makes of the words of two sets, without the unused bits. If `f` acts on each bit as a
// test says, so does the result on each entry.
fn zip_words<F: Fn(u64, u64) -> u64>(a: CharSet, b: CharSet, f: F) -> CharSet
    requires { F.IsAlwaysCallable f }
    ensures { (g : Bool → Bool → Bool)
        → ((x y w : ℕ) → x < 2 ^ 64 → y < 2 ^ 64 → F.post f x y w → (k : ℕ) → k < 64 → one k w ≡ g (one k x) (one k y))
        → MadeBy g a b result }
{
    let mut bits = ALL_BITS;
    for i in 0..CHARSET_WORDS {
        bits[i] &= f(a.bits[i], b.bits[i]);
    }
    CharSet { bits }
}

// Counts the ones of words.
fn count_ones(words: &[u64]) -> u32
    requires { length words.now ≤ 6 }
    ensures { (m : ℕ) → length words.now ≡ m → result ≡ count_below (m * 64) (λ (i : ℕ). member i words.now) }
{
    words.iter().map(|word| word.count_ones()).sum()
}

// Returns the word whose only one is bit k.
fn bit(k: usize) -> u64
    requires { k < 64 }
    ensures { (j : ℕ) → one j result ≡ eqb j k }
{
    1u64 << k
}

impl CharSet {
    pub fn all() -> Self
        ensures { Holds (λ (i : ℕ). true) result.bits }
    {
        Self { bits: ALL_BITS }
    }

    pub fn none() -> Self
        ensures { Holds (λ (i : ℕ). false) result.bits }
    {
        Self {
            bits: [0; CHARSET_WORDS],
        }
    }

    // Returns the set of one character. It is empty if the character is no variation entry.
    pub fn singleton(ch: u32) -> Self
        ensures { HoldsChars (λ (c : ℕ). eqb c ch) result.bits }
    {
        let mut bits = [0; CHARSET_WORDS];
        if let Some(index) = emoji::variation_sequence_index(ch) {
            bits[index / 64] = bit(index % 64);
        }
        CharSet { bits }
    }

    pub fn contains(self, ch: u32) -> bool
        ensures { result ≡ contains ch self.bits }
    {
        match emoji::variation_sequence_index_by_block(ch) {
            Some(index) => base::has_bit(self.bits[index / 64], index),
            None => false,
        }
    }

    // Returns the number of entries in the set.
    pub fn size(self) -> u32
        ensures { result ≡ size_of self.bits }
    {
        let cleared = self & CharSet::all();
        count_ones(&cleared.bits)
    }

    // Tests whether two sets hold the same entries: no entry is in exactly one of them. It passes over the unused bits, so
    // a derived `==` would not do.
    pub fn eq(self, rhs: Self) -> bool
        ensures { result ≡ same_entries self.bits rhs.bits }
    {
        (self ^ rhs).size() == 0
    }
}

impl BitOr for CharSet {
    type Output = Self;

    ghost bitor_gives = { MadeBy ◌||◌ };

    fn bitor(self, rhs: Self) -> Self {
        zip_words(self, rhs, |x, y| x | y)
    }
}

impl BitAnd for CharSet {
    type Output = Self;

    ghost bitand_gives = { MadeBy ◌&&◌ };

    fn bitand(self, rhs: Self) -> Self {
        zip_words(self, rhs, |x, y| x & y)
    }
}

impl BitXor for CharSet {
    type Output = Self;

    ghost bitxor_gives = { MadeBy differ };

    fn bitxor(self, rhs: Self) -> Self {
        zip_words(self, rhs, |x, y| x ^ y)
    }
}

impl Sub for CharSet {
    type Output = Self;

    ghost sub_gives = { MadeBy but_not };

    fn sub(self, rhs: Self) -> Self {
        zip_words(self, rhs, |x, y| x & !y)
    }
}
