// Sets of policy keys: policy_key_set.rs of the crate evfmt; document 01, "Key set and policy". A key is a variation
// entry in one of two domains, ordinary or keycap. `HoldsKeys` of specs/KeySets.antt says which keys a set holds. Each
// operation applies the operation of `CharSet` in each domain.
#![tactic(auto)]

pub mod char_set;
pub mod display;
pub mod named_sets;

ghost use Rattle.std.specs.Prelude.{◌≡◌, ◌&&◌, ◌||◌, not, true, false, ℕ, eqb};
ghost use Rattle.emoji.specs.Unicode.{has_variation_sequence, is_emoji_default, is_text_default};
ghost use Rattle.policy_key_set.specs.Sets.{but_not, contains, differ, HoldsChars};
ghost use Rattle.policy_key_set.specs.KeySets.{
  HoldsKeys,
  is_ascii,
  is_keycap_rgi,
  keycap,
  KeycapChars,
  KeysMadeBy,
  keys_size,
  named_entry_matches,
  ordinary,
  OrdinaryChars,
  words_match_rule,
  same_keys,
};

use char_set::CharSet;
use named_sets::{
    ASCII_BITS, CHARSET_WORDS, EMOJI_DEFAULT_BITS, KEYCAP_RGI_BITS, TEXT_DEFAULT_BITS,
};
use std::ops::{BitAnd, BitOr, BitXor, Not, Sub};

#[derive(Clone, Copy, Debug)]
pub struct PolicyKeySet {
    pub chars: CharSet,
    pub keycap_chars: CharSet,
}

// Tests whether a character is a variation entry.
pub fn is_variation_sequence_character(ch: u32) -> bool
    ensures { result ≡ has_variation_sequence ch }
{
    emoji::has_variation_sequence(ch)
}

// The rules that define the named sets.
#[derive(Clone, Copy, Debug, PartialEq, Eq)]
pub enum NamedSet {
    Ascii,
    TextDefaults,
    EmojiDefaults,
    KeycapRgi,
}

// Makes a set of words that pass the test of a rule.
fn tested(id: NamedSet, bits: [u64; CHARSET_WORDS]) -> CharSet
    requires { words_match_rule (named_entry_matches id) bits ≡ true }
    ensures { HoldsChars (named_entry_matches id) result.bits }
{
    CharSet { bits }
}

// Returns the entries that match a rule.
fn named_bits(id: NamedSet) -> CharSet
    ensures { HoldsChars (named_entry_matches id) result.bits }
{
    match id {
        NamedSet::Ascii => tested(NamedSet::Ascii, ASCII_BITS),
        NamedSet::TextDefaults => tested(NamedSet::TextDefaults, TEXT_DEFAULT_BITS),
        NamedSet::EmojiDefaults => tested(NamedSet::EmojiDefaults, EMOJI_DEFAULT_BITS),
        NamedSet::KeycapRgi => tested(NamedSet::KeycapRgi, KEYCAP_RGI_BITS),
    }
}

// ASCII: the ASCII entries as ordinary keys.
pub fn ascii() -> PolicyKeySet
    ensures { OrdinaryChars is_ascii result }
{
    PolicyKeySet {
        chars: named_bits(NamedSet::Ascii),
        keycap_chars: CharSet::none(),
    }
}

// TEXT_DEFAULTS: the text-default entries as ordinary keys.
pub fn text_defaults() -> PolicyKeySet
    ensures { OrdinaryChars is_text_default result }
{
    PolicyKeySet {
        chars: named_bits(NamedSet::TextDefaults),
        keycap_chars: CharSet::none(),
    }
}

// EMOJI_DEFAULTS: the emoji-default entries as ordinary keys.
pub fn emoji_defaults() -> PolicyKeySet
    ensures { OrdinaryChars is_emoji_default result }
{
    PolicyKeySet {
        chars: named_bits(NamedSet::EmojiDefaults),
        keycap_chars: CharSet::none(),
    }
}

// VARIATION_BASES: every entry as an ordinary key.
pub fn variation_bases() -> PolicyKeySet
    ensures { HoldsKeys (λ (i : ℕ). true) (λ (i : ℕ). false) result }
{
    PolicyKeySet {
        chars: CharSet::all(),
        keycap_chars: CharSet::none(),
    }
}

// KEYCAP_TEXT_DEFAULTS: the text-default entries as keycap keys.
pub fn keycap_text_defaults() -> PolicyKeySet
    ensures { KeycapChars is_text_default result }
{
    PolicyKeySet {
        chars: CharSet::none(),
        keycap_chars: named_bits(NamedSet::TextDefaults),
    }
}

// KEYCAP_EMOJI_DEFAULTS: the emoji-default entries as keycap keys.
pub fn keycap_emoji_defaults() -> PolicyKeySet
    ensures { KeycapChars is_emoji_default result }
{
    PolicyKeySet {
        chars: CharSet::none(),
        keycap_chars: named_bits(NamedSet::EmojiDefaults),
    }
}

// KEYCAP_VARIATION_BASES: every entry as a keycap key.
pub fn keycap_variation_bases() -> PolicyKeySet
    ensures { HoldsKeys (λ (i : ℕ). false) (λ (i : ℕ). true) result }
{
    PolicyKeySet {
        chars: CharSet::none(),
        keycap_chars: CharSet::all(),
    }
}

// KEYCAP_RGI: #, * and the digits as keycap keys.
pub fn keycap_rgi() -> PolicyKeySet
    ensures { KeycapChars is_keycap_rgi result }
{
    PolicyKeySet {
        chars: CharSet::none(),
        keycap_chars: named_bits(NamedSet::KeycapRgi),
    }
}

impl PolicyKeySet {
    pub fn all() -> Self
        ensures { HoldsKeys (λ (i : ℕ). true) (λ (i : ℕ). true) result }
    {
        Self {
            chars: CharSet::all(),
            keycap_chars: CharSet::all(),
        }
    }

    pub fn none() -> Self
        ensures { HoldsKeys (λ (i : ℕ). false) (λ (i : ℕ). false) result }
    {
        Self {
            chars: CharSet::none(),
            keycap_chars: CharSet::none(),
        }
    }

    // Returns the set of the ordinary key of a character. It is empty if the character is no variation entry.
    pub fn singleton(ch: u32) -> Self
        ensures { OrdinaryChars (λ (c : ℕ). eqb c ch) result }
    {
        Self {
            chars: CharSet::singleton(ch),
            keycap_chars: CharSet::none(),
        }
    }

    // Returns the set of the keycap key of a character. It is empty if the character is no variation entry.
    pub fn singleton_keycap(ch: u32) -> Self
        ensures { KeycapChars (λ (c : ℕ). eqb c ch) result }
    {
        Self {
            chars: CharSet::none(),
            keycap_chars: CharSet::singleton(ch),
        }
    }

    pub fn contains(self, ch: u32) -> bool
        ensures { result ≡ contains ch self.chars.bits }
    {
        self.chars.contains(ch)
    }

    pub fn contains_keycap(self, ch: u32) -> bool
        ensures { result ≡ contains ch self.keycap_chars.bits }
    {
        self.keycap_chars.contains(ch)
    }

    // Returns the set that `f` makes of the ordinary keys of two sets, and of their keycap keys.
    fn map2<F: Fn(CharSet, CharSet) -> CharSet>(self, rhs: Self, f: F) -> Self
        requires { F.IsAlwaysCallable f }
        ensures ordinary { F.post f self.chars rhs.chars result.chars }
        ensures keycap { F.post f self.keycap_chars rhs.keycap_chars result.keycap_chars }
    {
        Self {
            chars: f(self.chars, rhs.chars),
            keycap_chars: f(self.keycap_chars, rhs.keycap_chars),
        }
    }

    // Tests whether two sets hold the same keys.
    pub fn eq(self, rhs: Self) -> bool
        ensures { result ≡ same_keys self rhs }
    {
        self.chars.eq(rhs.chars) && self.keycap_chars.eq(rhs.keycap_chars)
    }

    // Returns the number of keys of both domains.
    pub fn size(self) -> u32
        ensures { result ≡ keys_size self }
    {
        self.chars.size() + self.keycap_chars.size()
    }
}

// The empty set.
impl Default for PolicyKeySet {
    ghost is_default = { HoldsKeys (λ (i : ℕ). false) (λ (i : ℕ). false) };

    fn default() -> Self {
        PolicyKeySet::none()
    }
}

impl BitOr for PolicyKeySet {
    type Output = Self;

    ghost bitor_gives = { KeysMadeBy ◌||◌ };

    fn bitor(self, rhs: Self) -> Self {
        self.map2(rhs, |a, b| a | b)
    }
}

impl BitAnd for PolicyKeySet {
    type Output = Self;

    ghost bitand_gives = { KeysMadeBy ◌&&◌ };

    fn bitand(self, rhs: Self) -> Self {
        self.map2(rhs, |a, b| a & b)
    }
}

impl BitXor for PolicyKeySet {
    type Output = Self;

    ghost bitxor_gives = { KeysMadeBy differ };

    fn bitxor(self, rhs: Self) -> Self {
        self.map2(rhs, |a, b| a ^ b)
    }
}

// The difference of two sets.
impl Sub for PolicyKeySet {
    type Output = Self;

    ghost sub_gives = { KeysMadeBy but_not };

    fn sub(self, rhs: Self) -> Self {
        self.map2(rhs, |a, b| a - b)
    }
}

// The complement: the keys that are not in the set.
impl Not for PolicyKeySet {
    type Output = Self;

    ghost not_gives = { λ s r. HoldsKeys (λ (i : ℕ). not (ordinary s i)) (λ (i : ℕ). not (keycap s i)) r };

    fn not(self) -> Self {
        PolicyKeySet::all() - self
    }
}
