// The policy's functions on its bytes: document 01, "Key set and policy". A `Policy` is passed by value, so each call
// would copy its sets; these functions read the bytes instead. `is_policy` is the test of refusals 2 and 15. `rule_at`
// and `ascii_keys_bare` equal the same functions of the policy that the bytes encode (`policy_of`), for any bytes.
ghost use Rattle.std.specs.Prelude.{◌≡◌, ◌||◌, cond, not, ℕ, ◌+◌, ◌≤◌, ltb};
ghost use Rattle.base.specs.Bits.{one};
ghost use Rattle.policy_key_set.specs.Sets.{all_below, member, word_count};
ghost use Rattle.policy.specs.Policy.{entry_rule};
ghost use Rattle.policy.specs.PolicyBytes.{ascii_keys_bare, is_policy, no_unused_bit, policy_fault, policy_of, words_from};

use crate::{
    BARE_AS_TEXT, BARE_AS_TEXT_KEYCAP, POLICY_BYTES, PREFER_BARE, PREFER_BARE_KEYCAP, SET_BYTES,
    SingletonRule,
};
use base::{Refusal, WORD_BYTES};
use emoji::unicode_data::UNICODE_VERSION;
use policy_key_set::named_sets::{ALL_BITS, CHARSET_WORDS};

// The offset of the last word in a set, and the number of bits of a set.
const LAST_WORD: usize = SET_BYTES - WORD_BYTES;

const SET_BITS: usize = 8 * SET_BYTES;

// Tests whether all ones of a set's last word are used bits.
fn last_is_used(last: u64) -> bool
    ensures { result ≡ all_below 64 (λ (k : ℕ). ltb (320 + k) 354 || not (one k last)) }
{
    last <= ALL_BITS[CHARSET_WORDS - 1]
}

// Tests whether all unused bits are 0 in the set whose bytes start at an offset.
fn has_no_unused_bit(bytes: &[u8], at: usize) -> bool
    requires { at ≤ 152 }
    ensures { result ≡ no_unused_bit (words_from word_count at bytes.now) }
{
    last_is_used(base::read_word(bytes, at + LAST_WORD))
}

// Tests whether bytes are a policy: the test of refusals 2 and 15.
pub fn is_policy(bytes: &[u8]) -> bool
    ensures { result ≡ is_policy bytes.now }
{
    if bytes.len() != POLICY_BYTES {
        return false;
    }
    if base::read_word(bytes, 0) != UNICODE_VERSION {
        return false;
    }
    if !has_no_unused_bit(bytes, PREFER_BARE) {
        return false;
    }
    if !has_no_unused_bit(bytes, PREFER_BARE_KEYCAP) {
        return false;
    }
    if !has_no_unused_bit(bytes, BARE_AS_TEXT) {
        return false;
    }
    has_no_unused_bit(bytes, BARE_AS_TEXT_KEYCAP)
}

// Returns the refusal of bytes that are not a policy: number 15 for another version, if the number of bytes is right,
// or else number 2. The calls use it where `is_policy` returns false.
pub fn policy_refusal(bytes: &[u8]) -> Refusal
    ensures { result ≡ policy_fault bytes.now }
{
    if bytes.len() != POLICY_BYTES {
        return Refusal::NotAPolicy;
    }
    if base::read_word(bytes, 0) != UNICODE_VERSION {
        return Refusal::OtherVersion;
    }
    Refusal::NotAPolicy
}

// Tests whether a set holds an entry. The set's bytes start at an offset. After the bits of the set there is no entry.
fn holds_entry(bytes: &[u8], at: usize, index: usize) -> bool
    requires { at ≤ 152 }
    ensures { result ≡ member index (words_from word_count at bytes.now) }
{
    if SET_BITS <= index {
        return false;
    }
    base::has_bit(base::byte_at(bytes, at + index / 8, 0) as u64, index % 8)
}

// Returns the offset of the ordinary or the keycap set of `prefer_bare`.
fn set_start(is_keycap: bool) -> usize
    ensures { (result ≡ cond is_keycap 56 8) × (result ≤ 56) }
{
    if is_keycap {
        return PREFER_BARE_KEYCAP;
    }
    PREFER_BARE
}

// Returns the policy's rule for a variation entry, as an ordinary or a keycap base.
pub fn rule_at(bytes: &[u8], index: usize, is_keycap: bool) -> SingletonRule
    ensures { result ≡ entry_rule (policy_of bytes.now) index is_keycap }
{
    let start = set_start(is_keycap);
    let prefers_bare = holds_entry(bytes, start, index);
    let bare_is_text = holds_entry(bytes, 2 * SET_BYTES + start, index);
    crate::rule_of(prefers_bare, bare_is_text)
}

// Tests whether the ordinary set of `prefer_bare` holds every ASCII key. The characters #, * and 0 to 9 are the first
// twelve entries.
pub fn ascii_keys_bare(bytes: &[u8]) -> bool
    ensures { result ≡ ascii_keys_bare bytes.now }
{
    if base::byte_at(bytes, PREFER_BARE, 0) != 0xFF {
        return false;
    }
    base::byte_at(bytes, PREFER_BARE, 1) % 16 == 0xF
}
