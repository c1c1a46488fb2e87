// Policies: policy.rs of the crate evfmt; document 01, "Key set and policy". A policy is two key sets. Outside the
// library it is 4W + 1 words of 8 bytes: the version of the tables, then the sets (document 02, change (xi)).
// `is_policy` tests such bytes (refusals 2 and 15).
#![tactic(auto)]

mod default_policy;
pub mod policy_bytes;

ghost use Rattle.std.specs.Prelude.{◌≡◌, ◌+◌, ◌≤◌, length};
ghost use Rattle.base.specs.Words.{bytes_of};
ghost use Rattle.base.specs.Output.{PutAt, Wrote};
ghost use Rattle.policy_key_set.specs.Sets.{word_count};
ghost use Rattle.policy.specs.Policy.{Cleared, holds_base, rule_of, same_policy, same_rule, singleton_rule};
ghost use Rattle.policy.specs.DefaultPolicy.{default_policy};
ghost use Rattle.policy.specs.PolicyBytes.{key_words, policy_bytes, policy_or_fault, read_policy, words_from};

use base::{Refusal, WORD_BYTES};
use default_policy::PREFER_BARE_BITS;
use emoji::unicode_data::UNICODE_VERSION;
use policy_key_set::PolicyKeySet;
use policy_key_set::char_set::CharSet;
use policy_key_set::named_sets::{ALL_BITS, CHARSET_WORDS, TEXT_DEFAULT_BITS};

// The keys for which bare is canonical, and the keys for which bare means text.
#[derive(Clone, Copy, Debug)]
pub struct Policy {
    pub prefer_bare: PolicyKeySet,
    pub bare_as_text: PolicyKeySet,
}

// The rule of a policy for a base: the selector that a bare base gets, or the selector that is removed.
#[derive(Clone, Copy, Debug, PartialEq, Eq)]
pub enum SingletonRule {
    BareToEmoji,
    BareToText,
    TextToBare,
    EmojiToBare,
}

impl SingletonRule {
    // Tests whether two rules are the same.
    pub fn eq(self, rhs: Self) -> bool
        ensures { result ≡ same_rule self rhs }
    {
        self == rhs
    }
}

// Tests whether a key set holds a base: in its keycap set if `is_keycap` is true, or else in its ordinary set.
#[tactic(auto, unfolding(crate::specs::Policy::holds_base))]
fn holds(set: PolicyKeySet, base: u32, is_keycap: bool) -> bool
    ensures { result ≡ holds_base set base is_keycap }
{
    if is_keycap {
        set.contains_keycap(base)
    } else {
        set.contains(base)
    }
}

// Returns the rule for a base. The arguments say whether `prefer_bare` and whether `bare_as_text` hold the base.
pub(crate) fn rule_of(prefers_bare: bool, bare_is_text: bool) -> SingletonRule
    ensures { result ≡ rule_of prefers_bare bare_is_text }
{
    if prefers_bare {
        if bare_is_text {
            return SingletonRule::TextToBare;
        }
        return SingletonRule::EmojiToBare;
    }
    if bare_is_text {
        return SingletonRule::BareToText;
    }
    SingletonRule::BareToEmoji
}

// Returns the key set with its unused bits cleared.
fn cleared(set: PolicyKeySet) -> PolicyKeySet
    ensures { Cleared set result }
{
    set & PolicyKeySet::all()
}

impl Policy {
    // Returns the policy with another `prefer_bare` set.
    pub fn with_prefer_bare(self, prefer_bare: PolicyKeySet) -> Self
        ensures { Cleared prefer_bare result.prefer_bare × (result.bare_as_text ≡ self.bare_as_text) }
    {
        Policy {
            prefer_bare: cleared(prefer_bare),
            ..self
        }
    }

    // Returns the policy with another `bare_as_text` set.
    pub fn with_bare_as_text(self, bare_as_text: PolicyKeySet) -> Self
        ensures { (result.prefer_bare ≡ self.prefer_bare) × Cleared bare_as_text result.bare_as_text }
    {
        Policy {
            bare_as_text: cleared(bare_as_text),
            ..self
        }
    }

    // Tests whether two policies hold the same keys.
    pub fn eq(self, rhs: Self) -> bool
        ensures { result ≡ same_policy self rhs }
    {
        self.prefer_bare.eq(rhs.prefer_bare) && self.bare_as_text.eq(rhs.bare_as_text)
    }

    // Returns the policy's rule for a base, as an ordinary or a keycap base.
    pub fn singleton_rule(self, base: u32, is_keycap: bool) -> SingletonRule
        ensures { result ≡ singleton_rule self base is_keycap }
    {
        let prefers_bare = holds(self.prefer_bare, base, is_keycap);
        let bare_is_text = holds(self.bare_as_text, base, is_keycap);
        rule_of(prefers_bare, bare_is_text)
    }
}

// The default policy. ASCII and the emoji defaults prefer bare. The text defaults and every keycap base are text without
// a selector.
impl Default for Policy {
    ghost is_default = { λ p. p ≡ default_policy };

    fn default() -> Self {
        Policy {
            prefer_bare: PolicyKeySet {
                chars: CharSet {
                    bits: PREFER_BARE_BITS,
                },
                keycap_chars: CharSet {
                    bits: [0; CHARSET_WORDS],
                },
            },
            bare_as_text: PolicyKeySet {
                chars: CharSet {
                    bits: TEXT_DEFAULT_BITS,
                },
                keycap_chars: CharSet { bits: ALL_BITS },
            },
        }
    }
}

// The policy that bytes encode, and whether the bytes are accepted. A caller uses the policy only if they are. It stays
// beside `Policy::try_from`, since the clause of `read_policy` also says what refused bytes encode.
#[derive(Clone, Copy, Debug)]
pub struct ReadPolicy {
    pub accepted: bool,
    pub policy: Policy,
}

// The number of bytes of a set, and of a policy: the version and four sets.
pub(crate) const SET_BYTES: usize = CHARSET_WORDS * WORD_BYTES;

pub const POLICY_BYTES: usize = WORD_BYTES + 4 * SET_BYTES;

// The offsets of the four sets in the bytes of a policy.
pub(crate) const PREFER_BARE: usize = WORD_BYTES;

pub(crate) const PREFER_BARE_KEYCAP: usize = PREFER_BARE + SET_BYTES;

pub(crate) const BARE_AS_TEXT: usize = PREFER_BARE_KEYCAP + SET_BYTES;

pub(crate) const BARE_AS_TEXT_KEYCAP: usize = BARE_AS_TEXT + SET_BYTES;

// Reads the set whose bytes start at an offset.
fn read_set(bytes: &[u8], at: usize) -> CharSet
    requires { at ≤ 152 }
    ensures { result.bits ≡ words_from word_count at bytes.now }
{
    let mut bits = [0; CHARSET_WORDS];
    for i in 0..CHARSET_WORDS {
        bits[i] = base::read_word(bytes, at + i * WORD_BYTES);
    }
    CharSet { bits }
}

// Reads the policy that bytes encode, and tests whether they are a policy.
pub fn read_policy(bytes: &[u8]) -> ReadPolicy
    ensures { result ≡ read_policy bytes.now }
{
    let policy = Policy {
        prefer_bare: PolicyKeySet {
            chars: read_set(bytes, PREFER_BARE),
            keycap_chars: read_set(bytes, PREFER_BARE_KEYCAP),
        },
        bare_as_text: PolicyKeySet {
            chars: read_set(bytes, BARE_AS_TEXT),
            keycap_chars: read_set(bytes, BARE_AS_TEXT_KEYCAP),
        },
    };
    let accepted = policy_bytes::is_policy(bytes);
    ReadPolicy { accepted, policy }
}

// Tests bytes and reads the policy that they encode.
impl TryFrom<&[u8]> for Policy {
    type Error = Refusal;

    ghost try_from_gives = { λ bytes result. result ≡ policy_or_fault bytes.now };

    fn try_from(bytes: &[u8]) -> Result<Self, Refusal> {
        let read = read_policy(bytes);
        if read.accepted {
            Ok(read.policy)
        } else {
            Err(policy_bytes::policy_refusal(bytes))
        }
    }
}

// Returns the number of bytes of a set.
fn set_len(set: CharSet) -> usize
    ensures { (result ≡ length (bytes_of set.bits)) × (result ≤ 48) }
{
    SET_BYTES
}

// Returns the number of bytes of a key set.
fn keys_len(set: PolicyKeySet) -> usize
    ensures { (result ≡ length (bytes_of (key_words set))) × (result ≤ 96) }
{
    set_len(set.chars) + set_len(set.keycap_chars)
}

// Writes the words of a set at an offset, and returns the offset after them.
fn put_set(out: &mut [u8], start: usize, set: CharSet) -> usize
    requires { start + length (bytes_of set.bits) ≤ length out.old }
    ensures { PutAt out.old start (bytes_of set.bits) out.new result }
{
    let mut at = start;
    for i in 0..CHARSET_WORDS {
        base::write_word(out, at, set.bits[i]);
        at += WORD_BYTES;
    }
    at
}

// Writes the words of a key set at an offset, and returns the offset after them.
fn put_keys(out: &mut [u8], start: usize, set: PolicyKeySet) -> usize
    requires { start + length (bytes_of (key_words set)) ≤ length out.old }
    ensures { PutAt out.old start (bytes_of (key_words set)) out.new result }
{
    let at = put_set(out, start, set.chars);
    put_set(out, at, set.keycap_chars)
}

// Writes the version of the tables and the words of a policy at the front of a lent buffer, or refuses.
pub fn write_policy(policy: Policy, out: &mut [u8]) -> Result<usize, Refusal>
    ensures { Wrote (policy_bytes policy) out.old out.new result }
{
    let wanted = keys_len(policy.prefer_bare) + keys_len(policy.bare_as_text) + WORD_BYTES;
    if out.len() < wanted {
        return Err(Refusal::OutputTooShort { wanted });
    }
    base::write_word(out, 0, UNICODE_VERSION);
    let at = put_keys(out, PREFER_BARE, policy.prefer_bare);
    put_keys(out, at, policy.bare_as_text);
    Ok(wanted)
}
