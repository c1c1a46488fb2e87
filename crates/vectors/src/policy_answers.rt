// Compares the answers of a line of policy.txt. Each function computes an answer with the proved functions and compares
// it with the values of the line.
use crate::fault::{Fault, check};
use crate::line::Line;
use crate::policy_bytes;
use crate::sets::{Sizes, StoredSet, has_sizes, is_stored, same_policy};
use base::Refusal;
use emoji::unicode_data::VARIATION_ENTRY_COUNT;
use policy::{Policy, SingletonRule};
use policy_key_set::PolicyKeySet;
use policy_key_set::named_sets::CHARSET_WORDS;

// The length of the buffer for a text.
const TEXT_BYTES: usize = 8600;

// Tests whether there is an entry at an index.
fn has_entry(i: usize) -> bool {
    emoji::variation_entry(i).is_some()
}

// Compares the number of entries, with no entry after the last, and the number of words of a character set.
pub(crate) fn entries_agree(entries: u64, words: u64) -> bool {
    entries == VARIATION_ENTRY_COUNT as u64
        && words == CHARSET_WORDS as u64
        && has_entry(VARIATION_ENTRY_COUNT - 1)
        && !has_entry(VARIATION_ENTRY_COUNT)
}

// Compares the sizes of the four sets of the default policy.
pub(crate) fn sizes_agree(prefer_bare: Sizes, bare_as_text: Sizes) -> bool {
    let policy = Policy::default();
    has_sizes(policy.prefer_bare, prefer_bare) && has_sizes(policy.bare_as_text, bare_as_text)
}

// Compares the words of the default policy, and their bytes.
pub(crate) fn default_agrees(policy: Policy) -> bool {
    same_policy(Policy::default(), policy) && policy_bytes::round_trips(policy)
}

// Tests whether each bit of the set belongs to an entry: the intersection with the set of all entries is the set
// itself.
pub(crate) fn set_agrees(stored: StoredSet) -> bool {
    is_stored(stored.keys & PolicyKeySet::all(), stored)
}

// Tests whether a buffer that is one byte too short for the text of a set, which has `len` bytes, is refused and does
// not change.
fn is_refused(set: PolicyKeySet, len: usize) -> bool {
    if len == 0 || len > TEXT_BYTES {
        return false;
    }
    let mut bytes = [b'-'; TEXT_BYTES];
    let answer = PolicyKeySet::fmt(set, &mut bytes[..len - 1]);
    answer == Err(Refusal::OutputTooShort { wanted: len }) && bytes.iter().all(|b| *b == b'-')
}

// Compares the text of a set with the digits of a text.
pub(crate) fn display_agrees(set: PolicyKeySet, mut digits: Line<'_>) -> Result<(), Fault> {
    let mut bytes = [0u8; TEXT_BYTES];
    let Ok(len) = PolicyKeySet::fmt(set, &mut bytes) else {
        return Err(Fault::Differs);
    };
    let text = bytes.get(..len).ok_or(Fault::Differs)?;
    digits.same_bytes(text)?;
    digits.same_end()?;
    check(is_refused(set, len))
}

// Returns the digit of a rule. These numbers are the format of the file.
fn digit_of(rule: SingletonRule) -> u64 {
    match rule {
        SingletonRule::BareToEmoji => 0,
        SingletonRule::BareToText => 1,
        SingletonRule::TextToBare => 2,
        SingletonRule::EmojiToBare => 3,
    }
}

// Compares the rule for the base, as an ordinary and as a keycap base.
pub(crate) fn rules_agree(policy: Policy, base: u32, ordinary: u64, keycap: u64) -> bool {
    digit_of(Policy::singleton_rule(policy, base, false)) == ordinary
        && digit_of(Policy::singleton_rule(policy, base, true)) == keycap
}
