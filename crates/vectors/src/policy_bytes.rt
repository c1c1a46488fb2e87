// Policies as bytes: `write_policy` and `read_policy`. A policy is written as the version of the tables and the bytes
// of its words, lowest byte first, and reading the bytes gives the same policy. Bytes are a policy only if there are 200,
// the first 8 are the version, and every bit that is set after them belongs to an entry. This module also tries bytes
// that are not a policy.
ghost use Rattle.std.specs.Prelude.{◌<◌};

use crate::sets::same_policy;
use base::WORD_BYTES;
use emoji::unicode_data::{
    UNICODE_VERSION, UNICODE_VERSION_MAJOR, UNICODE_VERSION_MINOR, VARIATION_ENTRY_COUNT,
};
use policy::{POLICY_BYTES, Policy};
use std::{fmt, io};

// The number of bytes of a character set, and its last bit.
const SET_BYTES: usize = (POLICY_BYTES - WORD_BYTES) / 4;

const LAST_BIT: usize = 8 * SET_BYTES - 1;

// Returns what follows these words at the front of the bytes.
fn after_words<'a>(bytes: &'a [u8], words: &[u64]) -> Option<&'a [u8]> {
    let mut rest = bytes;
    for word in words {
        rest = rest.strip_prefix(&word.to_le_bytes())?;
    }
    Some(rest)
}

// Returns what follows the version and the words of a policy at the front of the bytes.
fn after_policy(bytes: &[u8], policy: Policy) -> Option<&[u8]> {
    let prefer_bare = policy.prefer_bare;
    let bare_as_text = policy.bare_as_text;
    let rest = after_words(bytes, &[UNICODE_VERSION])?;
    let rest = after_words(rest, &prefer_bare.chars.bits)?;
    let rest = after_words(rest, &prefer_bare.keycap_chars.bits)?;
    let rest = after_words(rest, &bare_as_text.chars.bits)?;
    after_words(rest, &bare_as_text.keycap_chars.bits)
}

// Returns the policy of these bytes.
fn policy_of(bytes: &[u8]) -> Option<Policy> {
    let read = policy::read_policy(bytes);
    read.accepted.then_some(read.policy)
}

// Tests whether the policy is written as the version and its words, and whether reading these bytes gives the policy.
pub(crate) fn round_trips(policy: Policy) -> bool {
    let mut bytes = [0u8; POLICY_BYTES];
    let Ok(len) = policy::write_policy(policy, &mut bytes) else {
        return false;
    };
    len == POLICY_BYTES
        && after_policy(&bytes, policy).is_some_and(|rest| rest.is_empty())
        && policy_of(&bytes).is_some_and(|read| same_policy(read, policy))
}

// The number of byte strings accepted, the number not accepted, and the number for which that is wrong.
#[derive(Clone, Copy, Debug, PartialEq, Eq)]
struct Tried {
    accepted: u64,
    refused: u64,
    wrong: u64,
}

// "policy bytes: 5 accepted, 11 not accepted, as it should be"
impl fmt::Display for Tried {
    fn fmt<W: fmt::Write>(&self, f: &mut fmt::Formatter<W>) -> fmt::Result {
        let accepted = self.accepted;
        let refused = self.refused;
        let wrong = self.wrong;
        write!(
            f,
            "policy bytes: {accepted} accepted, {refused} not accepted, "
        )?;
        if wrong > 0 {
            write!(f, "{wrong} of them wrongly")
        } else {
            write!(f, "as it should be")
        }
    }
}

impl Tried {
    // Tries bytes that should be accepted or not.
    fn try_bytes(&mut self, bytes: &[u8], is_policy: bool) {
        let is_accepted = policy_of(bytes).is_some();
        self.accepted = self.accepted.saturating_add(u64::from(is_accepted));
        self.refused = self.refused.saturating_add(u64::from(!is_accepted));
        self.wrong = self
            .wrong
            .saturating_add(u64::from(is_accepted != is_policy));
    }

    // Tries the policy without a key, with another byte at an offset.
    fn try_byte(&mut self, at: usize, byte: u8, is_policy: bool)
        requires { at < 200 }
    {
        let mut bytes = [0u8; POLICY_BYTES];
        bytes[0] = UNICODE_VERSION_MINOR as u8;
        bytes[1] = UNICODE_VERSION_MAJOR as u8;
        bytes[at] = byte;
        self.try_bytes(&bytes, is_policy);
    }

    // Tries the policy that has one bit of one set.
    fn try_bit(&mut self, set: usize, bit: usize, is_policy: bool)
        requires { (set < 4) × (bit < 384) }
    {
        let at = WORD_BYTES + set * SET_BYTES + bit / 8;
        self.try_byte(at, 1u8 << (bit % 8), is_policy);
    }

    // Tries the last used bit of a set, and the first and the last unused bit.
    fn try_set(&mut self, set: usize)
        requires { set < 4 }
    {
        self.try_bit(set, VARIATION_ENTRY_COUNT - 1, true);
        self.try_bit(set, VARIATION_ENTRY_COUNT, false);
        self.try_bit(set, LAST_BIT, false);
    }

    // Tries bytes of four lengths. Those of the right length are the policy without a key.
    fn try_lengths(&mut self) {
        let mut bytes = [0u8; POLICY_BYTES + 1];
        bytes[0] = UNICODE_VERSION_MINOR as u8;
        bytes[1] = UNICODE_VERSION_MAJOR as u8;
        self.try_bytes(&bytes[..0], false);
        self.try_bytes(&bytes[..POLICY_BYTES - 1], false);
        self.try_bytes(&bytes[..POLICY_BYTES], true);
        self.try_bytes(&bytes, false);
    }

    // Tries four other versions: the next minor one, the major one before, none, and one with its highest bit set.
    fn try_versions(&mut self) {
        self.try_byte(0, UNICODE_VERSION_MINOR as u8 + 1, false);
        self.try_byte(1, UNICODE_VERSION_MAJOR as u8 - 1, false);
        self.try_byte(1, 0, false);
        self.try_byte(7, 0x80, false);
    }
}

// Tries the policies and writes the counts.
pub(crate) fn try_policies(rt: &impl Print) -> io::Result<()> {
    let mut tried = Tried {
        accepted: 0,
        refused: 0,
        wrong: 0,
    };
    tried.try_lengths();
    tried.try_versions();
    for set in 0..4 {
        tried.try_set(set);
    }
    println!(rt; "{tried}")
}
