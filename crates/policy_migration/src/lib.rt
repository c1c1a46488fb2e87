// Carrying a policy over from the tables of another Unicode version (document 02, xii). The crate evfmt has no such call. `carry_policy`
// equals `carry_call` (specs/Carry.antt) for all inputs: an entry of both tables keeps its four memberships, an entry that is gone is
// dropped, and a new entry gets the memberships of the default policy.
#![tactic(auto)]

ghost use Rattle.std.specs.Prelude.{◌≡◌, true, ◌||◌, not, ◌∷◌, ℕ, ◌+◌, ◌*◌, ◌/◌, ◌%◌, ◌≤◌, ◌<◌, ltb, get_or, length};
ghost use Rattle.std.proofs.lemmas.List.Edits.{sets};
ghost use Rattle.base.specs.Answers.{EndsAs, answer_row};
ghost use Rattle.emoji.specs.Tables.{ascending, index_of};
ghost use Rattle.emoji.specs.UnicodeData.{unicode_version};
ghost use Rattle.policy_key_set.specs.Sets.{all_below, member};
ghost use Rattle.policy.specs.DefaultPolicy.{default_policy};
ghost use Rattle.policy.specs.PolicyBytes.{numbers_of, policy_bytes, policy_words, words_from};
ghost use Rattle.policy_migration.specs.Carry.{carried, carried_set, carried_test, carry_call};
ghost use Rattle.policy_migration.specs.Carry.{is_entry_list, is_old_policy};
ghost use Rattle.policy_migration.specs.Helpers.{set_at};

use base::{Refusal, WORD_BYTES};
use emoji::unicode_data::UNICODE_VERSION;
use policy::{POLICY_BYTES, Policy};
use policy_key_set::named_sets::CHARSET_WORDS;

// The number of words of a policy.
const POLICY_WORDS: usize = 4 * CHARSET_WORDS + 1;

// Returns the number at a place of the old list.
fn number_at(entries: &[u8], j: usize) -> u64
    requires { j < length entries.now / 8 }
    ensures { result ≡ get_or (numbers_of entries.now) j 0 }
{
    base::read_word(entries, 8 * j)
}

// Tests whether the numbers of the old list ascend strictly.
fn is_ascending(entries: &[u8]) -> bool
    ensures { result ≡ ascending (numbers_of entries.now) }
{
    let count = entries.len() / 8;
    for j in 1..count {
        if number_at(entries, j) <= number_at(entries, j - 1) {
            return false;
        }
    }
    true
}

// Returns the place of a number in an ascending list. The numbers stand in lent bytes (C interface), so there is no slice of numbers that
// std could search.
fn index_of(entries: &[u8], c: u64) -> Option<usize>
    requires { ascending (numbers_of entries.now) ≡ true }
    ensures { result ≡ index_of c (numbers_of entries.now) }
{
    let mut lo = 0;
    let mut hi = entries.len() / 8;
    while lo < hi {
        let mid = lo + (hi - lo) / 2;
        let n = number_at(entries, mid);
        if n == c {
            return Some(mid);
        }
        if n < c {
            lo = mid + 1;
            continue;
        }
        hi = mid;
    }
    None
}

// Tests a bit of words. The words start at an offset.
fn old_bit(policy: &[u8], at: usize, words: usize, j: usize) -> bool
    requires { (j < words * 64) × (at + words * 64 < 9223372036854775808) }
    ensures { result ≡ member j (words_from words at policy.now) }
{
    base::has_bit(base::read_word(policy, at + j / 64 * 8), j)
}

// Tests whether the bits of words are 0 from a place on. The words start at an offset.
fn no_unused(policy: &[u8], at: usize, words: usize, count: usize) -> bool
    requires { at + words * 64 < 9223372036854775808 }
    ensures { result ≡ all_below (words * 64) (λ (i : ℕ). ltb i count || not (member i (words_from words at policy.now))) }
{
    for i in count..words * 64 {
        if old_bit(policy, at, words, i) {
            return false;
        }
    }
    true
}

// Writes the bytes of the default policy.
fn put_default(out: &mut [u8; POLICY_BYTES])
    ensures { (length out.new ≡ 200) × (out.new ≡ policy_bytes default_policy) }
{
    let _ = policy::write_policy(Policy::default(), out);
}

// Tests whether the carried set at a place k has entry i of ours: as the old set has it, or else as the default policy's set has it.
fn carried_bit(entries: &[u8], policy: &[u8], default: &[u8], k: usize, i: usize) -> bool
    requires { (k < 4) × (i < 384) × (default.now ≡ policy_bytes default_policy) × (ascending (numbers_of entries.now) ≡ true) }
    ensures { result ≡ carried_test (numbers_of entries.now) policy.now (set_at k) i }
{
    let words = (entries.len() / 8 + 63) / 64;
    match emoji::variation_entry(i) {
        None => false,
        Some(ch) => match index_of(entries, ch as u64) {
            Some(j) => old_bit(policy, 8 + k * (words * 8), words, j),
            None => old_bit(default, 8 + k * 48, 6, i),
        },
    }
}

// Returns word w of the carried set at a place k, made from its highest bit down.
fn carried_word(entries: &[u8], policy: &[u8], default: &[u8], k: usize, w: usize) -> u64
    requires { (k < 4) × (w < 6) × (default.now ≡ policy_bytes default_policy) × (ascending (numbers_of entries.now) ≡ true) }
    ensures { result ≡ get_or (carried_set (numbers_of entries.now) policy.now (set_at k)) w 0 }
{
    let mut acc: u64 = 0;
    for b in (0..64).rev() {
        acc = u64::from(carried_bit(entries, policy, default, k, 64 * w + b)) + 2 * acc;
    }
    acc
}

// Returns word n of the result: the version, or a word of one of the four sets.
fn new_word(entries: &[u8], policy: &[u8], default: &[u8], n: usize) -> u64
    requires { (n < 25) × (default.now ≡ policy_bytes default_policy) × (ascending (numbers_of entries.now) ≡ true) }
    ensures { result ≡ get_or (unicode_version ∷ policy_words (carried (numbers_of entries.now) policy.now)) n 0 }
{
    if n == 0 {
        return UNICODE_VERSION;
    }
    carried_word(entries, policy, default, (n - 1) / 6, (n - 1) % 6)
}

// Writes the words of the result.
fn put_policy(entries: &[u8], policy: &[u8], default: &[u8], out: &mut [u8])
    requires { (200 ≤ length out.old) × (default.now ≡ policy_bytes default_policy) × (ascending (numbers_of entries.now) ≡ true) }
    ensures { out.new
        ≡ sets out.old 0 (policy_bytes (carried (numbers_of entries.now) policy.now)) }
{
    let mut at = 0;
    for n in 0..POLICY_WORDS {
        base::write_word(out, at, new_word(entries, policy, default, n));
        at += WORD_BYTES;
    }
}

// Tests the old list: its bytes are whole numbers, the old policy has as many words as it wants, and it ascends.
fn is_old_list(entries: &[u8], policy: &[u8]) -> bool
    ensures { result ≡ is_entry_list entries.now policy.now }
{
    if entries.len() % 8 != 0 {
        return false;
    }
    let words = (entries.len() / 8 + 63) / 64;
    if policy.len() != 8 * (4 * words + 1) {
        return false;
    }
    is_ascending(entries)
}

// Tests whether the unused bits of the old policy are 0.
fn is_old_policy(entries: &[u8], policy: &[u8]) -> bool
    ensures { result ≡ is_old_policy (numbers_of entries.now) policy.now }
{
    let count = entries.len() / 8;
    let words = (count + 63) / 64;
    if !no_unused(policy, 8, words, count) {
        return false;
    }
    if !no_unused(policy, 8 + words * 8, words, count) {
        return false;
    }
    if !no_unused(policy, 8 + 2 * (words * 8), words, count) {
        return false;
    }
    no_unused(policy, 8 + 3 * (words * 8), words, count)
}

// Carries a policy over to our tables: writes the new policy at the front of the output, or refuses.
pub fn carry_policy(entries: &[u8], policy: &[u8], out: &mut [u8]) -> Result<usize, Refusal>
    ensures { EndsAs answer_row (carry_call entries.now policy.now out.old) result out.new }
{
    if !is_old_list(entries, policy) {
        return Err(Refusal::NotAnEntryList);
    }
    if !is_old_policy(entries, policy) {
        return Err(Refusal::NotAPolicy);
    }
    if out.len() < POLICY_BYTES {
        return Err(Refusal::OutputTooShort {
            wanted: POLICY_BYTES,
        });
    }
    let mut default = [0u8; POLICY_BYTES];
    put_default(&mut default);
    put_policy(entries, policy, &default, out);
    Ok(POLICY_BYTES)
}
