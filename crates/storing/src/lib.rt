// The calls of a store: document 02, (x). A store is lent bytes (crate store). `begin` equals `begin_call`, `charge` equals `charge_call`,
// `file` equals `file_call` and `release` equals `release_call` (crate store, specs/Bytes.antt), each for any bytes.
// A filing takes formatting's answer first, then charges, and then writes: nothing is written before refusals 13 and 14 are known. It does
// not call `format_text`, which so keeps one caller in the static library (docs/DECISIONS.md, decision 247).
// What a client uses is kept as a sum, so that a charge reads 50 words, whatever the store holds.
#![tactic(auto)]

ghost use Rattle.std.specs.Prelude.{◌≡◌, ℕ, ◌+◌, ◌*◌, ◌-◌, ◌%◌, ◌≤◌, ◌<◌, leb, get_or, length};
ghost use Rattle.std.proofs.lemmas.List.Edits.{sets};
ghost use Rattle.base.specs.Words.{word_at};
ghost use Rattle.base.specs.Answers.{EndsAs, check_row, answer_row};
ghost use Rattle.base.specs.Sums.{capped, most, sum_below};
ghost use Rattle.policy.specs.PolicyBytes.{numbers_of};
ghost use Rattle.store.specs.Bytes.{EndsFiled, begin_call, charge_call, common_left_of, file_call, give_back, has_place, is_taken, left_of};
ghost use Rattle.store.specs.Bytes.{new_bytes, new_words, overflow_of, put_word, release_call, reserve_word};
ghost use Rattle.store.specs.Bytes.{used_word};
ghost use Rattle.store.specs.Bytes as Bytes;

use base::Refusal;
use formatting::{format_answer, write_formatted};
use store::{CLIENTS, FIRST_USED, STORE_BYTES};

const WORDS: usize = 4_129;

// The bytes of 16 reserves.
const RESERVES_BYTES: usize = 128;

const NUMBERS: usize = 256;

// The index of the word of number 0 of client 0.
const FIRST_PLACE: usize = 33;

// Returns a word of a store.
fn word(store: &[u8], k: usize) -> usize
    requires { k < 4129 }
    ensures { (result ≡ word_at k store.now) × (result ≤ most) }
{
    base::read_word(store, 8 * k) as usize
}

// Puts a word into a store.
fn put(store: &mut [u8], k: usize, w: usize)
    requires { (length store.old ≡ 33032) × (k < 4129) }
    ensures { store.new ≡ put_word k w store.old }
{
    base::write_word(store, 8 * k, w as u64);
}

// Returns the sum of all reserves, or the largest number.
fn reserved(store: &[u8]) -> usize
    ensures { result ≡ capped (sum_below 16 (λ (c : ℕ). word_at (reserve_word c) store.now)) }
{
    let mut sum: usize = 0;
    for c in 0..CLIENTS {
        sum = sum.saturating_add(word(store, 1 + c));
    }
    sum
}

// Returns what a client uses beyond its reserve.
fn overflow(store: &[u8], c: usize) -> usize
    requires { c < 16 }
    ensures { result ≡ overflow_of store.now c }
{
    word(store, FIRST_USED + c).saturating_sub(word(store, 1 + c))
}

// Returns what all clients use beyond their reserves, or the largest number.
fn overflowed(store: &[u8]) -> usize
    ensures { result ≡ capped (sum_below 16 (overflow_of store.now)) }
{
    let mut sum: usize = 0;
    for c in 0..CLIENTS {
        sum = sum.saturating_add(overflow(store, c));
    }
    sum
}

// Returns what is left of the common part.
fn common_left(store: &[u8]) -> usize
    ensures { result ≡ common_left_of store.now }
{
    word(store, 0)
        .saturating_sub(reserved(store))
        .saturating_sub(overflowed(store))
}

// Returns what is left of a client's reserve and of the common part together.
fn left(store: &[u8], c: usize) -> usize
    requires { c < 16 }
    ensures { result ≡ left_of store.now c }
{
    word(store, 1 + c).saturating_sub(word(store, FIRST_USED + c)) + common_left(store)
}

// Tests whether bytes have the length of a store, and client and number are within their limits.
fn has_place(store: &[u8], client: usize, number: usize) -> bool
    ensures { result ≡ has_place store.now client number }
{
    if store.len() != STORE_BYTES || CLIENTS <= client {
        return false;
    }
    number < NUMBERS
}

// Tests whether a number is in use.
fn is_taken(store: &[u8], client: usize, number: usize) -> bool
    requires { (client < 16) × (number < 256) }
    ensures { result ≡ is_taken store.now client number }
{
    word(store, FIRST_PLACE + NUMBERS * client + number) != 0
}

// Puts the words of a charge.
fn put_charge(store: &mut [u8], client: usize, number: usize, bytes: usize)
    requires { (length store.old ≡ 33032) × (client < 16) × (number < 256) × (bytes < 18446744073709551615)
        × (word_at (used_word client) store.old + bytes ≤ 18446744073709551615) }
    ensures { store.new ≡ Bytes.charge client number bytes store.old }
{
    let used = word(store, FIRST_USED + client);
    put(store, FIRST_USED + client, used + bytes);
    put(store, FIRST_PLACE + NUMBERS * client + number, bytes + 1);
}

// Charges bytes to a client under a number, or refuses by 13 or 14.
pub fn charge(store: &mut [u8], client: usize, number: usize, bytes: usize) -> Result<(), Refusal>
    ensures { EndsAs check_row (charge_call store.old client number bytes) result store.new }
{
    if !has_place(store, client, number) {
        return Err(Refusal::BadClientOrNumber);
    }
    if is_taken(store, client, number) {
        return Err(Refusal::BadClientOrNumber);
    }
    let fits = left(store, client);
    if fits < bytes {
        return Err(Refusal::DoesNotFit { fits });
    }
    if bytes == usize::MAX {
        return Err(Refusal::DoesNotFit { fits });
    }
    put_charge(store, client, number, bytes);
    Ok(())
}

// Files a message: charges its formatted length to a client under a number, and writes the formatted text if it differs from the text.
pub fn file(
    store: &mut [u8],
    text: &[u8],
    policy: &[u8],
    client: usize,
    number: usize,
    out: &mut [u8],
) -> Result<Option<usize>, Refusal>
    ensures { EndsFiled
        (file_call store.old text.now policy.now client number out.old) result
        store.new out.new }
{
    let answer = format_answer(text, policy, out.len())?;
    let len = answer.unwrap_or(text.len());
    charge(store, client, number, len)?;
    if answer.is_some() {
        write_formatted(text, policy, out, 0);
    }
    Ok(answer)
}

// Takes bytes off what a client uses, and frees the number.
fn put_back(store: &mut [u8], client: usize, number: usize, bytes: usize)
    requires { (length store.old ≡ 33032) × (client < 16) × (number < 256) }
    ensures { store.new ≡ give_back client number bytes store.old }
{
    let used = word(store, FIRST_USED + client);
    put(store, FIRST_USED + client, used.saturating_sub(bytes));
    put(store, FIRST_PLACE + NUMBERS * client + number, 0);
}

// Releases the message that a client filed under a number. The answer has the number of bytes given back.
pub fn release(store: &mut [u8], client: usize, number: usize) -> Result<usize, Refusal>
    ensures { EndsAs answer_row (release_call store.old client number) result store.new }
{
    if !has_place(store, client, number) {
        return Err(Refusal::BadClientOrNumber);
    }
    if !is_taken(store, client, number) {
        return Err(Refusal::BadClientOrNumber);
    }
    let bytes = word(store, FIRST_PLACE + NUMBERS * client + number).saturating_sub(1);
    put_back(store, client, number, bytes);
    Ok(bytes)
}

// Tests whether reserves sum to at most a capacity. Each reserve is taken from what is left of the capacity, because the sum can be greater
// than the largest number.
fn reserves_fit(capacity: usize, reserves: &[u8]) -> bool
    ensures { result ≡ leb (sum_below 16 (λ (c : ℕ). word_at c reserves.now)) capacity }
{
    let mut rest = capacity;
    for c in 0..CLIENTS {
        match rest.checked_sub(word(reserves, c)) {
            Some(left) => rest = left,
            None => return false,
        }
    }
    true
}

// Returns a word of a new store: the capacity, a reserve, or 0.
fn new_word(capacity: usize, reserves: &[u8], k: usize) -> usize
    requires { (length reserves.now % 8 ≡ 0) × (k < 4129) }
    ensures { result ≡ get_or (new_words capacity (numbers_of reserves.now)) k 0 }
{
    if k == 0 {
        return capacity;
    }
    word(reserves, k - 1)
}

// Puts the words of a new store at the front of a buffer.
fn put_new(capacity: usize, reserves: &[u8], store: &mut [u8])
    requires { (length reserves.now % 8 ≡ 0) × (length reserves.now ≤ 128) × (33032 ≤ length store.old) }
    ensures { store.new ≡ sets store.old 0 (new_bytes capacity (numbers_of reserves.now)) }
{
    for k in 0..WORDS {
        base::write_word(store, 8 * k, new_word(capacity, reserves, k) as u64);
    }
}

// Begins a store in a lent buffer. The reserves are numbers of 8 bytes, from client 0 on.
pub fn begin(capacity: usize, reserves: &[u8], store: &mut [u8]) -> Result<usize, Refusal>
    ensures { EndsAs answer_row (begin_call capacity reserves.now store.old) result store.new }
{
    if store.len() < STORE_BYTES {
        return Err(Refusal::OutputTooShort {
            wanted: STORE_BYTES,
        });
    }
    if reserves.len() % 8 != 0 || RESERVES_BYTES < reserves.len() {
        return Err(Refusal::BadClientOrNumber);
    }
    if !reserves_fit(capacity, reserves) {
        return Err(Refusal::DoesNotFit { fits: capacity });
    }
    put_new(capacity, reserves, store);
    Ok(STORE_BYTES)
}
