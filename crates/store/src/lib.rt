// A store that clients share, in lent bytes: document 02, (x). The Rust crate has no such type. This crate has the answer type of the
// calls, and the call that needs no formatting and changes nothing: `used` equals `used_call` (specs/Bytes.antt). The other calls are in
// crate storing. specs/Store.antt and specs/Calls.antt say what a store holds and what each call does, specs/Bytes.antt how bytes
// represent it, and `EveryStoreInBytes` of specs/Theorems.antt what holds after every list of calls.
#![tactic(auto)]

ghost use Rattle.std.specs.Prelude.{◌≡◌, ◌<◌};
ghost use Rattle.base.specs.Words.{word_at};
ghost use Rattle.base.specs.Answers.{Answers, answer_row};
ghost use Rattle.store.specs.Bytes.{used_call};

use base::Refusal;

// The number of bytes of a store: 4,129 words of 8 bytes.
pub const STORE_BYTES: usize = 33_032;

pub const CLIENTS: usize = 16;

// The index of the word of what client 0 uses: the capacity and the reserves stand before it.
pub const FIRST_USED: usize = 17;

// Returns a word of a store.
fn word(store: &[u8], k: usize) -> usize
    requires { k < 4129 }
    ensures { result ≡ word_at k store.now }
{
    base::read_word(store, 8 * k) as usize
}

// Returns the number of bytes charged to a client, or refusal 13.
pub fn used(store: &[u8], client: usize) -> Result<usize, Refusal>
    ensures { Answers answer_row (used_call store.now client) result }
{
    if store.len() != STORE_BYTES {
        return Err(Refusal::BadClientOrNumber);
    }
    if CLIENTS <= client {
        return Err(Refusal::BadClientOrNumber);
    }
    Ok(word(store, FIRST_USED + client))
}
