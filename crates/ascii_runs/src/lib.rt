// Finds the end of a run of ASCII bytes, eight bytes at a time. ASCII bytes are the bytes up to 7F; each is a character
// of one byte (RFC 3629, section 4, UTF8-1). `ascii_end` equals `ascii_end` in specs/Ascii. The Rust crate has no such
// function, since it gets a `str`.
#![tactic(auto)]

ghost use Rattle.std.specs.Prelude.{◌≡◌, ◌+◌, ◌/◌, ◌≤◌, ◌<◌, drop, get_or, length, nat_lt, take, take_while};
ghost use Rattle.std.specs.Int.Count.{count_trailing_zeros};
ghost use Rattle.ascii_runs.specs.Ascii.{AllUpTo, ascii_end};
ghost use Rattle.base.specs.Words.{number};

use base::WORD_BYTES;

// The highest bit of each byte of a word. It is 1 where the byte is above 7F.
const HIGH_BITS: u64 = 0x8080_8080_8080_8080;

// Counts the zero bytes of a word before the first byte that is not zero, lowest byte first.
fn zero_bytes(w: u64) -> usize
    ensures { (result ≡ count_trailing_zeros 64 w / 8) × (result ≤ 8) }
{
    (w.trailing_zeros() / 8) as usize
}

// Counts the ASCII bytes before the first other byte. It looks at one byte at a time.
fn ascii_bytes(s: &[u8]) -> usize
    ensures { result ≡ length (take_while (λ b. nat_lt b 128) s.now) }
{
    s.iter().take_while(|b| **b < 0x80).count()
}

// Returns the number that the eight bytes from the offset `at` encode. There are eight, so unlike `base::read_word` it makes
// no test.
fn word_at(s: &[u8], at: usize) -> u64
    requires { at + 8 ≤ length s.now }
    ensures { result ≡ number (take 8 (drop at s.now)) }
{
    let (words, _) = s[at..at + WORD_BYTES].as_chunks::<WORD_BYTES>();
    u64::from_le_bytes(words[0])
}

// Reads the eight bytes at the offset `at`, skips the first `passed` of them, and counts the ASCII bytes before the
// first other byte.
fn ascii_in_word(s: &[u8], at: usize, passed: usize) -> usize
    requires { passed ≤ 7 }
    ensures ascii { (AllUpTo 0x7F s.now (at + passed) result) × (passed + result ≤ 8) }
    ensures next { passed + result < 8 → 0x7F < get_or s.now (at + passed + result) 0 }
{
    let high = (base::read_word(s, at) & HIGH_BITS) >> (8 * passed);
    let left = WORD_BYTES - passed;
    let low = zero_bytes(high);
    if left < low {
        return left;
    }
    low
}

// Returns the end of the run of ASCII bytes that starts at an offset. The last word ends where the bytes end, so it may
// overlap the word before it. A loop over `as_chunks` takes more instructions for a short run, and most runs are short where
// other letters have more bytes.
pub fn ascii_end(s: &[u8], from: usize) -> usize
    ensures { result ≡ ascii_end s.now from }
{
    let Some(rest) = s.get(from..) else {
        return from;
    };
    if s.len() < WORD_BYTES {
        return from + ascii_bytes(rest);
    }
    let last = s.len() - WORD_BYTES;
    let mut at = from;
    while at <= last {
        let high = word_at(s, at) & HIGH_BITS;
        if high != 0 {
            return at + zero_bytes(high);
        }
        at += WORD_BYTES;
    }
    if s.len() <= at {
        return at;
    }
    at + ascii_in_word(s, last, at - last)
}
