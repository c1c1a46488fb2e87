// The types and functions that every crate uses: the refusals of document 01's table, capped sums, tests of one bit,
// reads of one byte, and numbers of eight bytes (document 01: "There a policy word, a start, an end or a count is 8 bytes, lowest
// first"). `read_word` returns `number` of eight bytes. `write_word` writes `word_bytes`, `write_numbers` writes
// `bytes_of`, and `write_bytes` writes its argument.
#![tactic(auto)]

pub mod refusals;

ghost use Rattle.std.specs.Prelude.{◌≡◌, cond, ◌+◌, ◌*◌, ◌%◌, ◌≤◌, ◌<◌, drop, get_or, length, take};
ghost use Rattle.std.proofs.lemmas.List.Edits.{sets};
ghost use Rattle.base.specs.Bits.{one};
ghost use Rattle.base.specs.Output.{WritesAt};
ghost use Rattle.base.specs.Sums.{capped};
ghost use Rattle.base.specs.Words.{bytes_of, has_room, number, word_bytes};

pub const WORD_BYTES: usize = 8;

// "16,777,216 bytes pass, 16,777,217 don't."
pub const TEXT_LIMIT: usize = 16_777_216;

// The reason why a call is refused, with the value that is returned: a row of document 01's table, with those of
// document 02. The methods in refusals.rt give the number and the value.
#[derive(Clone, Copy, Debug, PartialEq, Eq)]
pub enum Refusal {
    TextTooLong,
    NotAPolicy,
    NotWellFormed { valid_up_to: usize },
    NoFinding,
    WrongNumberOfDecisions { wanted: usize },
    BadDecision { index: usize },
    TableTooShort { findings: usize },
    OutputTooShort { wanted: usize },
    FeedEnded,
    UnfinishedCharacter,
    NotASheet { offset: usize },
    NotAnEntry { offset: usize },
    BadClientOrNumber,
    DoesNotFit { fits: usize },
    OtherVersion,
    NotAnEntryList,
}

// The sum of two numbers, or the largest number if the sum is greater.
pub fn add_count(a: usize, b: usize) -> usize
    ensures { result ≡ capped (a + b) }
{
    a.saturating_add(b)
}

// Tests whether bit i mod 64 of a word is 1.
pub fn has_bit(w: u64, i: usize) -> bool
    ensures { result ≡ one (i % 64) w }
{
    (w >> (i % 64)) % 2 == 1
}

// Returns the byte at offset at + i, or 0 if the slice ends before it. It tests offsets: a loop that reads three bytes by
// `get` tests the length for each of them, and takes twice as many instructions.
pub fn byte_at(s: &[u8], at: usize, i: usize) -> u8
    ensures { result ≡ get_or (drop at s.now) i 0 }
{
    if at < s.len() && i < s.len() - at {
        s[at + i]
    } else {
        0
    }
}

// Returns the number that four bytes encode, lowest byte first. A byte after the end counts as 0.
fn half(s: &[u8], at: usize) -> u64
    ensures { (result ≡ number (take 4 (drop at s.now))) × (result ≤ 0xFFFFFFFF) }
{
    u64::from(byte_at(s, at, 0))
        + 256 * u64::from(byte_at(s, at, 1))
        + 65536 * (u64::from(byte_at(s, at, 2)) + 256 * u64::from(byte_at(s, at, 3)))
}

// Returns the number that fewer than eight bytes encode.
fn short_word(bytes: &[u8]) -> u64
    requires { length bytes.now < 8 }
    ensures { result ≡ number bytes.now }
{
    half(bytes, 0) + 0x1_0000_0000 * half(bytes, 4)
}

// Returns the number that the eight bytes from the offset `at` encode. A byte after the end counts as 0.
pub fn read_word(s: &[u8], at: usize) -> u64
    ensures { result ≡ number (take 8 (drop at s.now)) }
{
    let Some(rest) = s.get(at..) else {
        return 0;
    };
    match rest.first_chunk::<WORD_BYTES>() {
        Some(word) => u64::from_le_bytes(*word),
        None => short_word(rest),
    }
}

// Stores the eight bytes of a number.
#[tactic(auto, using(crate::proofs::Words::le_word))]
fn put_word(out: &mut [u8], at: usize, x: u64)
    requires { at + 8 ≤ length out.old }
    ensures { out.new ≡ sets out.old at (word_bytes x) }
{
    out[at..at + WORD_BYTES].copy_from_slice(&x.to_le_bytes());
}

// Copies bytes to an offset. The compiler makes this loop take 32 bytes a turn, or turns it into a call of `memcpy`.
// `copy_from_slice` of a slice is a call of `memmove`, a name that hosts in C would then have to supply too.
fn put_bytes(out: &mut [u8], start: usize, bytes: &[u8])
    requires { start + length bytes.now ≤ length out.old }
    ensures { out.new ≡ sets out.old start bytes.now }
{
    let mut at = start;
    for byte in bytes {
        out[at] = *byte;
        at += 1;
    }
}

// Writes bytes at an offset and returns true. Without room for them it returns false and changes nothing.
pub fn write_bytes(out: &mut [u8], at: usize, bytes: &[u8]) -> bool
    ensures { WritesAt bytes.now out.old at result out.new }
{
    if out.len() < bytes.len() || out.len() - bytes.len() < at {
        return false;
    }
    put_bytes(out, at, bytes);
    true
}

// Writes the eight bytes of a number at an offset and returns true. Without room for them it returns false and changes
// nothing.
#[tactic(auto, using(crate::proofs::Words::le_word))]
pub fn write_word(out: &mut [u8], at: usize, x: u64) -> bool
    ensures { (result ≡ has_room out.old at)
        × (out.new ≡ cond (has_room out.old at) (sets out.old at (word_bytes x)) out.old) }
{
    write_bytes(out, at, &x.to_le_bytes())
}

// Stores the eight bytes of a `usize` at an offset.
fn put_number(out: &mut [u8], at: usize, n: usize)
    requires { at + 8 ≤ length out.old }
    ensures { out.new ≡ sets out.old at (word_bytes n) }
{
    put_word(out, at, n as u64);
}

// Stores numbers from an offset on, eight bytes each.
fn put_numbers(out: &mut [u8], start: usize, numbers: &[usize])
    requires { start + length numbers.now * 8 ≤ length out.old }
    ensures { out.new ≡ sets out.old start (bytes_of numbers.now) }
{
    let mut at = start;
    for number in numbers {
        put_number(out, at, *number);
        at += WORD_BYTES;
    }
}

// Writes numbers at an offset, eight bytes each, and returns true. Without room for them it returns false and changes
// nothing.
#[tactic(auto, using(crate::proofs::Numbers::length_bytes_of_lem))]
pub fn write_numbers(out: &mut [u8], at: usize, numbers: &[usize]) -> bool
    ensures { WritesAt (bytes_of numbers.now) out.old at result out.new }
{
    if out.len() / WORD_BYTES < numbers.len() || out.len() - numbers.len() * WORD_BYTES < at {
        return false;
    }
    put_numbers(out, at, numbers);
    true
}
