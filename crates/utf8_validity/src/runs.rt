// Runs of characters of one width or of two. After a character, a text mostly goes on with characters of a similar width. The test of a
// text skips them in a loop that makes few tests. `width_end` skips only characters (`CharsBetween` of specs/Runs.antt). Its contract does
// not say that it skips all of the run.
ghost use Rattle.std.specs.Prelude.{◌≡◌, true, ◌-◌, ◌/◌, ◌<◌, ◌≤◌, length};
ghost use Rattle.utf8_validity.specs.Runs.{CharsBetween};

// Multiplies a number by 0 or 1. A branch in its place would often be predicted wrongly, since words end at no regular distance.
fn masked(x: usize, bit: usize) -> usize
    requires { (x ≤ 0xFFFF) × (bit ≤ 1) }
    ensures { (result ≤ x) × (bit ≡ 1 → result ≡ x) }
{
    x * bit
}

// How many bytes follow the first byte of a character of one or two bytes.
fn bytes_after(first: u8) -> usize
    ensures { (result ≡ first / 128) × (result ≤ 1) }
{
    (first / 128) as usize
}

// Whether a first and a last byte are those of a character of one byte or of two (RFC 3629, section 4, UTF8-1 and UTF8-2). Of a character
// of one byte they are the same byte, so that both are ASCII or neither.
fn short_fits(first: u8, last: u8) -> bool
    ensures { result ≡ true → 0x80 ≤ first → (0xC2 ≤ first) × (first ≤ 0xDF) × (0x80 ≤ last) × (last ≤ 0xBF) }
{
    let more = bytes_after(first);
    masked(first as usize + 62, more) % 256 <= 0x1D && bytes_after(last) == more && last <= 0xBF
}

// Skips characters of one and of two bytes, and returns the offset after them. It stops after three of one byte in sequence, because
// `ascii_end` skips those faster.
fn short_end(s: &[u8], from: usize) -> usize
    requires { from ≤ length s.now }
    ensures { CharsBetween s.now from result }
{
    let mut at = from;
    let mut ascii: usize = 0;
    while ascii < 3 {
        if s.len() - at < 2 {
            return at;
        }
        let more = bytes_after(s[at]);
        if !short_fits(s[at], s[at + more]) {
            return at;
        }
        at += 1 + more;
        ascii = masked(ascii + 1, 1 - more);
    }
    at
}

// Whether three bytes are a character whose first byte is E1 to EF and not ED. Its second byte can be any tail (UTF8-3). One range
// and a test of ED take fewer instructions than two ranges.
fn three_fits(a: u8, b: u8, c: u8) -> bool
    ensures { result ≡ true → (0xE1 ≤ a) × (a ≤ 0xEF) × (a ≡ 0xED → ⊥) × (0x80 ≤ b) × (b ≤ 0xBF) × (0x80 ≤ c) × (c ≤ 0xBF) }
{
    a != 0xED && matches!((a, b, c), (0xE1..=0xEF, 0x80..=0xBF, 0x80..=0xBF))
}

// Skips characters of three bytes whose first byte is E1 to EF and not ED, and returns the offset after them.
fn three_end(s: &[u8], from: usize) -> usize
    requires { from ≤ length s.now }
    ensures { CharsBetween s.now from result }
{
    let mut at = from;
    while s.len() - at >= 3 && three_fits(s[at], s[at + 1], s[at + 2]) {
        at += 3;
    }
    at
}

// How many bytes follow the first byte of a character of three or four bytes.
fn bytes_after_long(first: u8) -> usize
    requires { 0xE0 ≤ first }
    ensures { (result ≡ first / 16 - 12) × (result ≤ 3) }
{
    (first / 16 - 12) as usize
}

// Whether a character may begin with a first byte from E1 on and a second byte that is a tail. E0, ED and F4, after which the second byte
// has other ranges (UTF8-3 and UTF8-4), are left to `decode`. The last test is that for F0 80 to F0 8F.
fn long_fits(first: u8, second: u8) -> bool
    ensures { result ≡ true → (first ≤ 0xF3) × (first ≡ 0xED → ⊥) × (first ≡ 0xF0 → 0x80 ≤ second → 0x90 ≤ second) }
{
    first <= 0xF3
        && first != 0xED
        && 16 <= (256 * (first as usize) + (second as usize) + 0xF80) % 65536
}

// Whether three bytes are tails.
fn are_tails(a: u8, b: u8, c: u8) -> bool
    ensures { result ≡ true → (0x80 ≤ a) × (a ≤ 0xBF) × (0x80 ≤ b) × (b ≤ 0xBF) × (0x80 ≤ c) × (c ≤ 0xBF) }
{
    matches!((a, b, c), (0x80..=0xBF, 0x80..=0xBF, 0x80..=0xBF))
}

// Skips characters of three and of four bytes, and returns the offset after them. The third byte of a character of three bytes is its last.
fn long_end(s: &[u8], from: usize) -> usize
    requires { from ≤ length s.now }
    ensures { CharsBetween s.now from result }
{
    let mut at = from;
    loop {
        if s.len() - at < 4 {
            return at;
        }
        if s[at] < 0xE1 {
            return at;
        }
        if !long_fits(s[at], s[at + 1]) {
            return at;
        }
        let more = bytes_after_long(s[at]);
        if !are_tails(s[at + 1], s[at + 2], s[at + more]) {
            return at;
        }
        at += 1 + more;
    }
}

// Skips characters from an offset on, and returns the offset after them. `width` is that of the character before the offset: the function
// mostly skips characters of the same width. It skips none if the offset is not before the end of the text.
pub fn width_end(s: &[u8], from: usize, width: usize) -> usize
    ensures inside { from ≤ length s.now → CharsBetween s.now from result }
    ensures past { length s.now < from → result ≡ from }
{
    if s.len() <= from {
        return from;
    }
    if width == 1 {
        return ascii_runs::ascii_end(s, from);
    }
    if width == 2 {
        if s[from] < 0x80 {
            return from;
        }
        return short_end(s, from);
    }
    if width == 3 {
        return three_end(s, from);
    }
    long_end(s, from)
}
