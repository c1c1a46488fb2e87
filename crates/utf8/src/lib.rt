// Decodes characters as in RFC 3629, sections 3 and 4. Document 01 ("Character") adds this to the port, since the Rust
// crate gets a `str`. The functions equal definitions of specs/Rfc3629: `read_char` is `read_char`, `char_len` its width,
// `decode` its packed number, `bad_width` is `subpart_of`, and `is_scalar` is `is_scalar`.
#![tactic(auto)]

ghost use Rattle.std.specs.Prelude.{◌≡◌, cond, ◌+◌, ◌*◌, ◌≤◌, length, drop, get_or};
ghost use Rattle.base.specs.Ranges.{within};
ghost use Rattle.utf8.specs.Rfc3629.{begun_2, read_char, char_len, packed, subpart_of, is_scalar, utf8_3, utf8_4, value_3, value_4};

// The result of reading at an offset of a text: a character, a bad place with the number of bytes of its maximal subpart, or the end.
#[derive(Clone, Copy, Debug, PartialEq, Eq)]
pub enum ReadChar {
    Char { value: u32, width: usize },
    IllFormed { width: usize },
    End,
}

// Decodes the character at an offset. The result is the packed number, 8 times the value plus the width, or 0 if no
// character begins there. A number is returned in a register, and an enum through memory: an `Option` of two numbers took
// up to twice the time. The tests of this function and of the next three stand in the row order of the Unicode
// Standard's Table 3-7. In every row each byte after the first is a UTF8-tail, 80..BF, so this is tested once for all
// rows when the byte is read. The rows E0, ED, F0 and F4 then test their narrower range of the second byte.
pub fn decode(s: &[u8], at: usize) -> u32
    ensures { result ≡ packed (read_char (drop at s.now)) }
{
    if s.len() <= at {
        return 0;
    }
    let a = u32::from(s[at]);
    // 00..7F
    if a <= 0x7F {
        return 8 * a + 1;
    }
    // No row begins with 80..C1.
    if a < 0xC2 {
        return 0;
    }
    if s.len() - at < 2 {
        return 0;
    }
    let b = u32::from(s[at + 1]);
    if b < 0x80 {
        return 0;
    }
    if 0xBF < b {
        return 0;
    }
    // C2..DF, 80..BF
    if a <= 0xDF {
        return 8 * ((a - 0xC0) * 64 + (b - 0x80)) + 2;
    }
    // E0; E1..EC; ED; EE..EF; F0; F1..F3; F4
    decode_long(s, at, a, b)
}

// Decodes at an offset by the rows from E0 on. The second byte there is a UTF8-tail.
fn decode_long(s: &[u8], at: usize, a: u32, b: u32) -> u32
    requires bytes { (at + 2 ≤ length s.now) × (a ≡ get_or s.now at 0) × (b ≡ get_or s.now (at + 1) 0) }
    requires ranges { (0xE0 ≤ a) × (a ≤ 0xFF) × (0x80 ≤ b) × (b ≤ 0xBF) }
    ensures { result ≡ packed (read_char (drop at s.now)) }
{
    if s.len() - at < 3 {
        return 0;
    }
    let c = u32::from(s[at + 2]);
    if c < 0x80 {
        return 0;
    }
    if 0xBF < c {
        return 0;
    }
    // E0; E1..EC; ED; EE..EF
    if a <= 0xEF {
        return pack_3(a, b, c);
    }
    if s.len() - at < 4 {
        return 0;
    }
    // F0; F1..F3; F4
    pack_4(a, b, c, u32::from(s[at + 3]))
}

// Returns the packed number of three bytes, by the rows of three bytes in Table 3-7. The second and third bytes are
// UTF8-tails. The result is 0 if the second byte is not in its row's range.
#[tactic(auto, unfolding(crate::specs::Rfc3629::utf8_3))]
fn pack_3(a: u32, b: u32, c: u32) -> u32
    requires { (0xE0 ≤ a) × (a ≤ 0xEF) × (0x80 ≤ b) × (b ≤ 0xBF) × (0x80 ≤ c) × (c ≤ 0xBF) }
    ensures { result ≡ cond (utf8_3 a b c) (8 * value_3 a b c + 3) 0 }
{
    let value = ((a - 0xE0) * 64 + (b - 0x80)) * 64 + (c - 0x80);
    match (a, b) {
        (0xE0, 0xA0..=0xBF)
        | (0xE1..=0xEC, 0x80..=0xBF)
        | (0xED, 0x80..=0x9F)
        | (0xEE..=0xEF, 0x80..=0xBF) => 8 * value + 3,
        _ => 0,
    }
}

// Returns the packed number of four bytes, by the rows of four bytes in Table 3-7. The second and third bytes are
// UTF8-tails. The result is 0 if the last byte is no UTF8-tail, if the second byte is not in its row's range, or if no
// row begins with the first byte.
#[tactic(auto, unfolding(crate::specs::Rfc3629::utf8_4))]
fn pack_4(a: u32, b: u32, c: u32, d: u32) -> u32
    requires { (0xF0 ≤ a) × (a ≤ 0xFF) × (0x80 ≤ b) × (b ≤ 0xBF) × (0x80 ≤ c) × (c ≤ 0xBF) }
    ensures { result ≡ cond (utf8_4 a b c d) (8 * value_4 a b c d + 4) 0 }
{
    match (a, b, d) {
        (0xF0, 0x90..=0xBF, 0x80..=0xBF)
        | (0xF1..=0xF3, 0x80..=0xBF, 0x80..=0xBF)
        | (0xF4, 0x80..=0x8F, 0x80..=0xBF) => {
            let value = (((a - 0xF0) * 64 + (b - 0x80)) * 64 + (c - 0x80)) * 64 + (d - 0x80);
            8 * value + 4
        }
        _ => 0,
    }
}

// Returns the number of bytes of the character at an offset, or 0 if no character begins there.
pub fn char_len(s: &[u8], at: usize) -> usize
    ensures { result ≡ char_len (read_char (drop at s.now)) }
{
    (decode(s, at) % 8) as usize
}

// Whether a byte lies in a range.
pub fn in_range(lo: u8, hi: u8, b: u8) -> bool
    ensures { result ≡ within lo hi b }
{
    (lo..=hi).contains(&b)
}

// Whether two bytes begin a character of three or four, by the rows of Table 3-7 of the Unicode Standard from E0 on.
#[tactic(auto, unfolding(crate::specs::Rfc3629::begun_2, crate::specs::Rfc3629::utf8_3, crate::specs::Rfc3629::utf8_4))]
pub fn second_fits(a: u8, b: u8) -> bool
    ensures { result ≡ begun_2 a b }
{
    matches!(
        (a, b),
        (0xE0, 0xA0..=0xBF)
            | (0xE1..=0xEC | 0xEE..=0xEF, 0x80..=0xBF)
            | (0xED, 0x80..=0x9F)
            | (0xF0, 0x90..=0xBF)
            | (0xF1..=0xF3, 0x80..=0xBF)
            | (0xF4, 0x80..=0x8F)
    )
}

// How many bytes belong to a bad place: the length of its maximal subpart. At the end it is 0.
pub fn bad_width(s: &[u8], at: usize) -> usize
    ensures { result ≡ subpart_of (drop at s.now) }
{
    if s.len() <= at {
        return 0;
    }
    let a = base::byte_at(s, at, 0);
    let b = base::byte_at(s, at, 1);
    let c = base::byte_at(s, at, 2);
    if !second_fits(a, b) {
        return 1;
    }
    if a < 0xF0 {
        return 2;
    }
    if !in_range(0x80, 0xBF, c) {
        return 2;
    }
    3
}

// Reads at an offset of a text: a character, a bad place and the number of bytes that belong to it, or the end.
pub fn read_char(s: &[u8], at: usize) -> ReadChar
    ensures { result ≡ read_char (drop at s.now) }
{
    if s.len() <= at {
        return ReadChar::End;
    }
    match decode(s, at) {
        0 => ReadChar::IllFormed {
            width: bad_width(s, at),
        },
        number => ReadChar::Char {
            value: number / 8,
            width: (number % 8) as usize,
        },
    }
}

// Tests whether a number is a scalar value: at most 10FFFF and no surrogate.
#[tactic(auto, unfolding(crate::specs::Rfc3629::is_scalar))]
pub fn is_scalar(ch: u32) -> bool
    ensures { result ≡ is_scalar ch }
{
    matches!(ch, 0..=0xD7FF | 0xE000..=0x10FFFF)
}
