// Encodes characters as in RFC 3629, section 3, and writes them into a lent buffer. `char_width` is the length of `encode` of the
// crate utf8, specs/Rfc3629; `write_char` is `write_char` and `after_write_char` of specs/Write.
#![tactic(auto)]

ghost use Rattle.std.specs.Prelude.{◌≡◌, ◌+◌, ◌%◌, ◌≤◌, length};
ghost use Rattle.base.specs.Answers.{Answers};
ghost use Rattle.base.specs.Output.{WritesAt};
ghost use Rattle.utf8.specs.Rfc3629.{encode};
ghost use Rattle.utf8_encoding.specs.Write.{char_row, write_char, after_write_char};

// The reason why a character is not written: the buffer has no room for its `width` bytes, or it is no scalar value.
#[derive(Clone, Copy, Debug, PartialEq, Eq)]
pub enum WriteCharError {
    TooShort { width: usize },
    NotScalar,
}

// Returns the number of bytes that encode a character.
#[tactic(auto, unfolding(utf8::specs::Rfc3629::encode))]
pub fn char_width(ch: u32) -> usize
    ensures { result ≡ length (encode ch) }
{
    match ch {
        0..=0x7F => 1,
        0x80..=0x7FF => 2,
        0x800..=0xFFFF => 3,
        _ => 4,
    }
}

// Returns the UTF8-tail that holds the lowest six bits of a number.
fn tail(ch: u32) -> u8
    ensures { result ≡ 0x80 + ch % 64 }
{
    (0x80 + ch % 64) as u8
}

// Writes the bytes of a character at an offset and returns true (RFC 3629, section 3). Without room for them it returns false and changes
// nothing.
#[tactic(auto, unfolding(utf8::specs::Rfc3629::encode))]
fn put_char(ch: u32, out: &mut [u8], at: usize) -> bool
    requires { ch ≤ 0x10FFFF }
    ensures { WritesAt (encode ch) out.old at result out.new }
{
    match ch {
        0..=0x7F => base::write_bytes(out, at, &[ch as u8]),
        0x80..=0x7FF => base::write_bytes(out, at, &[(0xC0 + ch / 64) as u8, tail(ch)]),
        0x800..=0xFFFF => base::write_bytes(
            out,
            at,
            &[(0xE0 + ch / 4096) as u8, tail(ch / 64), tail(ch)],
        ),
        _ => base::write_bytes(
            out,
            at,
            &[
                (0xF0 + ch / 262144) as u8,
                tail(ch / 4096),
                tail(ch / 64),
                tail(ch),
            ],
        ),
    }
}

// Writes the bytes of a character at an offset, or refuses.
pub fn write_char(ch: u32, out: &mut [u8], at: usize) -> Result<usize, WriteCharError>
    ensures answer { Answers char_row (write_char ch out.old at) result }
    ensures buffer { out.new ≡ after_write_char ch out.old at }
{
    if !utf8::is_scalar(ch) {
        return Err(WriteCharError::NotScalar);
    }
    let width = char_width(ch);
    if !put_char(ch, out, at) {
        return Err(WriteCharError::TooShort { width });
    }
    Ok(width)
}
