// Characters that have no variation entry by their first bytes. The pass over a text skips them without a lookup in the tables.
// `skip_plain` meets `NoEntryBetween` of specs/Pass.antt. It leaves the test of what is well-formed to `utf8::char_len`.
ghost use Rattle.std.specs.Prelude.{◌≡◌, true, ℕ, ◌<◌, ◌≤◌, drop, length};
ghost use Rattle.utf8.specs.Rfc3629.{read_char};
ghost use Rattle.utf8.specs.declared.ReadChar.TheVariants.{Char};
ghost use Rattle.scanner.specs.Classes.{class_of};
ghost use Rattle.scanner.specs.declared.char_class.Class.TheVariants.{Other as other};
ghost use Rattle.membership_flips.specs.Pass.{NoEntryBetween};

// Whether a byte is an ASCII character without a variation entry: all but #, * and the digits. The second test is true of the letters and
// of the blank alike, so the processor predicts it well.
fn is_ascii_plain(byte: u8) -> bool
    ensures { result ≡ true → (byte ≤ 0x7F) × (class_of byte ≡ other) }
{
    if 0x7F < byte {
        return false;
    }
    if 0x16 < (byte as usize + 0xDD) % 256 {
        return true;
    }
    if 0x30 <= byte {
        return false;
    }
    if byte == 0x23 {
        return false;
    }
    byte != 0x2A
}

// Skips ASCII characters without a variation entry.
fn skip_ascii(text: &[u8], from: usize) -> usize
    requires { from ≤ length text.now }
    ensures { NoEntryBetween text.now from result }
{
    for at in from..text.len() {
        if !is_ascii_plain(text[at]) {
            return at;
        }
    }
    text.len()
}

// Whether the character at an offset has no variation entry by its first bytes: it has two bytes and is at least C0, or it has three bytes
// and lies neither between 2000 and 2FFF, nor in the blocks of 3030 and 3297, nor after EFFF.
fn is_plain_at(text: &[u8], at: usize) -> bool
    requires { at < length text.now }
    ensures { result ≡ true → (v w : ℕ) → read_char (drop at text.now) ≡ Char v w → class_of v ≡ other }
{
    let first = text[at];
    if first < 0xC3 {
        return false;
    }
    if 0xEE < first {
        return false;
    }
    if first == 0xE2 {
        return false;
    }
    if first == 0xE3 {
        let second = base::byte_at(text, at, 1);
        if second == 0x80 {
            return false;
        }
        return second != 0x8A;
    }
    true
}

// Skips characters of two and three bytes that have no variation entry by their first bytes.
fn skip_letters(text: &[u8], from: usize) -> usize
    ensures { NoEntryBetween text.now from result }
{
    let mut at = from;
    while at < text.len() {
        if !is_plain_at(text, at) {
            return at;
        }
        let width = utf8::char_len(text, at);
        if width == 0 {
            return at;
        }
        at += width;
    }
    at
}

// Skips characters that have no variation entry by their first bytes.
pub(crate) fn skip_plain(text: &[u8], from: usize) -> usize
    ensures { NoEntryBetween text.now from result }
{
    let mut at = from;
    while at < text.len() {
        let next = skip_letters(text, skip_ascii(text, at));
        if next == at {
            return at;
        }
        at = next;
    }
    at
}
