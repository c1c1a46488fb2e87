// The display of a key set: `Display` for `PolicyKeySet` of policy_key_set.rs of the crate evfmt. The text is `display`
// of specs/Display.antt. The caller lends the output buffer. So the code computes the text's length first, and writes
// the text only if it fits (document 01, "Turned back", number 8).
ghost use Rattle.std.specs.Prelude.{◌≡◌, true, false, ◌+◌, ◌%◌, ◌≤◌, length};
ghost use Rattle.base.specs.Output.{PutAt, Wrote};
ghost use Rattle.emoji.specs.UnicodeData.{variation_entries};
ghost use Rattle.policy_key_set.specs.Display.{
  display,
  hex_digit,
  hex_digits,
  hex_width,
  key_list,
  key_text,
  key_texts,
  opening,
  with_comma,
  written_from,
};

use crate::PolicyKeySet;
use crate::char_set::CharSet;
use base::Refusal;
use emoji::unicode_data::VARIATION_ENTRY_COUNT;
use emoji::variation_char;

// Returns the last hexadecimal digit of a number.
#[tactic(auto, unfolding(crate::specs::Display::hex_digit))]
fn hex_digit(n: u32) -> u8
    ensures { result ≡ hex_digit (n % 16) }
{
    match (n % 16) as u8 {
        d if d < 10 => b'0' + d,
        d => b'A' + (d - 10),
    }
}

// Returns the last six hexadecimal digits of a number, upper-case. A code point has no more.
#[tactic(auto, unfolding(crate::specs::Display::hex_digits))]
pub fn hex_digits(n: u32) -> [u8; 6]
    ensures { result ≡ hex_digits 6 n }
{
    [
        hex_digit(n >> 20),
        hex_digit(n >> 16),
        hex_digit(n >> 12),
        hex_digit(n >> 8),
        hex_digit(n >> 4),
        hex_digit(n),
    ]
}

#[tactic(auto, unfolding(crate::specs::Display::hex_width))]
fn hex_width(ch: u32) -> usize
    ensures { (result ≡ hex_width ch) × (result ≤ 6) }
{
    match ch {
        0..=0xFFFF => 4,
        0x10000..=0xFFFFF => 5,
        _ => 6,
    }
}

// Writes bytes that fit at an offset, and returns the offset after them.
fn put_bytes(out: &mut [u8], start: usize, bytes: &[u8]) -> usize
    requires { start + length bytes.now ≤ length out.old }
    ensures { PutAt out.old start bytes.now out.new result }
{
    base::write_bytes(out, start, bytes);
    start + bytes.len()
}

// Returns the part of a key's text before the code point.
#[tactic(auto, unfolding(crate::specs::Display::opening))]
fn opening(keycap: bool) -> &'static [u8]
    ensures { (result.now ≡ opening keycap) × (length result.now ≤ 9) }
{
    if keycap { b"keycap:u(" } else { b"u(" }
}

// Writes the text of a key.
fn put_text(out: &mut [u8], start: usize, keycap: bool, ch: u32) -> usize
    requires { start + length (key_text keycap ch) ≤ length out.old }
    ensures { PutAt out.old start (key_text keycap ch) out.new result }
{
    let i = put_bytes(out, start, opening(keycap));
    let j = put_bytes(out, i, &hex_digits(ch)[6 - hex_width(ch)..]);
    put_bytes(out, j, b")")
}

// Writes the text of a key, with a comma before it unless it is the first.
fn put_key(out: &mut [u8], start: usize, keycap: bool, ch: u32) -> usize
    requires { start + length (with_comma start (key_text keycap ch)) ≤ length out.old }
    ensures { PutAt out.old start (with_comma start (key_text keycap ch)) out.new result }
{
    if start == 0 {
        return put_text(out, 0, keycap, ch);
    }
    let at = put_bytes(out, start, b",");
    put_text(out, at, keycap, ch)
}

// Returns the number of bytes of a key's text.
#[tactic(auto, using(crate::proofs::Texts::text_length))]
fn text_len(keycap: bool, ch: u32) -> usize
    ensures { (result ≡ length (key_text keycap ch)) × (result ≤ 16) }
{
    opening(keycap).len() + (hex_width(ch) + 1)
}

// Returns the number of bytes that `put_key` writes.
fn key_len(start: usize, keycap: bool, ch: u32) -> usize
    ensures { (result ≡ length (with_comma start (key_text keycap ch))) × (result ≤ 17) }
{
    let n = text_len(keycap, ch);
    if start == 0 {
        return n;
    }
    n + 1
}

// Returns the offset after the keys of a domain, if they are written from an offset on.
fn keys_end(start: usize, keycap: bool, set: CharSet) -> usize
    requires { start ≤ 0x10000 }
    ensures { (result ≡ start + length (written_from start (key_texts keycap set.bits 0 variation_entries))) × (result ≤ start + 0x2000) }
{
    let mut at = start;
    for i in 0..VARIATION_ENTRY_COUNT {
        let ch = variation_char(i);
        if set.contains(ch) {
            at += key_len(at, keycap, ch);
        }
    }
    at
}

// Writes the keys of a domain.
fn put_keys(out: &mut [u8], start: usize, keycap: bool, set: CharSet) -> usize
    requires { start + length (written_from start (key_texts keycap set.bits 0 variation_entries)) ≤ length out.old }
    ensures { PutAt out.old start (written_from start (key_texts keycap set.bits 0 variation_entries))
        out.new result }
{
    let mut at = start;
    for i in 0..VARIATION_ENTRY_COUNT {
        let ch = variation_char(i);
        if set.contains(ch) {
            at = put_key(out, at, keycap, ch);
        }
    }
    at
}

// Writes the list of the keys, or refuses.
fn show_keys(set: PolicyKeySet, out: &mut [u8]) -> Result<usize, Refusal>
    ensures { Wrote (key_list set) out.old out.new result }
{
    let wanted = keys_end(keys_end(0, false, set.chars), true, set.keycap_chars);
    if wanted <= out.len() {
        let at = put_keys(out, 0, false, set.chars);
        put_keys(out, at, true, set.keycap_chars);
        return Ok(wanted);
    }
    Err(Refusal::OutputTooShort { wanted })
}

// Writes a word, or refuses.
fn show_word(word: &[u8], out: &mut [u8]) -> Result<usize, Refusal>
    ensures { Wrote word.now out.old out.new result }
{
    if word.len() <= out.len() {
        put_bytes(out, 0, word);
        return Ok(word.len());
    }
    Err(Refusal::OutputTooShort { wanted: word.len() })
}

impl PolicyKeySet {
    // Writes the display of a key set, or refuses. Only the empty set has the size 0, and only the set of all keys
    // has the size 708 = 2 * 354.
    pub fn fmt(self, out: &mut [u8]) -> Result<usize, Refusal>
        ensures { Wrote (display self) out.old out.new result }
    {
        match self.size() {
            0 => show_word(b"none", out),
            708 => show_word(b"all", out),
            _ => show_keys(self, out),
        }
    }
}
