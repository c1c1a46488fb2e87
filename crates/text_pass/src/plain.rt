// Plain text, which formatting keeps and in which no finding begins. These functions skip it without a lookup in the tables: characters by
// their first byte, and ASCII in runs where the policy keeps the ASCII bases bare. They leave the test of what is well-formed to
// `utf8::char_len`.
ghost use Rattle.std.specs.Prelude.{◌≡◌, true, false, ℕ, ◌<◌, ◌≤◌, drop, get_or, length};
ghost use Rattle.utf8.specs.Rfc3629.{read_char};
ghost use Rattle.utf8.specs.declared.ReadChar.TheVariants.{Char};
ghost use Rattle.policy.specs.declared.Policy.{Policy};
ghost use Rattle.scanner.specs.Classes.{class_of};
ghost use Rattle.scanner.specs.declared.char_class.Class.TheVariants.{Other as other};
ghost use Rattle.text_pass.specs.Changes.{AsciiBare, UnchangedBetween};
ghost use Rattle.text_pass.specs.Findings.{PlainBetween};

use emoji::ZWJ;

// Whether the character at an offset is plain by its first bytes. It has two bytes and is at least C0, or it has three bytes and lies
// neither between 2000 and 2FFF, nor in the blocks of 3030 and 3297, nor after EFFF. One range is tested first, since it excludes ASCII.
fn is_plain_at(text: &[u8], at: usize) -> bool
    requires { at < length text.now }
    ensures { result ≡ true → (v w : ℕ) → read_char (drop at text.now) ≡ Char v w → class_of v ≡ other }
{
    let first = text[at];
    if !matches!(first, 0xC3..=0xEE) {
        return false;
    }
    match first {
        0xE2 => false,
        0xE3 => {
            let second = base::byte_at(text, at, 1);
            second != 0x80 && second != 0x8A
        }
        _ => true,
    }
}

// Skips characters that are plain by their first bytes.
pub(crate) fn skip_letters(text: &[u8], from: usize) -> usize
    ensures { (p : Policy) → PlainBetween p text.now from result }
{
    let mut at = from;
    while at < text.len() {
        if !is_plain_at(text, at) {
            return at;
        }
        let width = utf8::char_len(text, at);
        if width == 0 {
            return at;
        }
        at += width;
    }
    at
}

// Whether an ASCII character is a base: #, * and the digits are. One range is tested first, since it excludes the letters.
#[tactic(auto, using(crate::proofs::PlainText::ascii_other))]
fn is_ascii_base(ch: u8) -> bool
    ensures { result ≡ false → ch ≤ 0x7F → class_of ch ≡ other }
{
    matches!(ch, b'#'..=b'9') && (b'0' <= ch || ch == b'#' || ch == b'*')
}

// Skips the run of ASCII characters from one on. It does not skip a base at the end of the run, unless the text ends there.
pub(crate) fn skip_ascii(text: &[u8], from: usize) -> usize
    requires { (from < length text.now) × (get_or text.now from 0 ≤ 0x7F) }
    ensures bounds { (from ≤ result) × (result ≤ length text.now) }
    ensures skips { (p : Policy) → AsciiBare p → PlainBetween p text.now from result }
{
    let end = ascii_runs::ascii_end(text, from + 1);
    if end == text.len() {
        return end;
    }
    if is_ascii_base(text[end - 1]) {
        return end - 1;
    }
    end
}

// Skips plain text. It skips ASCII only where the policy keeps the ASCII bases bare.
pub(crate) fn skip_plain(text: &[u8], bare: bool, from: usize) -> usize
    ensures { (p : Policy) → (bare ≡ true → AsciiBare p) → UnchangedBetween p text.now from result }
{
    let mut at = skip_letters(text, from);
    while at < text.len() {
        if !bare {
            return at;
        }
        if 0x7F < text[at] {
            return at;
        }
        let next = skip_ascii(text, at);
        if next == at {
            return at;
        }
        at = skip_letters(text, next);
    }
    at
}

// Skips links.
fn skip_links(text: &[u8], from: usize) -> usize
    ensures { (p : Policy) → UnchangedBetween p text.now from result }
{
    let mut at = from;
    while utf8::decode(text, at) / 8 == ZWJ {
        at += 3;
    }
    at
}

// Skips tags.
fn skip_tags(text: &[u8], from: usize) -> usize
    ensures { (p : Policy) → UnchangedBetween p text.now from result }
{
    let mut at = from;
    while emoji::is_tag(utf8::decode(text, at) / 8) {
        at += 4;
    }
    at
}

// Skips the links after a link, or the tags after a tag: formatting keeps them, though they are part of an item. Every link has three bytes
// and every tag four, so that the next offset does not depend on the character read last.
pub(crate) fn skip_alike(text: &[u8], from: usize, ch: u32) -> usize
    ensures { (p : Policy) → UnchangedBetween p text.now from result }
{
    if ch == ZWJ {
        return skip_links(text, from);
    }
    if emoji::is_tag(ch) {
        return skip_tags(text, from);
    }
    from
}
