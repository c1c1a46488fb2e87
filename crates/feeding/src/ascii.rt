// Pieces of ASCII that are copied. Where a feed holds at most one ASCII character, without selectors, and its policy keeps the ASCII bases
// bare, a piece of ASCII is written as it is: the held character first, and without a last base, which is held. A chat mostly comes in
// such pieces. These functions test for them, and write them.
ghost use Rattle.std.specs.Prelude.{◌≡◌, true, ◌++◌, ℕ, ◌+◌, ◌-◌, ◌<◌, ◌≤◌, eqb, leb, get_or, length, take};
ghost use Rattle.std.proofs.lemmas.List.Edits.{sets};
ghost use Rattle.base.specs.Output.{PutAt};
ghost use Rattle.base.specs.Refusals.{text_limit};
ghost use Rattle.base.specs.Words.{word_at, word_bytes};
ghost use Rattle.emoji.specs.Unicode.{has_variation_sequence};
ghost use Rattle.feeding.specs.Copied.{AllAscii, CopiedPiece, CopiesAscii, WordsFit, copied_length, held_entry, held_list};

use crate::END_ROOM;
use base::TEXT_LIMIT;
use feed::{FEED_BYTES, STATE_BYTES, low_byte};
use policy::policy_bytes::{ascii_keys_bare, is_policy};

// The offsets of the words for the held base and for the number of bytes taken.
const BASE_AT: usize = 8;

const LEN_AT: usize = 48;

// Tests whether a word of a feed is 0.
fn is_zero(feed: &[u8], k: usize) -> bool
    requires { k < 15 }
    ensures { result ≡ eqb (word_at k feed.now) 0 }
{
    base::read_word(feed, 8 * k) == 0
}

// Tests whether a word of a feed is at most the length limit.
fn is_few(feed: &[u8], k: usize) -> bool
    requires { k < 15 }
    ensures { result ≡ leb (word_at k feed.now) text_limit }
{
    base::read_word(feed, 8 * k) as usize <= TEXT_LIMIT
}

// Tests whether the words for selectors and for unfinished bytes are 0. The length is tested here and in the next functions, so that the
// compiler knows it wherever a word is read.
fn no_selector_no_rest(feed: &[u8]) -> bool
    ensures { result ≡ true → (j : ℕ) → 2 ≤ j → j < 6 → word_at j feed.now ≡ 0 }
{
    if feed.len() != FEED_BYTES {
        return false;
    }
    let mut k = 2;
    while k < 6 {
        if !is_zero(feed, k) {
            return false;
        }
        k += 1;
    }
    true
}

// Tests whether no total is above the length limit.
fn totals_are_few(feed: &[u8]) -> bool
    ensures { result ≡ true → (j : ℕ) → 7 ≤ j → j < 15 → word_at j feed.now ≤ text_limit }
{
    if feed.len() != FEED_BYTES {
        return false;
    }
    let mut k = 7;
    while k < 15 {
        if !is_few(feed, k) {
            return false;
        }
        k += 1;
    }
    true
}

// Returns the word for the held base.
pub(crate) fn base_word(feed: &[u8]) -> usize
    requires { length feed.now ≡ 320 }
    ensures { result ≡ word_at 1 feed.now }
{
    if feed.len() != FEED_BYTES {
        return 0;
    }
    base::read_word(feed, BASE_AT) as usize
}

// Returns the word for the number of bytes taken.
pub(crate) fn len_word(feed: &[u8]) -> usize
    requires { length feed.now ≡ 320 }
    ensures { result ≡ word_at 6 feed.now }
{
    if feed.len() != FEED_BYTES {
        return 0;
    }
    base::read_word(feed, LEN_AT) as usize
}

// Tests the words of a feed.
fn words_fit(feed: &[u8]) -> bool
    requires { length feed.now ≡ 320 }
    ensures { result ≡ true → WordsFit feed.now }
{
    if !is_zero(feed, 0) {
        return false;
    }
    if !no_selector_no_rest(feed) {
        return false;
    }
    if 0x7F < base_word(feed) {
        return false;
    }
    if TEXT_LIMIT < len_word(feed) {
        return false;
    }
    totals_are_few(feed)
}

// Tests whether a feed copies ASCII.
pub(crate) fn copies_ascii(feed: &[u8]) -> bool
    requires { length feed.now ≡ 320 }
    ensures { result ≡ true → CopiesAscii feed.now }
{
    if !words_fit(feed) {
        return false;
    }
    if !ascii_keys_bare(&feed[STATE_BYTES..]) {
        return false;
    }
    is_policy(&feed[STATE_BYTES..])
}

// Tests whether every byte is ASCII. The compiler makes this loop take 32 bytes a turn.
fn is_ascii(s: &[u8]) -> bool
    ensures { result ≡ true → AllAscii s.now }
{
    let mut top: u8 = 0;
    let mut i = 0;
    while i < s.len() {
        top = top.max(s[i]);
        i += 1;
    }
    top <= 0x7F
}

// Tests whether a piece is copied, with a room in the output and after a number of bytes.
pub(crate) fn is_copied_piece(len: usize, piece: &[u8], room: usize) -> bool
    requires { len ≤ text_limit }
    ensures { result ≡ true → CopiedPiece len piece.now room }
{
    if piece.len() == 0 {
        return false;
    }
    if TEXT_LIMIT - len < piece.len() {
        return false;
    }
    if room < 4 * piece.len() + END_ROOM {
        return false;
    }
    is_ascii(piece)
}

// Tests whether an ASCII character is a base: #, * and the digits are.
fn is_ascii_base(ch: u8) -> bool
    requires { ch ≤ 0x7F }
    ensures { result ≡ has_variation_sequence ch }
{
    if ch < 0x23 {
        return false;
    }
    if 0x39 < ch {
        return false;
    }
    if 0x30 <= ch {
        return true;
    }
    if ch == 0x23 {
        return true;
    }
    ch == 0x2A
}

// Returns an ASCII character if it is a base, or else 0.
fn held_entry(ch: u8) -> usize
    requires { ch ≤ 0x7F }
    ensures { result ≡ held_entry ch }
{
    if is_ascii_base(ch) {
        return ch as usize;
    }
    0
}

// Returns what is held after a piece of ASCII: its last character if it is a base, or else 0.
pub(crate) fn last_held(piece: &[u8]) -> usize
    requires { (0 < length piece.now) × AllAscii piece.now }
    ensures { result ≡ held_entry (get_or piece.now (length piece.now - 1) 0) }
{
    held_entry(piece[piece.len() - 1])
}

// Returns how many bytes of a piece are copied: all, or all but a last base.
fn copied_len(len: usize, last: usize) -> usize
    requires { 0 < len }
    ensures { (result ≡ copied_length len last) × (result ≤ len) }
{
    if last == 0 {
        return len;
    }
    len - 1
}

// Writes the held character at the front, if there is one, and returns the offset after it.
fn put_base(out: &mut [u8], base: usize) -> usize
    requires { (base ≤ 0x7F) × (0 < length out.old) }
    ensures { PutAt out.old 0 (held_list base) out.new result }
{
    if base == 0 {
        return 0;
    }
    out[0] = low_byte(base);
    1
}

// Copies bytes, one by one. The compiler makes this loop take 32 bytes a turn, which is faster here than words of eight bytes.
fn put_each(out: &mut [u8], start: usize, bytes: &[u8])
    requires { start + length bytes.now ≤ length out.old }
    ensures { out.new ≡ sets out.old start bytes.now }
{
    let mut at = start;
    let mut i = 0;
    while i < bytes.len() {
        out[at] = bytes[i];
        at += 1;
        i += 1;
    }
}

// Writes the held character and the piece, without a last base, and returns where they end.
pub(crate) fn put_ascii(out: &mut [u8], base: usize, piece: &[u8], last: usize) -> usize
    requires { (base ≤ 0x7F) × (0 < length piece.now) × (1 + length piece.now ≤ length out.old) }
    ensures { PutAt out.old 0
        (held_list base ++ take (copied_length (length piece.now) last) piece.now) out.new result }
{
    let n = copied_len(piece.len(), last);
    let at = put_base(out, base);
    put_each(out, at, &piece[0..n]);
    at + n
}

// Writes the words for the held base and for the number of bytes taken.
pub(crate) fn put_words(feed: &mut [u8], base: usize, len: usize)
    requires { length feed.old ≡ 320 }
    ensures { feed.new ≡ sets (sets feed.old 8 (word_bytes base)) 48 (word_bytes len) }
{
    base::write_word(feed, BASE_AT, base as u64);
    base::write_word(feed, LEN_AT, len as u64);
}
