// The scanner of scanner.rs of the crate evfmt: it borrows the text and remembers one offset (document 01, "Item"), and the number of
// characters and of UTF-16 units before it (document 02, v). A program can make a scanner at any offset with any two numbers; it
// counts on from them.
// The crate `scanner` says what an item is, and `next_item` of the crate `item_scanner` reads one.
// `scan` tests the text and makes a scanner. `next` and `raw` are thin functions over `next_item` and the slice. A scanner is an
// iterator over the items that are left.
// Each function equals a definition of specs/Scanner.antt for all inputs.
#![tactic(auto)]

ghost use Rattle.std.specs.Prelude.{◌≡◌};
ghost use Rattle.std.specs.Iterator.{YieldsFirst, item_count};
ghost use Rattle.base.specs.Answers.{Answers, check_row};
ghost use Rattle.text_scanner.specs.Scanner.{answer_at, at_place, items_left, nth_item, part, place_after_step, place_of};
ghost use Rattle.text_scanner.specs.Scanner.{raw_of, scanned, verdict_of};

use base::Refusal;
use item_scanner::next_item;
use positions::TextCount;
use scanner::ScanItem;
use scanner::text_check::check_text;

// A text, the offset from which the next item is read, and the characters and UTF-16 units before that offset.
#[derive(Clone, Copy, Debug, PartialEq, Eq)]
pub struct Scanner<'a> {
    pub text: &'a [u8],
    pub offset: usize,
    pub chars: usize,
    pub units: usize,
}

// A scanner, and the verdict on its text. A refused text has a scanner too.
#[derive(Clone, Copy, Debug, PartialEq, Eq)]
pub struct Scanned<'a> {
    pub verdict: Result<(), Refusal>,
    pub scanner: Scanner<'a>,
}

// The verdict on a text, and its n-th item or the end.
#[derive(Clone, Copy, Debug, PartialEq, Eq)]
pub struct NthItem {
    pub verdict: Result<(), Refusal>,
    pub step: Option<ScanItem>,
}

// Tests a text and makes its scanner. The scanner of a refused text answers the end at every call.
pub fn scan<'a>(text: &'a [u8]) -> Scanned<'a>
    ensures { (result ≡ scanned text.entry) × Answers check_row (verdict_of text.now) result.verdict }
{
    let verdict = check_text(text);
    let offset = match verdict {
        Ok(()) => 0,
        Err(_) => text.len(),
    };
    Scanned {
        verdict,
        scanner: Scanner {
            text,
            offset,
            chars: 0,
            units: 0,
        },
    }
}

// The next item; after the last one, the end at every call.
pub fn next<'s, 'a>(s: &'s mut Scanner<'a>) -> Option<ScanItem>
    ensures { (result ≡ answer_at s.old.text.now (place_of s.old))
        × (s.new ≡ at_place s.old (place_after_step result (place_of s.old))) }
{
    let before = TextCount {
        chars: s.chars,
        units: s.units,
    };
    let item = next_item(s.text, s.offset, before)?;
    s.offset = item.end;
    s.chars = item.char_end;
    s.units = item.unit_end;
    Some(item)
}

impl<'a> Iterator for Scanner<'a> {
    type Item = ScanItem;

    ghost next_gives = { YieldsFirst items_left };

    ghost remaining = { item_count items_left };

    fn next(&mut self) -> Option<ScanItem> {
        next(self)
    }
}

// The bytes of a text from start up to end; empty if the text has no such part.
fn part(text: &[u8], start: usize, end: usize) -> &[u8]
    ensures { result.now ≡ part text.now start end }
{
    text.get(start..end).unwrap_or(&[])
}

// The bytes of an item, as a part of the scanner's text.
pub fn raw<'a>(s: Scanner<'a>, item: ScanItem) -> &'a [u8]
    ensures { result.now ≡ part s.entry.text.now item.start item.end }
{
    part(s.text, item.start, item.end)
}

// The verdict on a text and its n-th item, counted from 0, or the end.
pub fn nth_item(text: &[u8], n: usize) -> NthItem
    ensures { result ≡ nth_item text.now n }
{
    let Scanned {
        verdict,
        mut scanner,
    } = scan(text);
    NthItem {
        verdict,
        step: scanner.nth(n),
    }
}

// The bytes of the n-th item of a text, as a part of the text; empty if there is no such item.
pub fn nth_raw<'a>(text: &'a [u8], n: usize) -> &'a [u8]
    ensures { result.now ≡ raw_of text.now (nth_item text.now n).step }
{
    match nth_item(text, n).step {
        Some(item) => part(text, item.start, item.end),
        None => &[],
    }
}
