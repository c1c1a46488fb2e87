// A line of a file of stored answers, read from the front. Its fields, each after one blank, are read; the parts of
// items and findings are compared with the values that they must have. The comments at the start of each file have the
// grammar.
use crate::fault::{Fault, check};
use crate::keyword::Keyword;
use crate::sets::{Sizes, StoredSet};
use arrayvec::ArrayVec;
use emoji::presentation::Presentation;
use policy::Policy;
use policy_key_set::PolicyKeySet;
use policy_key_set::char_set::CharSet;
use policy_key_set::named_sets::CHARSET_WORDS;
use scanner::selectors::PresentationSelectors;
use std::str;

// The length of the longest text of a line.
pub const TEXT_BYTES: usize = 511;

// The largest code point.
const LAST_CODE_POINT: u32 = 0x10_FFFF;

// The base of a number.
#[derive(Clone, Copy, Debug, PartialEq, Eq)]
enum Radix {
    Binary = 2,
    Decimal = 10,
    Hexadecimal = 16,
}

// Tests whether a byte is a digit of a file: `0` to `9` or `A` to `F`.
fn is_digit(b: u8) -> bool {
    matches!(b, b'0'..=b'9' | b'A'..=b'F')
}

// Returns the number of these digits. `from_str_radix` also reads a sign and small letters.
fn parse_digits(digits: &[u8], radix: Radix) -> Option<u64> {
    if !digits.iter().all(|b| is_digit(*b)) {
        return None;
    }
    u64::from_str_radix(str::from_utf8(digits).ok()?, radix as u32).ok()
}

// Returns the byte of two digits.
fn byte_of(digits: &[u8]) -> Option<u8> {
    u8::try_from(parse_digits(digits, Radix::Hexadecimal)?).ok()
}

// What is left of the line.
#[derive(Clone, Copy)]
pub(crate) struct Line<'a> {
    rest: &'a [u8],
}

// Each function takes a part off the front.
impl<'a> Line<'a> {
    pub(crate) fn new(bytes: &'a [u8]) -> Self {
        Line { rest: bytes }
    }

    fn take_byte(&mut self, b: u8) -> Option<()> {
        self.rest = self.rest.strip_prefix(&[b])?;
        Some(())
    }

    // Takes the bytes up to one that does not belong to them.
    fn take_while<F: Fn(u8) -> bool>(&mut self, belongs: F) -> &'a [u8]
        requires { F.IsAlwaysCallable belongs }
    {
        let end = self
            .rest
            .iter()
            .position(|b| !belongs(*b))
            .unwrap_or(self.rest.len());
        let (taken, rest) = self.rest.split_at(end);
        self.rest = rest;
        taken
    }

    fn take_word(&mut self) -> &'a [u8] {
        self.take_while(|b| b != b' ')
    }

    // Takes a number that has this many digits.
    fn take_digits(&mut self, width: usize, radix: Radix) -> Option<u64> {
        let (digits, rest) = self.rest.split_at_checked(width)?;
        self.rest = rest;
        parse_digits(digits, radix)
    }

    // Takes a blank and a number that has this many digits.
    fn take_field(&mut self, width: usize, radix: Radix) -> Option<u64> {
        self.take_byte(b' ')?;
        self.take_digits(width, radix)
    }
}

// The fields of a line.
impl<'a> Line<'a> {
    pub(crate) fn keyword(&mut self) -> Option<Keyword> {
        Keyword::of_word(self.take_word())
    }

    // Tests whether no field is left.
    pub(crate) fn end(self) -> Result<(), Fault> {
        if self.rest.is_empty() {
            Ok(())
        } else {
            Err(Fault::Malformed)
        }
    }

    pub(crate) fn name(&mut self) -> Result<&'a [u8], Fault> {
        self.take_byte(b' ').ok_or(Fault::Malformed)?;
        Ok(self.take_word())
    }

    pub(crate) fn number(&mut self) -> Result<u64, Fault> {
        self.take_field(3, Radix::Decimal).ok_or(Fault::Malformed)
    }

    pub(crate) fn digit(&mut self) -> Result<u64, Fault> {
        self.take_field(1, Radix::Decimal).ok_or(Fault::Malformed)
    }

    pub(crate) fn truth(&mut self) -> Result<bool, Fault> {
        let digit = self.take_field(1, Radix::Binary).ok_or(Fault::Malformed)?;
        Ok(digit == 1)
    }

    pub(crate) fn code_point(&mut self) -> Result<u32, Fault> {
        let number = self
            .take_field(6, Radix::Hexadecimal)
            .ok_or(Fault::Malformed)?;
        match u32::try_from(number) {
            Ok(ch) if ch <= LAST_CODE_POINT => Ok(ch),
            _ => Err(Fault::Malformed),
        }
    }

    fn char_set(&mut self) -> Result<CharSet, Fault> {
        let mut bits = [0u64; CHARSET_WORDS];
        for word in bits.iter_mut() {
            *word = self
                .take_field(16, Radix::Hexadecimal)
                .ok_or(Fault::Malformed)?;
        }
        Ok(CharSet { bits })
    }

    fn key_set(&mut self) -> Result<PolicyKeySet, Fault> {
        let chars = self.char_set()?;
        let keycap_chars = self.char_set()?;
        Ok(PolicyKeySet {
            chars,
            keycap_chars,
        })
    }

    pub(crate) fn sizes(&mut self) -> Result<Sizes, Fault> {
        let ordinary = self.number()?;
        let keycap = self.number()?;
        Ok(Sizes { ordinary, keycap })
    }

    pub(crate) fn stored_set(&mut self) -> Result<StoredSet, Fault> {
        let keys = self.key_set()?;
        let sizes = self.sizes()?;
        Ok(StoredSet { keys, sizes })
    }

    pub(crate) fn policy(&mut self) -> Result<Policy, Fault> {
        let prefer_bare = self.key_set()?;
        let bare_as_text = self.key_set()?;
        Ok(Policy {
            prefer_bare,
            bare_as_text,
        })
    }

    // Takes the digits of a text, which goes to the end of the line.
    pub(crate) fn last_text(&mut self) -> Result<Line<'a>, Fault> {
        self.take_byte(b' ').ok_or(Fault::Malformed)?;
        let digits = self.take_while(is_digit);
        if digits.len() % 2 != 0 {
            return Err(Fault::Malformed);
        }
        Ok(Line::new(digits))
    }

    // Takes a text that ends at a full stop.
    pub(crate) fn text(&mut self) -> Result<ArrayVec<u8, TEXT_BYTES>, Fault> {
        self.take_byte(b' ').ok_or(Fault::Malformed)?;
        let digits = self.take_while(|b| b != b'.');
        self.take_byte(b'.').ok_or(Fault::Malformed)?;
        text_of(digits)
    }
}

// Returns the text of these digits.
fn text_of(digits: &[u8]) -> Result<ArrayVec<u8, TEXT_BYTES>, Fault> {
    let mut text = ArrayVec::new();
    let (pairs, rest) = digits.as_chunks::<2>();
    if !rest.is_empty() {
        return Err(Fault::Malformed);
    }
    for pair in pairs {
        let byte = byte_of(pair).ok_or(Fault::Malformed)?;
        text.try_push(byte).map_err(|_| Fault::Malformed)?;
    }
    Ok(text)
}

// The parts of items and findings.
impl Line<'_> {
    // Tests whether no part is left.
    pub(crate) fn same_end(self) -> Result<(), Fault> {
        self.end().map_err(|_| Fault::Differs)
    }

    // Takes a letter or a sign.
    pub(crate) fn mark(&mut self, b: u8) -> Result<(), Fault> {
        self.take_byte(b).ok_or(Fault::Differs)
    }

    // Takes this number in base 10.
    pub(crate) fn same_number(&mut self, n: usize) -> Result<(), Fault> {
        let digits = self.take_while(|b| b.is_ascii_digit());
        check(parse_digits(digits, Radix::Decimal) == Some(n as u64))
    }

    // Takes this code point: five digits.
    fn same_code_point(&mut self, ch: u32) -> Result<(), Fault> {
        check(self.take_digits(5, Radix::Hexadecimal) == Some(u64::from(ch)))
    }

    // Takes these bytes: two digits for each.
    pub(crate) fn same_bytes(&mut self, bytes: &[u8]) -> Result<(), Fault> {
        for b in bytes {
            check(self.take_digits(2, Radix::Hexadecimal) == Some(u64::from(*b)))?;
        }
        Ok(())
    }

    // Takes this span: its start, `-`, and its end.
    pub(crate) fn same_span(&mut self, start: usize, end: usize) -> Result<(), Fault> {
        self.same_number(start)?;
        self.mark(b'-')?;
        self.same_number(end)
    }

    // Takes the letter of a selector.
    pub(crate) fn same_selector(&mut self, presentation: Presentation) -> Result<(), Fault> {
        match presentation {
            Presentation::Text => self.mark(b't'),
            Presentation::Emoji => self.mark(b'e'),
        }
    }

    // Takes the letter of a selector, if there is one.
    fn same_selector_if_any(&mut self, found: Option<Presentation>) -> Result<(), Fault> {
        match found {
            Some(presentation) => self.same_selector(presentation),
            None => Ok(()),
        }
    }

    // Takes a run of selectors: the letters of the first two and the number of selectors, or nothing if there is none.
    pub(crate) fn same_selectors(&mut self, run: PresentationSelectors) -> Result<(), Fault> {
        if run.count == 0 {
            return Ok(());
        }
        self.same_selector_if_any(run.first)?;
        self.same_selector_if_any(run.second)?;
        self.same_number(run.count)
    }

    // Takes a letter, a character and its selectors.
    pub(crate) fn same_character(
        &mut self,
        letter: u8,
        ch: u32,
        run: PresentationSelectors,
    ) -> Result<(), Fault> {
        self.mark(letter)?;
        self.same_code_point(ch)?;
        self.same_selectors(run)
    }
}
