// Parses a line of the two published files. A line is empty, a comment that starts with `#`, or `<code points> ;
// <field> # <comment>`, as the header of emoji-data.txt says. The code points are one, a range `A..B`, or a sequence
// `A B` of two. The module `tables` decides which fields are allowed. The parts before a comment are text. A comment
// may be any bytes, so it stays a slice.
ghost use Rattle.std.specs.Prelude.{◌≤◌};

use std::ops::RangeInclusive;
use std::str;
use std::str::FromStr;

// The parser accepts no larger number.
const LARGEST: u32 = 0xFF_FFFF;

// The code points of a line, `first` to `last`. A sequence has one character and a selector.
#[derive(Clone, Copy, Debug, PartialEq, Eq)]
pub struct Points {
    pub first: u32,
    pub last: u32,
    pub selector: Option<u32>,
    ghost ordered: { first ≤ last },
}

// A line with code points. The comment begins with its `#`.
#[derive(Clone, Copy, Debug, PartialEq, Eq)]
pub struct DataLine<'a> {
    pub points: Points,
    pub field: &'a str,
    pub comment: &'a [u8],
}

// A parsed line. A line that is a comment is given without its `#`.
#[derive(Clone, Copy, Debug, PartialEq, Eq)]
pub enum Line<'a> {
    Blank,
    Comment(&'a [u8]),
    Data(DataLine<'a>),
}

// The reason why a line does not follow the format.
#[derive(Clone, Copy, Debug, PartialEq, Eq)]
pub enum LineError {
    NoComment,
    NotText,
    NoField,
    NoCodePoint,
    Descending,
    UnknownField,
}

impl Points {
    // Returns the range that the line lists. The selector of a sequence is not listed.
    pub(crate) fn range(self) -> RangeInclusive<u32> {
        self.first..=self.last
    }

    // Returns the number of code points in the range.
    pub(crate) fn len(self) -> u64 {
        u64::from(self.last - self.first) + 1
    }
}

// Tests whether a byte ends a line.
pub(crate) fn is_line_feed(b: &u8) -> bool {
    *b == b'\n'
}

// Parses a code point: 4 to 6 digits `0` to `9` or `A` to `F`, at most 10FFFF.
fn code_point(digits: &str) -> Result<u32, LineError> {
    let is_written = (4..=6).contains(&digits.len())
        && digits
            .bytes()
            .all(|b| matches!(b, b'0'..=b'9' | b'A'..=b'F'));
    match u32::from_str_radix(digits, 16) {
        Ok(ch) if is_written && ch <= 0x10_FFFF => Ok(ch),
        _ => Err(LineError::NoCodePoint),
    }
}

impl FromStr for Points {
    type Err = LineError;

    fn from_str(text: &str) -> Result<Points, LineError> {
        let (first, last, selector) = if let Some((first, last)) = text.split_once("..") {
            (code_point(first)?, code_point(last)?, None)
        } else if let Some((first, selector)) = text.split_once(' ') {
            let first = code_point(first)?;
            let selector = code_point(selector.trim_start_matches(' '))?;
            (first, first, Some(selector))
        } else {
            let first = code_point(text)?;
            (first, first, None)
        };
        if last < first {
            return Err(LineError::Descending);
        }
        Ok(Points {
            first,
            last,
            selector,
        })
    }
}

impl<'a> DataLine<'a> {
    // Parses a line that is neither empty nor a comment.
    fn parse(line: &'a [u8]) -> Result<DataLine<'a>, LineError> {
        let at = line
            .iter()
            .position(|b| *b == b'#')
            .ok_or(LineError::NoComment)?;
        let (front, comment) = line.split_at(at);
        let front = str::from_utf8(front).map_err(|_| LineError::NotText)?;
        let (points, field) = front.split_once(';').ok_or(LineError::NoField)?;
        Ok(DataLine {
            points: points.trim_end_matches(' ').parse()?,
            field: field.trim_matches(' '),
            comment,
        })
    }
}

impl<'a> Line<'a> {
    // Parses a line, with its line feed or without.
    pub(crate) fn parse(line: &'a [u8]) -> Result<Line<'a>, LineError> {
        match line.strip_suffix(b"\n").unwrap_or(line) {
            [] => Ok(Line::Blank),
            [b'#', comment @ ..] => Ok(Line::Comment(comment)),
            line => Ok(Line::Data(DataLine::parse(line)?)),
        }
    }
}

// Returns the number in base 10 at the start of a text, and what follows its digits.
pub(crate) fn number(text: &[u8]) -> Option<(u32, &[u8])> {
    let len = text
        .iter()
        .position(|b| !b.is_ascii_digit())
        .unwrap_or(text.len());
    let (digits, rest) = text.split_at(len);
    let value: u32 = str::from_utf8(digits).ok()?.parse().ok()?;
    if value > LARGEST {
        return None;
    }
    Some((value, rest))
}
