// Checks a published file by itself: whether each line follows the format, the Emoji Version that its header names, and
// whether each total that a comment states is the number of elements since the total before it. Lines are counted from
// 1.
use crate::parse::{Line, LineError, Points, is_line_feed, number};
use crate::report::Count;
use crate::tables::File;
use emoji::TEXT_PRESENTATION_SELECTOR;
use emoji::unicode_data::{UNICODE_VERSION, UNICODE_VERSION_MAJOR, UNICODE_VERSION_MINOR};
use std::fmt;
use std::fmt::Write;

// The number of a version, as 15.0.
#[derive(Clone, Copy, Debug, PartialEq, Eq)]
pub struct Version {
    pub major: u32,
    pub minor: u32,
}

// The version of the tables.
pub const TABLES_VERSION: Version = Version {
    major: UNICODE_VERSION_MAJOR,
    minor: UNICODE_VERSION_MINOR,
};

// The result for a file: the number of lines, the version that its header names, the number of totals, and the first
// line whose total is wrong. `sum` is the number of elements since the last total.
#[derive(Clone, Copy, Debug, Default, PartialEq, Eq)]
pub struct Survey {
    pub lines: usize,
    pub version: Option<Version>,
    pub totals: usize,
    pub wrong_total: Option<usize>,
    sum: u64,
}

// A line that does not follow the format. It is written by its number alone.
#[derive(Clone, Copy, Debug, PartialEq, Eq)]
pub struct BadLine {
    pub number: usize,
    pub error: LineError,
}

impl Version {
    // Returns the version as one word.
    fn word(self) -> u64 {
        256 * u64::from(self.major) + u64::from(self.minor)
    }
}

// Returns the version that a comment of the header names.
fn version_in(comment: &[u8]) -> Option<Version> {
    let (major, rest) = number(comment.strip_prefix(b" Used with Emoji Version ")?)?;
    let (minor, _) = number(rest.strip_prefix(b".")?)?;
    Some(Version { major, minor })
}

// Returns the total that a comment states, of code points or of sequences.
fn total_in(comment: &[u8]) -> Option<u64> {
    let text = match comment.strip_prefix(b" Total elements: ") {
        Some(text) => text,
        None => comment.strip_prefix(b"Total sequences: ")?,
    };
    let (total, _) = number(text)?;
    Some(u64::from(total))
}

// Returns the number of elements that a line adds to a total. The two sequences of a character count as one.
fn elements_in(points: Points) -> u64 {
    match points.selector {
        None | Some(TEXT_PRESENTATION_SELECTOR) => points.len(),
        Some(_) => 0,
    }
}

impl Survey {
    // Compares the total that a comment states in this line, and starts the next total.
    fn add_total(&mut self, total: u64, number: usize) {
        if total != self.sum {
            self.wrong_total = self.wrong_total.or(Some(number));
        }
        self.totals = self.totals.saturating_add(1);
        self.sum = 0;
    }

    // Adds a comment, which stands in this line.
    fn add_comment(&mut self, comment: &[u8], number: usize) {
        if let Some(total) = total_in(comment) {
            self.add_total(total, number);
        }
        self.version = version_in(comment).or(self.version);
    }

    // Checks a whole file.
    pub(crate) fn of(text: &[u8], file: File) -> Result<Survey, BadLine> {
        let mut survey = Survey::default();
        for (number, line) in (1..).zip(text.split_inclusive(is_line_feed)) {
            survey.lines = number;
            match file.parse(line) {
                Ok(Line::Blank) => {}
                Ok(Line::Comment(comment)) => survey.add_comment(comment, number),
                Ok(Line::Data(line)) => {
                    survey.sum = survey.sum.saturating_add(elements_in(line.points));
                }
                Err(error) => return Err(BadLine { number, error }),
            }
        }
        Ok(survey)
    }
}

impl fmt::Display for BadLine {
    fn fmt<W: Write>(&self, f: &mut fmt::Formatter<W>) -> fmt::Result {
        let number = self.number;
        write!(f, "line {number} does not follow the format")
    }
}

impl fmt::Display for Version {
    fn fmt<W: Write>(&self, f: &mut fmt::Formatter<W>) -> fmt::Result {
        let Version { major, minor } = *self;
        write!(f, "{major}.{minor}")
    }
}

// Writes the version, and whether it is the version of the tables and of the word.
fn write_version<W: Write>(f: &mut fmt::Formatter<W>, version: Version) -> fmt::Result {
    write!(f, "Emoji Version {version}")?;
    if version != TABLES_VERSION {
        f.write_str(", not that of the tables")?;
    }
    if version.word() != UNICODE_VERSION {
        f.write_str(", not that of the word")?;
    }
    Ok(())
}

// Writes "Emoji Version 15.0, 1320 lines, 6 totals".
impl fmt::Display for Survey {
    fn fmt<W: Write>(&self, f: &mut fmt::Formatter<W>) -> fmt::Result {
        match self.version {
            Some(version) => write_version(f, version)?,
            None => f.write_str("no Emoji Version")?,
        }
        let lines = Count(self.lines, "line");
        let totals = Count(self.totals, "total");
        write!(f, ", {lines}, {totals}")
    }
}
