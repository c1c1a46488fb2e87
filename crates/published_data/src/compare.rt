// Compares a table of the crate `emoji` with a published file. The code points that the file lists are put in a set. At
// each code point, the set and the table must agree.
use crate::code_points::{CODE_POINTS, CodePointSet};
use crate::parse::{Line, is_line_feed};
use crate::tables::{File, Table};
use std::fmt;
use std::fmt::Write;

// The first difference between a table and its file: a line that lists a code point again, a code point that only one
// of the two has, a code point with a wrong variation entry, or an entry after the last.
#[derive(Clone, Copy, Debug, PartialEq, Eq)]
pub enum Mismatch {
    Again { file: File, number: usize },
    FileOnly { table: Table, ch: u32 },
    TableOnly { table: Table, ch: u32 },
    WrongEntry { ch: u32 },
    ExtraEntry { ch: u32 },
}

impl fmt::Display for Mismatch {
    fn fmt<W: Write>(&self, f: &mut fmt::Formatter<W>) -> fmt::Result {
        match *self {
            Mismatch::Again { file, number } => {
                write!(f, "{file}: line {number} lists a code point again")
            }
            Mismatch::FileOnly { table, ch } => {
                write!(f, "{table} differs first at U+{ch:04X}: in the file only")
            }
            Mismatch::TableOnly { table, ch } => {
                write!(f, "{table} differs first at U+{ch:04X}: in the table only")
            }
            Mismatch::WrongEntry { ch } => {
                write!(
                    f,
                    "variation sequences: the entry or the index is wrong first at U+{ch:04X}"
                )
            }
            Mismatch::ExtraEntry { ch } => {
                write!(
                    f,
                    "variation sequences: an entry after the last, U+{ch:04X}"
                )
            }
        }
    }
}

// Returns the code points that the file lists for the table. No line may list one again.
fn listed(text: &[u8], table: Table) -> Result<CodePointSet, Mismatch> {
    let mut set = CodePointSet::new();
    for (number, line) in (1..).zip(text.split_inclusive(is_line_feed)) {
        if let Ok(Line::Data(line)) = Line::parse(line)
            && table.lists(&line)
            && !set.insert_all(line.points.range())
        {
            return Err(Mismatch::Again {
                file: table.file(),
                number,
            });
        }
    }
    Ok(set)
}

// Returns the difference at the code point ch.
fn difference_at(set: &CodePointSet, table: Table, ch: u32) -> Option<Mismatch> {
    match (set.contains(ch), table.has(ch)) {
        (true, false) => Some(Mismatch::FileOnly { table, ch }),
        (false, true) => Some(Mismatch::TableOnly { table, ch }),
        _ => None,
    }
}

// Returns the code points that the file lists for the table, if they are those of the table.
pub(crate) fn compare_table(text: &[u8], table: Table) -> Result<CodePointSet, Mismatch> {
    let set = listed(text, table)?;
    match (0..CODE_POINTS).find_map(|ch| difference_at(&set, table, ch)) {
        Some(mismatch) => Err(mismatch),
        None => Ok(set),
    }
}

// Tests whether ch has the entry at `index` if it is in the set, and no entry if it is not.
fn entry_agrees(set: &CodePointSet, ch: u32, index: usize) -> bool {
    match emoji::variation_sequence_index(ch) {
        Some(at) => set.contains(ch) && at == index && emoji::variation_entry(index) == Some(ch),
        None => !set.contains(ch),
    }
}

// Returns the number of entries, if they are the code points of the set in ascending order, with no entry after the
// last.
fn compare_entries(set: &CodePointSet) -> Result<usize, Mismatch> {
    let mut index = 0;
    for ch in 0..CODE_POINTS {
        if !entry_agrees(set, ch, index) {
            return Err(Mismatch::WrongEntry { ch });
        }
        index += usize::from(set.contains(ch));
    }
    match emoji::variation_entry(index) {
        Some(ch) => Err(Mismatch::ExtraEntry { ch }),
        None => Ok(index),
    }
}

// Returns the number of variation entries, if each style and the entries are as in the file.
pub(crate) fn compare_sequences(text: &[u8]) -> Result<usize, Mismatch> {
    compare_table(text, Table::TextStyle)?;
    let set = compare_table(text, Table::EmojiStyle)?;
    compare_entries(&set)
}
