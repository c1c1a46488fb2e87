// A set of code points: one bit for each of 0 to 10FFFF, 64 in a word, lowest bit first.
use crate::report::Count;
use std::fmt;
use std::fmt::Write;
use std::ops::RangeInclusive;

pub const CODE_POINTS: u32 = 0x11_0000;

const WORDS: usize = CODE_POINTS as usize / 64;

#[derive(Drop)]
pub struct CodePointSet {
    words: [u64; WORDS],
}

// The number of code points in a set, and the number of runs of consecutive ones.
#[derive(Clone, Copy, Debug, PartialEq, Eq)]
pub struct Size {
    pub points: usize,
    pub ranges: usize,
}

impl CodePointSet {
    pub(crate) fn new() -> CodePointSet {
        CodePointSet { words: [0; WORDS] }
    }

    // Tests whether ch is in the set.
    pub(crate) fn contains(&self, ch: u32) -> bool {
        self.words
            .get((ch / 64) as usize)
            .is_some_and(|word| word >> (ch % 64) & 1 == 1)
    }

    // Adds ch. Returns false if it is already in the set or is no code point.
    fn insert(&mut self, ch: u32) -> bool {
        let bit = 1u64 << (ch % 64);
        match self.words.get_mut((ch / 64) as usize) {
            Some(word) if *word & bit == 0 => {
                *word |= bit;
                true
            }
            _ => false,
        }
    }

    // Adds code points. Returns false if one of them is already in the set or is no code point.
    pub(crate) fn insert_all(&mut self, mut points: RangeInclusive<u32>) -> bool {
        points.all(|ch| self.insert(ch))
    }

    // Tests whether a run of consecutive code points starts at ch.
    fn starts_range(&self, ch: u32) -> bool {
        self.contains(ch) && (ch == 0 || !self.contains(ch - 1))
    }

    // Returns the size of the set.
    pub(crate) fn size(&self) -> Size {
        Size {
            points: (0..CODE_POINTS).filter(|ch| self.contains(*ch)).count(),
            ranges: (0..CODE_POINTS).filter(|ch| self.starts_range(*ch)).count(),
        }
    }
}

// Writes "1424 code points, 151 ranges".
impl fmt::Display for Size {
    fn fmt<W: Write>(&self, f: &mut fmt::Formatter<W>) -> fmt::Result {
        let points = Count(self.points, "code point");
        let ranges = Count(self.ranges, "range");
        write!(f, "{points}, {ranges}")
    }
}
