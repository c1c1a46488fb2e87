// The lines that the program writes to standard output. Each starts with the name of the file that it is about.
use crate::fault::Fault;
use crate::keyword::Keyword;
use std::{fmt, io};

// Numbers of lines.
#[derive(Clone, Copy, Debug, PartialEq, Eq)]
pub struct Count {
    pub as_stored: u64,
    pub differ: u64,
}

// The number of lines with a keyword.
#[derive(Clone, Copy, Debug, PartialEq, Eq)]
pub struct Tally {
    pub keyword: Keyword,
    pub count: Count,
}

impl Count {
    const NONE: Count = Count {
        as_stored: 0,
        differ: 0,
    };

    fn plus(self, other: Count) -> Count {
        Count {
            as_stored: self.as_stored.saturating_add(other.as_stored),
            differ: self.differ.saturating_add(other.differ),
        }
    }
}

// "37 as stored, 1 not"
impl fmt::Display for Count {
    fn fmt<W: fmt::Write>(&self, f: &mut fmt::Formatter<W>) -> fmt::Result {
        let as_stored = self.as_stored;
        let differ = self.differ;
        write!(f, "{as_stored} as stored")?;
        if differ > 0 {
            write!(f, ", {differ} not")?;
        }
        Ok(())
    }
}

impl Tally {
    pub(crate) fn new(keyword: Keyword) -> Self {
        Tally {
            keyword,
            count: Count::NONE,
        }
    }

    // Counts a line that is as stored or not.
    pub(crate) fn add(&mut self, agrees: bool) {
        let line = Count {
            as_stored: u64::from(agrees),
            differ: u64::from(!agrees),
        };
        self.count = self.count.plus(line);
    }
}

// The lines about a file.
#[derive(Drop)]
pub(crate) struct Report<'a, R> {
    pub rt: &'a R,
    pub name: &'a str,
}

impl<R: Print> Report<'_, R> {
    // Writes what is wrong with the file: "policy.txt: cannot be opened".
    pub(crate) fn say(&self, what: &str) -> io::Result<()> {
        let name = self.name;
        println!(self.rt; "{name}: {what}")
    }

    // Writes what is wrong with a line: "policy.txt: line 24 differs".
    pub(crate) fn say_fault(&self, number: usize, fault: Fault) -> io::Result<()> {
        let name = self.name;
        println!(self.rt; "{name}: line {number} {fault}")
    }

    // Writes the counts of each keyword: "policy.txt: union 38 as stored", and then of all lines: "policy.txt: in all
    // 601 as stored, Adler-32 0123abcd".
    pub(crate) fn say_tallies(&self, tallies: &[Tally], checksum: u32) -> io::Result<()> {
        let name = self.name;
        let mut total = Count::NONE;
        for Tally { keyword, count } in tallies {
            println!(self.rt; "{name}: {keyword} {count}")?;
            total = total.plus(*count);
        }
        println!(self.rt; "{name}: in all {total}, Adler-32 {checksum:08x}")
    }
}
