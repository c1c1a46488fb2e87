// Document 01's table of refusals in code: the number of a refusal, and the value that is returned with it. The table itself is
// `refusal_table` in specs/Refusals.antt. A new row of that table needs a new arm in each method of this file.
ghost use Rattle.std.specs.Prelude.{◌≡◌, ◌≤◌, Some};
ghost use Rattle.base.specs.Refusals.{refusal_table, refusal_words};

use crate::Refusal;
use std::error::Error;
use std::fmt;

impl Refusal {
    // Returns the number of a refusal. It is at most 254: an answer word uses 255 for "nothing to do".
    pub fn number(self) -> u64
        ensures table { result ≡ (refusal_table self).number }
        ensures small { result ≤ 254 }
    {
        match self {
            Refusal::TextTooLong => 1,
            Refusal::NotAPolicy => 2,
            Refusal::NotWellFormed { .. } => 3,
            Refusal::NoFinding => 4,
            Refusal::WrongNumberOfDecisions { .. } => 5,
            Refusal::BadDecision { .. } => 6,
            Refusal::TableTooShort { .. } => 7,
            Refusal::OutputTooShort { .. } => 8,
            Refusal::FeedEnded => 9,
            Refusal::UnfinishedCharacter => 10,
            Refusal::NotASheet { .. } => 11,
            Refusal::NotAnEntry { .. } => 12,
            Refusal::BadClientOrNumber => 13,
            Refusal::DoesNotFit { .. } => 14,
            Refusal::OtherVersion => 15,
            Refusal::NotAnEntryList => 16,
        }
    }

    // Returns the value of a refusal, or `None` if the table says "nothing more".
    pub fn value(self) -> Option<usize>
        ensures { result ≡ (refusal_table self).returned }
    {
        match self {
            Refusal::NotWellFormed { valid_up_to } => Some(valid_up_to),
            Refusal::WrongNumberOfDecisions { wanted } => Some(wanted),
            Refusal::BadDecision { index } => Some(index),
            Refusal::TableTooShort { findings } => Some(findings),
            Refusal::OutputTooShort { wanted } => Some(wanted),
            Refusal::NotASheet { offset } => Some(offset),
            Refusal::NotAnEntry { offset } => Some(offset),
            Refusal::DoesNotFit { fits } => Some(fits),
            Refusal::TextTooLong
            | Refusal::NotAPolicy
            | Refusal::NoFinding
            | Refusal::FeedEnded
            | Refusal::UnfinishedCharacter
            | Refusal::BadClientOrNumber
            | Refusal::OtherVersion
            | Refusal::NotAnEntryList => None,
        }
    }
}

// The words of the programs' refusal line: "refused", the number and, if there is one, the value.
impl fmt::Display for Refusal {
    ghost output = { λ r. Some (refusal_words r) };

    fn fmt<W: fmt::Write>(&self, f: &mut fmt::Formatter<W>) -> fmt::Result {
        write!(f, "refused {}", self.number())?;
        if let Some(value) = self.value() {
            write!(f, " {value}")?;
        }
        Ok(())
    }
}

impl Error for Refusal {}
