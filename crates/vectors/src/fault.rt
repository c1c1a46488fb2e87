// What is wrong with a line of a file of stored answers.
ghost use Rattle.std.specs.Prelude.{◌↔◌, IsOk, IsTrue};

use std::error::Error;
use std::fmt;

#[derive(Clone, Copy, Debug, PartialEq, Eq)]
pub enum Fault {
    // The line follows its format, and its answer is another one.
    Differs,
    Malformed,
}

impl fmt::Display for Fault {
    fn fmt<W: fmt::Write>(&self, f: &mut fmt::Formatter<W>) -> fmt::Result {
        match self {
            Fault::Differs => write!(f, "differs"),
            Fault::Malformed => write!(f, "does not follow the format"),
        }
    }
}

impl Error for Fault {}

// Gives the verdict on a line that follows its format.
pub(crate) fn check(agrees: bool) -> Result<(), Fault>
    ensures { IsOk result ↔ IsTrue agrees }
{
    if agrees { Ok(()) } else { Err(Fault::Differs) }
}
