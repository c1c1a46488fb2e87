// Reading a policy sheet (document 02, vi). `read_sheet` equals `read_call` (crate policy_sheet, specs/Calls.antt) for all inputs. The
// first pass over the bytes finds the first fault, or the first code point that is no variation entry (`check_sheet`). The second pass
// collects the sets (`read_pieces`). Both passes keep a cursor, which has only two offsets of the pieces before it.
#![tactic(auto)]

mod cursor;
mod sets;

ghost use Rattle.std.specs.Prelude.{◌≡◌, Err, ℕ};
ghost use Rattle.base.specs.Answers.{EndsAs, answer_row};
ghost use Rattle.policy.specs.PolicyBytes.{policy_bytes};
ghost use Rattle.policy_sheet.specs.Calls.{read_call, write_result};
ghost use Rattle.policy_sheet.specs.Meaning.{sheet_policy};
ghost use Rattle.policy_sheet.specs.Reader.{State, reached, stopped};
ghost use Rattle.sheet_reading.specs.Tracking.{SetsHold, Tracks, check_of, check_sheet, pieces_read};

use base::{Refusal, TEXT_LIMIT};
use cursor::{Cursor, begin, step_on};
use policy::{Policy, write_policy};
use sets::{is_value, no_pieces, with_closed};

// Returns the refusal if the byte at an offset cannot follow.
fn stopped_at(c: Cursor, at: usize) -> Refusal
    ensures { (len : ℕ) (r : State) → Tracks c r → Err result ≡ check_of len (stopped at r) }
{
    Refusal::NotASheet {
        offset: c.descending.unwrap_or(at),
    }
}

// Returns the result if all bytes were read.
fn ended_at(c: Cursor, len: usize) -> Result<(), Refusal>
    ensures { (r : State) → Tracks c r → result ≡ check_of len (reached r) }
{
    if let Some(offset) = c.descending {
        return Err(Refusal::NotASheet { offset });
    }
    if c.line != 4 {
        return Err(Refusal::NotASheet { offset: len });
    }
    match c.stray {
        Some(offset) => Err(Refusal::NotAnEntry { offset }),
        None => Ok(()),
    }
}

// Tests whether bytes are a sheet of variation entries: refusals 11 and 12, for the first fault.
fn check_sheet(s: &[u8]) -> Result<(), Refusal>
    ensures { result ≡ check_sheet s.now }
{
    let mut c = begin();
    for (at, &b) in s.iter().enumerate() {
        match step_on(c, at + 1, b) {
            Some(further) => {
                c = further;
            }
            None => {
                return Err(stopped_at(c, at));
            }
        }
    }
    ended_at(c, s.len())
}

// Returns the policy of the pieces of a sheet, as far as the bytes are one.
fn read_pieces(s: &[u8]) -> Policy
    ensures { SetsHold (pieces_read s.now) result }
{
    let mut c = begin();
    let mut p = no_pieces();
    for (at, &b) in s.iter().enumerate() {
        match step_on(c, at + 1, b) {
            Some(further) => {
                p = with_closed(p, c, b);
                c = further;
            }
            None => {
                return p;
            }
        }
    }
    p
}

// Writes the bytes of the policy that the pieces of a sheet mean, or answers that the output is too short.
fn write_meaning(sheet: &[u8], out: &mut [u8]) -> Result<usize, Refusal>
    ensures { record { answer = result; buffer = out.new }
        ≡ write_result (policy_bytes (sheet_policy (pieces_read sheet.now))) out.old }
{
    let policy = read_pieces(sheet);
    is_value(policy);
    write_policy(policy, out)
}

// Reads a sheet: writes the bytes of its policy at the front of the output, or refuses.
pub fn read_sheet(sheet: &[u8], out: &mut [u8]) -> Result<usize, Refusal>
    ensures { EndsAs answer_row (read_call sheet.now out.old) result out.new }
{
    if TEXT_LIMIT < sheet.len() {
        return Err(Refusal::TextTooLong);
    }
    check_sheet(sheet)?;
    write_meaning(sheet, out)
}
