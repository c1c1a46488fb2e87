// The tests of a piece: the character that the piece completes, and where the well-formed bytes after it end. The search for a change
// (crate text_pass) reads these bytes: if it finds none, it has tested all of them.
ghost use Rattle.std.specs.Prelude.{◌≡◌, true, ◌++◌, ◌+◌, ◌%◌, ◌≤◌, length};
ghost use Rattle.base.specs.Refusals.{text_limit};
ghost use Rattle.base.specs.Words.{little_endian};
ghost use Rattle.utf8.specs.Subparts.{unfinished};
ghost use Rattle.policy.specs.PolicyBytes.{policy_of};
ghost use Rattle.feeding.specs.Parts.{FirstChar, PieceFrom, JoinedValid, Scanned};

use crate::joined_char;
use text_pass::next_change;

// What the tests of a piece found. `first` is the completed character as one number, or 0. The piece goes on at `from`, and its
// well-formed bytes end at `end`. `valid` is the length of the longest well-formed beginning of the unfinished bytes and the piece. If
// `plain` is true, formatting changes nothing from `from` on.
#[derive(Clone, Copy)]
pub(crate) struct PieceScan {
    pub(crate) first: u32,
    pub(crate) from: usize,
    pub(crate) end: usize,
    pub(crate) valid: usize,
    pub(crate) plain: bool,
}

// Returns the character that the piece completes as one number, or 0 if it completes none.
fn first_char(n: usize, rest: usize, piece: &[u8]) -> u32
    requires { (n ≤ 3) × (length piece.now ≤ text_limit) }
    ensures { FirstChar n (little_endian n rest ++ piece.now) result }
{
    if n == 0 {
        return 0;
    }
    joined_char(n, rest, piece, 0)
}

// Returns where the piece goes on after the completed character. If bytes stay unfinished, that is its end.
fn piece_from(n: usize, first: u32, len: usize) -> usize
    requires { (n ≡ 0 → ⊥) → (first ≡ 0 → ⊥) → n ≤ first % 8 }
    ensures { PieceFrom n first len result }
{
    if n == 0 {
        return 0;
    }
    if first == 0 {
        return len;
    }
    (first % 8) as usize - n
}

// Returns the length of the longest well-formed beginning of the unfinished bytes and the piece.
fn joined_valid(n: usize, first: u32, end: usize) -> usize
    requires { (n ≤ 3) × (end ≤ text_limit) }
    ensures { JoinedValid n first end result }
{
    if n == 0 {
        return end;
    }
    if first == 0 {
        return 0;
    }
    n + end
}

// Tests a piece after unfinished bytes.
pub(crate) fn scan_piece(policy: &[u8], n: usize, rest: usize, piece: &[u8]) -> PieceScan
    requires { (n ≤ 3) × (length piece.now ≤ text_limit) × (unfinished (little_endian n rest) ≡ true) }
    ensures { Scanned (policy_of policy.now) n rest piece.now result }
{
    let first = first_char(n, rest, piece);
    let from = piece_from(n, first, piece.len());
    let change = next_change(piece, policy, from);
    let end = utf8_validity::valid_end(piece, change.end);
    let valid = joined_valid(n, first, end);
    let plain = !change.present;
    PieceScan {
        first,
        from,
        end,
        valid,
        plain,
    }
}
