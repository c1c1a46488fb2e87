// The cursor of a reader: what is kept of the bytes of a sheet before an offset. The functions that take a byte equal `transition` of crate
// policy_sheet, specs/Reader.antt, on all states that the cursor tracks (`Tracks` of specs/Tracking.antt).
ghost use Rattle.std.specs.Prelude.{◌≡◌, not, List, [], ◌∷◌, ◌++◌, ℕ, ◌+◌, ◌<◌};
ghost use Rattle.emoji.specs.Unicode.{has_variation_sequence};
ghost use Rattle.policy_sheet.specs.Grammar.{Piece, allowed_digits};
ghost use Rattle.policy_sheet.specs.Reader.{State, after_dash, before_piece, comma, dash, digit, first_descending, first_non_entry};
ghost use Rattle.policy_sheet.specs.Reader.{more_digits, newline, piece_read, start, transition, transition_by};
ghost use Rattle.sheet_reading.specs.Tracking.{StepResult, Tracks, found, or_found};

// The first code point of a range: its offset and its value.
#[derive(Clone, Copy, Debug, PartialEq, Eq)]
pub(crate) struct RangeStart {
    pub(crate) at: usize,
    pub(crate) value: u32,
}

// What was read of a sheet: the line, from 0 on; whether nothing of it was read; the first code point of the range, if a
// dash was read in the piece; where the number begins, its digits so far and their value; the start of the first
// range that runs down (`descending`); the offset of the first code point that is no variation entry (`stray`).
#[derive(Clone, Copy, Debug, PartialEq, Eq)]
pub(crate) struct Cursor {
    pub(crate) line: u32,
    pub(crate) fresh: bool,
    pub(crate) first: Option<RangeStart>,
    pub(crate) from: usize,
    pub(crate) count: u32,
    pub(crate) value: u32,
    pub(crate) descending: Option<usize>,
    pub(crate) stray: Option<usize>,
}

// Tests whether a code point may have the number of digits: "two or four to six".
#[tactic(auto, unfolding(policy_sheet::specs::Grammar::allowed_digits))]
pub(crate) fn is_allowed(count: u32) -> bool
    ensures { result ≡ allowed_digits count }
{
    matches!(count, 2 | 4..=6)
}

// Returns the first of two offsets, if there is one.
fn or_offset(place: Option<usize>, is_found: bool, at: usize) -> Option<usize>
    ensures { result ≡ or_found place (found is_found at) }
{
    place.or(is_found.then_some(at))
}

// Returns the cursor after one more digit of the number.
fn more_digits(c: Cursor, d: u32) -> Cursor
    requires { (c.count < 6) × (d < 16) }
    ensures { (r : State) → Tracks c r → Tracks result (more_digits r d) }
{
    Cursor {
        fresh: false,
        count: c.count + 1,
        value: (c.value % 0x100000) * 16 + d,
        ..c
    }
}

// Returns the cursor after the dash of a range: the number is the first code point of the range.
fn after_dash(c: Cursor, next: usize) -> Cursor
    ensures { (r : State) → Tracks c r → Tracks result (after_dash r next) }
{
    Cursor {
        fresh: false,
        first: Some(RangeStart {
            at: c.from,
            value: c.value,
        }),
        from: next,
        count: 0,
        value: 0,
        ..c
    }
}

// Returns the cursor at the start of a piece.
fn before_piece(
    line: u32,
    fresh: bool,
    descending: Option<usize>,
    stray: Option<usize>,
    next: usize,
) -> Cursor
    ensures { (xs : List Piece) → descending ≡ first_descending xs → stray ≡ first_non_entry xs
        → Tracks result (before_piece line fresh xs next) }
{
    Cursor {
        line,
        fresh,
        first: None,
        from: next,
        count: 0,
        value: 0,
        descending,
        stray,
    }
}

// Returns where the first range that runs down starts, if the piece that was read is closed here.
fn descending_with(c: Cursor) -> Option<usize>
    ensures { (r : State) → Tracks c r → result ≡ first_descending (r.pieces ++ (piece_read r ∷ [])) }
{
    match c.first {
        Some(first) => or_offset(c.descending, c.value < first.value, first.at),
        None => c.descending,
    }
}

// Tests whether a code point is no variation entry.
fn is_no_entry(v: u32) -> bool
    ensures { result ≡ not (has_variation_sequence v) }
{
    !emoji::has_variation_sequence_by_block(v)
}

// Returns the offset of the first code point that is no variation entry, if the piece that was read is closed here.
fn non_entry_with(c: Cursor) -> Option<usize>
    ensures { (r : State) → Tracks c r → result ≡ first_non_entry (r.pieces ++ (piece_read r ∷ [])) }
{
    let last = is_no_entry(c.value);
    match c.first {
        Some(first) => {
            let earlier = or_offset(c.stray, is_no_entry(first.value), first.at);
            or_offset(earlier, last, c.from)
        }
        None => or_offset(c.stray, last, c.from),
    }
}

// Takes a digit.
fn digit_step(c: Cursor, d: u32) -> Option<Cursor>
    requires { d < 16 }
    ensures { (at : ℕ) (r : State) → Tracks c r → StepResult (transition_by at r (digit d)) result }
{
    if c.count < 6 {
        return Some(more_digits(c, d));
    }
    None
}

// Takes a comma, which closes a piece.
fn comma_step(c: Cursor, next: usize) -> Option<Cursor>
    ensures { (at : ℕ) (r : State) → next ≡ at + 1 → Tracks c r → StepResult (transition_by at r comma) result }
{
    if is_allowed(c.count) {
        let descending = descending_with(c);
        let stray = non_entry_with(c);
        return Some(before_piece(c.line, false, descending, stray, next));
    }
    None
}

// Takes a dash.
fn dash_step(c: Cursor, next: usize) -> Option<Cursor>
    ensures { (at : ℕ) (r : State) → next ≡ at + 1 → Tracks c r → StepResult (transition_by at r dash) result }
{
    if let Some(_) = c.first {
        return None;
    }
    if is_allowed(c.count) {
        return Some(after_dash(c, next));
    }
    None
}

// Takes a byte 0A, which closes a piece or ends an empty line.
fn newline_step(c: Cursor, next: usize) -> Option<Cursor>
    requires { c.line < 4 }
    ensures { (at : ℕ) (r : State) → next ≡ at + 1 → Tracks c r → StepResult (transition_by at r newline) result }
{
    let line = c.line + 1;
    if is_allowed(c.count) {
        let descending = descending_with(c);
        let stray = non_entry_with(c);
        return Some(before_piece(line, true, descending, stray, next));
    }
    if c.fresh {
        return Some(before_piece(line, true, c.descending, c.stray, next));
    }
    None
}

// Takes one byte.
pub(crate) fn step_on(c: Cursor, next: usize, b: u8) -> Option<Cursor>
    ensures { (at : ℕ) (r : State) → next ≡ at + 1 → Tracks c r → StepResult (transition at r b) result }
{
    if 4 <= c.line {
        return None;
    }
    match b {
        b'0'..=b'9' => digit_step(c, (b - b'0') as u32),
        b'A'..=b'F' => digit_step(c, (b - b'A') as u32 + 10),
        b',' => comma_step(c, next),
        b'-' => dash_step(c, next),
        b'\n' => newline_step(c, next),
        _ => None,
    }
}

// Returns the cursor before the first byte.
pub(crate) fn begin() -> Cursor
    ensures { Tracks result start }
{
    before_piece(0, true, None, None, 0)
}
