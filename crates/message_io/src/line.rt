// The lines that the programs write (document 01, "Programs"): for a finding, for the totals, for a refusal. Each
// function writes a line at the front of a lent buffer that is long enough for every line, and equals a definition in
// specs/Lines.antt.
ghost use Rattle.std.specs.Prelude.{◌≡◌, ◌∷◌, map, ◌+◌, ◌*◌, ◌≤◌, drop, length, take};
ghost use Rattle.io.specs.Counts.{IsPrefixLen};
ghost use Rattle.base.specs.Output.{PutAt};
ghost use Rattle.base.specs.Refusals.{returned};
ghost use Rattle.message_io.specs.Lines.{with_blanks, decimal, finding_line, refusal_line, total_line};

use base::Refusal;

// The length of the longest line, with its 0A: ten numbers of up to 20 digits, with a blank or the 0A after each.
pub const LINE_ROOM: usize = 210;

// Writes bytes that fit at an offset, and returns the offset after them.
fn put_bytes(out: &mut [u8], start: usize, bytes: &[u8]) -> usize
    requires { start + length bytes.now ≤ length out.old }
    ensures { PutAt out.old start bytes.now out.new result }
{
    base::write_bytes(out, start, bytes);
    start + bytes.len()
}

// Writes the digits of a number.
fn put_decimal(out: &mut [u8], start: usize, n: usize) -> usize
    requires { start + 20 ≤ length out.old }
    ensures { PutAt out.old start (decimal n) out.new result × (result ≤ start + 20) }
{
    let mut digits = [0u8; 20];
    let k = io::decimal(n as u64, &mut digits);
    put_bytes(out, start, &digits[..k])
}

// Writes a blank and a number.
fn put_number(out: &mut [u8], start: usize, n: usize) -> usize
    requires { start + 21 ≤ length out.old }
    ensures { PutAt out.old start (0x20 ∷ decimal n) out.new result × (result ≤ start + 21) }
{
    let at = put_bytes(out, start, b" ");
    put_decimal(out, at, n)
}

// Writes each number with a blank before it.
fn put_numbers(out: &mut [u8], start: usize, numbers: &[usize]) -> usize
    requires { start + 21 * length numbers.now ≤ length out.old }
    ensures { PutAt out.old start (with_blanks (map decimal numbers.now)) out.new result
        × (result ≤ start + 21 * length numbers.now) }
{
    let mut at = start;
    let mut i = 0;
    while i < numbers.len() {
        at = put_number(out, at, numbers[i]);
        i += 1;
    }
    at
}

// Writes the line of a finding: its start, its end and its eight counts. Returns the line's length.
pub fn finding_line(
    start: usize,
    end: usize,
    counts: &[usize; 8],
    out: &mut [u8; LINE_ROOM],
) -> usize
    ensures prefix_len { IsPrefixLen result out.new }
    ensures out_after { take result out.new ≡ finding_line (start ∷ end ∷ counts.now) }
    ensures out_unchanged { drop result out.new ≡ drop result out.old }
{
    let mut at = put_decimal(out, 0, start);
    at = put_number(out, at, end);
    at = put_numbers(out, at, counts);
    put_bytes(out, at, b"\n")
}

// Writes the line of the eight totals. Returns the line's length.
pub fn total_line(numbers: &[usize; 8], out: &mut [u8; LINE_ROOM]) -> usize
    ensures prefix_len { IsPrefixLen result out.new }
    ensures out_after { take result out.new ≡ total_line numbers.now }
    ensures out_unchanged { drop result out.new ≡ drop result out.old }
{
    let mut at = put_bytes(out, 0, b"total");
    at = put_numbers(out, at, numbers);
    put_bytes(out, at, b"\n")
}

// Writes a blank and the value of a refusal, if it has one.
fn put_returned(out: &mut [u8], start: usize, refusal: Refusal) -> usize
    requires { start + 21 ≤ length out.old }
    ensures { PutAt out.old start (with_blanks (map decimal (returned refusal))) out.new result × (result ≤ start + 21) }
{
    match refusal.value() {
        Some(value) => put_number(out, start, value),
        None => start,
    }
}

// Writes the line of a refusal. Returns the line's length, which is at most 210.
pub fn refusal_line(refusal: Refusal, out: &mut [u8; LINE_ROOM]) -> usize
    ensures prefix_len { IsPrefixLen result out.new }
    ensures upper_bound { result ≤ 210 }
    ensures out_after { take result out.new ≡ refusal_line refusal }
    ensures out_unchanged { drop result out.new ≡ drop result out.old }
{
    let mut at = put_bytes(out, 0, b"refused");
    at = put_number(out, at, refusal.number() as usize);
    at = put_returned(out, at, refusal);
    put_bytes(out, at, b"\n")
}
