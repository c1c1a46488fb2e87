// Writing the sheet of a policy (document 02, vi). `write_sheet` equals `write_call` (crate policy_sheet, specs/Calls.antt) for all inputs.
// A line is written in one pass over the variation entries, with a look at the next one (specs/OnePass.antt); it is measured first.
#![tactic(auto)]

ghost use Rattle.std.specs.Prelude.{◌≡◌, false, ◌∷◌, ℕ, ◌+◌, ◌<◌, ◌≤◌, drop, length};
ghost use Rattle.base.specs.Answers.{EndsAs, answer_row};
ghost use Rattle.base.specs.Output.{PutAt, Wrote};
ghost use Rattle.emoji.specs.UnicodeData.{variation_entries};
ghost use Rattle.policy_key_set.specs.Sets.{member};
ghost use Rattle.policy_sheet.specs.Calls.{write_call};
ghost use Rattle.policy_sheet.specs.Writer.{fewest_digits, first_in, line_text, point_text, write_sheet};
ghost use Rattle.sheet_writing.specs.OnePass.{entry_text, line_from};

use base::Refusal;
use emoji::unicode_data::VARIATION_ENTRY_COUNT;
use emoji::variation_char;
use policy::Policy;
use policy_key_set::char_set::CharSet;
use policy_key_set::display::hex_digits;

// Returns the number of digits of a code point: "the fewest digits allowed".
#[tactic(auto, unfolding(policy_sheet::specs::Writer::fewest_digits))]
fn digits_of(ch: u32) -> usize
    ensures { (result ≡ fewest_digits ch) × (result ≤ 6) }
{
    match ch {
        0..=0xFF => 2,
        0x100..=0xFFFF => 4,
        0x10000..=0xFFFFF => 5,
        _ => 6,
    }
}

// Writes a code point, and returns the offset after it.
fn put_point(out: &mut [u8], start: usize, ch: u32) -> usize
    requires { start + length (point_text ch) ≤ length out.old }
    ensures { PutAt out.old start (point_text ch) out.new result }
{
    let width = digits_of(ch);
    base::write_bytes(out, start, &hex_digits(ch)[6 - width..]);
    start + width
}

// Writes a byte and a code point, and returns the offset after them.
fn put_marked(out: &mut [u8], start: usize, b: u8, ch: u32) -> usize
    requires { start + length (b ∷ point_text ch) ≤ length out.old }
    ensures { PutAt out.old start (b ∷ point_text ch) out.new result }
{
    out[start] = b;
    put_point(out, start + 1, ch)
}

// Writes the bytes that an entry adds to a line, and returns the offset after them.
fn put_entry(
    out: &mut [u8],
    start: usize,
    before: bool,
    any: bool,
    here: bool,
    next: bool,
    ch: u32,
) -> usize
    requires { start + length (entry_text before any here next ch) ≤ length out.old }
    ensures { PutAt out.old start (entry_text before any here next ch) out.new result }
{
    if here {
        if before {
            if next {
                return start;
            }
            return put_marked(out, start, 0x2D, ch);
        }
        if any {
            return put_marked(out, start, 0x2C, ch);
        }
        return put_point(out, start, ch);
    }
    start
}

// Tests whether a set has the entry at an index. After the last entry there is none.
fn in_set(set: CharSet, i: usize) -> bool
    ensures { result ≡ first_in (λ (j : ℕ). member j set.bits) i (drop i variation_entries) }
{
    i < VARIATION_ENTRY_COUNT && base::has_bit(set.bits[i / 64], i)
}

// Writes a line without the 0A that ends it, and returns the offset after it.
fn put_line(out: &mut [u8], start: usize, set: CharSet) -> usize
    requires { start + length (line_from (λ (j : ℕ). member j set.bits) 0 false false variation_entries) ≤ length out.old }
    ensures { PutAt out.old start
        (line_from (λ (j : ℕ). member j set.bits) 0 false false variation_entries) out.new result }
{
    let mut at = start;
    let mut before = false;
    let mut any = false;
    let mut here = in_set(set, 0);
    for i in 0..VARIATION_ENTRY_COUNT {
        let next = in_set(set, i + 1);
        let ch = variation_char(i);
        at = put_entry(out, at, before, any, here, next, ch);
        before = here;
        any |= here;
        here = next;
    }
    at
}

// Returns the number of bytes that an entry adds to a line: at most a comma or a dash, and six digits.
fn entry_len(before: bool, any: bool, here: bool, next: bool, ch: u32) -> usize
    ensures { (result ≡ length (entry_text before any here next ch)) × (result ≤ 7) }
{
    let width = digits_of(ch);
    if here {
        if before {
            if next {
                return 0;
            }
            return width + 1;
        }
        if any {
            return width + 1;
        }
        return width;
    }
    0
}

// Returns the number of bytes of a line without the 0A that ends it.
fn line_len(set: CharSet) -> usize
    ensures { (result ≡ length (line_from (λ (j : ℕ). member j set.bits) 0 false false variation_entries)) × (result ≤ 2478) }
{
    let mut n: usize = 0;
    let mut before = false;
    let mut any = false;
    let mut here = in_set(set, 0);
    for i in 0..VARIATION_ENTRY_COUNT {
        let next = in_set(set, i + 1);
        let ch = variation_char(i);
        n += entry_len(before, any, here, next, ch);
        before = here;
        any |= here;
        here = next;
    }
    n
}

// Returns the number of bytes of a sheet.
fn sheet_len(policy: Policy) -> usize
    ensures { (result ≡ length (write_sheet policy)) × (result ≤ 9916) }
{
    let first = line_len(policy.prefer_bare.chars);
    let second = line_len(policy.prefer_bare.keycap_chars);
    let third = line_len(policy.bare_as_text.chars);
    let fourth = line_len(policy.bare_as_text.keycap_chars);
    first + second + third + fourth + 4
}

// Writes a line with the 0A that ends it, and returns the offset after it.
fn put_ended_line(out: &mut [u8], start: usize, set: CharSet) -> usize
    requires { start + length (line_text set.bits) ≤ length out.old }
    ensures { PutAt out.old start (line_text set.bits) out.new result }
{
    let end = put_line(out, start, set);
    out[end] = 0x0A;
    end + 1
}

// Writes the four lines of a sheet at the front, and returns the offset after them.
fn put_lines(out: &mut [u8], policy: Policy) -> usize
    requires { length (write_sheet policy) ≤ length out.old }
    ensures { PutAt out.old 0 (write_sheet policy) out.new result }
{
    let second = put_ended_line(out, 0, policy.prefer_bare.chars);
    let third = put_ended_line(out, second, policy.prefer_bare.keycap_chars);
    let fourth = put_ended_line(out, third, policy.bare_as_text.chars);
    put_ended_line(out, fourth, policy.bare_as_text.keycap_chars)
}

// Writes the sheet of a policy at the front, or answers that the output is too short.
fn put_sheet(out: &mut [u8], policy: Policy) -> Result<usize, Refusal>
    ensures { Wrote (write_sheet policy) out.old out.new result }
{
    let wanted = sheet_len(policy);
    if out.len() < wanted {
        return Err(Refusal::OutputTooShort { wanted });
    }
    put_lines(out, policy);
    Ok(wanted)
}

// Writes the sheet of a policy at the front of the output, or refuses.
pub fn write_sheet(policy: &[u8], out: &mut [u8]) -> Result<usize, Refusal>
    ensures { EndsAs answer_row (write_call policy.now out.old) result out.new }
{
    let policy = Policy::try_from(policy)?;
    put_sheet(out, policy)
}
