// Taking damaged text in: `repair` replaces each bad place of a text by FFFD (document 02, ii). The crate evfmt takes a `str`, and has no
// such call. `repair` goes through the text from bad place to bad place and writes the repaired text on the way. Only if the output may be
// too short, it first measures the repaired text. `repair` equals `repair` of specs/Repair.antt.
#![tactic(auto)]

ghost use Rattle.std.specs.Prelude.{◌≡◌, ◌+◌, ◌≤◌, length};
ghost use Rattle.base.specs.Answers.{EndsAs};
ghost use Rattle.base.specs.Output.{PutAt};
ghost use Rattle.base.specs.Refusals.{text_limit};
ghost use Rattle.repair.specs.Repair.{repair, repair_row};
ghost use Rattle.repair.specs.Repaired.{repaired, replacement_bytes, replacements};

use base::{Refusal, TEXT_LIMIT};

// The bytes of FFFD. A bad place has at least one byte, so a repaired text has at most three times the bytes of the text.
const REPLACEMENT: [u8; 3] = [0xEF, 0xBF, 0xBD];

// The length of a repaired text, and the number of replacements in it.
#[derive(Clone, Copy, Debug, PartialEq, Eq)]
pub struct Repaired {
    pub len: usize,
    pub replaced: usize,
}

// Measures the repaired text, without writing it. The text is within the limit.
fn measure(text: &[u8]) -> Repaired
    requires { length text.now ≤ text_limit }
    ensures len { result.len ≡ length (repaired text.now) }
    ensures replaced { result.replaced ≡ replacements text.now }
{
    let mut at: usize = 0;
    let mut len: usize = 0;
    let mut replaced: usize = 0;
    loop {
        let stop = utf8_validity::valid_end(text, at);
        len += stop - at;
        if text.len() <= stop {
            return Repaired { len, replaced };
        }
        len += REPLACEMENT.len();
        replaced += 1;
        at = stop + utf8::bad_width(text, stop);
    }
}

// Puts bytes into the output, which has room for them, and returns where they end there.
fn put(bytes: &[u8], out: &mut [u8], at: usize) -> usize
    requires { at + length bytes.now ≤ length out.old }
    ensures { PutAt out.old at bytes.now out.new result }
{
    base::write_bytes(out, at, bytes);
    at + bytes.len()
}

// Puts the bytes of FFFD into the output, which has room for them, and returns where they end there.
fn put_replacement(out: &mut [u8], at: usize) -> usize
    requires { at + 3 ≤ length out.old }
    ensures { PutAt out.old at replacement_bytes out.new result }
{
    put(&REPLACEMENT, out, at)
}

// Writes the repaired text of a text within the limit into an output that has room for it.
fn write_repaired(text: &[u8], out: &mut [u8]) -> Repaired
    requires { (length text.now ≤ text_limit) × (length (repaired text.now) ≤ length out.old) }
    ensures len { PutAt out.old 0 (repaired text.now) out.new result.len }
    ensures replaced { result.replaced ≡ replacements text.now }
{
    let mut at: usize = 0;
    let mut len: usize = 0;
    let mut replaced: usize = 0;
    loop {
        let stop = utf8_validity::valid_end(text, at);
        len = put(&text[at..stop], out, len);
        if text.len() <= stop {
            return Repaired { len, replaced };
        }
        len = put_replacement(out, len);
        replaced += 1;
        at = stop + utf8::bad_width(text, stop);
    }
}

// Repairs a text within the limit into an output that may be too short: it measures the repaired text before it writes. It copies a
// well-formed text.
fn repair_measured(text: &[u8], out: &mut [u8]) -> Result<Repaired, Refusal>
    requires { length text.now ≤ text_limit }
    ensures { record { answer = result; buffer = out.new } ≡ repair text.now out.old }
{
    let Repaired { len, replaced } = measure(text);
    if out.len() < len {
        return Err(Refusal::OutputTooShort { wanted: len });
    }
    if replaced == 0 {
        base::write_bytes(out, 0, text);
        return Ok(Repaired { len, replaced });
    }
    Ok(write_repaired(text, out))
}

// Repairs a text: writes it at the front of the output, with FFFD in place of each bad place, or refuses.
pub fn repair(text: &[u8], out: &mut [u8]) -> Result<Repaired, Refusal>
    ensures { EndsAs repair_row (repair text.now out.old) result out.new }
{
    if TEXT_LIMIT < text.len() {
        return Err(Refusal::TextTooLong);
    }
    if out.len() / REPLACEMENT.len() < text.len() {
        return repair_measured(text, out);
    }
    Ok(write_repaired(text, out))
}
