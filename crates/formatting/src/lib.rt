// Formatting a text: `format_text` of formatter.rs of the crate evfmt; document 01, "Replacement and text", "Turned back".
// `format_text` goes through the text from change to change (crate text_pass) and writes the formatted text on the way. Only if the output
// may be too short, it first measures the formatted text. `format_text` equals `format` of crates/formatter/specs/Format.antt.
// `format_answer` gives the answer of `format` and writes nothing, and `write_formatted` writes without an answer.
#![tactic(auto)]

ghost use Rattle.std.specs.Prelude.{◌≡◌, true, false, List, [], ◌∷◌, ◌++◌, ℕ, ◌+◌, ◌-◌, ◌≤◌, ◌<◌, leb, drop, length, take, Some};
ghost use Rattle.base.specs.Answers.{EndsAs, optional_row};
ghost use Rattle.base.specs.Output.{PutAt};
ghost use Rattle.base.specs.Refusals.{text_limit};
ghost use Rattle.utf8.specs.Rfc3629.{valid_up_to_of};
ghost use Rattle.policy.specs.PolicyBytes.{policy_of};
ghost use Rattle.text_pass.specs.Changes.{NextChange, formatted_from, selector_bytes};
ghost use Rattle.formatter.specs.Format.{format};
ghost use Rattle.formatting.specs.FirstChange.{FirstChange};

use base::{Refusal, TEXT_LIMIT};
use emoji::presentation::Presentation;
use formatter::intake::first_tests;
use policy::policy_bytes::ascii_keys_bare;
use room::default_room;
use scanner::selectors::SELECTOR_BYTES;
use text_pass::{Change, next_change};

// A formatted text has at most four times the bytes of the text.
const MOST_TIMES: usize = 4;

// The result of measuring a text: the length of its longest well-formed beginning, and the length of that beginning when formatted.
#[derive(Clone, Copy)]
struct Survey {
    valid_up_to: usize,
    len: usize,
}

// The number of bytes of a selector, or 0 without one.
fn selector_len(selector: Option<Presentation>) -> usize
    ensures { result ≡ length (selector_bytes selector) }
{
    match selector {
        None => 0,
        Some(_) => SELECTOR_BYTES,
    }
}

// Measures a text that is within the limit. The caller knows its first change.
fn survey_text(text: &[u8], policy: &[u8], first: Change) -> Survey
    requires { (length text.now ≤ text_limit) × NextChange (policy_of policy.now) text.now 0 first }
    ensures valid { result.valid_up_to ≡ valid_up_to_of text.now }
    ensures len { result.len ≡ length (formatted_from (policy_of policy.now) text.now 0) }
{
    let mut at = 0;
    let mut len = 0;
    let mut change = first;
    loop {
        len += change.start - at + selector_len(change.selector);
        at = change.end;
        if !change.present {
            return Survey {
                valid_up_to: at,
                len,
            };
        }
        change = next_change(text, policy, at);
    }
}

// Puts the bytes of a text between two offsets into the output, which has room for them, and returns where they end there.
fn put_part(text: &[u8], from: usize, to: usize, out: &mut [u8], at: usize) -> usize
    requires { (from ≤ to) × (to ≤ length text.now) × (at + (to - from) ≤ length out.old) }
    ensures { PutAt out.old at (take (to - from) (drop from text.now)) out.new result }
{
    base::write_bytes(out, at, &text[from..to]);
    at + (to - from)
}

// The third byte of a selector; the first two are EF B8.
fn last_byte(presentation: Presentation) -> u8
    ensures { selector_bytes (Some presentation) ≡ 0xEF ∷ 0xB8 ∷ result ∷ [] }
{
    match presentation {
        Presentation::Text => 0x8E,
        Presentation::Emoji => 0x8F,
    }
}

// Puts a selector into the output, which has room for it, and returns where it ends there. Without a selector it puts nothing.
fn put_selector(out: &mut [u8], at: usize, selector: Option<Presentation>) -> usize
    requires { at + length (selector_bytes selector) ≤ length out.old }
    ensures { PutAt out.old at (selector_bytes selector) out.new result }
{
    match selector {
        None => at,
        Some(presentation) => {
            out[at] = 0xEF;
            out[at + 1] = 0xB8;
            out[at + 2] = last_byte(presentation);
            at + SELECTOR_BYTES
        }
    }
}

// Puts the bytes of a text from an offset up to the start of a change, and the change's selector, into the output, which has room for them.
// It returns where they end there.
fn put_change(text: &[u8], from: usize, change: Change, out: &mut [u8], at: usize) -> usize
    requires { (from ≤ change.start) × (change.start ≤ length text.now)
        × (at + (change.start - from) + length (selector_bytes change.selector) ≤ length out.old) }
    ensures { PutAt out.old at
        (take (change.start - from) (drop from text.now) ++ selector_bytes change.selector) out.new result }
{
    let end = put_part(text, from, change.start, out, at);
    put_selector(out, end, change.selector)
}

// Puts what formatting makes of the text from an offset on into the output, which has room for it. The caller knows the next change from
// the offset on.
fn put_changes(
    text: &[u8],
    policy: &[u8],
    from: usize,
    next: Change,
    out: &mut [u8],
    start: usize,
) -> usize
    requires { (from ≤ length text.now) × NextChange (policy_of policy.now) text.now from next
        × (start + length (formatted_from (policy_of policy.now) text.now from) ≤ length out.old) }
    ensures { PutAt out.old start (formatted_from (policy_of policy.now) text.now from)
        out.new result }
{
    let mut at = from;
    let mut to = start;
    let mut change = next;
    loop {
        to = put_change(text, at, change, out, to);
        if !change.present {
            return to;
        }
        at = change.end;
        change = next_change(text, policy, at);
    }
}

// Formats a text into an output that may be too short: it measures the formatted text before it writes. The caller knows the first change.
fn format_measured(
    text: &[u8],
    policy: &[u8],
    first: Change,
    out: &mut [u8],
) -> Result<Option<usize>, Refusal>
    requires { FirstChange text.now policy.now first }
    ensures { record { answer = result; buffer = out.new }
        ≡ format text.now policy.now out.old }
{
    let Survey { valid_up_to, len } = survey_text(text, policy, first);
    if valid_up_to != text.len() {
        return Err(Refusal::NotWellFormed { valid_up_to });
    }
    if out.len() < len {
        return Err(Refusal::OutputTooShort { wanted: len });
    }
    put_changes(text, policy, 0, first, out, 0);
    Ok(Some(len))
}

// The length of the longest well-formed beginning of a text, by the answer of `next_change`. If no change is present, that is where the
// search ended.
fn valid_after(text: &[u8], change: Change) -> usize
    requires { change.end ≤ length text.now }
    ensures { (change.present ≡ true → result ≡ change.end + valid_up_to_of (drop change.end text.now))
        × (change.present ≡ false → result ≡ change.end) }
{
    if !change.present {
        return change.end;
    }
    utf8_validity::valid_end(text, change.end)
}

// Formats a text into an output that has room for the formatted text. The caller knows the first change. Before the function writes, it
// looks for the second one: most messages have none, and then the search has tested the rest of the text too.
fn format_at_once(
    text: &[u8],
    policy: &[u8],
    first: Change,
    out: &mut [u8],
) -> Result<Option<usize>, Refusal>
    requires { FirstChange text.now policy.now first
        × (length (formatted_from (policy_of policy.now) text.now 0) ≤ length out.old) }
    ensures { record { answer = result; buffer = out.new }
        ≡ format text.now policy.now out.old }
{
    let end = first.end;
    let second = next_change(text, policy, end);
    let valid_up_to = valid_after(text, second);
    if valid_up_to != text.len() {
        return Err(Refusal::NotWellFormed { valid_up_to });
    }
    let to = put_change(text, 0, first, out, 0);
    Ok(Some(put_changes(text, policy, end, second, out, to)))
}

// Whether a room is surely enough for the formatted text, by the length of the text, which is within the limit. Four times this length is
// always enough; five halves of it are enough if the policy keeps the ASCII bases bare, as the default policy does. If the answer is
// false, the formatted text may still fit.
fn surely_fits(text: &[u8], policy: &[u8], room: usize) -> bool
    requires { length text.now ≤ text_limit }
    ensures { result ≡ true → length (formatted_from (policy_of policy.now) text.now 0) ≤ room }
{
    text.len() <= room / MOST_TIMES || default_room(text.len()) <= room && ascii_keys_bare(policy)
}

// Formats a text: writes the formatted text at the front of the output, if it differs from the text and fits.
pub fn format_text(text: &[u8], policy: &[u8], out: &mut [u8]) -> Result<Option<usize>, Refusal>
    ensures { EndsAs optional_row (format text.now policy.now out.old) result out.new }
{
    first_tests(text, policy)?;
    let first = next_change(text, policy, 0);
    let end = first.end;
    if !first.present {
        if end != text.len() {
            return Err(Refusal::NotWellFormed { valid_up_to: end });
        }
        return Ok(None);
    }
    if !surely_fits(text, policy, out.len()) {
        return format_measured(text, policy, first, out);
    }
    format_at_once(text, policy, first, out)
}

// Gives the answer of formatting into an output of `room` bytes, and writes nothing.
pub fn format_answer(text: &[u8], policy: &[u8], room: usize) -> Result<Option<usize>, Refusal>
    ensures { (out : List ℕ) → length out ≡ room → result ≡ (format text.now policy.now out).answer }
{
    first_tests(text, policy)?;
    let first = next_change(text, policy, 0);
    let Survey {
        valid_up_to,
        len: wanted,
    } = survey_text(text, policy, first);
    if valid_up_to != text.len() {
        return Err(Refusal::NotWellFormed { valid_up_to });
    }
    if !first.present {
        return Ok(None);
    }
    if room < wanted {
        return Err(Refusal::OutputTooShort { wanted });
    }
    Ok(Some(wanted))
}

// Whether the formatted text fits into a room. The caller knows the first change.
fn formatted_fits(text: &[u8], policy: &[u8], first: Change, room: usize) -> bool
    requires { (length text.now ≤ text_limit) × NextChange (policy_of policy.now) text.now 0 first }
    ensures { result ≡ leb (length (formatted_from (policy_of policy.now) text.now 0)) room }
{
    text.len() <= room / MOST_TIMES || survey_text(text, policy, first).len <= room
}

// Writes what formatting makes of a text's longest well-formed beginning at an offset of the output, and returns where it ends there. The
// function writes nothing if the output has no room for it, or if the text is longer than the limit.
pub fn write_formatted(text: &[u8], policy: &[u8], out: &mut [u8], at: usize) -> usize
    ensures put { length text.now ≤ text_limit
        → at + length (formatted_from (policy_of policy.now) text.now 0) ≤ length out.old
        → PutAt out.old at (formatted_from (policy_of policy.now) text.now 0) out.new result }
    ensures kept { length out.old < at + length (formatted_from (policy_of policy.now) text.now 0)
        → (out.new ≡ out.old) × (result ≡ at) }
    ensures long { text_limit < length text.now → (out.new ≡ out.old) × (result ≡ at) }
{
    if text.len() > TEXT_LIMIT {
        return at;
    }
    if out.len() < at {
        return at;
    }
    let first = next_change(text, policy, 0);
    if !formatted_fits(text, policy, first, out.len() - at) {
        return at;
    }
    put_changes(text, policy, 0, first, out, at)
}
