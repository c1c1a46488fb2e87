// The end of a piece: the last base that has a variation entry, with its selectors. A feed holds it. It is looked for from the end of the
// well-formed bytes backwards, so that no other character is read.
ghost use Rattle.std.specs.Prelude.{◌≡◌, ◌+◌, ◌-◌, ◌/◌, ◌<◌, ◌≤◌, drop};
ghost use Rattle.utf8.specs.Rfc3629.{chars, valid_up_to_of};
ghost use Rattle.scanner.specs.SelectorRun.{first_selector};
ghost use Rattle.feeding.specs.Parts.{Between, LastChar, TailFrom};

use feed::Held;
use scanner::selectors::{SELECTOR_BYTES, selector_at};

// The offset at which the held base begins, and the base with its first selector and the number of its selectors. If none is held, the
// offset is the end, and the base is 0.
#[derive(Clone, Copy)]
pub(crate) struct HeldTail {
    pub(crate) start: usize,
    pub(crate) held: Held,
}

// Returns the offset of the last character before `to`. From `from` up to `to` there are only characters, and at least one.
fn last_char(text: &[u8], from: usize, to: usize) -> usize
    requires { (from < to) × Between text.now from to }
    ensures { LastChar text.now from to result }
{
    let mut width = 1;
    loop {
        if utf8::char_len(text, to - width) == width {
            return to - width;
        }
        width += 1;
    }
}

// Returns the base `ch` at `start` as held. Its selectors begin at `at` and end at `to`.
fn held_at(text: &[u8], start: usize, ch: u32, at: usize, to: usize) -> HeldTail
    requires { at ≤ to }
    ensures { result ≡ record {
      start = start;
      held = record {
        base = ch;
        first = first_selector (chars (drop at text.now));
        count = (to - at) / 3;
      };
    } }
{
    let first = selector_at(text, at);
    let held = Held {
        base: ch,
        first,
        count: (to - at) / SELECTOR_BYTES,
    };
    HeldTail { start, held }
}

// Returns that nothing is held up to the end.
fn none_held(to: usize) -> HeldTail
    ensures { result ≡ record { start = to; held = record { base = 0; first = None; count = 0 } } }
{
    let held = Held {
        base: 0,
        first: None,
        count: 0,
    };
    HeldTail { start: to, held }
}

// Looks for the last base with a variation entry that has only selectors after it. The characters begin at `from` and end at `to`, and the
// first of them is no selector.
pub(crate) fn find_tail(text: &[u8], from: usize, to: usize) -> HeldTail
    requires { (from < to) × (to ≡ from + valid_up_to_of (drop from text.now))
        × (first_selector (chars (drop from text.now)) ≡ None) }
    ensures { TailFrom text.now from to result }
{
    let mut at = to;
    loop {
        let start = last_char(text, from, at);
        match selector_at(text, start) {
            Some(_) => {
                at = start;
            }
            None => {
                let ch = utf8::decode(text, start) / 8;
                if emoji::has_variation_sequence_by_block(ch) {
                    return held_at(text, start, ch, at, to);
                }
                return none_held(to);
            }
        }
    }
}
