// Where a text may be cut for two workers (document 02, xiii). The crate evfmt has no such function.
// `cut_before` equals `cut_before` of specs/Cut.antt for all bytes and offsets. specs/Theorems.antt says that a well-formed text cut there
// formats to the two results joined: EveryCut, EveryAnswerJoins.
#![tactic(auto)]

ghost use Rattle.std.specs.Prelude.{◌≡◌, drop};
ghost use Rattle.utf8.specs.Rfc3629.{chars};
ghost use Rattle.cutting.specs.Cut.{cut_before, first_may_begin};
ghost use Rattle.cutting.specs.Helpers.{class_may_begin};

use scanner::char_class::{Class, peek};

// Whether a character of this class may begin the second part.
fn class_may_begin(class: Class) -> bool
    ensures { result ≡ class_may_begin class }
{
    match class {
        Class::Selector => false,
        Class::Link => true,
        Class::Ri => true,
        Class::Modifier => false,
        Class::Emoji => true,
        Class::Keycap => false,
        Class::Tag => false,
        Class::Other => true,
    }
}

// Whether a character that may begin the second part begins at an offset.
fn begins_part(text: &[u8], at: usize) -> bool
    ensures { result ≡ first_may_begin (chars (drop at text.now)) }
{
    match peek(text, at) {
        Some(seen) => class_may_begin(seen.class),
        None => false,
    }
}

// The largest allowed cut at or below an offset. It reads back from the offset and stops at the first cut, so its cost is by the distance
// between the two, and not by the text.
pub fn cut_before(text: &[u8], offset: usize) -> Option<usize>
    ensures { result ≡ cut_before text.now offset }
{
    if text.len() <= offset {
        return Some(text.len());
    }
    let mut at = offset + 1;
    while 0 < at {
        at -= 1;
        if begins_part(text, at) {
            return Some(at);
        }
    }
    None
}
