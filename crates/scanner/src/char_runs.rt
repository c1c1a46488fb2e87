// The longest runs that are determined by a test on each single character (document 01, "Item"), read by one loop.
// `run_end` returns the offset of the run's end, and equals a run of specs/RunKinds.antt over the characters from the offset on, for
// every slice and offset. It does not read past the end of the slice or from inside a character.
ghost use Rattle.std.specs.Prelude.{◌≡◌, ◌+◌, drop};
ghost use Rattle.utf8.specs.Rfc3629.{chars};
ghost use Rattle.scanner.specs.RunKinds.{in_run, run_of};
ghost use Rattle.scanner.specs.Spans.{size, width};

use crate::char_class::{Class, peek};

// The runs that are determined by a test on each single character. A predicate in place of the kind would ask of each caller of the
// public `run_end` that it can be called.
#[derive(Clone, Copy, Debug, PartialEq, Eq)]
pub enum RunKind {
    Selectors,
    Links,
    Modifications,
    Tags,
    Passthrough,
}

// Whether a character of this class belongs to a run of this kind.
fn in_run(kind: RunKind, class: Class) -> bool
    ensures { result ≡ in_run kind class }
{
    match kind {
        RunKind::Selectors => matches!(class, Class::Selector),
        RunKind::Links => matches!(class, Class::Selector | Class::Link),
        RunKind::Modifications => matches!(
            class,
            Class::Selector | Class::Modifier | Class::Keycap | Class::Tag
        ),
        RunKind::Tags => matches!(class, Class::Tag),
        RunKind::Passthrough => matches!(class, Class::Keycap | Class::Tag | Class::Other),
    }
}

// The offset of the end of the run that begins at an offset. An iterator over characters would be a struct, an impl and its law for
// this one loop.
pub fn run_end(text: &[u8], at: usize, kind: RunKind) -> usize
    ensures { result ≡ at + size width (run_of kind (chars (drop at text.now))) }
{
    let mut end = at;
    while let Some(next) = peek(text, end) {
        if !in_run(kind, next.class) {
            break;
        }
        end = next.end;
    }
    end
}
