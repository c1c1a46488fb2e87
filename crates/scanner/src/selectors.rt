// The run of selectors at an offset: `consume_presentation_selectors` of scanner.rs of the crate evfmt. Its `Vec` is held as its
// first two selectors and its length (document 01, "Forms in the Rust that need another").
// `consume_presentation_selectors` equals `selector_run` of specs/SelectorRun.antt for every slice and offset. The code recognises a
// selector by its bytes, EF B8 8E or EF B8 8F, which takes fewer operations than decoding it.
ghost use Rattle.std.specs.Prelude.{◌≡◌, ◌+◌, drop};
ghost use Rattle.utf8.specs.Rfc3629.{chars};
ghost use Rattle.scanner.specs.Runs.{selectors_at};
ghost use Rattle.scanner.specs.SelectorRun.{first_selector, selector_run};
ghost use Rattle.scanner.specs.Spans.{size, width};

use emoji::presentation::Presentation;

// The number of bytes of a selector.
pub const SELECTOR_BYTES: usize = 3;

// A run of selectors: the first two, their number, and the offset of their end.
#[derive(Clone, Copy, Debug, PartialEq, Eq)]
pub struct PresentationSelectors {
    pub first: Option<Presentation>,
    pub second: Option<Presentation>,
    pub count: usize,
    pub end: usize,
}

// The presentation that the selector at an offset selects, if a selector stands there. One test of the length serves all three bytes.
// A pattern of the slice's first three bytes was tried: a loop over the offsets of a text takes 1.5 times as long.
pub fn selector_at(text: &[u8], at: usize) -> Option<Presentation>
    ensures { result ≡ first_selector (chars (drop at text.now)) }
{
    if text.len() < SELECTOR_BYTES {
        return None;
    }
    if text.len() - SELECTOR_BYTES < at {
        return None;
    }
    if base::byte_at(text, at, 0) != 0xEF {
        return None;
    }
    if base::byte_at(text, at, 1) != 0xB8 {
        return None;
    }
    let last = base::byte_at(text, at, 2);
    if last == 0x8E {
        return Some(Presentation::Text);
    }
    if last == 0x8F {
        return Some(Presentation::Emoji);
    }
    None
}

// The offset of the end of the selectors that begin at an offset. A chain over chunks of three bytes would count selectors and
// multiply the number back to an offset.
pub fn selectors_end(text: &[u8], from: usize) -> usize
    ensures { result ≡ from + size width (selectors_at (chars (drop from text.now))) }
{
    let mut at = from;
    while let Some(_) = selector_at(text, at) {
        at += SELECTOR_BYTES;
    }
    at
}

// The selectors at an offset.
pub fn consume_presentation_selectors(text: &[u8], at: usize) -> PresentationSelectors
    ensures { result ≡ selector_run text.now at }
{
    let end = selectors_end(text, at);
    if end == at {
        return PresentationSelectors {
            first: None,
            second: None,
            count: 0,
            end,
        };
    }
    let first = selector_at(text, at);
    let second = selector_at(text, at + SELECTOR_BYTES);
    let count = (end - at) / SELECTOR_BYTES;
    PresentationSelectors {
        first,
        second,
        count,
        end,
    }
}
