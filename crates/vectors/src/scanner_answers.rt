// Compares the scanner that borrows the text with the cursor. Both must give the same items with the same bytes, and
// after the last item the scanner must give the end on each call. A text that ends inside a character must be refused.
use crate::items::Items;
use scanner::ScanItem;
use text_scanner::{NthItem, nth_item, nth_raw};

// Tests whether the n-th item of the scanner is this item, with its bytes.
fn gives_item(text: &[u8], n: usize, item: ScanItem) -> bool {
    let NthItem { verdict, step } = nth_item(text, n);
    verdict.is_ok()
        && step.is_some_and(|found| ScanItem::eq(found, item))
        && text.get(item.start..item.end) == Some(nth_raw(text, n))
}

// Tests whether the n-th answer of the scanner is the end, with no bytes.
fn gives_end(text: &[u8], n: usize) -> bool {
    let NthItem { verdict: _, step } = nth_item(text, n);
    step.is_none() && nth_raw(text, n).is_empty()
}

// Tests whether a text that ends inside a character is refused, and its scanner gives the end at once.
fn text_is_refused(text: &[u8]) -> bool {
    let NthItem { verdict, step: _ } = nth_item(text, 0);
    verdict.is_err() && gives_end(text, 0)
}

// Tests whether the text without its last byte is refused, if this byte is not a character by itself.
fn cut_is_refused(text: &[u8]) -> bool {
    match text.split_last() {
        Some((last, rest)) if !last.is_ascii() => text_is_refused(rest),
        _ => true,
    }
}

// Tests whether the cursor reads the whole text, and whether the scanner gives its items and then the end.
pub(crate) fn scanner_agrees(text: &[u8]) -> bool {
    let items = Items::new(text);
    items.last().map_or(0, |item| item.end) == text.len()
        && items.enumerate().all(|(n, item)| gives_item(text, n, item))
        && gives_end(text, items.count())
        && gives_end(text, text.len())
        && cut_is_refused(text)
}
