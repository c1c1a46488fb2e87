// The items of a text, as the cursor gives them.
ghost use Rattle.std.specs.Prelude.{◌-◌, length};
ghost use Rattle.std.specs.Iterator.{at_most};

use positions::TextCount;
use scanner::ScanItem;

// The items from an offset on. `before` counts the text before the offset.
#[derive(Clone, Copy)]
pub(crate) struct Items<'a> {
    text: &'a [u8],
    at: usize,
    before: TextCount,
}

impl<'a> Items<'a> {
    pub(crate) fn new(text: &'a [u8]) -> Self {
        Items {
            text,
            at: 0,
            before: TextCount { chars: 0, units: 0 },
        }
    }
}

impl Iterator for Items<'_> {
    type Item = ScanItem;

    ghost remaining = { λ items. at_most (length items.text.now - items.at) };

    fn next(&mut self) -> Option<ScanItem> {
        match item_scanner::next_item(self.text, self.at, self.before) {
            // Each item lies in the text and has at least one byte.
            Some(item) if self.at < item.end && item.end <= self.text.len() => {
                self.at = item.end;
                self.before = TextCount {
                    chars: item.char_end,
                    units: item.unit_end,
                };
                Some(item)
            }
            _ => None,
        }
    }
}
