// Listing the items of a text into a table lent by the caller, as lib.rt lists findings. A row is eight numbers of 8 bytes each, lowest
// byte first: start, end, kind, whether the tags are complete, start and end in characters, start and end in UTF-16 units. A `Scanner`
// gives the items.
// `list_items` equals `list_items` of crates/formatter/specs/List.antt.
ghost use Rattle.std.specs.Prelude.{◌≡◌, ◌+◌, ◌≤◌, length};
ghost use Rattle.base.specs.Tables.{rows_bytes};
ghost use Rattle.base.specs.Words.{bytes_of};
ghost use Rattle.base.specs.Answers.{EndsAs, answer_row};
ghost use Rattle.base.specs.Output.{PutAt};
ghost use Rattle.scanner.specs.Spans.{scan};
ghost use Rattle.formatter.specs.List.{item_bytes, item_numbers, list_items};

use base::{Refusal, WORD_BYTES};
use positions::TextCount;
use scanner::ScanItem;
use scanner::text_check::check_text;
use text_scanner::Scanner;

// How many numbers a row has.
const ROW_NUMBERS: usize = 8;

// How many bytes a row has.
const ROW_BYTES: usize = ROW_NUMBERS * WORD_BYTES;

// Counts the items of a text.
fn count_items(text: &[u8]) -> usize
    ensures { result ≡ length (scan text.now) }
{
    let mut at = 0;
    let mut items = 0;
    while let Some(item) = item_scanner::next_item(text, at, TextCount { chars: 0, units: 0 }) {
        items += 1;
        at = item.end;
    }
    items
}

// Puts the row of an item into the table, which has room for it, and returns where it ends.
fn put_item(table: &mut [u8], start: usize, item: ScanItem) -> usize
    requires { start + item_bytes ≤ length table.old }
    ensures { PutAt table.old start (bytes_of (item_numbers item)) table.new result }
{
    let numbers = [
        item.start,
        item.end,
        scanner::kind_number(item.kind),
        usize::from(item.tags_complete),
        item.char_start,
        item.char_end,
        item.unit_start,
        item.unit_end,
    ];
    base::write_numbers(table, start, &numbers);
    start + ROW_BYTES
}

// Puts the row of each item into the table, which has room for all, and returns where the last one ends. A scanner gives the items.
fn put_items(text: &[u8], table: &mut [u8]) -> usize
    requires { length (rows_bytes item_numbers (scan text.now)) ≤ length table.old }
    ensures { PutAt table.old 0 (rows_bytes item_numbers (scan text.now)) table.new result }
{
    let scanner = Scanner {
        text,
        offset: 0,
        chars: 0,
        units: 0,
    };
    let mut to = 0;
    for item in scanner {
        to = put_item(table, to, item);
    }
    to
}

// Lists the items of a text, if the table has room for all.
pub fn list_items(text: &[u8], table: &mut [u8]) -> Result<usize, Refusal>
    ensures { EndsAs answer_row (list_items text.now table.old) result table.new }
{
    check_text(text)?;
    let items = count_items(text);
    if table.len() / ROW_BYTES < items {
        return Err(Refusal::TableTooShort { findings: items });
    }
    put_items(text, table);
    Ok(items)
}
