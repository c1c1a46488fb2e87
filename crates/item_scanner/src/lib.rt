// Finds the items of a text: scanner.rs of the crate evfmt; document 01, "Item".
// `next_item` is the cursor. It keeps nothing from call to call, reads the item at an offset character by character, and equals
// `scan_at` of the crate scanner, specs/Spans, for every slice, offset and count. Its loop is `item_rest`, which follows the automaton
// `scanner::state`. An item has its start and end in bytes, characters and UTF-16 units (document 02, v): the caller gives the
// characters and units before the item, and the cursor counts those of the item.
#![tactic(auto)]

pub mod consume;

ghost use Rattle.std.specs.Prelude.{◌≡◌, ◌+◌};
ghost use Rattle.scanner.specs.Items.{kind_of};
ghost use Rattle.scanner.specs.Spans.{rest_at, scan_at, size, width};
ghost use Rattle.scanner.specs.Tags.{tags_complete_of};

use consume::consume_emoji_tag_runs;
use positions::{TextCount, add_counts, count_between};
use scanner::ScanItem;
use scanner::char_class::peek;
use scanner::state::{State, begins_tags, kind_of, start_state, transition};

// The result of reading an item after its first character: the offset of the item's end, and whether its tags are complete.
#[derive(Clone, Copy, Debug, PartialEq, Eq)]
struct ItemRest {
    end: usize,
    tags_complete: bool,
}

// Reads the rest of an item from an offset on; the item's character before this offset led to the state `first`. A tag modification
// is read by one call, so the offset does not go character by character, as an iterator would.
fn item_rest(text: &[u8], from: usize, first: State) -> ItemRest
    ensures end { result.end ≡ from + size width (rest_at text.now from first) }
    ensures tags { result.tags_complete ≡ tags_complete_of (kind_of first) (rest_at text.now from first) }
{
    let mut at = from;
    let mut state = first;
    let mut tags_complete = true;
    while let Some(next) = peek(text, at) {
        let Some(after) = transition(state, next.class) else {
            break;
        };
        state = after;
        if begins_tags(state, next.class) {
            let tags = consume_emoji_tag_runs(text, at);
            tags_complete &= tags.complete;
            at = tags.end;
        } else {
            at = next.end;
        }
    }
    ItemRest {
        end: at,
        tags_complete,
    }
}

// The item at an offset, or the end. No item begins past the end of the text or inside a character. `before` is the count of the text
// before the offset; the item's start and end in characters and units follow from it.
pub fn next_item(text: &[u8], at: usize, before: TextCount) -> Option<ScanItem>
    ensures { result ≡ scan_at text.now at before }
{
    let found = peek(text, at)?;
    let first = start_state(found.class);
    let rest = item_rest(text, found.end, first);
    let after = add_counts(before, count_between(text, at, rest.end));
    Some(ScanItem {
        start: at,
        end: rest.end,
        kind: kind_of(first),
        tags_complete: rest.tags_complete,
        char_start: before.chars,
        char_end: after.chars,
        unit_start: before.units,
        unit_end: after.units,
    })
}
