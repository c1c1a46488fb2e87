// The tag modification at an offset: `consume_emoji_tag_runs` of scanner.rs of the crate evfmt; document 01, "Item".
// It returns the offset of the end, and equals `tag_modification_at` of the crate scanner, specs/Runs, over the characters from the
// offset on, for every slice and offset. It does not read past the end of the slice or from inside a character. It also says whether
// the tag modification is complete (scanner, specs/Tags): one or more other tags and then one E007F.
ghost use Rattle.std.specs.Prelude.{◌≡◌, ◌+◌, drop};
ghost use Rattle.utf8.specs.Rfc3629.{chars};
ghost use Rattle.scanner.specs.Runs.{tag_modification_at};
ghost use Rattle.scanner.specs.Spans.{size, width};
ghost use Rattle.scanner.specs.Tags.{all_complete, tag_modifications};
ghost use Rattle.item_scanner.specs.TagStates.{after_tag, is_complete};

use scanner::char_class::{Class, peek};

// The tag that ends a complete tag modification.
pub const CANCEL_TAG: u32 = 0xE007F;

// A tag modification: the offset of its end, and whether it is complete.
#[derive(Clone, Copy, Debug, PartialEq, Eq)]
pub struct TagModification {
    pub end: usize,
    pub complete: bool,
}

// What the tags of a tag modification are, as far as they have been read.
#[derive(Clone, Copy, Debug, PartialEq, Eq)]
enum TagState {
    // no tag
    NoTag,
    // one or more tags other than CANCEL_TAG
    Open,
    // one or more tags other than CANCEL_TAG, and then one CANCEL_TAG
    Complete,
    // CANCEL_TAG as the first tag, or any tag after CANCEL_TAG
    Broken,
}

impl TagState {
    // The state after one more tag.
    fn after(self, tag: u32) -> Self
        ensures { result ≡ after_tag self tag }
    {
        match (self, tag == CANCEL_TAG) {
            (TagState::NoTag | TagState::Open, false) => TagState::Open,
            (TagState::Open, true) => TagState::Complete,
            _ => TagState::Broken,
        }
    }

    // Whether the tags read so far are complete, if no tag follows.
    fn is_complete(self) -> bool
        ensures { result ≡ is_complete self }
    {
        matches!(self, TagState::NoTag | TagState::Complete)
    }
}

// The tag modification at an offset; it is complete if it has no tag. The outer loop passes groups, the inner loop tags and
// selectors. A tag after a selector begins the next group. The first character that is neither tag nor selector leaves both loops
// by the label. Document 01 names this form.
pub fn consume_emoji_tag_runs(text: &[u8], at: usize) -> TagModification
    ensures end { result.end ≡ at + size width (tag_modification_at (chars (drop at text.now))) }
    ensures complete { result.complete ≡ all_complete (tag_modifications (tag_modification_at (chars (drop at text.now)))) }
{
    let mut end = at;
    let mut state = TagState::NoTag;
    'groups: loop {
        let mut selectors = false;
        loop {
            let Some(next) = peek(text, end) else {
                break 'groups;
            };
            match next.class {
                Class::Selector => selectors = true,
                Class::Tag if selectors => break,
                Class::Tag => state = state.after(next.value),
                _ => break 'groups,
            }
            end = next.end;
        }
    }
    TagModification {
        end,
        complete: state.is_complete(),
    }
}
