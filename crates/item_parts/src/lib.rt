// The parts of an item as values: the types and the consume functions of scanner.rs of the crate evfmt; document 01, "Item".
// Where the Rust has a `Vec`, a value here has a span, and a function reads the next part at any offset of this span:
// `consume_emoji_modification` in a unit's modifications, `consume_emoji_tag_run` in a tag modification, `consume_sequence_part` in
// the links after a unit.
// Each function equals a definition of specs/Parts.antt for every slice and offset. Called from an item's start to its end, they
// give its structure (specs/Walks.antt, StructureIsWalked).
#![tactic(auto)]

ghost use Rattle.std.specs.Prelude.{◌≡◌, ◌+◌, drop};
ghost use Rattle.utf8.specs.Rfc3629.{chars};
ghost use Rattle.scanner.specs.Runs.{modifications_at};
ghost use Rattle.scanner.specs.Spans.{size, width};
ghost use Rattle.item_parts.specs.Parts.{link_read, modification_read, part_read, ri_stem_read, stem_end, stem_read};
ghost use Rattle.item_parts.specs.Parts.{tag_run_read, unit_read};

use item_scanner::consume::consume_emoji_tag_runs;
use scanner::char_class::{Class, peek};
use scanner::char_runs::{RunKind, run_end};
use scanner::selectors::{PresentationSelectors, consume_presentation_selectors};

// One or more tags, up to the offset tags_end, and the selectors after them.
#[derive(Clone, Copy, Debug, PartialEq, Eq)]
pub struct EmojiTagRun {
    pub tags_end: usize,
    pub selectors: PresentationSelectors,
}

// A modification of a stem. `consume_emoji_tag_run` reads the runs of a tag modification, from its start up to its end.
#[derive(Clone, Copy, Debug, PartialEq, Eq)]
pub enum EmojiModification {
    EmojiModifier {
        modifier: u32,
        selectors: PresentationSelectors,
    },
    EnclosingKeycap {
        selectors: PresentationSelectors,
    },
    TagModifier {
        end: usize,
    },
}

// The stem of a unit: one emoji, or the two regional indicators of a flag, each with its selectors.
#[derive(Clone, Copy, Debug, PartialEq, Eq)]
pub enum EmojiStem {
    SingletonBase {
        base: u32,
        selectors: PresentationSelectors,
    },
    Flag {
        first_ri: u32,
        after_first_ri: PresentationSelectors,
        second_ri: u32,
        after_second_ri: PresentationSelectors,
    },
}

impl EmojiStem {
    // The offset of the stem's end.
    fn end(self) -> usize
        ensures { result ≡ stem_end self }
    {
        match self {
            EmojiStem::SingletonBase { selectors, .. } => selectors.end,
            EmojiStem::Flag {
                after_second_ri,
                ..
            } => after_second_ri.end,
        }
    }
}

// A unit: its stem, and its modifications from modifiers_start up to end. `consume_emoji_modification` reads these.
#[derive(Clone, Copy, Debug, PartialEq, Eq)]
pub struct EmojiLike {
    pub stem: Option<EmojiStem>,
    pub modifiers_start: usize,
    pub end: usize,
}

// A link: 200D, with the selectors after it.
#[derive(Clone, Copy, Debug, PartialEq, Eq)]
pub struct ZwjLink {
    pub selectors: PresentationSelectors,
}

// The part after a unit, or in an item of links: a link that joins the unit after its selectors, or a link left over.
#[derive(Clone, Copy, Debug, PartialEq, Eq)]
pub enum SequencePart {
    JoiningLink(PresentationSelectors),
    LeftOverLink(PresentationSelectors),
}

// The run of tags at an offset, with its selectors.
pub fn consume_emoji_tag_run(text: &[u8], at: usize) -> Option<EmojiTagRun>
    ensures { result ≡ tag_run_read at (chars (drop at text.now)) }
{
    let tags_end = run_end(text, at, RunKind::Tags);
    if tags_end == at {
        return None;
    }
    let selectors = consume_presentation_selectors(text, tags_end);
    Some(EmojiTagRun {
        tags_end,
        selectors,
    })
}

// The link at an offset, if 200D stands there.
pub fn consume_zwj_link(text: &[u8], at: usize) -> Option<ZwjLink>
    ensures { result ≡ link_read at (chars (drop at text.now)) }
{
    let first = peek(text, at)?;
    match first.class {
        Class::Link => {
            let selectors = consume_presentation_selectors(text, first.end);
            Some(ZwjLink { selectors })
        }
        _ => None,
    }
}

// The modification that begins at an offset, if one does.
pub fn consume_emoji_modification(text: &[u8], at: usize) -> Option<EmojiModification>
    ensures { result ≡ modification_read at (chars (drop at text.now)) }
{
    let first = peek(text, at)?;
    match first.class {
        Class::Modifier => {
            let selectors = consume_presentation_selectors(text, first.end);
            Some(EmojiModification::EmojiModifier {
                modifier: first.value,
                selectors,
            })
        }
        Class::Keycap => {
            let selectors = consume_presentation_selectors(text, first.end);
            Some(EmojiModification::EnclosingKeycap { selectors })
        }
        Class::Tag => {
            let tags = consume_emoji_tag_runs(text, at);
            Some(EmojiModification::TagModifier { end: tags.end })
        }
        _ => None,
    }
}

// The stem whose first character is the regional indicator first_ri; `at` is the offset after it. The stem is a flag if a second
// one follows.
pub fn consume_regional_indicator_stem(text: &[u8], at: usize, first_ri: u32) -> EmojiStem
    ensures { result ≡ ri_stem_read first_ri at (chars (drop at text.now)) }
{
    let after_first_ri = consume_presentation_selectors(text, at);
    let alone = EmojiStem::SingletonBase {
        base: first_ri,
        selectors: after_first_ri,
    };
    let Some(second) = peek(text, after_first_ri.end) else {
        return alone;
    };
    match second.class {
        Class::Ri => {
            let after_second_ri = consume_presentation_selectors(text, second.end);
            EmojiStem::Flag {
                first_ri,
                after_first_ri,
                second_ri: second.value,
                after_second_ri,
            }
        }
        _ => alone,
    }
}

// The stem that begins at an offset, if one does.
pub fn consume_emoji_stem(text: &[u8], at: usize) -> Option<EmojiStem>
    ensures { result ≡ stem_read at (chars (drop at text.now)) }
{
    let first = peek(text, at)?;
    match first.class {
        Class::Ri => Some(consume_regional_indicator_stem(text, first.end, first.value)),
        Class::Modifier | Class::Emoji => {
            let selectors = consume_presentation_selectors(text, first.end);
            Some(EmojiStem::SingletonBase {
                base: first.value,
                selectors,
            })
        }
        _ => None,
    }
}

// The offset of the end of all modifications that begin at an offset.
pub fn consume_emoji_modifications(text: &[u8], at: usize) -> usize
    ensures { result ≡ at + size width (modifications_at (chars (drop at text.now))) }
{
    let Some(first) = peek(text, at) else {
        return at;
    };
    match first.class {
        Class::Modifier | Class::Keycap | Class::Tag => run_end(text, at, RunKind::Modifications),
        _ => at,
    }
}

// The unit that begins at an offset, if one does.
pub fn consume_emoji_like(text: &[u8], at: usize) -> EmojiLike
    ensures { result ≡ unit_read at (chars (drop at text.now)) }
{
    let Some(stem) = consume_emoji_stem(text, at) else {
        return EmojiLike {
            stem: None,
            modifiers_start: at,
            end: at,
        };
    };
    let modifiers_start = stem.end();
    let end = consume_emoji_modifications(text, modifiers_start);
    EmojiLike {
        stem: Some(stem),
        modifiers_start,
        end,
    }
}

// The part at an offset of an item that ends at item_end. A link joins no unit after the item's end.
pub fn consume_sequence_part(text: &[u8], at: usize, item_end: usize) -> Option<SequencePart>
    ensures { result ≡ part_read text.now item_end at }
{
    if item_end <= at {
        return None;
    }
    let ZwjLink { selectors } = consume_zwj_link(text, at)?;
    let left_over = Some(SequencePart::LeftOverLink(selectors));
    if item_end <= selectors.end {
        return left_over;
    }
    let Some(next) = peek(text, selectors.end) else {
        return left_over;
    };
    match next.class {
        Class::Ri | Class::Modifier | Class::Emoji => Some(SequencePart::JoiningLink(selectors)),
        _ => left_over,
    }
}
