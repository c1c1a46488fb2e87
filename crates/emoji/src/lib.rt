// The properties of a character: unicode.rs of the crate evfmt; document 01, "Character". Each function is defined for
// every number and equals membership in a list of specs/UnicodeData.antt.
// A predicate over a table passes the constant table to `in_char_table` or `in_ranges`. These require that the table is
// in order. One computed test for each table shows it (proofs/InOrder.antt).
// The scanner tests every character of a text. For these tests there are fast forms with the same contracts. They look
// up the bits of the character's block of 64 code points (blocks.rt), or compare with the first and the last number of
// the table. No form takes the other's place: they are two ways to one answer, and published_data compares the two.
#![tactic(auto)]

mod blocks;
pub mod presentation;
pub mod unicode_data;

ghost use Rattle.std.specs.Prelude.{◌≡◌, true, ◌%◌, ◌^◌, ◌≤◌, get_or};
ghost use Rattle.std.specs.Int.Count.{ones};
ghost use Rattle.base.specs.Ranges.{within};
ghost use Rattle.emoji.specs.Blocks.{entry_in};
ghost use Rattle.emoji.specs.Tables.{ascending, entry_at, in_ranges, index_of, member, ranges_apart};
ghost use Rattle.emoji.specs.Unicode.{
  has_variation_sequence,
  is_emoji,
  is_emoji_default,
  is_emoji_modifier,
  is_emoji_modifier_base,
  is_emoji_presentation,
  is_ri,
  is_tag,
  is_text_default,
  variation_entry,
  variation_sequence_index,
};
ghost use Rattle.emoji.specs.UnicodeData.{variation_entries};

use blocks::Block;
use unicode_data::{
    EMOJI_MODIFIER_BASES, EMOJI_MODIFIERS, EMOJI_PRESENTATION_RANGES, EMOJI_RANGES, RI_RANGES,
    VARIATION_ENTRIES,
};

// Unicode variation selector 15.
pub const TEXT_PRESENTATION_SELECTOR: u32 = 0xFE0E;

// Unicode variation selector 16.
pub const EMOJI_PRESENTATION_SELECTOR: u32 = 0xFE0F;

pub const COMBINING_ENCLOSING_KEYCAP: u32 = 0x20E3;

// The zero-width joiner. Document 01 calls it the link.
pub const ZWJ: u32 = 0x200D;

// The data that a block has for a character: whether it is emoji, and its index in the list of the variation entries.
#[derive(Clone, Copy, Debug, PartialEq, Eq)]
pub struct EmojiData {
    pub is_emoji: bool,
    pub index: Option<usize>,
}

// Returns the index of a number in an ascending table.
fn binary_search(table: &[u32], ch: u32) -> Option<usize>
    requires { ascending table.now ≡ true }
    ensures { result ≡ index_of ch table.now }
{
    table.binary_search(&ch).ok()
}

// Tests whether an ascending table contains a number.
#[tactic(auto, using(crate::proofs::Ascent::member_index), unfolding(crate::proofs::Ascent::is_at))]
fn in_char_table(table: &[u32], ch: u32) -> bool
    requires { ascending table.now ≡ true }
    ensures { result ≡ member ch table.now }
{
    binary_search(table, ch).is_some()
}

// Returns the number at an index of a table.
fn entry_at(table: &[u32], index: usize) -> Option<u32>
    ensures { result ≡ entry_at index table.now }
{
    table.get(index).copied()
}

// Tests whether a number lies in one of the ranges of a table. The table has the first and the last number of each range
// in turn, so the first number above `ch` is a last number exactly if it stands at an odd place.
fn in_ranges(ranges: &[u32], ch: u32) -> bool
    requires { ranges_apart ranges.now ≡ true }
    ensures { result ≡ in_ranges ch ranges.now }
{
    match ranges.binary_search(&ch) {
        Ok(_) => true,
        Err(place) => place % 2 == 1,
    }
}

// Tests whether a number is at least `first` and at most `last`.
fn is_within(first: u32, last: u32, ch: u32) -> bool
    ensures { result ≡ within first last ch }
{
    (first..=last).contains(&ch)
}

// Counts the ones of a word below bit i mod 64.
fn ones_below(w: u64, i: u32) -> u32
    ensures { (result ≡ ones (w % 2 ^ (i % 64))) × (result ≤ 64) }
{
    (w % (1 << (i % 64))).count_ones()
}

// Returns the index of a character in the list of the variation entries, from the character's block.
fn entry_in(block: Block, ch: u32) -> Option<usize>
    ensures { result ≡ entry_in (ch % 64) block }
{
    let entries = block.entries;
    if base::has_bit(entries, ch as usize) {
        Some(block.rank as usize + ones_below(entries, ch) as usize)
    } else {
        None
    }
}

// Tests whether a character is a tag, from E0020 to E007F.
pub fn is_tag(ch: u32) -> bool
    ensures { result ≡ is_tag ch }
{
    is_within(0xE0020, 0xE007F, ch)
}

// Returns the variation entry at an index.
pub fn variation_entry(index: usize) -> Option<u32>
    ensures { result ≡ variation_entry index }
{
    entry_at(&VARIATION_ENTRIES, index)
}

// Returns the character of the variation entry at an index, or 0 if there is none.
pub fn variation_char(index: usize) -> u32
    ensures { result ≡ get_or variation_entries index 0 }
{
    variation_entry(index).unwrap_or(0)
}

// Returns the index of a character in the list of the variation entries.
pub fn variation_sequence_index(ch: u32) -> Option<usize>
    ensures { result ≡ variation_sequence_index ch }
{
    binary_search(&VARIATION_ENTRIES, ch)
}

// Tests whether a character is a variation entry.
pub fn has_variation_sequence(ch: u32) -> bool
    ensures { result ≡ has_variation_sequence ch }
{
    in_char_table(&VARIATION_ENTRIES, ch)
}

// Tests whether a character has the property Emoji_Presentation.
pub fn is_emoji_presentation(ch: u32) -> bool
    ensures { result ≡ is_emoji_presentation ch }
{
    in_ranges(&EMOJI_PRESENTATION_RANGES, ch)
}

// Tests whether a character is a variation entry that defaults to text presentation.
#[tactic(auto, unfolding(crate::specs::Unicode::is_text_default))]
pub fn is_text_default(ch: u32) -> bool
    ensures { result ≡ is_text_default ch }
{
    has_variation_sequence(ch) && !is_emoji_presentation(ch)
}

// Tests whether a character is a variation entry that defaults to emoji presentation.
#[tactic(auto, unfolding(crate::specs::Unicode::is_emoji_default))]
pub fn is_emoji_default(ch: u32) -> bool
    ensures { result ≡ is_emoji_default ch }
{
    has_variation_sequence(ch) && is_emoji_presentation(ch)
}

// Tests whether a character has the property Emoji_Modifier.
pub fn is_emoji_modifier(ch: u32) -> bool
    ensures { result ≡ is_emoji_modifier ch }
{
    in_char_table(&EMOJI_MODIFIERS, ch)
}

// Tests whether a character has the property Emoji_Modifier_Base.
pub fn is_emoji_modifier_base(ch: u32) -> bool
    ensures { result ≡ is_emoji_modifier_base ch }
{
    in_char_table(&EMOJI_MODIFIER_BASES, ch)
}

// Tests whether a character has the property Emoji.
pub fn is_emoji(ch: u32) -> bool
    ensures { result ≡ is_emoji ch }
{
    in_ranges(&EMOJI_RANGES, ch)
}

// Tests whether a character is a regional indicator.
pub fn is_ri(ch: u32) -> bool
    ensures { result ≡ is_ri ch }
{
    in_ranges(&RI_RANGES, ch)
}

// The fast form of `is_emoji` and `variation_sequence_index`: one lookup of the character's block.
pub fn emoji_data(ch: u32) -> EmojiData
    ensures emoji { result.is_emoji ≡ is_emoji ch }
    ensures index { result.index ≡ variation_sequence_index ch }
{
    let block = blocks::block_of(ch / 64);
    let is_emoji = base::has_bit(block.emoji, ch as usize);
    let index = entry_in(block, ch);
    EmojiData { is_emoji, index }
}

// The fast form of `variation_sequence_index`: a lookup of the character's block.
pub fn variation_sequence_index_by_block(ch: u32) -> Option<usize>
    ensures { result ≡ variation_sequence_index ch }
{
    entry_in(blocks::block_of(ch / 64), ch)
}

// The fast form of `has_variation_sequence`: a lookup of the character's block.
pub fn has_variation_sequence_by_block(ch: u32) -> bool
    ensures { result ≡ has_variation_sequence ch }
{
    let block = blocks::block_of(ch / 64);
    base::has_bit(block.entries, ch as usize)
}

// The fast form of `is_emoji_default`: a lookup of the character's block, and a search for entries only.
#[tactic(auto, unfolding(crate::specs::Unicode::is_emoji_default))]
pub fn is_emoji_default_by_block(ch: u32) -> bool
    ensures { result ≡ is_emoji_default ch }
{
    has_variation_sequence_by_block(ch) && is_emoji_presentation(ch)
}

// The fast form of `is_emoji_modifier`: a comparison with the first and the last modifier.
pub fn is_emoji_modifier_by_ends(ch: u32) -> bool
    ensures { result ≡ is_emoji_modifier ch }
{
    is_within(EMOJI_MODIFIERS[0], EMOJI_MODIFIERS[4], ch)
}

// The fast form of `is_ri`: a comparison with the first and the last regional indicator.
pub fn is_ri_by_ends(ch: u32) -> bool
    ensures { result ≡ is_ri ch }
{
    is_within(RI_RANGES[0], RI_RANGES[1], ch)
}
