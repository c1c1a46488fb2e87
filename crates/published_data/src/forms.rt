// Compares the fast forms of the crate `emoji` with the plain ones, at every code point. It is proved that they are
// equal; this program runs the compiled functions.
use crate::code_points::CODE_POINTS;

// Tests whether the forms agree for ch: the search with the block, and the search with the comparison with the ends.
fn same_forms(ch: u32) -> bool {
    let index = emoji::variation_sequence_index(ch);
    let data = emoji::emoji_data(ch);
    emoji::variation_sequence_index_by_block(ch) == index
        && data.index == index
        && emoji::is_emoji(ch) == data.is_emoji
        && emoji::has_variation_sequence(ch) == emoji::has_variation_sequence_by_block(ch)
        && emoji::is_emoji_default(ch) == emoji::is_emoji_default_by_block(ch)
        && emoji::is_emoji_modifier(ch) == emoji::is_emoji_modifier_by_ends(ch)
        && emoji::is_ri(ch) == emoji::is_ri_by_ends(ch)
}

// Returns the first code point at which a fast form differs.
pub(crate) fn first_difference() -> Option<u32> {
    (0..CODE_POINTS).find(|ch| !same_forms(*ch))
}
