// Which variation entries a text uses: one pass over its characters sets a flag for each entry that the policy decides there, by the domain
// (ordinary or keycap) and by the first selector after it. The flags after `flag_uses` are as `FlagsTell` of specs/Pass.antt says.
ghost use Rattle.std.specs.Prelude.{◌≡◌, ℕ, ◌<◌, ◌≤◌, drop, get_or, length};
ghost use Rattle.utf8.specs.Rfc3629.{chars, valid_up_to_of};
ghost use Rattle.emoji.specs.Unicode.{variation_sequence_index};
ghost use Rattle.analysis.specs.Rules.{selector_number};
ghost use Rattle.membership_flips.specs.Pass.{FlagsTell, flag_index, flagged, is_judged, with_char, with_entry};

use crate::plain::skip_plain;
use analysis::singleton::{class_at, is_keycap};
use emoji::presentation::Presentation;
use scanner::char_class::Class;
use scanner::selectors::{selector_at, selectors_end};

// The number of flags: 354 entries, two domains, and no selector or one of two.
pub(crate) const FLAGS: usize = 2124;

// A selector, or none, by number.
fn number_of(first: Option<Presentation>) -> usize
    ensures { (result ≡ selector_number first) × (result ≤ 2) }
{
    match first {
        None => 0,
        Some(Presentation::Text) => 1,
        Some(Presentation::Emoji) => 2,
    }
}

// The index of a flag.
fn flag_index(index: usize, is_keycap: bool, first: Option<Presentation>) -> usize
    requires { index < 354 }
    ensures { (result ≡ flag_index index is_keycap first) × (result < 2124) }
{
    6 * index + (3 * usize::from(is_keycap) + number_of(first))
}

// Whether a flag is set.
pub(crate) fn is_flagged(
    flags: &[u8],
    index: usize,
    is_keycap: bool,
    first: Option<Presentation>,
) -> bool
    requires { (index < 354) × (length flags.now ≡ 2124) }
    ensures { result ≡ flagged flags.now index is_keycap first }
{
    let at = flag_index(index, is_keycap, first);
    flags[at] != 0
}

// Whether the policy decides a base (rule 6) before a character of this class.
#[tactic(auto, unfolding(crate::specs::Pass::is_judged, analysis::specs::Rules::by_modifier, analysis::specs::Rules::by_tags,))]
fn is_judged(class: Class) -> bool
    ensures { result ≡ is_judged class }
{
    !matches!(class, Class::Modifier | Class::Tag)
}

// Sets the flag of an entry whose selectors begin at the offset `at`, if the policy decides it there.
fn flag_entry(text: &[u8], at: usize, index: usize, flags: &mut [u8])
    requires { (index < 354) × (length flags.old ≡ 2124) }
    ensures { flags.new ≡ with_entry (chars (drop at text.now)) index flags.old }
{
    let first = selector_at(text, at);
    let end = selectors_end(text, at);
    let next = class_at(text, end);
    if !is_judged(next) {
        return;
    }
    let flag = flag_index(index, is_keycap(next), first);
    flags[flag] = 1;
}

// Sets the flag of a character, if it has a variation entry. The characters after it begin at the offset `at`.
fn flag_char(text: &[u8], at: usize, ch: u32, flags: &mut [u8])
    requires { length flags.old ≡ 2124 }
    ensures { flags.new ≡ with_char (variation_sequence_index ch) (chars (drop at text.now)) flags.old }
{
    if let Some(index) = emoji::variation_sequence_index_by_block(ch) {
        flag_entry(text, at, index, flags);
    }
}

// Sets the flags of all that a text uses, and gives the length of its longest well-formed beginning. All flags are 0 before.
pub(crate) fn flag_uses(text: &[u8], flags: &mut [u8]) -> usize
    requires { (length flags.old ≡ 2124) × ((k : ℕ) → get_or flags.old k 0 ≡ 0) }
    ensures flags { FlagsTell text.now flags.new }
    ensures valid { result ≡ valid_up_to_of text.now }
{
    let mut at = 0;
    loop {
        let start = skip_plain(text, at);
        let packed = utf8::decode(text, start);
        if packed == 0 {
            return start;
        }
        let end = start + (packed % 8) as usize;
        flag_char(text, end, packed / 8, flags);
        at = end;
    }
}
