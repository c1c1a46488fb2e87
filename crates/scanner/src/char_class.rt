// The class of a character: one of eight, from the tables of the crate emoji.
// scanner.rs of the crate evfmt asks the same questions one by one; document 01, "Character".
// `class_of` and the class in `classify` equal `class_of` of specs/Classes.antt. `peek` equals `peek_at` of specs/Peek.antt for every
// slice and offset.
ghost use Rattle.std.specs.Prelude.{◌≡◌, false, true, drop};
ghost use Rattle.utf8.specs.Rfc3629.{chars};
ghost use Rattle.emoji.specs.Unicode.{is_emoji, variation_sequence_index};
ghost use Rattle.scanner.specs.Classes.{class_of};
ghost use Rattle.scanner.specs.Peek.{peek_at};

use emoji::{
    COMBINING_ENCLOSING_KEYCAP, EMOJI_PRESENTATION_SELECTOR, EmojiData, TEXT_PRESENTATION_SELECTOR,
    ZWJ,
};

// The classes of characters: a selector, a link, an RI, a modifier, another emoji, 20E3, a tag, or any other character.
#[derive(Clone, Copy, Debug, PartialEq, Eq)]
pub enum Class {
    Selector,
    Link,
    Ri,
    Modifier,
    Emoji,
    Keycap,
    Tag,
    Other,
}

// The class of a character, and its index among the variation entries, if it has one.
#[derive(Clone, Copy, Debug, PartialEq, Eq)]
pub struct Classified {
    pub class: Class,
    pub index: Option<usize>,
}

// The character at an offset, its class and the offset after it.
#[derive(Clone, Copy, Debug, PartialEq, Eq)]
pub struct Peeked {
    pub value: u32,
    pub class: Class,
    pub end: usize,
}

// The class of a character that is not an emoji.
fn class_of_plain(ch: u32) -> Class
    ensures { is_emoji ch ≡ false → result ≡ class_of ch }
{
    match ch {
        ..ZWJ => Class::Other,
        ZWJ => Class::Link,
        COMBINING_ENCLOSING_KEYCAP => Class::Keycap,
        TEXT_PRESENTATION_SELECTOR | EMOJI_PRESENTATION_SELECTOR => Class::Selector,
        _ if emoji::is_tag(ch) => Class::Tag,
        _ => Class::Other,
    }
}

// The class of an emoji.
fn class_of_emoji(ch: u32) -> Class
    ensures { is_emoji ch ≡ true → result ≡ class_of ch }
{
    match ch {
        _ if emoji::is_ri_by_ends(ch) => Class::Ri,
        _ if emoji::is_emoji_modifier_by_ends(ch) => Class::Modifier,
        _ => Class::Emoji,
    }
}

// The class of a character, and its index among the variation entries, if it has one.
pub fn classify(ch: u32) -> Classified
    ensures class { result.class ≡ class_of ch }
    ensures index { result.index ≡ variation_sequence_index ch }
{
    let EmojiData { is_emoji, index } = emoji::emoji_data(ch);
    let class = if is_emoji {
        class_of_emoji(ch)
    } else {
        class_of_plain(ch)
    };
    Classified { class, index }
}

// The class of a character.
pub fn class_of(ch: u32) -> Class
    ensures { result ≡ class_of ch }
{
    classify(ch).class
}

// Reads the character at an offset. No character begins past the end of the text or inside a character.
pub fn peek(text: &[u8], at: usize) -> Option<Peeked>
    ensures { result ≡ peek_at at (chars (drop at text.now)) }
{
    let packed = utf8::decode(text, at);
    if packed == 0 {
        return None;
    }
    let value = packed / 8;
    let class = class_of(value);
    let end = at + (packed % 8) as usize;
    Some(Peeked { value, class, end })
}
