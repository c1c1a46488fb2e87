// The lines of the published files that belong to each table of the crate `emoji`. A property is matched by its whole
// name. No table has the properties Emoji_Component and Extended_Pictographic. The files have no property for the
// regional indicators: they are the Emoji lines whose comments say so.
use crate::parse::{DataLine, Line, LineError};
use emoji::{EMOJI_PRESENTATION_SELECTOR, TEXT_PRESENTATION_SELECTOR};
use std::fmt;
use std::fmt::Write;

// The properties of emoji-data.txt.
const PROPERTIES: [&str; 6] = [
    "Emoji",
    "Emoji_Presentation",
    "Emoji_Modifier",
    "Emoji_Modifier_Base",
    "Emoji_Component",
    "Extended_Pictographic",
];

const REGIONAL: &[u8] = b"regional indicator";

// The two files: emoji-data.txt, and emoji-variation-sequences.txt.
#[derive(Clone, Copy, Debug, PartialEq, Eq)]
pub enum File {
    Properties,
    Sequences,
}

// A table: a property, the regional indicators, or the characters that have a variation sequence of a style. The two
// styles have the same characters.
#[derive(Clone, Copy, Debug, PartialEq, Eq)]
pub enum Table {
    Emoji,
    EmojiPresentation,
    EmojiModifier,
    EmojiModifierBase,
    RegionalIndicator,
    TextStyle,
    EmojiStyle,
}

// Tests whether a comment names regional indicators.
fn is_regional(comment: &[u8]) -> bool {
    comment.windows(REGIONAL.len()).any(|part| part == REGIONAL)
}

impl File {
    pub(crate) fn name(self) -> &'static str {
        match self {
            File::Properties => "emoji-data.txt",
            File::Sequences => "emoji-variation-sequences.txt",
        }
    }

    // Tests whether the file may have a line with such code points and such a field.
    fn allows(self, line: &DataLine<'_>) -> bool {
        match (self, line.points.selector) {
            (File::Properties, None) => PROPERTIES.contains(&line.field),
            (File::Sequences, Some(TEXT_PRESENTATION_SELECTOR)) => Table::TextStyle.lists(line),
            (File::Sequences, Some(EMOJI_PRESENTATION_SELECTOR)) => Table::EmojiStyle.lists(line),
            _ => false,
        }
    }

    // Parses a line of the file.
    pub(crate) fn parse(self, line: &[u8]) -> Result<Line<'_>, LineError> {
        match Line::parse(line)? {
            Line::Data(line) if !self.allows(&line) => Err(LineError::UnknownField),
            line => Ok(line),
        }
    }
}

impl Table {
    // Returns the file that lists the table's code points.
    pub(crate) fn file(self) -> File {
        match self {
            Table::TextStyle | Table::EmojiStyle => File::Sequences,
            _ => File::Properties,
        }
    }

    // Returns the field of the lines that belong to the table.
    fn field(self) -> &'static str {
        match self {
            Table::Emoji | Table::RegionalIndicator => "Emoji",
            Table::EmojiPresentation => "Emoji_Presentation",
            Table::EmojiModifier => "Emoji_Modifier",
            Table::EmojiModifierBase => "Emoji_Modifier_Base",
            Table::TextStyle => "text style;",
            Table::EmojiStyle => "emoji style;",
        }
    }

    // Tests whether the line lists its code points for the table.
    pub(crate) fn lists(self, line: &DataLine<'_>) -> bool {
        line.field == self.field()
            && (self != Table::RegionalIndicator || is_regional(line.comment))
    }

    // Tests whether the table has ch.
    pub(crate) fn has(self, ch: u32) -> bool {
        match self {
            Table::Emoji => emoji::is_emoji(ch),
            Table::EmojiPresentation => emoji::is_emoji_presentation(ch),
            Table::EmojiModifier => emoji::is_emoji_modifier(ch),
            Table::EmojiModifierBase => emoji::is_emoji_modifier_base(ch),
            Table::RegionalIndicator => emoji::is_ri(ch),
            Table::TextStyle | Table::EmojiStyle => emoji::has_variation_sequence(ch),
        }
    }
}

impl fmt::Display for File {
    fn fmt<W: Write>(&self, f: &mut fmt::Formatter<W>) -> fmt::Result {
        f.write_str(self.name())
    }
}

impl fmt::Display for Table {
    fn fmt<W: Write>(&self, f: &mut fmt::Formatter<W>) -> fmt::Result {
        match self {
            Table::RegionalIndicator => f.write_str("regional indicators"),
            Table::TextStyle => f.write_str("variation sequences, text style"),
            Table::EmojiStyle => f.write_str("variation sequences, emoji style"),
            property => f.write_str(property.field()),
        }
    }
}
