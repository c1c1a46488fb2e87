// The keywords of the files of stored answers: the first word of a line.
use std::fmt;

// A line that starts with `#` is a comment, whatever its first word is.
#[derive(Clone, Copy, Debug, PartialEq, Eq)]
pub enum Keyword {
    Comment,
    Entries,
    Size,
    Default,
    Named,
    Singleton,
    Keycap,
    Set,
    Complement,
    Contains,
    Display,
    Union,
    Intersection,
    Symmetric,
    Difference,
    Equal,
    Policy,
    Rule,
    Text,
    Under,
    End,
}

// The keywords of lines other than comments.
const KEYWORDS: [Keyword; 20] = [
    Keyword::Entries,
    Keyword::Size,
    Keyword::Default,
    Keyword::Named,
    Keyword::Singleton,
    Keyword::Keycap,
    Keyword::Set,
    Keyword::Complement,
    Keyword::Contains,
    Keyword::Display,
    Keyword::Union,
    Keyword::Intersection,
    Keyword::Symmetric,
    Keyword::Difference,
    Keyword::Equal,
    Keyword::Policy,
    Keyword::Rule,
    Keyword::Text,
    Keyword::Under,
    Keyword::End,
];

impl Keyword {
    // Returns the keyword of a line whose first word is given.
    pub(crate) fn of_word(word: &[u8]) -> Option<Self> {
        if word.first() == Some(&b'#') {
            return Some(Keyword::Comment);
        }
        KEYWORDS
            .iter()
            .copied()
            .find(|keyword| keyword.word().as_bytes() == word)
    }

    fn word(self) -> &'static str {
        match self {
            Keyword::Comment => "#",
            Keyword::Entries => "entries",
            Keyword::Size => "size",
            Keyword::Default => "default",
            Keyword::Named => "named",
            Keyword::Singleton => "singleton",
            Keyword::Keycap => "keycap",
            Keyword::Set => "set",
            Keyword::Complement => "complement",
            Keyword::Contains => "contains",
            Keyword::Display => "display",
            Keyword::Union => "union",
            Keyword::Intersection => "intersection",
            Keyword::Symmetric => "symmetric",
            Keyword::Difference => "difference",
            Keyword::Equal => "equal",
            Keyword::Policy => "policy",
            Keyword::Rule => "rule",
            Keyword::Text => "text",
            Keyword::Under => "under",
            Keyword::End => "end",
        }
    }
}

impl fmt::Display for Keyword {
    fn fmt<W: fmt::Write>(&self, f: &mut fmt::Formatter<W>) -> fmt::Result {
        f.write_str(self.word())
    }
}
