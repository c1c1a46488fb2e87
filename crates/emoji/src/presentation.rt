// The presentation that a selector requests: presentation.rs of the crate evfmt; document 01, "Character": FE0E is
// Text, FE0F is Emoji.
ghost use Rattle.std.specs.Prelude.{◌≡◌};
ghost use Rattle.emoji.specs.Presentation.{as_selector, from_selector};

use crate::{EMOJI_PRESENTATION_SELECTOR, TEXT_PRESENTATION_SELECTOR};

#[derive(Clone, Copy, Debug, PartialEq, Eq)]
pub enum Presentation {
    Text,
    Emoji,
}

impl Presentation {
    // Returns the selector that requests this presentation.
    #[tactic(auto, unfolding(crate::specs::Presentation::as_selector))]
    pub fn as_selector(self) -> u32
        ensures { result ≡ as_selector self }
    {
        match self {
            Presentation::Text => TEXT_PRESENTATION_SELECTOR,
            Presentation::Emoji => EMOJI_PRESENTATION_SELECTOR,
        }
    }

    // Returns the presentation that a character requests, if it is a selector.
    #[tactic(auto, unfolding(crate::specs::Presentation::from_selector))]
    pub fn from_selector(ch: u32) -> Option<Presentation>
        ensures { result ≡ from_selector ch }
    {
        match ch {
            TEXT_PRESENTATION_SELECTOR => Some(Presentation::Text),
            EMOJI_PRESENTATION_SELECTOR => Some(Presentation::Emoji),
            _ => None,
        }
    }
}
