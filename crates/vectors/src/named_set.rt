// The named key sets, in the order of their lines in policy.txt.
use policy_key_set::PolicyKeySet;

#[derive(Clone, Copy, Debug, PartialEq, Eq)]
pub enum NamedSet {
    Ascii,
    TextDefaults,
    EmojiDefaults,
    VariationBases,
    KeycapTextDefaults,
    KeycapEmojiDefaults,
    KeycapVariationBases,
    KeycapRgi,
}

pub const NAMED_SETS: [NamedSet; 8] = [
    NamedSet::Ascii,
    NamedSet::TextDefaults,
    NamedSet::EmojiDefaults,
    NamedSet::VariationBases,
    NamedSet::KeycapTextDefaults,
    NamedSet::KeycapEmojiDefaults,
    NamedSet::KeycapVariationBases,
    NamedSet::KeycapRgi,
];

impl NamedSet {
    pub(crate) fn name(self) -> &'static str {
        match self {
            NamedSet::Ascii => "ASCII",
            NamedSet::TextDefaults => "TEXT_DEFAULTS",
            NamedSet::EmojiDefaults => "EMOJI_DEFAULTS",
            NamedSet::VariationBases => "VARIATION_BASES",
            NamedSet::KeycapTextDefaults => "KEYCAP_TEXT_DEFAULTS",
            NamedSet::KeycapEmojiDefaults => "KEYCAP_EMOJI_DEFAULTS",
            NamedSet::KeycapVariationBases => "KEYCAP_VARIATION_BASES",
            NamedSet::KeycapRgi => "KEYCAP_RGI",
        }
    }

    pub(crate) fn keys(self) -> PolicyKeySet {
        match self {
            NamedSet::Ascii => policy_key_set::ascii(),
            NamedSet::TextDefaults => policy_key_set::text_defaults(),
            NamedSet::EmojiDefaults => policy_key_set::emoji_defaults(),
            NamedSet::VariationBases => policy_key_set::variation_bases(),
            NamedSet::KeycapTextDefaults => policy_key_set::keycap_text_defaults(),
            NamedSet::KeycapEmojiDefaults => policy_key_set::keycap_emoji_defaults(),
            NamedSet::KeycapVariationBases => policy_key_set::keycap_variation_bases(),
            NamedSet::KeycapRgi => policy_key_set::keycap_rgi(),
        }
    }
}
