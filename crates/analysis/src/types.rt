// The eight counts of an item, a finding and a choice: types.rs of the crate evfmt; document 01, "Counts and finding".
// `empty`, `unsanctioned`, `is_empty` and `add` equal the definitions of specs/Counts.antt.
ghost use Rattle.std.specs.Prelude.{◌≡◌, ◌↔◌, true, eqb};
ghost use Rattle.analysis.specs.Counts.{capped_sum, empty, total, unsanctioned};

use base::add_count;
use emoji::presentation::Presentation;

// The eight counts of an item, in document 01's order.
#[derive(Clone, Copy, Debug, Default, PartialEq, Eq)]
pub struct NonCanonicality {
    pub unsanctioned_selectors: usize,
    pub modifier_defective_selectors: usize,
    pub additional_defective_selectors: usize,
    pub tag_conflicting_selectors: usize,
    pub tag_forced_presentations: usize,
    pub tag_redundant_selectors: usize,
    pub policy_redundant_selectors: usize,
    pub presentation_decisions: usize,
}

// A listed finding: its bytes, from start up to end, the eight counts, and its start and end in characters and in UTF-16 units.
#[derive(Clone, Copy, Debug, PartialEq, Eq)]
pub struct Finding {
    pub start: usize,
    pub end: usize,
    pub counts: NonCanonicality,
    pub char_start: usize,
    pub char_end: usize,
    pub unit_start: usize,
    pub unit_end: usize,
}

// A choice: the bytes of its unit, from start up to end, the offset at which the search for the next choice starts, and its
// default.
#[derive(Clone, Copy, Debug, PartialEq, Eq)]
pub struct ReplacementChoice {
    pub start: usize,
    pub end: usize,
    pub next: usize,
    pub default: Presentation,
}

impl NonCanonicality {
    // All eight counts are 0.
    pub fn empty() -> Self
        ensures { result ≡ empty }
    {
        NonCanonicality::default()
    }

    // This number of unsanctioned selectors.
    pub fn unsanctioned(count: usize) -> Self
        ensures { result ≡ unsanctioned count }
    {
        NonCanonicality {
            unsanctioned_selectors: count,
            ..NonCanonicality::default()
        }
    }

    // Whether every count is 0.
    pub fn is_empty(self) -> bool
        ensures { result ≡ eqb (total self) 0 }
    {
        self == NonCanonicality::empty()
    }

    // The sum, count by count; a sum above the largest count becomes the largest count.
    pub fn add(self, rhs: Self) -> Self
        ensures { result ≡ capped_sum self rhs }
    {
        NonCanonicality {
            unsanctioned_selectors: add_count(
                self.unsanctioned_selectors,
                rhs.unsanctioned_selectors,
            ),
            modifier_defective_selectors: add_count(
                self.modifier_defective_selectors,
                rhs.modifier_defective_selectors,
            ),
            additional_defective_selectors: add_count(
                self.additional_defective_selectors,
                rhs.additional_defective_selectors,
            ),
            tag_conflicting_selectors: add_count(
                self.tag_conflicting_selectors,
                rhs.tag_conflicting_selectors,
            ),
            tag_forced_presentations: add_count(
                self.tag_forced_presentations,
                rhs.tag_forced_presentations,
            ),
            tag_redundant_selectors: add_count(
                self.tag_redundant_selectors,
                rhs.tag_redundant_selectors,
            ),
            policy_redundant_selectors: add_count(
                self.policy_redundant_selectors,
                rhs.policy_redundant_selectors,
            ),
            presentation_decisions: add_count(
                self.presentation_decisions,
                rhs.presentation_decisions,
            ),
        }
    }

    // Whether two records of counts are equal.
    pub fn eq(self, rhs: Self) -> bool
        ensures { (result ≡ true) ↔ (self ≡ rhs) }
    {
        self == rhs // count by count
    }
}

impl Finding {
    // Whether two findings are equal.
    pub fn eq(self, rhs: Self) -> bool
        ensures { (result ≡ true) ↔ (self ≡ rhs) }
    {
        self == rhs // field by field
    }
}
