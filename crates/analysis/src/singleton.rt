// The six rules for a single base, in document 01's order ("Counts and finding"): `analyze_singleton_base_selectors` of analysis.rs
// of the crate evfmt, and the functions that it calls. They take the base, the class of the character after the base and its
// selectors, the first selector and the number of selectors.
// `analyze_singleton_base_selectors`, `analyze_by_index` and `analyze_by_policy_bytes` equal `outcome` of specs/Rules.antt; each
// smaller function equals one of its rules.
ghost use Rattle.std.specs.Prelude.{◌≡◌, cond, true, drop};
ghost use Rattle.utf8.specs.Rfc3629.{chars};
ghost use Rattle.emoji.specs.Unicode.{has_variation_sequence, is_emoji_modifier_base, variation_sequence_index};
ghost use Rattle.policy.specs.Policy.{singleton_rule};
ghost use Rattle.policy.specs.PolicyBytes.{policy_of};
ghost use Rattle.policy.specs.declared.Policy.{Policy as GivenPolicy};
ghost use Rattle.analysis.specs.CellView.{class_in_front};
ghost use Rattle.analysis.specs.Rules.{
  by_keycap,
  is_bare_side,
  outcome,
  rule1,
  rule2,
  rule3,
  rule4,
  rule5,
  rule6,
  run_with,
  text_first,
  without_selector,
};

use crate::types::NonCanonicality;
use emoji::presentation::Presentation;
use policy::{Policy, SingletonRule};
use scanner::char_class::{Class, peek};

// What follows a base in the replacement: no selector, this selector, or the selector that a decision names, with its default.
#[derive(Clone, Copy, Debug, PartialEq, Eq)]
pub enum Slot {
    Bare,
    Fixed(Presentation),
    Decided(Presentation),
}

// The result of a rule for a base and its selectors.
#[derive(Clone, Copy, Debug, PartialEq, Eq)]
pub struct Outcome {
    pub counts: NonCanonicality,
    pub slot: Slot,
}

// Rule 1: no variation entry.
#[tactic(auto, using(crate::proofs::NumberRules::first_1), unfolding(crate::specs::Rules::rule1, crate::specs::Rules::run_with))]
fn without_entry(first: Option<Presentation>, count: usize) -> Outcome
    ensures { result ≡ rule1 (run_with first count) }
{
    let counts = match first {
        None => NonCanonicality::empty(),
        Some(_) => NonCanonicality::unsanctioned(count.saturating_sub(1) + 1),
    };
    Outcome {
        counts,
        slot: Slot::Bare,
    }
}

// Rules 2 and 3: the first modification is a modifier.
#[tactic(auto, using(crate::proofs::NumberRules::none_23, crate::proofs::NumberRules::text_23, crate::proofs::NumberRules::emoji_23))]
fn before_modifier(first: Option<Presentation>, count: usize, base: u32) -> Outcome
    ensures { result ≡ cond (text_first (run_with first count)) (rule2 (run_with first count))
        (rule3 (is_emoji_modifier_base base) (run_with first count)) }
{
    let mut counts = NonCanonicality::unsanctioned(count.saturating_sub(1));
    match first {
        None => Outcome {
            counts: NonCanonicality::empty(),
            slot: Slot::Bare,
        },
        Some(Presentation::Text) => Outcome {
            counts,
            slot: Slot::Fixed(Presentation::Text),
        },
        Some(Presentation::Emoji) => {
            if emoji::is_emoji_modifier_base(base) {
                counts.modifier_defective_selectors = 1;
            } else {
                counts.additional_defective_selectors = 1;
            }
            Outcome {
                counts,
                slot: Slot::Bare,
            }
        }
    }
}

// Rule 4: the first modification is tags, and the base is emoji-default.
#[tactic(auto, using(crate::proofs::NumberRules::none_4, crate::proofs::NumberRules::text_4, crate::proofs::NumberRules::emoji_4))]
fn before_tags_bare(first: Option<Presentation>, count: usize) -> Outcome
    ensures { result ≡ rule4 (run_with first count) }
{
    let mut counts = NonCanonicality::unsanctioned(count.saturating_sub(1));
    match first {
        None => {
            counts = NonCanonicality::empty();
        }
        Some(Presentation::Text) => {
            counts.tag_conflicting_selectors = 1;
        }
        Some(Presentation::Emoji) => {
            counts.tag_redundant_selectors = 1;
        }
    }
    Outcome {
        counts,
        slot: Slot::Bare,
    }
}

// Rule 5: the first modification is tags, and the base is another one.
#[tactic(auto, using(crate::proofs::NumberRules::none_5, crate::proofs::NumberRules::text_5, crate::proofs::NumberRules::emoji_5))]
fn before_tags_emoji(first: Option<Presentation>, count: usize) -> Outcome
    ensures { result ≡ rule5 (run_with first count) }
{
    let mut counts = NonCanonicality::unsanctioned(count.saturating_sub(1));
    match first {
        None => {
            counts = NonCanonicality::empty();
            counts.tag_forced_presentations = 1;
        }
        Some(Presentation::Text) => {
            counts.tag_conflicting_selectors = 1;
            counts.tag_forced_presentations = 1;
        }
        Some(Presentation::Emoji) => {}
    }
    Outcome {
        counts,
        slot: Slot::Fixed(Presentation::Emoji),
    }
}

// Whether the presentation is the bare side of `TextToBare` or `EmojiToBare`.
#[tactic(auto, unfolding(crate::specs::Rules::is_bare_side))]
fn is_bare_side(rule: SingletonRule, presentation: Presentation) -> bool
    ensures { result ≡ is_bare_side rule presentation }
{
    matches!(
        (rule, presentation),
        (SingletonRule::TextToBare, Presentation::Text)
            | (SingletonRule::EmojiToBare, Presentation::Emoji)
    )
}

// The result for a base without a selector under a policy's rule: bare, or one decision.
#[tactic(auto, unfolding(crate::specs::Rules::without_selector))]
fn without_selector(rule: SingletonRule) -> Outcome
    ensures { result ≡ without_selector rule }
{
    let mut counts = NonCanonicality::empty();
    let slot = match rule {
        SingletonRule::TextToBare | SingletonRule::EmojiToBare => Slot::Bare,
        SingletonRule::BareToText => {
            counts.presentation_decisions = 1;
            Slot::Decided(Presentation::Text)
        }
        SingletonRule::BareToEmoji => {
            counts.presentation_decisions = 1;
            Slot::Decided(Presentation::Emoji)
        }
    };
    Outcome { counts, slot }
}

// Rules 4 and 5: the first modification is tags.
fn before_tags(first: Option<Presentation>, count: usize, is_emoji_default: bool) -> Outcome
    ensures { result ≡ cond is_emoji_default (rule4 (run_with first count)) (rule5 (run_with first count)) }
{
    if is_emoji_default {
        return before_tags_bare(first, count);
    }
    before_tags_emoji(first, count)
}

// Rule 6: the policy's rule for the base.
#[tactic(auto, using(crate::proofs::NumberRules::first_6), unfolding(crate::specs::Rules::rule6, crate::specs::Rules::run_with))]
fn by_policy(first: Option<Presentation>, count: usize, rule: SingletonRule) -> Outcome
    ensures { result ≡ rule6 rule (run_with first count) }
{
    match first {
        None => without_selector(rule),
        Some(presentation) => {
            let mut counts = NonCanonicality::unsanctioned(count.saturating_sub(1));
            if is_bare_side(rule, presentation) {
                counts.policy_redundant_selectors = 1;
                return Outcome {
                    counts,
                    slot: Slot::Bare,
                };
            }
            Outcome {
                counts,
                slot: Slot::Fixed(presentation),
            }
        }
    }
}

// Returns the class of the character at an offset, or `Other` if no character begins there.
pub fn class_at(text: &[u8], at: usize) -> Class
    ensures { result ≡ class_in_front (chars (drop at text.now)) }
{
    match peek(text, at) {
        Some(seen) => seen.class,
        None => Class::Other,
    }
}

// Whether the class is that of 20E3.
#[tactic(auto, unfolding(crate::specs::Rules::by_keycap))]
pub fn is_keycap(class: Class) -> bool
    ensures { result ≡ by_keycap class }
{
    matches!(class, Class::Keycap)
}

// Rules 2 to 6, for a base with a variation entry. `rule` is the policy's rule for the base before a character of class `next`.
#[tactic(auto, using(crate::proofs::Rules::outcome_entry), unfolding(crate::specs::Rules::by_keycap))]
fn with_entry(
    base: u32,
    next: Class,
    first: Option<Presentation>,
    count: usize,
    rule: SingletonRule,
) -> Outcome
    ensures { (p : GivenPolicy) → has_variation_sequence base ≡ true → rule ≡ singleton_rule p base (by_keycap next) → result
        ≡ outcome p base next (run_with first count) }
{
    match next {
        Class::Modifier => before_modifier(first, count, base),
        Class::Tag => before_tags(first, count, emoji::is_emoji_default_by_block(base)),
        _ => by_policy(first, count, rule),
    }
}

// "For a single base the first rule that fits holds."
#[tactic(auto, using(crate::proofs::Rules::outcome_no_entry))]
pub fn analyze_singleton_base_selectors(
    base: u32,
    next: Class,
    first: Option<Presentation>,
    count: usize,
    policy: Policy,
) -> Outcome
    ensures { result ≡ outcome policy base next (run_with first count) }
{
    if !emoji::has_variation_sequence_by_block(base) {
        return without_entry(first, count);
    }
    let rule = policy.singleton_rule(base, is_keycap(next));
    with_entry(base, next, first, count, rule)
}

// The same for a policy given as bytes, which are not copied, and for a base whose index among the variation entries is known.
pub fn analyze_by_index(
    policy: &[u8],
    base: u32,
    entry: Option<usize>,
    next: Class,
    first: Option<Presentation>,
    count: usize,
) -> Outcome
    ensures { variation_sequence_index base ≡ entry → result
        ≡ outcome (policy_of policy.now) base next (run_with first count) }
{
    match entry {
        None => without_entry(first, count),
        Some(index) => {
            let rule = policy::policy_bytes::rule_at(policy, index, is_keycap(next));
            with_entry(base, next, first, count, rule)
        }
    }
}

// The same for any base.
pub fn analyze_by_policy_bytes(
    policy: &[u8],
    base: u32,
    next: Class,
    first: Option<Presentation>,
    count: usize,
) -> Outcome
    ensures { result ≡ outcome (policy_of policy.now) base next (run_with first count) }
{
    let entry = emoji::variation_sequence_index_by_block(base);
    analyze_by_index(policy, base, entry, next, first, count)
}
