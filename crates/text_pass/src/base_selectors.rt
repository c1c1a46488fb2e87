// The selectors after a base that has a variation entry (document 01, "Counts and finding", rules 2 to 6): which selector stays, and
// whether this changes the text. `base_change` meets `BaseChange` of specs/Changes.antt. Selectors have numbers here: 0 is no selector, 1
// is FE0E, and 2 is FE0F.
ghost use Rattle.std.specs.Prelude.{◌≡◌, Bool, Option, ◌&&◌, cond, not, List, [], ℕ, ◌+◌, ◌*◌, ◌/◌, ◌%◌, ◌^◌, ◌≤◌, eqb, leb, drop, Some};
ghost use Rattle.utf8.specs.Rfc3629.{chars};
ghost use Rattle.emoji.specs.Unicode.{variation_sequence_index};
ghost use Rattle.emoji.specs.declared.presentation.Presentation.{Presentation as Selected};
ghost use Rattle.policy.specs.PolicyBytes.{policy_of};
ghost use Rattle.scanner.specs.Classes.{class_of};
ghost use Rattle.scanner.specs.Runs.{selectors_at};
ghost use Rattle.scanner.specs.SelectorRun.{first_selector};
ghost use Rattle.scanner.specs.Spans.{size, width};
ghost use Rattle.analysis.specs.Analysis.{chosen};
ghost use Rattle.analysis.specs.CellView.{class_in_front};
ghost use Rattle.analysis.specs.Rules.{outcome, rule2, rule3, rule4, rule5, rule6, run_with, selector_number, text_first};
ghost use Rattle.text_pass.specs.Changes.{BaseChange, LeavesSelector, SameRules, selector_of};

use crate::Change;
use analysis::singleton::is_keycap;
use emoji::COMBINING_ENCLOSING_KEYCAP;
use emoji::presentation::Presentation;
use policy::SingletonRule;
use scanner::char_class::Class;
use scanner::selectors::{SELECTOR_BYTES, selector_at, selectors_end};

// The class of a character after a base, as far as the rules distinguish classes: modifier, tag, keycap, or other.
fn rule_class(ch: u32) -> Class
    ensures { SameRules result (class_of ch) }
{
    match ch {
        ..COMBINING_ENCLOSING_KEYCAP => Class::Other,
        COMBINING_ENCLOSING_KEYCAP => Class::Keycap,
        _ if emoji::is_emoji_modifier_by_ends(ch) => Class::Modifier,
        _ if emoji::is_tag(ch) => Class::Tag,
        _ => Class::Other,
    }
}

// The class, for the rules, of the character at an offset. Where no character begins, `decode` gives 0, and the class is `Other`.
fn rule_class_at(text: &[u8], at: usize) -> Class
    ensures { SameRules result (class_in_front (chars (drop at text.now))) }
{
    rule_class(utf8::decode(text, at) / 8)
}

// The selector that rule 6 leaves for each number of the first selector: two bits each, those for number 0 lowest.
fn kept_word(rule: SingletonRule) -> u32
    ensures { (f : Option Presentation) (n : ℕ)
        → LeavesSelector (rule6 rule (run_with f n)).slot (result / 2 ^ (2 * selector_number f) % 4) }
{
    match rule {
        SingletonRule::TextToBare => 0x20,
        SingletonRule::EmojiToBare => 0x04,
        SingletonRule::BareToText => 0x25,
        SingletonRule::BareToEmoji => 0x26,
    }
}

// Rule 6: the number of the selector that stays, by the policy's rule for the base and the number of the first selector.
fn by_policy(rule: SingletonRule, first: u32) -> u32
    requires { first ≤ 2 }
    ensures { (f : Option Presentation) → first ≡ selector_number f → (n : ℕ) → LeavesSelector (rule6 rule (run_with f n)).slot result }
{
    (kept_word(rule) >> (2 * first)) % 4
}

// Rules 2 and 3: the number of the selector that stays before a modifier.
fn before_modifier(first: u32) -> u32
    ensures { (f : Option Presentation) → first ≡ selector_number f → (b : Bool) (n : ℕ)
        → LeavesSelector (cond (text_first (run_with f n)) (rule2 (run_with f n)) (rule3 b (run_with f n))).slot result }
{
    if first == 1 {
        return 1;
    }
    0
}

// Rules 4 and 5: the number of the selector that stays before tags.
fn before_tags(is_emoji_default: bool) -> u32
    ensures { (s : List Selected) → LeavesSelector (cond is_emoji_default (rule4 s) (rule5 s)).slot result }
{
    if is_emoji_default {
        return 0;
    }
    2
}

// The number of the selector that stays after a base. `next` is the class of the character after the selectors, and `first` the number of
// the first selector.
pub(crate) fn kept_number(policy: &[u8], base: u32, index: usize, next: Class, first: u32) -> u32
    requires { (variation_sequence_index base ≡ Some index) × (first ≤ 2) }
    ensures few { result ≤ 2 }
    ensures kept { (f : Option Presentation) → first ≡ selector_number f → (n : ℕ) → run_with (selector_of result) 1
        ≡ chosen (outcome (policy_of policy.now) base next (run_with f n)).slot [] }
{
    match next {
        Class::Modifier => before_modifier(first),
        Class::Tag => before_tags(emoji::is_emoji_default_by_block(base)),
        _ => by_policy(
            policy::policy_bytes::rule_at(policy, index, is_keycap(next)),
            first,
        ),
    }
}

// The number of a selector.
pub(crate) fn number_of(selector: Option<Presentation>) -> u32
    ensures { (result ≡ selector_number selector) × (result ≤ 2) }
{
    match selector {
        None => 0,
        Some(Presentation::Text) => 1,
        Some(Presentation::Emoji) => 2,
    }
}

// The selector that has a number.
#[tactic(auto, using(crate::proofs::NumberedSelectors::selector_third), unfolding(crate::specs::Changes::selector_of))]
fn selector_of(number: u32) -> Option<Presentation>
    ensures { result ≡ selector_of number }
{
    match number {
        0 => None,
        1 => Some(Presentation::Text),
        _ => Some(Presentation::Emoji),
    }
}

// Whether the selectors after a base are others than the selector with the number `kept`. `first` is the number of the first of them, and
// `bytes` is the length of all.
pub(crate) fn is_change(first: u32, bytes: usize, kept: u32) -> bool
    ensures { result ≡ not (eqb first kept && leb bytes 3) }
{
    first != kept || SELECTOR_BYTES < bytes
}

// The end of the selectors from an offset on. The caller knows the first of them, or that there is none.
pub(crate) fn selectors_after(text: &[u8], at: usize, first: Option<Presentation>) -> usize
    requires { first ≡ first_selector (chars (drop at text.now)) }
    ensures { result ≡ at + size width (selectors_at (chars (drop at text.now))) }
{
    match first {
        None => at,
        Some(_) => selectors_end(text, at + SELECTOR_BYTES),
    }
}

// The change, if it is one, of the selectors from an offset on, which stand after a base with a variation entry.
pub(crate) fn base_change(text: &[u8], policy: &[u8], base: u32, index: usize, at: usize) -> Change
    requires { variation_sequence_index base ≡ Some index }
    ensures { BaseChange (policy_of policy.now) text.now base at result }
{
    let selector = selector_at(text, at);
    let first = number_of(selector);
    let end = selectors_after(text, at, selector);
    let next = rule_class_at(text, end);
    let kept = kept_number(policy, base, index, next, first);
    Change {
        start: at,
        selector: selector_of(kept),
        end,
        present: is_change(first, end - at, kept),
    }
}
