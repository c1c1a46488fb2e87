// Where formatting changes a text (document 01, "Replacement and text"): `next_change` finds the next change from an offset on. Formatting
// copies the bytes between two changes; formatter.rs of the crate evfmt builds each item anew instead. `next_change` meets `NextChange` of
// specs/Changes.antt for every text, policy and offset.
#![tactic(auto)]

mod base_selectors;
pub mod findings;
mod plain;

ghost use Rattle.std.specs.Prelude.{◌≡◌, drop};
ghost use Rattle.utf8.specs.Rfc3629.{read_char};
ghost use Rattle.utf8.specs.declared.ReadChar.TheVariants.{Char};
ghost use Rattle.policy.specs.PolicyBytes.{policy_of};
ghost use Rattle.text_pass.specs.Changes.{ChangeAt, NextChange};

use base_selectors::base_change;
use emoji::presentation::Presentation;
use plain::{skip_alike, skip_plain};
use scanner::selectors::selectors_end;

// A change of a text: formatting keeps the bytes before `start`, and writes `selector`, or nothing, for the bytes from `start` up to
// `end`. Where no change is left, `present` is false, and both offsets are the end of the longest well-formed beginning: the offsets count
// in both cases, so an `Option` would not hold them.
#[derive(Clone, Copy, Debug, PartialEq, Eq)]
pub struct Change {
    pub start: usize,
    pub selector: Option<Presentation>,
    pub end: usize,
    pub present: bool,
}

// What formatting does at the character `ch`, which stands at the offset `at` and has `width` bytes. It removes a selector and all
// selectors after it. After a base with a variation entry it keeps the selector that the rules leave. Any other character stays, and so do
// the links after a link and the tags after a tag.
fn change_at(text: &[u8], policy: &[u8], at: usize, ch: u32, width: usize) -> Change
    requires { read_char (drop at text.now) ≡ Char ch width }
    ensures { ChangeAt (policy_of policy.now) text.now at result }
{
    let next = at + width;
    if let Some(index) = emoji::variation_sequence_index_by_block(ch) {
        return base_change(text, policy, ch, index, next);
    }
    if let Some(_) = Presentation::from_selector(ch) {
        return Change {
            start: at,
            selector: None,
            end: selectors_end(text, next),
            present: true,
        };
    }
    let end = skip_alike(text, next, ch);
    Change {
        start: end,
        selector: None,
        end,
        present: false,
    }
}

// Finds the next change of a text from an offset on.
pub fn next_change(text: &[u8], policy: &[u8], from: usize) -> Change
    ensures { NextChange (policy_of policy.now) text.now from result }
{
    let bare = policy::policy_bytes::ascii_keys_bare(policy);
    let mut at = from;
    loop {
        at = skip_plain(text, bare, at);
        let packed = utf8::decode(text, at);
        if packed == 0 {
            return Change {
                start: at,
                selector: None,
                end: at,
                present: false,
            };
        }
        let width = (packed % 8) as usize;
        let change = change_at(text, policy, at, packed / 8, width);
        if change.present {
            return change;
        }
        at = change.end;
    }
}
