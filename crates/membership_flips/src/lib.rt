// Which single membership of a policy alters the formatted text (document 02, viii). The code makes one pass over the text (src/pass.rt),
// and then goes through the 1,416 memberships in the order of the list: once to count those whose flip alters the text, and once more to
// write their rows, if all fit. `list_tips` equals `list_tips` of specs/Flips.antt. The Rust crate has no such function.
#![tactic(auto)]

mod pass;
mod plain;

ghost use Rattle.std.specs.Prelude.{◌≡◌, true, ◌||◌, cond, [], ◌+◌, ◌/◌, ◌%◌, ◌<◌, ◌≤◌, get_or, length};
ghost use Rattle.base.specs.Lists.{filter};
ghost use Rattle.base.specs.Answers.{EndsAs, answer_row};
ghost use Rattle.base.specs.Output.{PutAt};
ghost use Rattle.base.specs.Tables.{fill_table, rows_bytes};
ghost use Rattle.base.specs.Words.{bytes_of};
ghost use Rattle.emoji.specs.UnicodeData.{variation_entries};
ghost use Rattle.membership_flips.specs.Flips.{list_tips, tip_numbers};
ghost use Rattle.membership_flips.specs.Pass.{matters_for, membership_at, numbered, tip_test};

use base::{Refusal, WORD_BYTES};
use emoji::presentation::Presentation;
use formatter::intake::first_tests;
use pass::{FLAGS, flag_uses, is_flagged};
use policy::SingletonRule;
use policy::policy_bytes::rule_at;

// How many memberships there are: 354 entries, two domains, two sets.
const MEMBERSHIPS: usize = 1416;

// How many numbers a row has.
const TIP_NUMBERS: usize = 3;

// How many bytes a row has.
const TIP_BYTES: usize = TIP_NUMBERS * WORD_BYTES;

// Whether a flip in `bare_as_text`, or in `prefer_bare`, alters the text, by the policy's rule for the entry and by how the text uses it:
// bare, with FE0E first, with FE0F first.
fn matters_for(rule: SingletonRule, as_text: bool, bare: bool, text: bool, emoji: bool) -> bool
    ensures { result ≡ matters_for rule as_text bare text emoji }
{
    match rule {
        SingletonRule::BareToEmoji | SingletonRule::BareToText if as_text => bare,
        SingletonRule::EmojiToBare | SingletonRule::TextToBare if as_text => text || emoji,
        SingletonRule::BareToEmoji | SingletonRule::EmojiToBare => bare || emoji,
        SingletonRule::BareToText | SingletonRule::TextToBare => bare || text,
    }
}

// Whether the flip of membership n alters the text. The policy is read only for an entry that the text uses.
fn is_tip(policy: &[u8], flags: &[u8], n: usize) -> bool
    requires { (n < 1416) × (length flags.now ≡ 2124) }
    ensures { result ≡ tip_test policy.now flags.now (membership_at n) }
{
    let index = n / 4;
    let is_keycap = n / 2 % 2 == 1;
    let as_text = n % 2 == 1;
    let bare = is_flagged(flags, index, is_keycap, None);
    let text = is_flagged(flags, index, is_keycap, Some(Presentation::Text));
    let emoji = is_flagged(flags, index, is_keycap, Some(Presentation::Emoji));
    if !bare && !text && !emoji {
        return false;
    }
    let rule = rule_at(policy, index, is_keycap);
    matters_for(rule, as_text, bare, text, emoji)
}

// Counts the memberships whose flip alters the text.
fn count_tips(policy: &[u8], flags: &[u8]) -> usize
    requires { length flags.now ≡ 2124 }
    ensures { result ≡ length (filter (tip_test policy.now flags.now) (numbered 1416 0)) }
{
    let mut count = 0;
    for n in 0..MEMBERSHIPS {
        count += usize::from(is_tip(policy, flags, n));
    }
    count
}

// The code point of an entry.
fn code_point(index: usize) -> usize
    ensures { result ≡ get_or variation_entries index 0 }
{
    emoji::variation_char(index) as usize
}

// Puts the row of membership n, if it is wanted, and returns where it ends. The table has room for a wanted row.
fn put_tip(table: &mut [u8], start: usize, wanted: bool, n: usize) -> usize
    requires { (n < 1416) × (wanted ≡ true → start + 24 ≤ length table.old) }
    ensures { PutAt table.old start (cond wanted (bytes_of (tip_numbers (membership_at n))) []) table.new result }
{
    if !wanted {
        return start;
    }
    let numbers = [code_point(n / 4), n / 2 % 2, n % 2];
    base::write_numbers(table, start, &numbers);
    start + TIP_BYTES
}

// Puts the rows of the memberships whose flip alters the text, for which the table has room, and returns where the last one ends.
fn put_tips(policy: &[u8], flags: &[u8], table: &mut [u8]) -> usize
    requires { (length flags.now ≡ 2124)
        × (length (rows_bytes tip_numbers (filter (tip_test policy.now flags.now) (numbered 1416 0))) ≤ length table.old) }
    ensures { PutAt table.old 0
        (rows_bytes tip_numbers (filter (tip_test policy.now flags.now) (numbered 1416 0))) table.new result }
{
    let mut at = 0;
    for n in 0..MEMBERSHIPS {
        let wanted = is_tip(policy, flags, n);
        at = put_tip(table, at, wanted, n);
    }
    at
}

// Lists the memberships whose flip alters the text, if the table has a place for each.
fn fill_table(policy: &[u8], flags: &[u8], table: &mut [u8]) -> Result<usize, Refusal>
    requires { length flags.now ≡ 2124 }
    ensures { record { answer = result; buffer = table.new }
        ≡ fill_table tip_numbers 24 (filter (tip_test policy.now flags.now) (numbered 1416 0)) table.old }
{
    let findings = count_tips(policy, flags);
    if findings == 0 {
        return Ok(findings);
    }
    if table.len() / TIP_BYTES < findings {
        return Err(Refusal::TableTooShort { findings });
    }
    put_tips(policy, flags, table);
    Ok(findings)
}

// Lists the memberships of a policy whose flip alone alters the formatted text. The text and the policy are given as bytes.
pub fn list_tips(text: &[u8], policy: &[u8], table: &mut [u8]) -> Result<usize, Refusal>
    ensures { EndsAs answer_row (list_tips text.now policy.now table.old) result table.new }
{
    first_tests(text, policy)?;
    let mut flags = [0u8; FLAGS];
    let valid_up_to = flag_uses(text, &mut flags);
    if valid_up_to != text.len() {
        return Err(Refusal::NotWellFormed { valid_up_to });
    }
    fill_table(policy, &flags, table)
}
