// The next finding of a text from an offset on (document 01, "Item", "Counts and finding"). `next_finding` walks through the items cell by
// cell and reads each character once. For each cell it decides whether the rules count anything. It adds up the counts only for items that
// do not start before the limit; analysis.rs of the crate evfmt counts every item instead. `next_finding` meets `NextFinding` of
// specs/Findings.antt for every text, policy, limit and offset.
ghost use Rattle.std.specs.Prelude.{◌≡◌, true, ◌&&◌, cond, not, List, ◌*◌, ◌/◌, ◌≤◌, eqb, leb, ltb, drop, length};
ghost use Rattle.utf8.specs.Rfc3629.{read_char};
ghost use Rattle.utf8.specs.declared.ReadChar.TheVariants.{Char};
ghost use Rattle.emoji.specs.Unicode.{variation_sequence_index};
ghost use Rattle.emoji.specs.declared.presentation.Presentation.{Presentation as PresentationValue};
ghost use Rattle.policy.specs.PolicyBytes.{policy_of};
ghost use Rattle.policy.specs.declared.Policy.{Policy};
ghost use Rattle.scanner.specs.Classes.{class_of};
ghost use Rattle.scanner.specs.Items.{start_state, kind_of};
ghost use Rattle.scanner.specs.Theorems.{Structured};
ghost use Rattle.analysis.specs.Counts.{capped_sum, total};
ghost use Rattle.analysis.specs.Rules.{first_asked, outcome, run_with};
ghost use Rattle.text_pass.specs.Changes.{AsciiBare};
ghost use Rattle.text_pass.specs.Findings.{NextFinding, ReadsCell, PlainBetween, WalkedFrom};

use crate::base_selectors::{is_change, kept_number, number_of, selectors_after};
use crate::plain::{skip_ascii, skip_letters};
use analysis::singleton::analyze_by_index;
use analysis::types::NonCanonicality;
use emoji::presentation::Presentation;
use scanner::char_class::{Class, Classified, classify};
use scanner::selectors::{SELECTOR_BYTES, selector_at, selectors_end};
use scanner::state::State;

// The next finding: its bytes, from `start` up to `end`, and its eight counts if it does not start before the limit. Where no finding is
// left, `present` is false, both offsets are the end of the longest well-formed beginning, and the counts are empty. `passed` is the number
// of findings passed before it. The fields count in both cases, so an `Option` would not hold them.
#[derive(Clone, Copy, Debug, PartialEq, Eq)]
pub struct FindingSpan {
    pub start: usize,
    pub end: usize,
    pub counts: NonCanonicality,
    pub present: bool,
    pub passed: usize,
}

// The rest of a cell, after its character: where its selectors end, the first of them, and whether the rules count anything. Then the
// character after the cell: its packed number (0 where there is none), its class and its index among the variation entries.
#[derive(Clone, Copy, Debug, PartialEq, Eq)]
struct CellEnd {
    end: usize,
    first: Option<Presentation>,
    changes: bool,
    packed: u32,
    class: Class,
    index: Option<usize>,
}

// Whether the rules count anything for a base. `next` is the class of the character after its selectors, `first` is the first selector, and
// `bytes` is the length of all selectors.
fn cell_changes(
    policy: &[u8],
    base: u32,
    index: Option<usize>,
    next: Class,
    first: Option<Presentation>,
    bytes: usize,
) -> bool
    requires { variation_sequence_index base ≡ index }
    ensures { (s : List PresentationValue) → first ≡ first_asked s → bytes ≡ 3 * length s → result
        ≡ not (eqb (total (outcome (policy_of policy.now) base next s).counts) 0) }
{
    match index {
        Some(i) => {
            let number = number_of(first);
            is_change(number, bytes, kept_number(policy, base, i, next, number))
        }
        None => bytes != 0,
    }
}

// Reads the rest of a cell, and the character after it. The cell's character is `base`, and its selectors begin at the offset.
fn read_cell(text: &[u8], policy: &[u8], base: u32, index: Option<usize>, at: usize) -> CellEnd
    requires { variation_sequence_index base ≡ index }
    ensures { ReadsCell (policy_of policy.now) text.now base at result }
{
    let first = selector_at(text, at);
    let end = selectors_after(text, at, first);
    let packed = utf8::decode(text, end);
    let Classified { class, index: next } = classify(packed / 8);
    let changes = cell_changes(policy, base, index, class, first, end - at);
    CellEnd {
        end,
        first,
        changes,
        packed,
        class,
        index: next,
    }
}

// Whether counts are wanted: the rules count something, and the item does not start before the limit.
fn is_wanted(changes: bool, limit: usize, start: usize) -> bool
    ensures { result ≡ changes && leb limit start }
{
    changes && limit <= start
}

// Whether an item is a finding that ends after the limit. `changed` says whether the rules count something in it.
fn ends_after(changed: bool, limit: usize, end: usize) -> bool
    ensures { result ≡ changed && ltb limit end }
{
    changed && limit < end
}

// Adds the counts of a cell if they are wanted. `bytes` is the length of the cell's selectors.
fn add_cell(
    counts: NonCanonicality,
    wanted: bool,
    policy: &[u8],
    base: u32,
    index: Option<usize>,
    next: Class,
    first: Option<Presentation>,
    bytes: usize,
) -> NonCanonicality
    requires { variation_sequence_index base ≡ index }
    ensures { result ≡ cond wanted
        (capped_sum counts (outcome (policy_of policy.now) base next (run_with first (bytes / 3))).counts) counts }
{
    if !wanted {
        return counts;
    }
    let outcome = analyze_by_index(policy, base, index, next, first, bytes / SELECTOR_BYTES);
    counts.add(outcome.counts)
}

// The number of findings that an item is: 1 if the rules count something in it, else 0.
fn findings_of(changed: bool) -> usize
    ensures { (result ≡ cond changed 1 0) × (result ≤ 1) }
{
    usize::from(changed)
}

// Walks through items, from one of links or units on, whose first character is known. It passes items that are no findings and findings
// that do not end after the limit. It ends at another finding, or at the end of the last item before plain text.
fn walk_items(
    text: &[u8],
    policy: &[u8],
    limit: usize,
    from: usize,
    ch: u32,
    width: usize,
    first_index: Option<usize>,
    first: State,
) -> FindingSpan
    requires { (read_char (drop from text.now) ≡ Char ch width) × (variation_sequence_index ch ≡ first_index)
        × (first ≡ start_state (class_of ch)) × Structured (kind_of first) }
    ensures { WalkedFrom (policy_of policy.now) text.now limit from result }
{
    let mut start = from;
    let mut base = ch;
    let mut index = first_index;
    let mut at = from + width;
    let mut state = first;
    let mut changed = false;
    let mut passed = 0;
    let mut counts = NonCanonicality::empty();
    loop {
        let cell = read_cell(text, policy, base, index, at);
        let end = cell.end;
        let class = cell.class;
        let selector = cell.first;
        let wanted = is_wanted(cell.changes, limit, start);
        counts = add_cell(
            counts,
            wanted,
            policy,
            base,
            index,
            class,
            selector,
            end - at,
        );
        if cell.changes {
            changed = true;
        }
        match scanner::state::transition(state, class) {
            Some(next) => {
                state = next;
            }
            None => {
                if ends_after(changed, limit, end) {
                    return FindingSpan {
                        start,
                        end,
                        counts,
                        present: true,
                        passed,
                    };
                }
                passed += findings_of(changed);
                state = scanner::state::start_state_by_row(class);
                if let State::Plain = state {
                    return FindingSpan {
                        start: end,
                        end,
                        counts,
                        present: false,
                        passed,
                    };
                }
                start = end;
                changed = false;
            }
        }
        base = cell.packed / 8;
        index = cell.index;
        at = end + (cell.packed % 8) as usize;
    }
}

// Skips ASCII characters where one stands at the offset and the policy keeps the ASCII bases bare.
fn skip_bare_ascii(text: &[u8], bare: bool, from: usize) -> usize
    ensures { (p : Policy) → (bare ≡ true → AsciiBare p) → PlainBetween p text.now from result }
{
    if !bare {
        return from;
    }
    if text.len() <= from {
        return from;
    }
    if 0x7F < text[from] {
        return from;
    }
    skip_ascii(text, from)
}

// Finds the next finding of a text, from an offset on, that ends after the limit. It passes findings that do not, and counts them.
pub fn next_finding(text: &[u8], policy: &[u8], limit: usize, from: usize) -> FindingSpan
    ensures { NextFinding (policy_of policy.now) text.now limit from result }
{
    let bare = policy::policy_bytes::ascii_keys_bare(policy);
    let mut at = from;
    let mut passed = 0;
    loop {
        at = skip_bare_ascii(text, bare, at);
        let packed = utf8::decode(text, at);
        if packed == 0 {
            return FindingSpan {
                start: at,
                end: at,
                counts: NonCanonicality::empty(),
                present: false,
                passed,
            };
        }
        let ch = packed / 8;
        let width = (packed % 8) as usize;
        let Classified { class, index } = classify(ch);
        let state = scanner::state::start_state(class);
        match state {
            State::Plain => {
                at = skip_letters(text, at + width);
            }
            State::Selectors => {
                let end = selectors_end(text, at);
                if limit < end {
                    return FindingSpan {
                        start: at,
                        end,
                        counts: NonCanonicality::unsanctioned((end - at) / SELECTOR_BYTES),
                        present: true,
                        passed,
                    };
                }
                passed += 1;
                at = end;
            }
            _ => {
                let FindingSpan {
                    start,
                    end,
                    counts,
                    present,
                    passed: walked,
                } = walk_items(text, policy, limit, at, ch, width, index, state);
                passed += walked;
                if present {
                    return FindingSpan {
                        start,
                        end,
                        counts,
                        present,
                        passed,
                    };
                }
                at = start;
            }
        }
    }
}
