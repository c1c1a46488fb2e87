// Replacements as bytes: render.rs of the crate evfmt, and the replacements that analysis.rs makes; document 01, "Replacement and
// text".
// The cells of a slice are written with the selectors that the rules and the decisions give them (`render` of crate analysis,
// specs/Analysis.antt).
// `canonical_replacement_with_decisions` equals `replace_at` of crate analysis, specs/ItemAt.antt. It makes every test of a call
// that takes a text, an offset and decisions. Only an item of the text scanned from its beginning counts as an item at the offset.
ghost use Rattle.std.specs.Prelude.{◌≡◌, true, map, ◌+◌, ◌≤◌, drop, length};
ghost use Rattle.base.specs.Answers.{EndsAs, answer_row};
ghost use Rattle.base.specs.Output.{PutAt};
ghost use Rattle.utf8.specs.Rfc3629.{chars, encode, encode_all, is_scalar};
ghost use Rattle.emoji.specs.Presentation.{as_selector};
ghost use Rattle.scanner.specs.Spans.{scan};
ghost use Rattle.analysis.specs.Analysis.{chosen, decide, render};
ghost use Rattle.analysis.specs.Cells.{cells};
ghost use Rattle.analysis.specs.Helpers.{cell_bytes, decisions_used, starting_analysis, starts_at, write_cells};
ghost use Rattle.analysis.specs.Decisions.{meaning};
ghost use Rattle.analysis.specs.ItemAt.{replace_at, replace_by_default};
ghost use Rattle.analysis.specs.Rules.{run_with};

use crate::analyze_scan_item;
use crate::decisions::check_decisions;
use crate::measure::{CellOutcome, cell_outcome, measure_cells};
use analysis::ItemAnalysis;
use analysis::singleton::Slot;
use base::{Refusal, TEXT_LIMIT};
use emoji::presentation::Presentation;
use item_scanner::next_item;
use policy::Policy;
use positions::TextCount;
use scanner::selectors::selectors_end;
use scanner::text_check::check_text;

// Writes a character's bytes. The caller has tested that there is room.
fn put_char(out: &mut [u8], at: usize, ch: u32) -> usize
    requires { (is_scalar ch ≡ true) × (at + length (encode ch) ≤ length out.old) }
    ensures { PutAt out.old at (encode ch) out.new result }
{
    match utf8_encoding::write_char(ch, out, at) {
        Ok(width) => at + width,
        Err(_) => at,
    }
}

// Writes a selector's bytes, if there is a selector. The caller has tested that there is room.
fn put_selector(out: &mut [u8], at: usize, selector: Option<Presentation>) -> usize
    requires { at + length (encode_all (map as_selector (run_with selector 1))) ≤ length out.old }
    ensures { PutAt out.old at (encode_all (map as_selector (run_with selector 1))) out.new result }
{
    match selector {
        Some(presentation) => put_char(out, at, presentation.as_selector()),
        None => at,
    }
}

// The decision at an index; the default if there is none.
fn decision_at(decisions: &[u8], i: usize, default: Presentation) -> Presentation
    ensures { result ≡ decide default (map meaning (drop i decisions.now)) }
{
    match decisions.get(i) {
        Some(0) => Presentation::Text,
        Some(_) => Presentation::Emoji,
        None => default,
    }
}

// The selector that a slot holds under the decisions from an index on, if it holds one.
fn selector_of(slot: Slot, decisions: &[u8], i: usize) -> Option<Presentation>
    ensures { run_with result 1 ≡ chosen slot (map meaning (drop i decisions.now)) }
{
    match slot {
        Slot::Bare => None,
        Slot::Fixed(presentation) => Some(presentation),
        Slot::Decided(default) => Some(decision_at(decisions, i, default)),
    }
}

// Writes a character and the selector that its slot holds under the decisions from an index on. The caller has tested that there is
// room.
fn put_cell(out: &mut [u8], at: usize, ch: u32, slot: Slot, decisions: &[u8], i: usize) -> usize
    requires { (is_scalar ch ≡ true) × (at + length (cell_bytes ch slot (map meaning (drop i decisions.now))) ≤ length out.old) }
    ensures { PutAt out.old at (cell_bytes ch slot (map meaning (drop i decisions.now))) out.new result }
{
    let selector = selector_of(slot, decisions, i);
    let after = put_char(out, at, ch);
    put_selector(out, after, selector)
}

// The number of decisions that a slot takes.
fn decisions_used(slot: Slot) -> usize
    ensures { result ≡ decisions_used slot }
{
    usize::from(matches!(slot, Slot::Decided(_)))
}

// Writes the cells of a slice with the selectors that the rules and the decisions give them. The caller has tested that there is
// room.
fn put_cells(text: &[u8], policy: Policy, decisions: &[u8], out: &mut [u8]) -> usize
    requires { length (encode_all (render policy (cells (chars text.now)) (map meaning decisions.now))) ≤ length out.old }
    ensures { PutAt out.old 0
        (encode_all (render policy (cells (chars text.now)) (map meaning decisions.now))) out.new result }
{
    let mut at = selectors_end(text, 0);
    let mut to = 0;
    let mut used = 0;
    loop {
        let packed = utf8::decode(text, at);
        if packed == 0 {
            return to;
        }
        let width = (packed % 8) as usize;
        let ch = packed / 8;
        let CellOutcome { outcome, end } = cell_outcome(text, at + width, ch, policy);
        let slot = outcome.slot;
        to = put_cell(out, to, ch, slot, decisions, used);
        used += decisions_used(slot);
        at = end;
    }
}

// Writes the cells of a slice at the front of the output, if there is room. It is for callers that have the bytes of an item.
pub fn write_cells(
    raw: &[u8],
    policy: Policy,
    decisions: &[u8],
    out: &mut [u8],
) -> Result<usize, Refusal>
    ensures { EndsAs answer_row
        (write_cells policy raw.now decisions.now out.old) result out.new }
{
    if TEXT_LIMIT < raw.len() {
        return Err(Refusal::TextTooLong);
    }
    let len = measure_cells(raw, policy).len;
    if out.len() < len {
        return Err(Refusal::OutputTooShort { wanted: len });
    }
    put_cells(raw, policy, decisions, out);
    Ok(len)
}

// Whether an item of the text starts at an offset. The items are read from the beginning of the text.
fn item_starts_at(text: &[u8], offset: usize) -> bool
    ensures { result ≡ starts_at offset (scan text.now) }
{
    let mut at = 0;
    while let Some(item) = next_item(text, at, TextCount { chars: 0, units: 0 }) {
        if offset <= at {
            return at == offset;
        }
        at = item.end;
    }
    false
}

// The analysis of the item of the text that starts at an offset, or the end if none does. Its characters and units are counted from the
// offset on.
fn analyze_starting_item(text: &[u8], offset: usize, policy: Policy) -> ItemAnalysis
    ensures { result ≡ starting_analysis policy text.now offset }
{
    if !item_starts_at(text, offset) {
        return ItemAnalysis::End;
    }
    analyze_scan_item(text, offset, TextCount { chars: 0, units: 0 }, policy)
}

// Writes the replacement of the finding that starts at an offset, under decisions.
pub fn canonical_replacement_with_decisions(
    text: &[u8],
    at: usize,
    policy: Policy,
    decisions: &[u8],
    out: &mut [u8],
) -> Result<usize, Refusal>
    ensures { EndsAs answer_row (replace_at policy text.now at decisions.now out.old) result
        out.new }
{
    check_text(text)?;
    let ItemAnalysis::NonCanonical(finding) = analyze_starting_item(text, at, policy) else {
        return Err(Refusal::NoFinding);
    };
    check_decisions(decisions, finding.counts.presentation_decisions)?;
    write_cells(&text[at..finding.end], policy, decisions, out)
}

// Writes the replacement of the finding that starts at an offset, with every decision at its default.
pub fn default_canonical_replacement(
    text: &[u8],
    at: usize,
    policy: Policy,
    out: &mut [u8],
) -> Result<usize, Refusal>
    ensures { EndsAs answer_row (replace_by_default policy text.now at out.old) result out.new }
{
    check_text(text)?;
    let ItemAnalysis::NonCanonical(finding) = analyze_starting_item(text, at, policy) else {
        return Err(Refusal::NoFinding);
    };
    write_cells(&text[at..finding.end], policy, &[], out)
}
