// Compares the findings of a text with a line. The proved analysis gives the counts, the choices and the replacements
// of the text's items.
use crate::fault::{Fault, check};
use crate::line::Line;
use analysis::ItemAnalysis;
use analysis::types::{Finding, NonCanonicality};
use base::Refusal;
use emoji::presentation::Presentation;
use policy::Policy;
use positions::TextCount;
use replacing::analyze_scan_item;
use replacing::choice::{choice_replacement, next_choice};
use replacing::render::{canonical_replacement_with_decisions, default_canonical_replacement};

// The length of the buffer for a replacement. The calls that write one are lent a buffer.
const ROOM: usize = 2048;

// Lists of decisions: all text, all emoji, emoji and text in turn. A call uses the first decisions of a list.
const ALL_TEXT: [u8; 8] = [0; 8];

const ALL_EMOJI: [u8; 8] = [1; 8];

const BY_TURNS: [u8; 8] = [1, 0, 1, 0, 1, 0, 1, 0];

// A line and a text with a policy.
#[derive(Drop)]
struct Findings<'a> {
    line: Line<'a>,
    text: &'a [u8],
    policy: Policy,
}

impl Findings<'_> {
    // Reads a count after its letter, or nothing if it is 0.
    fn count(&mut self, letter: u8, n: usize) -> Result<(), Fault> {
        if n == 0 {
            return Ok(());
        }
        self.line.mark(letter)?;
        self.line.same_number(n)
    }

    // Reads the eight counts.
    fn counts(&mut self, counts: NonCanonicality) -> Result<(), Fault> {
        self.count(b'u', counts.unsanctioned_selectors)?;
        self.count(b'm', counts.modifier_defective_selectors)?;
        self.count(b'a', counts.additional_defective_selectors)?;
        self.count(b'c', counts.tag_conflicting_selectors)?;
        self.count(b'f', counts.tag_forced_presentations)?;
        self.count(b'r', counts.tag_redundant_selectors)?;
        self.count(b'p', counts.policy_redundant_selectors)?;
        self.count(b'd', counts.presentation_decisions)
    }

    // Reads a replacement after a sign. `write` writes it at the front of a buffer.
    fn written<F: FnOnce(&mut [u8]) -> Result<usize, Refusal>>(
        &mut self,
        sign: u8,
        write: F,
    ) -> Result<(), Fault>
        requires { F.IsAlwaysCallable write }
    {
        let mut bytes = [0u8; ROOM];
        let Ok(len) = write(&mut bytes) else {
            return Err(Fault::Differs);
        };
        let replacement = bytes.get(..len).ok_or(Fault::Differs)?;
        self.line.mark(sign)?;
        self.line.same_bytes(replacement)
    }

    // Reads the replacement of the unit at an offset of an item's bytes, for a decision.
    fn chosen(&mut self, raw: &[u8], at: usize, decision: Presentation) -> Result<(), Fault> {
        let policy = self.policy;
        self.written(
            b'+',
            |out| choice_replacement(raw, at, policy, decision, out),
        )
    }

    // Reads the choices of an item's bytes: for each its default and its two replacements. Each choice has at least one
    // byte.
    fn choices(&mut self, raw: &[u8]) -> Result<(), Fault> {
        let mut at = 0;
        for _ in raw {
            match next_choice(raw, at, self.policy) {
                Some(choice) => {
                    self.line.same_selector(choice.default)?;
                    self.chosen(raw, choice.start, Presentation::Text)?;
                    self.chosen(raw, choice.start, Presentation::Emoji)?;
                    at = choice.next;
                }
                None => break,
            }
        }
        Ok(())
    }

    // Reads the replacement of the finding at an offset, with the default for every decision.
    fn by_default(&mut self, at: usize) -> Result<(), Fault> {
        let text = self.text;
        let policy = self.policy;
        self.written(
            b'=',
            |out| default_canonical_replacement(text, at, policy, out),
        )
    }

    // Reads the replacement of the finding at an offset, with the first n decisions of a list.
    fn decided(&mut self, at: usize, list: &[u8], n: usize) -> Result<(), Fault> {
        let text = self.text;
        let policy = self.policy;
        let decisions = list.get(..n).ok_or(Fault::Differs)?;
        self.written(b'=', |out| {
            canonical_replacement_with_decisions(text, at, policy, decisions, out)
        })
    }

    // Reads the replacements of the finding at an offset, which has n decisions.
    fn replacements(&mut self, at: usize, n: usize) -> Result<(), Fault> {
        self.by_default(at)?;
        if n > 0 {
            self.decided(at, &ALL_TEXT, n)?;
            self.decided(at, &ALL_EMOJI, n)?;
        }
        if n > 1 {
            self.decided(at, &BY_TURNS, n)?;
        }
        Ok(())
    }

    // Reads a finding after a blank.
    fn finding(&mut self, finding: Finding) -> Result<(), Fault> {
        let raw = self
            .text
            .get(finding.start..finding.end)
            .ok_or(Fault::Differs)?;
        self.line.mark(b' ')?;
        self.line.same_span(finding.start, finding.end)?;
        self.line.mark(b':')?;
        self.counts(finding.counts)?;
        self.line.mark(b':')?;
        self.choices(raw)?;
        self.replacements(finding.start, finding.counts.presentation_decisions)
    }

    // Reads the findings of the text. The line has no characters or units. Each item has at least one byte.
    fn findings(&mut self) -> Result<(), Fault> {
        let mut at = 0;
        for _ in self.text {
            match analyze_scan_item(self.text, at, TextCount { chars: 0, units: 0 }, self.policy) {
                ItemAnalysis::End => break,
                ItemAnalysis::Canonical {
                    end,
                    char_end: _,
                    unit_end: _,
                } => at = end,
                ItemAnalysis::NonCanonical(finding) => {
                    self.finding(finding)?;
                    at = finding.end;
                }
            }
        }
        check(self.text.len() <= at)
    }
}

// Compares the findings of the text with those of the line.
pub(crate) fn findings_agree(line: Line<'_>, text: &[u8], policy: Policy) -> Result<(), Fault> {
    let mut findings = Findings { line, text, policy };
    findings.findings()?;
    findings.line.same_end()
}
