// Decisions given as bytes, 0 text, 1 emoji, and their tests (document 01, "Replacement and text", refusals 5 and 6).
// `check_decisions` equals `decisions_refusal` of crate analysis, specs/Decisions.antt.
ghost use Rattle.std.specs.Prelude.{◌≡◌};
ghost use Rattle.base.specs.Answers.{Answers, check_row};
ghost use Rattle.base.specs.Refusals.{checked};
ghost use Rattle.analysis.specs.Decisions.{bad_decision, decisions_refusal};

use base::Refusal;

// Refuses the first decision byte above 1.
fn check_bytes(decisions: &[u8]) -> Result<(), Refusal>
    ensures { result ≡ checked (bad_decision 0 decisions.now) }
{
    match decisions.iter().position(|&decision| 1 < decision) {
        Some(index) => Err(Refusal::BadDecision { index }),
        None => Ok(()),
    }
}

// Tests decisions: there must be `wanted` of them, each 0 or 1.
pub fn check_decisions(decisions: &[u8], wanted: usize) -> Result<(), Refusal>
    ensures { Answers check_row (checked (decisions_refusal wanted decisions.now)) result }
{
    if decisions.len() != wanted {
        return Err(Refusal::WrongNumberOfDecisions { wanted });
    }
    check_bytes(decisions)
}
