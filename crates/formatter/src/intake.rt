// The three tests of a text and a policy that every call makes first (document 01, "Turned back", numbers 1, 2 and 3).
// `first_tests` makes the first two of them and equals `first_tests` of specs/Intake.antt. `intake` makes all three and equals
// `intake_refusal`. Formatting, listing and mending call `first_tests`, and make the third test during their pass over the text
// (src/lib.rt of the crates formatting, listing and mending). The tests of a text alone are in crates/scanner/src/text_check.rt.
ghost use Rattle.base.specs.Answers.{Answers, check_row};
ghost use Rattle.base.specs.Refusals.{checked};
ghost use Rattle.formatter.specs.Intake.{first_tests, intake_refusal};

use base::{Refusal, TEXT_LIMIT};
use policy::policy_bytes::{is_policy, policy_refusal};

// Tests the length of a text and the bytes of a policy, and gives the first refusal if there is one.
pub fn first_tests(text: &[u8], policy: &[u8]) -> Result<(), Refusal>
    ensures { Answers check_row (checked (first_tests text.now policy.now)) result }
{
    if TEXT_LIMIT < text.len() {
        return Err(Refusal::TextTooLong);
    }
    if !is_policy(policy) {
        return Err(policy_refusal(policy));
    }
    Ok(())
}

// Tests the bytes of a text and of a policy, and gives the first refusal if there is one.
pub fn intake(text: &[u8], policy: &[u8]) -> Result<(), Refusal>
    ensures { Answers check_row (checked (intake_refusal text.now policy.now)) result }
{
    first_tests(text, policy)?;
    let valid_up_to = utf8_validity::valid_up_to(text);
    if valid_up_to != text.len() {
        return Err(Refusal::NotWellFormed { valid_up_to });
    }
    Ok(())
}
