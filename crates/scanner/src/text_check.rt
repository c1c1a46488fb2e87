// The tests of a text by calls that take a text and no policy (document 01, "Turned back", numbers 1 and 3).
// `check_text` equals `text_refusal` of specs/TextCheck.antt.
ghost use Rattle.base.specs.Answers.{Answers, check_row};
ghost use Rattle.base.specs.Refusals.{checked};
ghost use Rattle.scanner.specs.TextCheck.{text_refusal};

use base::{Refusal, TEXT_LIMIT};

// Tests a text: it passes both tests, or the answer is the first refusal.
pub fn check_text(text: &[u8]) -> Result<(), Refusal>
    ensures { Answers check_row (checked (text_refusal text.now)) result }
{
    if TEXT_LIMIT < text.len() {
        return Err(Refusal::TextTooLong);
    }
    let valid_up_to = utf8_validity::valid_up_to(text);
    if valid_up_to != text.len() {
        return Err(Refusal::NotWellFormed { valid_up_to });
    }
    Ok(())
}
