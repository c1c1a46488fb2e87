// Answers as words of 64 bits. Each function gives `word` (specs/AnswerWord.antt) of the row of its answer.
ghost use Rattle.std.specs.Prelude.{◌≡◌, ◌≤◌};
ghost use Rattle.base.specs.Refusals.{refusal_row};
ghost use Rattle.base.specs.Answers.{two_values, answer_row, found_row, optional_row};
ghost use Rattle.findings_near.specs.Around.{around_row};
ghost use Rattle.repair.specs.Repair.{repair_row};
ghost use Rattle.tilghorz.specs.AnswerWord.{capped_row, word};

use base::Refusal;
use findings_near::ListedAround;
use repair::Repaired;

// One more than the largest value of a word: values have 56 bits.
const VALUES: u64 = 0x100_0000_0000_0000;

// One more than the largest of two values in a word: each of the two has 28 bits.
const HALF_VALUES: u64 = 0x1000_0000;

// The largest value of a word.
const MOST_VALUE: usize = 0xFF_FFFF_FFFF_FFFF;

// The number of an answer that says "nothing to do": the text needs no change, or there is no such entry, no finding or no cut.
const NOTHING: u64 = 255;

// The word of a number and a value.
fn word_of(number: u64, value: usize) -> u64
    requires { number ≤ 255 }
    ensures { result ≡ word (record { number = number; value = value }) }
{
    number * VALUES + value as u64 % VALUES
}

// The word of an answer that is done with two values.
fn word_of_two(first: usize, second: usize) -> u64
    ensures { result ≡ word (record { number = 0; value = two_values first second }) }
{
    (first as u64 % VALUES + second as u64 % HALF_VALUES * HALF_VALUES) % VALUES
}

// The word of a refusal.
fn refusal_word(refusal: Refusal) -> u64
    ensures { result ≡ word (refusal_row refusal) }
{
    word_of(refusal.number(), refusal.value().unwrap_or(0))
}

// The word of a call that returns a number.
#[tactic(auto, unfolding(base::specs::Answers::answer_row))]
pub fn answer_word(answer: Result<usize, Refusal>) -> u64
    ensures { result ≡ word (answer_row answer) }
{
    match answer {
        Ok(n) => word_of(0, n),
        Err(refusal) => refusal_word(refusal),
    }
}

// The word of a call that may have nothing to do or to return.
#[tactic(auto, unfolding(base::specs::Answers::optional_row))]
pub fn optional_word(answer: Result<Option<usize>, Refusal>) -> u64
    ensures { result ≡ word (optional_row answer) }
{
    match answer {
        Ok(found) => found_word(found),
        Err(refusal) => refusal_word(refusal),
    }
}

// The word of a call that finds a number, or nothing.
#[tactic(auto, unfolding(base::specs::Answers::found_row))]
pub fn found_word(found: Option<usize>) -> u64
    ensures { result ≡ word (found_row found) }
{
    match found {
        Some(n) => word_of(0, n),
        None => word_of(NOTHING, 0),
    }
}

// The word of the answer of `repair`.
#[tactic(auto, unfolding(repair::specs::Repair::repair_row))]
pub fn repair_word(answer: Result<Repaired, Refusal>) -> u64
    ensures { result ≡ word (repair_row answer) }
{
    match answer {
        Ok(Repaired { len, replaced }) => word_of_two(len, replaced),
        Err(refusal) => refusal_word(refusal),
    }
}

// The word of the answer around a stretch.
#[tactic(auto, unfolding(findings_near::specs::Around::around_row))]
pub fn around_word(answer: Result<ListedAround, Refusal>) -> u64
    ensures { result ≡ word (around_row answer) }
{
    match answer {
        Ok(ListedAround { inside, sharing }) => word_of_two(inside, sharing),
        Err(refusal) => refusal_word(refusal),
    }
}

// The word of a number and a value. A value above the largest becomes the largest.
fn capped_word(number: u64, value: usize) -> u64
    requires { number ≤ 255 }
    ensures { result ≡ word (capped_row (record { number = number; value = value })) }
{
    if MOST_VALUE < value {
        return word_of(number, MOST_VALUE);
    }
    word_of(number, value)
}

// The word of the answer of a store's call.
#[tactic(auto, unfolding(base::specs::Answers::answer_row))]
pub fn store_word(answer: Result<usize, Refusal>) -> u64
    ensures { result ≡ word (capped_row (answer_row answer)) }
{
    match answer {
        Ok(bytes) => capped_word(0, bytes),
        Err(refusal) => capped_word(refusal.number(), refusal.value().unwrap_or(0)),
    }
}
