// The calls of a feed whose policy may change: document 02, (iii) and (xii). `begin` equals `begun_changing`; `end` and `change` equal
// `called_on`; `totals` writes the eight counts of `changing_totals` (crate policy_change, specs/Bytes.antt), each for any bytes. The first
// 320 bytes are a feed of crate feed. The call for a piece is `feeding::later::piece`.
#![tactic(auto)]

ghost use Rattle.std.specs.Prelude.{◌≡◌, cond, [], ◌++◌, eqb, length, take};
ghost use Rattle.base.specs.Answers.{EndsAs, answer_row};
ghost use Rattle.base.specs.Output.{Wrote};
ghost use Rattle.base.specs.Words.{bytes_of, word_bytes};
ghost use Rattle.formatter.specs.List.{count_numbers};
ghost use Rattle.feed.specs.Bytes.{EndsCalled};
ghost use Rattle.policy_change.specs.Bytes.{begun_changing, called_on, changing_totals, feed_part};
ghost use Rattle.policy_change.specs.Calls as Calls;

use base::Refusal;
use feed::{FEED_BYTES, STATE_BYTES, read_state};
use policy::policy_bytes::{is_policy, policy_refusal};
use policy_change::{CHANGING_BYTES, POLICY_AT, is_changing};

// Begins a feed under a policy, or refuses.
pub fn begin(policy: &[u8], feed: &mut [u8]) -> Result<usize, Refusal>
    ensures { EndsAs answer_row (begun_changing policy.now feed.old) result feed.new }
{
    if !is_policy(policy) {
        return Err(policy_refusal(policy));
    }
    if feed.len() < CHANGING_BYTES {
        return Err(Refusal::OutputTooShort {
            wanted: CHANGING_BYTES,
        });
    }
    let _ = feeding::begin(policy, feed);
    base::write_word(feed, FEED_BYTES, 0);
    base::write_bytes(feed, POLICY_AT, policy);
    Ok(CHANGING_BYTES)
}

// Ends a feed, or refuses.
pub fn end(feed: &mut [u8], out: &mut [u8]) -> Result<usize, Refusal>
    ensures { EndsCalled (called_on feed.old (Calls.end out.old)) result feed.new out.new }
{
    if !is_changing(feed) {
        return Err(Refusal::FeedEnded);
    }
    feeding::end(&mut feed[0..FEED_BYTES], out)
}

// Writes the eight totals, or refuses. Bytes that are no feed have totals of 0.
pub fn totals(feed: &[u8], out: &mut [u8]) -> Result<usize, Refusal>
    ensures { Wrote (bytes_of (count_numbers (changing_totals feed.now))) out.old out.new result }
{
    if !is_changing(feed) {
        return feeding::totals(&feed[0..0], out);
    }
    feeding::totals(&feed[0..FEED_BYTES], out)
}

// Writes a policy as the one in force. If a base is held, the feed keeps the policy that judges it.
fn put_policy(feed: &mut [u8], policy: &[u8], base: u32)
    requires { (length feed.old ≡ 528) × (length policy.now ≡ 200) }
    ensures { feed.new ≡ cond (eqb base 0)
        (take 120 feed.old ++ (policy.now ++ (word_bytes 0 ++ policy.now)))
        (feed_part feed.old ++ (word_bytes 1 ++ policy.now)) }
{
    if base != 0 {
        base::write_word(feed, FEED_BYTES, 1);
        base::write_bytes(feed, POLICY_AT, policy);
        return;
    }
    base::write_bytes(feed, STATE_BYTES, policy);
    base::write_word(feed, FEED_BYTES, 0);
    base::write_bytes(feed, POLICY_AT, policy);
}

// Changes the policy, or refuses.
pub fn change(feed: &mut [u8], policy: &[u8]) -> Result<usize, Refusal>
    ensures { EndsCalled (called_on feed.old (Calls.change policy.now)) result feed.new [] }
{
    if !is_changing(feed) {
        return Err(Refusal::FeedEnded);
    }
    let state = read_state(feed);
    if state.ended {
        return Err(Refusal::FeedEnded);
    }
    if !is_policy(policy) {
        return Err(policy_refusal(policy));
    }
    put_policy(feed, policy, state.held.base);
    Ok(0)
}
