// A piece for a feed whose policy may change: document 02, (iii) and (xii). `piece` equals `called_on` (crate policy_change,
// specs/Bytes.antt), for any bytes. If the policy has changed since the held base was fed, the earlier policy judges this base, and the
// policy in force judges every character of the piece. Selectors at the front of the piece belong to the held base. The first other
// character settles it. Then the policy in force takes the place of the earlier one, and the feed is one without a change.
ghost use Rattle.std.specs.Prelude.{◌≡◌, cond, true, false, ◌+◌, ◌/◌, ◌≤◌, ◌<◌, drop, length};
ghost use Rattle.std.proofs.lemmas.List.Edits.{sets};
ghost use Rattle.base.specs.Refusals.{text_limit};
ghost use Rattle.base.specs.Words.{word_bytes};
ghost use Rattle.utf8.specs.Rfc3629.{chars, encode_all, is_scalar, valid_up_to_of};
ghost use Rattle.emoji.specs.Presentation.{from_selector};
ghost use Rattle.policy.specs.PolicyBytes.{policy_of};
ghost use Rattle.analysis.specs.CellView.{total_cells};
ghost use Rattle.analysis.specs.Counts.{total};
ghost use Rattle.feed.specs.Bytes.{EndsCalled, pending_of};
ghost use Rattle.feed.specs.Feed.{fed_as, settle, take_chars};
ghost use Rattle.policy_change.specs.Bytes.{called_on, is_changed, is_changing, only_selectors};
ghost use Rattle.policy_change.specs.Calls as Calls;
ghost use Rattle.feeding.specs.Helpers.{TakenBy};
ghost use Rattle.feeding.specs.Later.{HeldSettled, TakenLater};
ghost use Rattle.feeding.specs.Parts.{ScanFits, char_of, scanned_chars};

use crate::scan::{PieceScan, scan_piece};
use crate::{
    END_ROOM, Taken, kept_held, left_after, new_held, open_state, put_held, put_state, take_first,
    take_other, take_rest, take_selectors,
};
use analysis::types::NonCanonicality;
use base::{Refusal, TEXT_LIMIT};
use emoji::presentation::Presentation;
use feed::{FEED_BYTES, Held, STATE_BYTES, read_state};
use policy_change::{CHANGING_BYTES, POLICY_AT, is_changing};
use scanner::char_class::{Class, class_of};

// The characters of a piece that were taken, and whether one of them settled the held base.
#[derive(Clone, Copy)]
pub(crate) struct Later {
    pub(crate) settled: bool,
    pub(crate) taken: Taken,
}

// Tests whether the completed character, given as one number, is there and is no selector.
fn is_other(first: u32) -> bool
    ensures other { result ≡ true → (first ≡ 0 → ⊥) × (from_selector (first / 8) ≡ None) }
    ensures selectors { result ≡ false → only_selectors (char_of first) ≡ true }
{
    if first == 0 {
        return false;
    }
    match Presentation::from_selector(first / 8) {
        Some(_) => false,
        None => true,
    }
}

// Writes the held base at the front, before a character of the class. Nothing is held after it.
fn settle_held(
    policy: &[u8],
    held: Held,
    counts: NonCanonicality,
    next: Class,
    out: &mut [u8],
) -> Taken
    requires { (is_scalar held.base ≡ true) × (total counts + held.count ≤ 1000000000000)
        × (length (encode_all (settle (pending_of (policy_of policy.now) held) next).text) ≤ length out.old) }
    ensures { HeldSettled (pending_of (policy_of policy.now) held) next counts out.old out.new result }
{
    let settled = put_held(policy, held, next, out, 0);
    let last = settled.counts;
    let counts = counts.add(last);
    let end = settled.end;
    let held = new_held(0);
    Taken { held, end, counts }
}

// Takes the characters of a piece from an offset on: selectors, and the rest.
fn take_after(
    policy: &[u8],
    taken: Taken,
    piece: &[u8],
    from: usize,
    end: usize,
    plain: bool,
    out: &mut [u8],
) -> Taken
    requires { (is_scalar taken.held.base ≡ true) × (total taken.counts + taken.held.count ≤ 300000000)
        × (length piece.now ≤ text_limit) × (from ≤ length piece.now) × (end ≡ from + valid_up_to_of (drop from piece.now))
        × (plain ≡ true → total (total_cells (policy_of policy.now) (chars (drop from piece.now))) ≡ 0)
        × (taken.end + length (encode_all (take_chars (pending_of (policy_of policy.now) taken.held)
        (fed_as (policy_of policy.now) (chars (drop from piece.now)))).1.text) ≤ length out.old) }
    ensures { TakenBy (policy_of policy.now) taken.held taken.counts
        (fed_as (policy_of policy.now) (chars (drop from piece.now))) out.old taken.end
        out.new result }
{
    let front = take_selectors(taken, piece, from);
    let at = front.at;
    let taken = front.taken;
    if end <= at {
        return taken;
    }
    take_rest(policy, taken, piece, at, end, plain, out)
}

// Takes every character of a piece whose completed character is no selector.
fn take_settling(
    earlier: &[u8],
    policy: &[u8],
    held: Held,
    counts: NonCanonicality,
    scan: PieceScan,
    piece: &[u8],
    out: &mut [u8],
) -> Later
    requires { (is_scalar held.base ≡ true) × (length piece.now ≤ text_limit) × (total counts + held.count ≤ 160000000)
        × ScanFits (policy_of policy.now) piece.now scan
        × (scan.first ≡ 0 → ⊥) × (from_selector (scan.first / 8) ≡ None)
        × (length (encode_all (take_chars (pending_of (policy_of earlier.now) held)
        (fed_as (policy_of policy.now) (scanned_chars piece.now scan))).1.text) ≤ length out.old) }
    ensures { TakenLater (policy_of earlier.now) (policy_of policy.now) held counts
        (scanned_chars piece.now scan) out.old out.new result }
{
    let ch = scan.first / 8;
    let start = settle_held(earlier, held, counts, class_of(ch), out);
    let one = take_other(policy, start, ch, out);
    let taken = take_after(policy, one, piece, scan.from, scan.end, scan.plain, out);
    Later {
        settled: true,
        taken,
    }
}

// Takes every character of a piece, by what its tests found.
fn take_later(
    earlier: &[u8],
    policy: &[u8],
    held: Held,
    counts: NonCanonicality,
    scan: PieceScan,
    piece: &[u8],
    out: &mut [u8],
) -> Later
    requires { (is_scalar held.base ≡ true) × (length piece.now ≤ text_limit) × (total counts + held.count ≤ 160000000)
        × ScanFits (policy_of policy.now) piece.now scan
        × (length (encode_all (take_chars (pending_of (policy_of earlier.now) held)
        (fed_as (policy_of policy.now) (scanned_chars piece.now scan))).1.text) ≤ length out.old) }
    ensures { TakenLater (policy_of earlier.now) (policy_of policy.now) held counts
        (scanned_chars piece.now scan) out.old out.new result }
{
    if is_other(scan.first) {
        return take_settling(earlier, policy, held, counts, scan, piece, out);
    }
    let first = take_first(earlier, held, counts, scan.first, out);
    let front = take_selectors(first, piece, scan.from);
    let at = front.at;
    let taken = front.taken;
    if scan.end <= at {
        return Later {
            settled: false,
            taken,
        };
    }
    let class = class_of(utf8::decode(piece, at) / 8);
    let base = taken.held;
    let sums = taken.counts;
    let start = settle_held(earlier, base, sums, class, out);
    let rest = take_rest(policy, start, piece, at, scan.end, scan.plain, out);
    Later {
        settled: true,
        taken: rest,
    }
}

// If the held base is settled, the policy in force takes the place of the earlier one.
fn adopt_policy(feed: &mut [u8], settled: bool) -> bool
    requires { length feed.old ≡ 528 }
    ensures { feed.new ≡ cond settled (sets (sets feed.old 120 (drop 328 feed.old)) 320 (word_bytes 0))
        feed.old }
{
    if !settled {
        return false;
    }
    let mut policy: [u8; 200] = [0; 200];
    base::write_bytes(&mut policy, 0, &feed[POLICY_AT..]);
    base::write_bytes(feed, STATE_BYTES, &policy);
    base::write_word(feed, FEED_BYTES, 0);
    true
}

// Takes a piece, for a feed whose policy has changed since its held base was fed. `is_changing` implies the length. It is named so that the
// prover finds it.
fn piece_after_change(feed: &mut [u8], piece: &[u8], out: &mut [u8]) -> Result<usize, Refusal>
    requires { (length feed.old ≡ 528) × (is_changing feed.old ≡ true) × (is_changed feed.old ≡ true) }
    ensures { EndsCalled (called_on feed.old (Calls.piece piece.now out.old)) result feed.new
        out.new }
{
    let state = read_state(feed);
    if state.ended {
        return Err(Refusal::FeedEnded);
    }
    let len = state.len;
    if TEXT_LIMIT - len < piece.len() {
        return Err(Refusal::TextTooLong);
    }
    let n = state.rest_len;
    let rest = state.rest;
    let scan = scan_piece(&feed[POLICY_AT..], n, rest, piece);
    let valid = scan.valid;
    let left = left_after(n, rest, piece, valid);
    if !left.good {
        let valid_up_to = len.saturating_sub(n) + valid;
        return Err(Refusal::NotWellFormed { valid_up_to });
    }
    let wanted = 4 * piece.len() + END_ROOM;
    if out.len() < wanted {
        return Err(Refusal::OutputTooShort { wanted });
    }
    let held = state.held;
    let counts = state.counts;
    let later = take_later(
        &feed[STATE_BYTES..FEED_BYTES],
        &feed[POLICY_AT..],
        held,
        counts,
        scan,
        piece,
        out,
    );
    let taken = later.taken;
    let last = taken.held;
    let sums = taken.counts;
    let kept = kept_held(last);
    put_state(
        feed,
        open_state(kept, left.len, left.bytes, len + piece.len(), sums),
    );
    adopt_policy(feed, later.settled);
    Ok(taken.end)
}

// Takes a piece, or refuses. If the policy has not changed since the held base was fed, the first 320 bytes are the whole feed.
pub fn piece(feed: &mut [u8], piece: &[u8], out: &mut [u8]) -> Result<usize, Refusal>
    ensures { EndsCalled (called_on feed.old (Calls.piece piece.now out.old)) result feed.new
        out.new }
{
    if feed.len() != CHANGING_BYTES {
        return Err(Refusal::FeedEnded);
    }
    if base::read_word(feed, FEED_BYTES) == 0 {
        return crate::piece(&mut feed[0..FEED_BYTES], piece, out);
    }
    if !is_changing(feed) {
        return Err(Refusal::FeedEnded);
    }
    piece_after_change(feed, piece, out)
}
