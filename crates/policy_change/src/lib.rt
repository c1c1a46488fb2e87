// A feed whose policy may change between two pieces (document 02, xii): its bytes and the test of them. The crate evfmt has no such type.
// `is_changing` equals the definition of its name (specs/Bytes.antt). The calls on these bytes are defined there too, and the theorem on
// every list of them is EveryChangingFeed (specs/Theorems.antt).
#![tactic(auto)]

ghost use Rattle.std.specs.Prelude.{◌≡◌};
ghost use Rattle.policy_change.specs.Bytes.{is_changing};

use feed::{FEED_BYTES, is_feed};
use policy::policy_bytes::is_policy;

// The number of bytes of such a feed, and the offset of the policy in force.
pub const CHANGING_BYTES: usize = 528;

pub const POLICY_AT: usize = 328;

// Tests whether bytes are such a feed.
pub fn is_changing(feed: &[u8]) -> bool
    ensures { result ≡ is_changing feed.now }
{
    if feed.len() != CHANGING_BYTES {
        return false;
    }
    if !is_feed(&feed[0..FEED_BYTES]) {
        return false;
    }
    if base::read_word(feed, FEED_BYTES) == 0 {
        return true;
    }
    is_policy(&feed[POLICY_AT..])
}
