// The findings around a stretch of bytes, and the finding nearest to an offset (document 02, ix). The crate evfmt has neither call.
// `around::findings_around` equals `list_around` of specs/Around.antt, and `nearest::nearest_finding` equals `give_nearest` of
// specs/Nearest.antt.
#![tactic(auto)]

pub mod around;
pub mod nearest;
mod rows;

use base::Refusal;

// How many findings a listing around a stretch has in each table: those wholly inside the stretch, and those that share a byte with it.
#[derive(Clone, Copy, Debug, PartialEq, Eq)]
pub struct ListedAround {
    pub inside: usize,
    pub sharing: usize,
}
