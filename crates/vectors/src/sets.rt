// Key sets with their sizes, as the files have them, and their comparison word by word.
use policy::Policy;
use policy_key_set::PolicyKeySet;
use policy_key_set::char_set::CharSet;

// The sizes of the two character sets of a key set.
#[derive(Clone, Copy, Debug, PartialEq, Eq)]
pub struct Sizes {
    pub ordinary: u64,
    pub keycap: u64,
}

// A key set of a line.
#[derive(Clone, Copy)]
pub struct StoredSet {
    pub keys: PolicyKeySet,
    pub sizes: Sizes,
}

// Tests whether two key sets have the same words. `PolicyKeySet::eq` passes over the unused bits.
fn same_keys(a: PolicyKeySet, b: PolicyKeySet) -> bool {
    a.chars.bits == b.chars.bits && a.keycap_chars.bits == b.keycap_chars.bits
}

// Tests whether two policies have the same words.
pub(crate) fn same_policy(a: Policy, b: Policy) -> bool {
    same_keys(a.prefer_bare, b.prefer_bare) && same_keys(a.bare_as_text, b.bare_as_text)
}

// Tests whether a key set and its two character sets have these sizes.
pub(crate) fn has_sizes(set: PolicyKeySet, sizes: Sizes) -> bool {
    let ordinary = CharSet::size(set.chars);
    let keycap = CharSet::size(set.keycap_chars);
    u64::from(ordinary) == sizes.ordinary
        && u64::from(keycap) == sizes.keycap
        && PolicyKeySet::size(set) == ordinary + keycap
}

// Tests whether a key set has the words and the sizes of a line.
pub(crate) fn is_stored(set: PolicyKeySet, stored: StoredSet) -> bool {
    same_keys(set, stored.keys) && has_sizes(set, stored.sizes)
}
