// How many characters and UTF-16 units stand between two byte offsets of a text (document 02, v). The Rust crate counts bytes alone.
// `count_between` equals `count_between` of specs/Positions.antt for all bytes and offsets. Between two character boundaries this is
// the difference of their positions: specs/Theorems.antt, PositionsDiffer.
#![tactic(auto)]

ghost use Rattle.std.specs.Prelude.{◌≡◌, ◌≤◌, length};
ghost use Rattle.positions.specs.Positions.{capped_plus, count_between, counted, is_lead, is_long_lead, leads, long_leads_of};

use base::add_count;

// A number of characters, and a number of UTF-16 units.
#[derive(Clone, Copy, Debug, PartialEq, Eq)]
pub struct TextCount {
    pub chars: usize,
    pub units: usize,
}

// The lead bytes of a few bytes, and those of four bytes.
#[derive(Clone, Copy, Debug, PartialEq, Eq)]
struct FewLeads {
    leads: u8,
    long_leads: u8,
}

// The greatest number of bytes that are counted with sums of 8 bits.
const FEW: usize = 192;

// 1 for a lead byte, which is outside 80..BF.
#[tactic(auto, unfolding(crate::specs::Positions::is_lead))]
fn is_lead(b: u8) -> u8
    ensures { result ≡ is_lead b }
{
    u8::from(!(0x80..=0xBF).contains(&b))
}

// 1 for the lead byte of four bytes.
#[tactic(auto, unfolding(crate::specs::Positions::is_long_lead))]
fn is_long_lead(b: u8) -> u8
    ensures { result ≡ is_long_lead b }
{
    u8::from(0xF0 <= b)
}

// The lead bytes of at most 192 bytes. No branch depends on a byte and the sums have 8 bits, so the compiler counts sixteen bytes at
// once.
fn count_few(part: &[u8]) -> FewLeads
    requires { length part.now ≤ 192 }
    ensures leads { result.leads ≡ leads part.now }
    ensures long { result.long_leads ≡ long_leads_of part.now }
{
    let mut leads: u8 = 0;
    let mut long: u8 = 0;
    for b in part {
        leads += is_lead(*b);
        long += is_long_lead(*b);
    }
    FewLeads {
        leads,
        long_leads: long,
    }
}

// The characters and units of bytes.
fn count(part: &[u8]) -> TextCount
    ensures { result ≡ counted part.now }
{
    let mut leads: usize = 0;
    let mut long: usize = 0;
    for bytes in part.chunks(FEW) {
        let few = count_few(bytes);
        leads += usize::from(few.leads);
        long += usize::from(few.long_leads);
    }
    TextCount {
        chars: leads,
        units: leads + long,
    }
}

// The characters and units from one offset up to another. Each byte between them is read once, and no other byte is read.
#[tactic(auto, using(crate::proofs::Counting::stretch_within), unfolding(crate::specs::Positions::count_between, crate::specs::Positions::stretch))]
pub fn count_between(text: &[u8], from: usize, to: usize) -> TextCount
    ensures { result ≡ count_between text.now from to }
{
    match text.get(from..to.min(text.len())) {
        Some(part) => count(part),
        None => TextCount { chars: 0, units: 0 },
    }
}

// Two counts together. A sum above the largest number becomes the largest number.
pub fn add_counts(before: TextCount, more: TextCount) -> TextCount
    ensures { result ≡ capped_plus before more }
{
    TextCount {
        chars: add_count(before.chars, more.chars),
        units: add_count(before.units, more.units),
    }
}
