// The Adler-32 of a text, as in zlib (RFC 1950). Two texts that differ in one byte have different checksums. So a
// changed byte is noticed even if no answer changes.

const MODULUS: u32 = 65521;

// Returns the Adler-32 of the text: the sum of its bytes plus 1, and the sum of all these sums.
pub(crate) fn adler_32(text: &[u8]) -> u32 {
    let mut low: u32 = 1;
    let mut high: u32 = 0;
    for byte in text {
        low = (low + u32::from(*byte)) % MODULUS;
        high = (high + low) % MODULUS;
    }
    high * 65536 + low
}
