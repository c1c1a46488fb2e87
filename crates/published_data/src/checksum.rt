// The CRC-32 of a text, as in gzip and zip. Two texts that differ in one byte have different checksums. So a change in
// a comment, or in a property that no table has, is noticed too.

// Returns the remainder after one more bit, lowest bit first.
fn after_bit(crc: u32) -> u32 {
    if crc % 2 == 1 {
        (crc / 2) ^ 0xEDB8_8320
    } else {
        crc / 2
    }
}

// Returns the remainder after the byte b.
fn after_byte(crc: u32, b: u8) -> u32 {
    (0..8).fold(crc ^ u32::from(b), |crc, _| after_bit(crc))
}

// Returns the CRC-32 of the text.
pub(crate) fn crc_32(text: &[u8]) -> u32 {
    !text.iter().fold(u32::MAX, |crc, b| after_byte(crc, *b))
}
