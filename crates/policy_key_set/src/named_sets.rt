// The words of the named sets of Unicode 15.0. Variation entry i is bit i % 64 of word i / 64.
// tools/unicode_tables.py makes this file.
pub const CHARSET_WORDS: usize = 6;

// Every entry: 354 entries.
pub const ALL_BITS: [u64; CHARSET_WORDS] = [
    0xFFFFFFFFFFFFFFFF,
    0xFFFFFFFFFFFFFFFF,
    0xFFFFFFFFFFFFFFFF,
    0xFFFFFFFFFFFFFFFF,
    0xFFFFFFFFFFFFFFFF,
    0x00000003FFFFFFFF,
];

// The entries below 80: 12 entries.
pub const ASCII_BITS: [u64; CHARSET_WORDS] = [
    0x0000000000000FFF,
    0x0000000000000000,
    0x0000000000000000,
    0x0000000000000000,
    0x0000000000000000,
    0x0000000000000000,
];

// The entries that default to text presentation: 219 entries.
pub const TEXT_DEFAULT_BITS: [u64; CHARSET_WORDS] = [
    0xF9FCFFDF33FFFFFF,
    0xA6BC32FF5FE001FF,
    0xBFF827DE1FE7FFF3,
    0x0000061CFFFF00FE,
    0xFFFFFF8000006100,
    0x00000003FFE003FF,
];

// The entries that default to emoji presentation: 135 entries.
pub const EMOJI_DEFAULT_BITS: [u64; CHARSET_WORDS] = [
    0x06030020CC000000,
    0x5943CD00A01FFE00,
    0x4007D821E018000C,
    0xFFFFF9E30000FF01,
    0x0000007FFFFF9EFF,
    0x00000000001FFC00,
];

// The characters #, * and the digits: 12 entries.
pub const KEYCAP_RGI_BITS: [u64; CHARSET_WORDS] = [
    0x0000000000000FFF,
    0x0000000000000000,
    0x0000000000000000,
    0x0000000000000000,
    0x0000000000000000,
    0x0000000000000000,
];
