// The words of the one set of the default policy that has no name of its own, for the tables of Unicode 15.0.
// tools/unicode_tables.py makes this file.
use policy_key_set::named_sets::CHARSET_WORDS;

// `prefer_bare`, ordinary: ASCII and the emoji defaults: 147 entries.
pub const PREFER_BARE_BITS: [u64; CHARSET_WORDS] = [
    0x06030020CC000FFF,
    0x5943CD00A01FFE00,
    0x4007D821E018000C,
    0xFFFFF9E30000FF01,
    0x0000007FFFFF9EFF,
    0x00000000001FFC00,
];
