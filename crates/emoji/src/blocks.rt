// The emoji and the variation entries of Unicode 15.0 as bit sets: one `match` arm for each block of 64 code
// points. A `match` is compiled to a table in read-only memory, while reading a constant array copies the array. Each
// function equals the search in a list of specs/BlockData.antt. tools/unicode_tables.py makes this file.
ghost use Rattle.std.specs.Prelude.{◌≡◌};
ghost use Rattle.emoji.specs.Blocks.{block_in};
ghost use Rattle.emoji.specs.BlockData.{
  blocks,
  dense_blocks,
  low_blocks,
  middle_blocks,
};

// Bit j of `emoji` is 1 if character j of the block is emoji. Bit j of `entries` is 1 if character j is a variation
// entry. `rank` is the number of variation entries before the block.
#[derive(Clone, Copy)]
pub(crate) struct Block {
    pub(crate) emoji: u64,
    pub(crate) entries: u64,
    pub(crate) rank: u32,
}

// Returns one of the 2 blocks before the symbols.
fn low_block(k: u32) -> Block
    ensures { result ≡ block_in k low_blocks }
{
    match k {
        0x0 => Block {
            emoji: 0x03FF040800000000,
            entries: 0x03FF040800000000,
            rank: 0,
        },
        0x2 => Block {
            emoji: 0x0000420000000000,
            entries: 0x0000420000000000,
            rank: 12,
        },
        _ => Block {
            emoji: 0,
            entries: 0,
            rank: 0,
        },
    }
}

// Returns one of the 5 blocks between the symbols and the pictographs.
fn middle_block(k: u32) -> Block
    ensures { result ≡ block_in k middle_blocks }
{
    match k {
        0xA4 => Block {
            emoji: 0x0030000000000000,
            entries: 0x0030000000000000,
            rank: 152,
        },
        0xAC => Block {
            emoji: 0x00000000180000E0,
            entries: 0x00000000180000E0,
            rank: 154,
        },
        0xAD => Block {
            emoji: 0x0000000000210000,
            entries: 0x0000000000210000,
            rank: 159,
        },
        0xC0 => Block {
            emoji: 0x2001000000000000,
            entries: 0x2001000000000000,
            rank: 161,
        },
        0xCA => Block {
            emoji: 0x0000000002800000,
            entries: 0x0000000002800000,
            rank: 163,
        },
        _ => Block {
            emoji: 0,
            entries: 0,
            rank: 0,
        },
    }
}

// Returns one of the 47 blocks of the symbols, block k at k - 0x80, and of the pictographs, block k at k - 0x7A1.
fn dense_block(i: u32) -> Block
    ensures { result ≡ block_in i dense_blocks }
{
    match i {
        0x0 => Block {
            emoji: 0x1000000000000000,
            entries: 0x1000000000000000,
            rank: 14,
        },
        0x1 => Block {
            emoji: 0x0000000000000200,
            entries: 0x0000000000000200,
            rank: 15,
        },
        0x4 => Block {
            emoji: 0x0200000400000000,
            entries: 0x0200000400000000,
            rank: 16,
        },
        0x6 => Block {
            emoji: 0x0000060003F00000,
            entries: 0x0000060003F00000,
            rank: 18,
        },
        0xC => Block {
            emoji: 0x000001000C000000,
            entries: 0x000001000C000000,
            rank: 26,
        },
        0xF => Block {
            emoji: 0x070FFE0000008000,
            entries: 0x070EE60000008000,
            rank: 29,
        },
        0x13 => Block {
            emoji: 0x0000000000000004,
            entries: 0x0000000000000004,
            rank: 41,
        },
        0x16 => Block {
            emoji: 0x00400C0000000000,
            entries: 0x00400C0000000000,
            rank: 42,
        },
        0x17 => Block {
            emoji: 0x7800000000000001,
            entries: 0x7800000000000001,
            rank: 45,
        },
        0x18 => Block {
            emoji: 0x0700C44D2132401F,
            entries: 0x0700C44D2132401F,
            rank: 50,
        },
        0x19 => Block {
            emoji: 0xC8000169800FFF05,
            entries: 0xC8000169800FFF05,
            rank: 71,
        },
        0x1A => Block {
            emoji: 0x60030C831AFC0000,
            entries: 0x60030C831AFC0000,
            rank: 94,
        },
        0x1B => Block {
            emoji: 0x27BF0600001AC130,
            entries: 0x27BF0600001A8130,
            rank: 112,
        },
        0x1C => Block {
            emoji: 0x001801022054BF24,
            entries: 0x001800022054B304,
            rank: 132,
        },
        0x1D => Block {
            emoji: 0x0000001800B85090,
            entries: 0x0000001800880090,
            rank: 145,
        },
        0x1E => Block {
            emoji: 0x8001000200E00000,
            entries: 0x0000000200000000,
            rank: 151,
        },
        0x1F => Block {
            emoji: 0x0000000000000010,
            entries: 0x0000000000000010,
            rank: 165,
        },
        0x22 => Block {
            emoji: 0x0000000000008000,
            entries: 0x0000000000000000,
            rank: 166,
        },
        0x24 => Block {
            emoji: 0xC003000000000000,
            entries: 0xC003000000000000,
            rank: 166,
        },
        0x25 => Block {
            emoji: 0x0000000007FE4000,
            entries: 0x0000000000000000,
            rank: 170,
        },
        0x26 => Block {
            emoji: 0xFFFFFFC000000000,
            entries: 0x0000000000000000,
            rank: 170,
        },
        0x27 => Block {
            emoji: 0x07FC800004000006,
            entries: 0x0080800004000004,
            rank: 170,
        },
        0x28 => Block {
            emoji: 0x0000000000030000,
            entries: 0x0000000000000000,
            rank: 174,
        },
        0x2B => Block {
            emoji: 0xFFFFFFF3FFFFFFFF,
            entries: 0x00401FF21020E000,
            rank: 174,
        },
        0x2C => Block {
            emoji: 0xFFFFFFFFFFFFFFFF,
            entries: 0x2100000000000000,
            rank: 190,
        },
        0x2D => Block {
            emoji: 0xFFFFFFFFCECFFFFF,
            entries: 0x00007080CEC80000,
            rank: 192,
        },
        0x2E => Block {
            emoji: 0xFFB9FFFFFFFFFFFF,
            entries: 0x00A82001FFF07C54,
            rank: 204,
        },
        0x2F => Block {
            emoji: 0xFFFFFFFFFFFFFFFF,
            entries: 0x8000004080200100,
            rank: 229,
        },
        0x30 => Block {
            emoji: 0xFFFFFFFFFFFFFFFF,
            entries: 0x20000400000863C6,
            rank: 234,
        },
        0x31 => Block {
            emoji: 0xFFFFFFFFFFFFFFFF,
            entries: 0x8809000800000000,
            rank: 245,
        },
        0x32 => Block {
            emoji: 0xBFFFFFFFFFFFFFFF,
            entries: 0x2E803C7084000800,
            rank: 250,
        },
        0x33 => Block {
            emoji: 0x3FFFFFFFFFFFFFFF,
            entries: 0x00000000000C2100,
            rank: 265,
        },
        0x34 => Block {
            emoji: 0x07F980FFFFFF7E00,
            entries: 0x03F980FFFFFF0600,
            rank: 269,
        },
        0x35 => Block {
            emoji: 0x1006013000613C80,
            entries: 0x1006012000013C80,
            rank: 304,
        },
        0x36 => Block {
            emoji: 0xFC08810A700E001C,
            entries: 0x0408810A700E001C,
            rank: 315,
        },
        0x37 => Block {
            emoji: 0xFFFFFFFFFFFFFFFF,
            entries: 0x0000000000010000,
            rank: 330,
        },
        0x38 => Block {
            emoji: 0x000000000000FFFF,
            entries: 0x0000000000000000,
            rank: 331,
        },
        0x39 => Block {
            emoji: 0xFFFFFFFFFFFFFFFF,
            entries: 0x1604200001122080,
            rank: 331,
        },
        0x3A => Block {
            emoji: 0x1FF91A3FF0E7F83F,
            entries: 0x0009023F0000E800,
            rank: 341,
        },
        0x3E => Block {
            emoji: 0x00010FFF00000000,
            entries: 0x0000000000000000,
            rank: 354,
        },
        0x43 => Block {
            emoji: 0xF7FFFFFFFFFFF000,
            entries: 0x0000000000000000,
            rank: 354,
        },
        0x44 => Block {
            emoji: 0xFFFFFFFFFFFFFFBF,
            entries: 0x0000000000000000,
            rank: 354,
        },
        0x45 => Block {
            emoji: 0xFFFFFFFFFFFFFFFF,
            entries: 0x0000000000000000,
            rank: 354,
        },
        0x46 => Block {
            emoji: 0xFFFFFFFFFFFFFFFF,
            entries: 0x0000000000000000,
            rank: 354,
        },
        0x48 => Block {
            emoji: 0x1FFF000000000000,
            entries: 0x0000000000000000,
            rank: 354,
        },
        0x49 => Block {
            emoji: 0xBFFFFFFFFFFF01FF,
            entries: 0x0000000000000000,
            rank: 354,
        },
        0x4A => Block {
            emoji: 0x01FF01FF0FFFC03F,
            entries: 0x0000000000000000,
            rank: 354,
        },
        _ => Block {
            emoji: 0,
            entries: 0,
            rank: 0,
        },
    }
}

// Returns block k. The last `if` only chooses the number to subtract, so that the compiler makes no branch of it.
pub(crate) fn block_of(k: u32) -> Block
    ensures { result ≡ block_in k blocks }
{
    if k < 0x80 {
        return low_block(k);
    }
    let is_before_pictographs = k < 0x7C0;
    if is_before_pictographs {
        if 0x9E < k {
            return middle_block(k);
        }
    }
    let i = if is_before_pictographs {
        k - 0x80
    } else {
        k - 0x7A1
    };
    dense_block(i)
}
