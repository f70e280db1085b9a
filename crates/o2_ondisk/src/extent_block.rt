// The block that an extent list below another one is in.
ghost use Rattle.std.specs.Prelude.{◌≡◌, ◌≤◌, ℕ, length, slice_index};
ghost use Rattle.o2_ondisk.specs.Fields.{Fit, put_all, IsOutside};
ghost use Rattle.o2_ondisk.specs.ExtentBlocks.{extent_block_of, extent_block_numbers, extent_block_fields};

use crate::number::{u16_at, u32_at, u64_at, wide16, wide32, wide64};
use crate::{Field, Layout, Signature, put_numbers};

/// Where the last field ends, and the list begins.
pub const EXTENT_BLOCK_SIZE: usize = 0x30;

/// The numbers of an extent block.
pub const EXTENT_BLOCK: Layout<7> = Layout {
    fields: [
        Field { at: 0x0, width: 8 },
        Field { at: 0x10, width: 2 },
        Field { at: 0x12, width: 2 },
        Field { at: 0x14, width: 4 },
        Field { at: 0x18, width: 8 },
        Field { at: 0x20, width: 8 },
        Field { at: 0x28, width: 8 },
    ],
};

/// The fields of `struct ocfs2_extent_block` before its list.
#[derive(Clone, Copy, Debug, PartialEq, Eq)]
pub struct ExtentBlock {
    pub signature: Signature,
    /// The slot of the suballocator that the block is from.
    pub suballoc_slot: u16,
    /// The block's bit in its group of that suballocator.
    pub suballoc_bit: u16,
    pub fs_generation: u32,
    /// The block that this one is.
    pub blkno: u64,
    /// The block of the group that the block is from.
    pub suballoc_loc: u64,
    /// The next leaf block of the same tree, or 0.
    pub next_leaf_blk: u64,
}

/// An extent block's fields.
pub fn read_extent_block(block: &[u8]) -> ExtentBlock
    requires { EXTENT_BLOCK_SIZE ≤ length block.now }
    ensures { result ≡ extent_block_of block.now }
{
    ExtentBlock {
        signature: Signature(u64_at(block, 0x0)),
        suballoc_slot: u16_at(block, 0x10),
        suballoc_bit: u16_at(block, 0x12),
        fs_generation: u32_at(block, 0x14),
        blkno: u64_at(block, 0x18),
        suballoc_loc: u64_at(block, 0x20),
        next_leaf_blk: u64_at(block, 0x28),
    }
}

fn extent_block_values(x: &ExtentBlock) -> [u64; 7]
    ensures values { result ≡ extent_block_numbers x.now }
    ensures fit { Fit EXTENT_BLOCK.fields (extent_block_numbers x.now) }
{
    [
        wide64(x.signature.0),
        wide16(x.suballoc_slot),
        wide16(x.suballoc_bit),
        wide32(x.fs_generation),
        wide64(x.blkno),
        wide64(x.suballoc_loc),
        wide64(x.next_leaf_blk),
    ]
}

/// Puts an extent block's fields.
pub fn write_extent_block(block: &mut [u8], x: &ExtentBlock)
    requires { EXTENT_BLOCK_SIZE ≤ length block.old }
    ensures put { block.new ≡ put_all extent_block_fields (extent_block_numbers x.now) block.old }
    // A read gives them back.
    ensures back { extent_block_of block.new ≡ x.now }
    // A byte outside all fields stays, within the structure and past it.
    ensures alone { (i : ℕ) → IsOutside extent_block_fields i → slice_index block.new i ≡ slice_index block.old i }
{
    put_numbers(block, &EXTENT_BLOCK.fields, &extent_block_values(x));
}
