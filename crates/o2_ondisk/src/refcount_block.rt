// The blocks of a refcount tree.
ghost use Rattle.std.specs.Prelude.{◌≡◌, ◌≤◌, ℕ, length, slice_index};
ghost use Rattle.o2_ondisk.specs.Fields.{Fit, put_all, IsOutside};
ghost use Rattle.o2_ondisk.specs.RefcountBlocks.{refcount_block_of, refcount_block_numbers, refcount_block_fields};

use crate::number::{u16_at, u32_at, u64_at, wide16, wide32, wide64};
use crate::{Field, Layout, Signature, put_numbers};

/// Where the last field ends; the list begins at 0x80.
pub const REFCOUNT_BLOCK_SIZE: usize = 0x50;

/// The numbers of a refcount block.
pub const REFCOUNT_BLOCK: Layout<13> = Layout {
    fields: [
        Field { at: 0x0, width: 8 },
        Field { at: 0x8, width: 2 },
        Field { at: 0xa, width: 2 },
        Field { at: 0xc, width: 4 },
        Field { at: 0x10, width: 8 },
        Field { at: 0x18, width: 8 },
        Field { at: 0x28, width: 8 },
        Field { at: 0x30, width: 4 },
        Field { at: 0x34, width: 4 },
        Field { at: 0x38, width: 4 },
        Field { at: 0x3c, width: 4 },
        Field { at: 0x40, width: 4 },
        Field { at: 0x48, width: 8 },
    ],
};

/// The fields of `struct ocfs2_refcount_block` before its list, which begins at byte 0x80.
#[derive(Clone, Copy, Debug, PartialEq, Eq)]
pub struct RefcountBlock {
    pub signature: Signature,
    /// The slot of the suballocator that the block is from.
    pub suballoc_slot: u16,
    /// The block's bit in its group of that suballocator.
    pub suballoc_bit: u16,
    pub fs_generation: u32,
    /// The block that this one is.
    pub blkno: u64,
    /// The block of the tree's root, 0 in the root.
    pub parent: u64,
    /// The last leaf of the list of leaves, with TREE.
    pub last_eb_blk: u64,
    /// In the root, how many inodes have the tree.
    pub count: u32,
    /// LEAF is 1, TREE is 2.
    pub flags: u32,
    pub clusters: u32,
    pub cpos: u32,
    pub generation: u32,
    /// The block of the group that the block is from.
    pub suballoc_loc: u64,
}

/// The fields of a refcount block. `block` begins where it does.
pub fn read_refcount_block(block: &[u8]) -> RefcountBlock
    requires { REFCOUNT_BLOCK_SIZE ≤ length block.now }
    ensures { result ≡ refcount_block_of block.now }
{
    RefcountBlock {
        signature: Signature(u64_at(block, 0x0)),
        suballoc_slot: u16_at(block, 0x8),
        suballoc_bit: u16_at(block, 0xa),
        fs_generation: u32_at(block, 0xc),
        blkno: u64_at(block, 0x10),
        parent: u64_at(block, 0x18),
        last_eb_blk: u64_at(block, 0x28),
        count: u32_at(block, 0x30),
        flags: u32_at(block, 0x34),
        clusters: u32_at(block, 0x38),
        cpos: u32_at(block, 0x3c),
        generation: u32_at(block, 0x40),
        suballoc_loc: u64_at(block, 0x48),
    }
}

fn refcount_block_values(x: &RefcountBlock) -> [u64; 13]
    ensures values { result ≡ refcount_block_numbers x.now }
    ensures fit { Fit REFCOUNT_BLOCK.fields (refcount_block_numbers x.now) }
{
    [
        wide64(x.signature.0),
        wide16(x.suballoc_slot),
        wide16(x.suballoc_bit),
        wide32(x.fs_generation),
        wide64(x.blkno),
        wide64(x.parent),
        wide64(x.last_eb_blk),
        wide32(x.count),
        wide32(x.flags),
        wide32(x.clusters),
        wide32(x.cpos),
        wide32(x.generation),
        wide64(x.suballoc_loc),
    ]
}

/// Puts the fields of a refcount block. `block` begins where it does.
pub fn write_refcount_block(block: &mut [u8], x: &RefcountBlock)
    requires { REFCOUNT_BLOCK_SIZE ≤ length block.old }
    ensures put { block.new ≡ put_all refcount_block_fields (refcount_block_numbers x.now) block.old }
    // A read gives them back.
    ensures back { refcount_block_of block.new ≡ x.now }
    // A byte outside all fields stays, within the structure and past it.
    ensures alone { (i : ℕ) → IsOutside refcount_block_fields i → slice_index block.new i ≡ slice_index block.old i }
{
    put_numbers(block, &REFCOUNT_BLOCK.fields, &refcount_block_values(x));
}
