// The descriptor at the front of a group of an allocator.
ghost use Rattle.std.specs.Prelude.{◌≡◌, ◌≤◌, ℕ, length, slice_index};
ghost use Rattle.o2_ondisk.specs.Fields.{Fit, put_all, IsOutside};
ghost use Rattle.o2_ondisk.specs.GroupDescs.{group_desc_of, group_desc_numbers, group_desc_fields};

use crate::number::{u16_at, u32_at, u64_at, wide16, wide32, wide64};
use crate::{Field, Layout, Signature, put_numbers};

/// Where the last field ends; the bitmap begins at 0x40.
pub const GROUP_DESC_SIZE: usize = 0x30;

/// The numbers of a group descriptor.
pub const GROUP_DESC: Layout<9> = Layout {
    fields: [
        Field { at: 0x0, width: 8 },
        Field { at: 0x8, width: 2 },
        Field { at: 0xa, width: 2 },
        Field { at: 0xc, width: 2 },
        Field { at: 0xe, width: 2 },
        Field { at: 0x10, width: 4 },
        Field { at: 0x18, width: 8 },
        Field { at: 0x20, width: 8 },
        Field { at: 0x28, width: 8 },
    ],
};

/// The fields of `struct ocfs2_group_desc` before its bitmap, which begins at byte 0x40.
#[derive(Clone, Copy, Debug, PartialEq, Eq)]
pub struct GroupDesc {
    pub signature: Signature,
    /// The bytes of the bitmap.
    pub size: u16,
    /// The bits of the bitmap that stand for something.
    pub bits: u16,
    /// How many of them are clear.
    pub free_bits_count: u16,
    /// The number of the group's chain.
    pub chain: u16,
    pub generation: u32,
    /// The block of the next group of the chain, or 0.
    pub next_group: u64,
    /// The block of the allocator's dinode.
    pub parent_dinode: u64,
    /// The block that this one is.
    pub blkno: u64,
}

/// The fields of a group descriptor. `block` begins where it does.
pub fn read_group_desc(block: &[u8]) -> GroupDesc
    requires { GROUP_DESC_SIZE ≤ length block.now }
    ensures { result ≡ group_desc_of block.now }
{
    GroupDesc {
        signature: Signature(u64_at(block, 0x0)),
        size: u16_at(block, 0x8),
        bits: u16_at(block, 0xa),
        free_bits_count: u16_at(block, 0xc),
        chain: u16_at(block, 0xe),
        generation: u32_at(block, 0x10),
        next_group: u64_at(block, 0x18),
        parent_dinode: u64_at(block, 0x20),
        blkno: u64_at(block, 0x28),
    }
}

fn group_desc_values(x: &GroupDesc) -> [u64; 9]
    ensures values { result ≡ group_desc_numbers x.now }
    ensures fit { Fit GROUP_DESC.fields (group_desc_numbers x.now) }
{
    [
        wide64(x.signature.0),
        wide16(x.size),
        wide16(x.bits),
        wide16(x.free_bits_count),
        wide16(x.chain),
        wide32(x.generation),
        wide64(x.next_group),
        wide64(x.parent_dinode),
        wide64(x.blkno),
    ]
}

/// Puts the fields of a group descriptor. `block` begins where it does.
pub fn write_group_desc(block: &mut [u8], x: &GroupDesc)
    requires { GROUP_DESC_SIZE ≤ length block.old }
    ensures put { block.new ≡ put_all group_desc_fields (group_desc_numbers x.now) block.old }
    // A read gives them back.
    ensures back { group_desc_of block.new ≡ x.now }
    // A byte outside all fields stays, within the structure and past it.
    ensures alone { (i : ℕ) → IsOutside group_desc_fields i → slice_index block.new i ≡ slice_index block.old i }
{
    put_numbers(block, &GROUP_DESC.fields, &group_desc_values(x));
}
