// The root of a directory's index.
ghost use Rattle.std.specs.Prelude.{◌≡◌, ◌≤◌, ℕ, length, slice_index};
ghost use Rattle.o2_ondisk.specs.Fields.{Fit, put_all, IsOutside};
ghost use Rattle.o2_ondisk.specs.DxRoots.{dx_root_of, dx_root_numbers, dx_root_fields};

use crate::number::{u8_at, u16_at, u32_at, u64_at, wide8, wide16, wide32, wide64};
use crate::{Field, Layout, Signature, put_numbers};

/// Where the last field ends; the list begins at 0xc0.
pub const DX_ROOT_SIZE: usize = 0x50;

/// The numbers of an index root.
pub const DX_ROOT: Layout<12> = Layout {
    fields: [
        Field { at: 0x0, width: 8 },
        Field { at: 0x10, width: 2 },
        Field { at: 0x12, width: 2 },
        Field { at: 0x14, width: 4 },
        Field { at: 0x18, width: 8 },
        Field { at: 0x20, width: 8 },
        Field { at: 0x28, width: 4 },
        Field { at: 0x2c, width: 1 },
        Field { at: 0x30, width: 8 },
        Field { at: 0x38, width: 4 },
        Field { at: 0x40, width: 8 },
        Field { at: 0x48, width: 8 },
    ],
};

/// The fields of `struct ocfs2_dx_root_block` before its list, which begins at byte 0xc0.
#[derive(Clone, Copy, Debug, PartialEq, Eq)]
pub struct DxRoot {
    pub signature: Signature,
    /// The slot of the suballocator that the block is from.
    pub suballoc_slot: u16,
    /// The block's bit in its group of that suballocator.
    pub suballoc_bit: u16,
    pub fs_generation: u32,
    /// The block that this one is.
    pub blkno: u64,
    pub last_eb_blk: u64,
    pub clusters: u32,
    /// With INLINE, 1, the index entries stand in the root.
    pub flags: u8,
    /// The block of the directory's dinode.
    pub dir_blkno: u64,
    /// How many entries the directory has.
    pub num_entries: u32,
    pub free_blk: u64,
    /// The block of the group that the block is from.
    pub suballoc_loc: u64,
}

/// The fields of an index root. `block` begins where it does.
pub fn read_dx_root(block: &[u8]) -> DxRoot
    requires { DX_ROOT_SIZE ≤ length block.now }
    ensures { result ≡ dx_root_of block.now }
{
    DxRoot {
        signature: Signature(u64_at(block, 0x0)),
        suballoc_slot: u16_at(block, 0x10),
        suballoc_bit: u16_at(block, 0x12),
        fs_generation: u32_at(block, 0x14),
        blkno: u64_at(block, 0x18),
        last_eb_blk: u64_at(block, 0x20),
        clusters: u32_at(block, 0x28),
        flags: u8_at(block, 0x2c),
        dir_blkno: u64_at(block, 0x30),
        num_entries: u32_at(block, 0x38),
        free_blk: u64_at(block, 0x40),
        suballoc_loc: u64_at(block, 0x48),
    }
}

fn dx_root_values(x: &DxRoot) -> [u64; 12]
    ensures values { result ≡ dx_root_numbers x.now }
    ensures fit { Fit DX_ROOT.fields (dx_root_numbers x.now) }
{
    [
        wide64(x.signature.0),
        wide16(x.suballoc_slot),
        wide16(x.suballoc_bit),
        wide32(x.fs_generation),
        wide64(x.blkno),
        wide64(x.last_eb_blk),
        wide32(x.clusters),
        wide8(x.flags),
        wide64(x.dir_blkno),
        wide32(x.num_entries),
        wide64(x.free_blk),
        wide64(x.suballoc_loc),
    ]
}

/// Puts the fields of an index root. `block` begins where it does.
pub fn write_dx_root(block: &mut [u8], x: &DxRoot)
    requires { DX_ROOT_SIZE ≤ length block.old }
    ensures put { block.new ≡ put_all dx_root_fields (dx_root_numbers x.now) block.old }
    // A read gives them back.
    ensures back { dx_root_of block.new ≡ x.now }
    // A byte outside all fields stays, within the structure and past it.
    ensures alone { (i : ℕ) → IsOutside dx_root_fields i → slice_index block.new i ≡ slice_index block.old i }
{
    put_numbers(block, &DX_ROOT.fields, &dx_root_values(x));
}
