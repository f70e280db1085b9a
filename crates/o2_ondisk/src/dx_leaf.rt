// The leaves of a directory's index.
ghost use Rattle.std.specs.Prelude.{◌≡◌, ◌≤◌, ℕ, length, slice_index};
ghost use Rattle.o2_ondisk.specs.Fields.{Fit, put_all, IsOutside};
ghost use Rattle.o2_ondisk.specs.DxLeaves.{dx_leaf_of, dx_leaf_numbers, dx_leaf_fields};

use crate::number::{u32_at, u64_at, wide32, wide64};
use crate::{Field, Layout, Signature, put_numbers};

/// Where the last field ends; the list begins at 0x28.
pub const DX_LEAF_SIZE: usize = 0x1c;

/// The numbers of an index leaf.
pub const DX_LEAF: Layout<3> = Layout {
    fields: [
        Field { at: 0x0, width: 8 },
        Field { at: 0x10, width: 8 },
        Field { at: 0x18, width: 4 },
    ],
};

/// The fields of `struct ocfs2_dx_leaf` before its list, which begins at byte 0x28.
#[derive(Clone, Copy, Debug, PartialEq, Eq)]
pub struct DxLeaf {
    pub signature: Signature,
    /// The block that this one is.
    pub blkno: u64,
    pub fs_generation: u32,
}

/// The fields of an index leaf. `block` begins where it does.
pub fn read_dx_leaf(block: &[u8]) -> DxLeaf
    requires { DX_LEAF_SIZE ≤ length block.now }
    ensures { result ≡ dx_leaf_of block.now }
{
    DxLeaf {
        signature: Signature(u64_at(block, 0x0)),
        blkno: u64_at(block, 0x10),
        fs_generation: u32_at(block, 0x18),
    }
}

fn dx_leaf_values(x: &DxLeaf) -> [u64; 3]
    ensures values { result ≡ dx_leaf_numbers x.now }
    ensures fit { Fit DX_LEAF.fields (dx_leaf_numbers x.now) }
{
    [
        wide64(x.signature.0),
        wide64(x.blkno),
        wide32(x.fs_generation),
    ]
}

/// Puts the fields of an index leaf. `block` begins where it does.
pub fn write_dx_leaf(block: &mut [u8], x: &DxLeaf)
    requires { DX_LEAF_SIZE ≤ length block.old }
    ensures put { block.new ≡ put_all dx_leaf_fields (dx_leaf_numbers x.now) block.old }
    // A read gives them back.
    ensures back { dx_leaf_of block.new ≡ x.now }
    // A byte outside all fields stays, within the structure and past it.
    ensures alone { (i : ℕ) → IsOutside dx_leaf_fields i → slice_index block.new i ≡ slice_index block.old i }
{
    put_numbers(block, &DX_LEAF.fields, &dx_leaf_values(x));
}
