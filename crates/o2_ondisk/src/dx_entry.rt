// The entries of an index.
ghost use Rattle.std.specs.Prelude.{◌≡◌, ◌≤◌, ℕ, length, slice_index};
ghost use Rattle.o2_ondisk.specs.Fields.{Fit, put_all, IsOutside};
ghost use Rattle.o2_ondisk.specs.DxEntries.{dx_entry_of, dx_entry_numbers, dx_entry_fields};

use crate::number::{u32_at, u64_at, wide32, wide64};
use crate::{Field, Layout, put_numbers};

/// How long an entry is.
pub const DX_ENTRY_SIZE: usize = 0x10;

/// The numbers of an index entry.
pub const DX_ENTRY: Layout<3> = Layout {
    fields: [
        Field { at: 0x0, width: 4 },
        Field { at: 0x4, width: 4 },
        Field { at: 0x8, width: 8 },
    ],
};

/// The fields of `struct ocfs2_dx_entry`.
#[derive(Clone, Copy, Debug, PartialEq, Eq)]
pub struct DxEntry {
    /// The first half of the hash of the name.
    pub major_hash: u32,
    /// The second half.
    pub minor_hash: u32,
    /// The directory's block that the name stands in.
    pub dirent_blk: u64,
}

/// The fields of an index entry. `block` begins where it does.
pub fn read_dx_entry(block: &[u8]) -> DxEntry
    requires { DX_ENTRY_SIZE ≤ length block.now }
    ensures { result ≡ dx_entry_of block.now }
{
    DxEntry {
        major_hash: u32_at(block, 0x0),
        minor_hash: u32_at(block, 0x4),
        dirent_blk: u64_at(block, 0x8),
    }
}

fn dx_entry_values(x: &DxEntry) -> [u64; 3]
    ensures values { result ≡ dx_entry_numbers x.now }
    ensures fit { Fit DX_ENTRY.fields (dx_entry_numbers x.now) }
{
    [
        wide32(x.major_hash),
        wide32(x.minor_hash),
        wide64(x.dirent_blk),
    ]
}

/// Puts the fields of an index entry. `block` begins where it does.
pub fn write_dx_entry(block: &mut [u8], x: &DxEntry)
    requires { DX_ENTRY_SIZE ≤ length block.old }
    ensures put { block.new ≡ put_all dx_entry_fields (dx_entry_numbers x.now) block.old }
    // A read gives them back.
    ensures back { dx_entry_of block.new ≡ x.now }
    // A byte outside all fields stays, within the structure and past it.
    ensures alone { (i : ℕ) → IsOutside dx_entry_fields i → slice_index block.new i ≡ slice_index block.old i }
{
    put_numbers(block, &DX_ENTRY.fields, &dx_entry_values(x));
}
