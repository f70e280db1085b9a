// The entries of a directory.
ghost use Rattle.std.specs.Prelude.{◌≡◌, ◌≤◌, ℕ, length, slice_index};
ghost use Rattle.o2_ondisk.specs.Fields.{Fit, put_all, IsOutside};
ghost use Rattle.o2_ondisk.specs.DirEntries.{dir_entry_of, dir_entry_numbers, dir_entry_fields};

use crate::number::{u8_at, u16_at, u64_at, wide8, wide16, wide64};
use crate::{Field, Layout, put_numbers};

/// Where the last field ends, and the name begins.
pub const DIR_ENTRY_SIZE: usize = 0xc;

/// The numbers of an entry.
pub const DIR_ENTRY: Layout<4> = Layout {
    fields: [
        Field { at: 0x0, width: 8 },
        Field { at: 0x8, width: 2 },
        Field { at: 0xa, width: 1 },
        Field { at: 0xb, width: 1 },
    ],
};

/// The fields of `struct ocfs2_dir_entry` before the name.
#[derive(Clone, Copy, Debug, PartialEq, Eq)]
pub struct DirEntry {
    /// The block of the dinode that the entry names, 0 in a void entry.
    pub inode: u64,
    /// How many bytes there are to the next entry.
    pub rec_len: u16,
    pub name_len: u8,
    /// The number of the kind of what the entry names.
    pub file_type: u8,
}

/// An entry's fields. `block` begins where the entry does.
pub fn read_dir_entry(block: &[u8]) -> DirEntry
    requires { DIR_ENTRY_SIZE ≤ length block.now }
    ensures { result ≡ dir_entry_of block.now }
{
    DirEntry {
        inode: u64_at(block, 0x0),
        rec_len: u16_at(block, 0x8),
        name_len: u8_at(block, 0xa),
        file_type: u8_at(block, 0xb),
    }
}

fn dir_entry_values(x: &DirEntry) -> [u64; 4]
    ensures values { result ≡ dir_entry_numbers x.now }
    ensures fit { Fit DIR_ENTRY.fields (dir_entry_numbers x.now) }
{
    [
        wide64(x.inode),
        wide16(x.rec_len),
        wide8(x.name_len),
        wide8(x.file_type),
    ]
}

/// Puts an entry's fields. `block` begins where the entry does.
pub fn write_dir_entry(block: &mut [u8], x: &DirEntry)
    requires { DIR_ENTRY_SIZE ≤ length block.old }
    ensures put { block.new ≡ put_all dir_entry_fields (dir_entry_numbers x.now) block.old }
    // A read gives them back.
    ensures back { dir_entry_of block.new ≡ x.now }
    // A byte outside all fields stays, within the structure and past it.
    ensures alone { (i : ℕ) → IsOutside dir_entry_fields i → slice_index block.new i ≡ slice_index block.old i }
{
    put_numbers(block, &DIR_ENTRY.fields, &dir_entry_values(x));
}
