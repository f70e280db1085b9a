// The trailer, which is the last entry in each block of an indexed directory.
ghost use Rattle.std.specs.Prelude.{◌≡◌, ◌≤◌, ℕ, length, slice_index};
ghost use Rattle.o2_ondisk.specs.Fields.{Fit, put_all, IsOutside};
ghost use Rattle.o2_ondisk.specs.DirTrailers.{dir_trailer_of, dir_trailer_numbers, dir_trailer_fields};

use crate::number::{u16_at, u64_at, wide16, wide64};
use crate::{Field, Layout, Signature, put_numbers};

/// Where the last field ends.
pub const DIR_TRAILER_SIZE: usize = 0x38;

/// The numbers of a trailer.
pub const DIR_TRAILER: Layout<5> = Layout {
    fields: [
        Field { at: 0x0, width: 8 },
        Field { at: 0x8, width: 2 },
        Field { at: 0x10, width: 8 },
        Field { at: 0x28, width: 8 },
        Field { at: 0x30, width: 8 },
    ],
};

/// The fields of `struct ocfs2_dir_block_trailer`, without those of the list of free entries and the check data.
#[derive(Clone, Copy, Debug, PartialEq, Eq)]
pub struct DirTrailer {
    /// 0, so that the trailer is a void entry to a reader that does not know it.
    pub inode: u64,
    /// The trailer's length as an entry, 64.
    pub rec_len: u16,
    pub signature: Signature,
    /// The block that the trailer is in.
    pub blkno: u64,
    /// The block of the directory's dinode.
    pub parent_dinode: u64,
}

/// A trailer's fields. `block` begins where the trailer does.
pub fn read_dir_trailer(block: &[u8]) -> DirTrailer
    requires { DIR_TRAILER_SIZE ≤ length block.now }
    ensures { result ≡ dir_trailer_of block.now }
{
    DirTrailer {
        inode: u64_at(block, 0x0),
        rec_len: u16_at(block, 0x8),
        signature: Signature(u64_at(block, 0x10)),
        blkno: u64_at(block, 0x28),
        parent_dinode: u64_at(block, 0x30),
    }
}

fn dir_trailer_values(x: &DirTrailer) -> [u64; 5]
    ensures values { result ≡ dir_trailer_numbers x.now }
    ensures fit { Fit DIR_TRAILER.fields (dir_trailer_numbers x.now) }
{
    [
        wide64(x.inode),
        wide16(x.rec_len),
        wide64(x.signature.0),
        wide64(x.blkno),
        wide64(x.parent_dinode),
    ]
}

/// Puts a trailer's fields. `block` begins where the trailer does.
pub fn write_dir_trailer(block: &mut [u8], x: &DirTrailer)
    requires { DIR_TRAILER_SIZE ≤ length block.old }
    ensures put { block.new ≡ put_all dir_trailer_fields (dir_trailer_numbers x.now) block.old }
    // A read gives them back.
    ensures back { dir_trailer_of block.new ≡ x.now }
    // A byte outside all fields stays, within the structure and past it.
    ensures alone { (i : ℕ) → IsOutside dir_trailer_fields i → slice_index block.new i ≡ slice_index block.old i }
{
    put_numbers(block, &DIR_TRAILER.fields, &dir_trailer_values(x));
}
