// The records of an extent list.
ghost use Rattle.std.specs.Prelude.{◌≡◌, ◌≤◌, ◌%◌, ◌/◌, ◌^◌, ℕ, length, slice_index};
ghost use Rattle.o2_ondisk.specs.Fields.{Fit, put_all, IsOutside};
ghost use Rattle.o2_ondisk.specs.ExtentRecs.{extent_rec_of, extent_rec_numbers, extent_rec_fields};

use crate::number::{u32_at, u64_at, wide32, wide64};
use crate::{ExtentFlags, Field, Layout, put_numbers};

/// How long a record is.
pub const EXTENT_REC_SIZE: usize = 0x10;

/// The numbers of a record.
pub const EXTENT_REC: Layout<3> = Layout {
    fields: [
        Field { at: 0x0, width: 4 },
        Field { at: 0x4, width: 4 },
        Field { at: 0x8, width: 8 },
    ],
};

/// The fields of `struct ocfs2_extent_rec`.
#[derive(Clone, Copy, Debug, PartialEq, Eq)]
pub struct ExtentRec {
    /// The first cluster of the inode that the record is about.
    pub cpos: u32,
    /// How many clusters, and in a leaf list the flags.
    pub size: ExtentSize,
    /// In a leaf list the first block of the clusters, in an inner list the block of the list below.
    pub blkno: u64,
}

/// The 4 bytes of an extent record that inner and leaf lists read differently.
#[derive(Clone, Copy, Debug, PartialEq, Eq)]
pub struct ExtentSize(pub u32);

impl ExtentSize {
    /// In an inner list, how many clusters the list below is about, `e_int_clusters`.
    pub fn int_clusters(self) -> u32
        ensures { result ≡ self.0 }
    {
        self.0
    }

    /// In a leaf list, how many clusters the record has, `e_leaf_clusters`.
    pub fn leaf_clusters(self) -> u16
        ensures { result ≡ self.0 % 2 ^ 16 }
    {
        (self.0 % 0x1_0000) as u16
    }

    /// In a leaf list, how the clusters are kept, `e_flags`.
    pub fn flags(self) -> ExtentFlags
        ensures { result.0 ≡ self.0 / 2 ^ 24 }
    {
        ExtentFlags((self.0 >> 24) as u8)
    }
}

/// A record's fields. `block` begins where the record does.
pub fn read_extent_rec(block: &[u8]) -> ExtentRec
    requires { EXTENT_REC_SIZE ≤ length block.now }
    ensures { result ≡ extent_rec_of block.now }
{
    ExtentRec {
        cpos: u32_at(block, 0x0),
        size: ExtentSize(u32_at(block, 0x4)),
        blkno: u64_at(block, 0x8),
    }
}

fn extent_rec_values(x: &ExtentRec) -> [u64; 3]
    ensures values { result ≡ extent_rec_numbers x.now }
    ensures fit { Fit EXTENT_REC.fields (extent_rec_numbers x.now) }
{
    [wide32(x.cpos), wide32(x.size.0), wide64(x.blkno)]
}

/// Puts a record's fields. `block` begins where the record does.
pub fn write_extent_rec(block: &mut [u8], x: &ExtentRec)
    requires { EXTENT_REC_SIZE ≤ length block.old }
    ensures put { block.new ≡ put_all extent_rec_fields (extent_rec_numbers x.now) block.old }
    // A read gives them back.
    ensures back { extent_rec_of block.new ≡ x.now }
    // A byte outside all fields stays, within the structure and past it.
    ensures alone { (i : ℕ) → IsOutside extent_rec_fields i → slice_index block.new i ≡ slice_index block.old i }
{
    put_numbers(block, &EXTENT_REC.fields, &extent_rec_values(x));
}
