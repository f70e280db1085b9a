// The records of a refcount list.
ghost use Rattle.std.specs.Prelude.{◌≡◌, ◌≤◌, ℕ, length, slice_index};
ghost use Rattle.o2_ondisk.specs.Fields.{Fit, put_all, IsOutside};
ghost use Rattle.o2_ondisk.specs.RefcountRecs.{refcount_rec_of, refcount_rec_numbers, refcount_rec_fields};

use crate::number::{u32_at, u64_at, wide32, wide64};
use crate::{Field, Layout, put_numbers};

/// How long a record is.
pub const REFCOUNT_REC_SIZE: usize = 0x10;

/// The numbers of a refcount record.
pub const REFCOUNT_REC: Layout<3> = Layout {
    fields: [
        Field { at: 0x0, width: 8 },
        Field { at: 0x8, width: 4 },
        Field { at: 0xc, width: 4 },
    ],
};

/// The fields of `struct ocfs2_refcount_rec`.
#[derive(Clone, Copy, Debug, PartialEq, Eq)]
pub struct RefcountRec {
    /// The first cluster, counted from the volume's beginning.
    pub cpos: u64,
    /// How many clusters.
    pub clusters: u32,
    /// How many times each is referred to.
    pub refcount: u32,
}

/// The fields of a refcount record. `block` begins where it does.
pub fn read_refcount_rec(block: &[u8]) -> RefcountRec
    requires { REFCOUNT_REC_SIZE ≤ length block.now }
    ensures { result ≡ refcount_rec_of block.now }
{
    RefcountRec {
        cpos: u64_at(block, 0x0),
        clusters: u32_at(block, 0x8),
        refcount: u32_at(block, 0xc),
    }
}

fn refcount_rec_values(x: &RefcountRec) -> [u64; 3]
    ensures values { result ≡ refcount_rec_numbers x.now }
    ensures fit { Fit REFCOUNT_REC.fields (refcount_rec_numbers x.now) }
{
    [wide64(x.cpos), wide32(x.clusters), wide32(x.refcount)]
}

/// Puts the fields of a refcount record. `block` begins where it does.
pub fn write_refcount_rec(block: &mut [u8], x: &RefcountRec)
    requires { REFCOUNT_REC_SIZE ≤ length block.old }
    ensures put { block.new ≡ put_all refcount_rec_fields (refcount_rec_numbers x.now) block.old }
    // A read gives them back.
    ensures back { refcount_rec_of block.new ≡ x.now }
    // A byte outside all fields stays, within the structure and past it.
    ensures alone { (i : ℕ) → IsOutside refcount_rec_fields i → slice_index block.new i ≡ slice_index block.old i }
{
    put_numbers(block, &REFCOUNT_REC.fields, &refcount_rec_values(x));
}
