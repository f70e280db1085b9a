// The records of a truncate log.
ghost use Rattle.std.specs.Prelude.{◌≡◌, ◌≤◌, ℕ, length, slice_index};
ghost use Rattle.o2_ondisk.specs.Fields.{Fit, put_all, IsOutside};
ghost use Rattle.o2_ondisk.specs.TruncateRecs.{truncate_rec_of, truncate_rec_numbers, truncate_rec_fields};

use crate::number::{u32_at, wide32};
use crate::{Field, Layout, put_numbers};

/// How long a record is.
pub const TRUNCATE_REC_SIZE: usize = 0x8;

/// The numbers of a truncate record.
pub const TRUNCATE_REC: Layout<2> = Layout {
    fields: [Field { at: 0x0, width: 4 }, Field { at: 0x4, width: 4 }],
};

/// The fields of `struct ocfs2_truncate_rec`.
#[derive(Clone, Copy, Debug, PartialEq, Eq)]
pub struct TruncateRec {
    /// The first cluster to be freed, 0 in a void record.
    pub start: u32,
    /// How many clusters.
    pub clusters: u32,
}

/// The fields of a truncate record. `block` begins where it does.
pub fn read_truncate_rec(block: &[u8]) -> TruncateRec
    requires { TRUNCATE_REC_SIZE ≤ length block.now }
    ensures { result ≡ truncate_rec_of block.now }
{
    TruncateRec {
        start: u32_at(block, 0x0),
        clusters: u32_at(block, 0x4),
    }
}

fn truncate_rec_values(x: &TruncateRec) -> [u64; 2]
    ensures values { result ≡ truncate_rec_numbers x.now }
    ensures fit { Fit TRUNCATE_REC.fields (truncate_rec_numbers x.now) }
{
    [wide32(x.start), wide32(x.clusters)]
}

/// Puts the fields of a truncate record. `block` begins where it does.
pub fn write_truncate_rec(block: &mut [u8], x: &TruncateRec)
    requires { TRUNCATE_REC_SIZE ≤ length block.old }
    ensures put { block.new ≡ put_all truncate_rec_fields (truncate_rec_numbers x.now) block.old }
    // A read gives them back.
    ensures back { truncate_rec_of block.new ≡ x.now }
    // A byte outside all fields stays, within the structure and past it.
    ensures alone { (i : ℕ) → IsOutside truncate_rec_fields i → slice_index block.new i ≡ slice_index block.old i }
{
    put_numbers(block, &TRUNCATE_REC.fields, &truncate_rec_values(x));
}
