// The records of a chain list.
ghost use Rattle.std.specs.Prelude.{◌≡◌, ◌≤◌, ℕ, length, slice_index};
ghost use Rattle.o2_ondisk.specs.Fields.{Fit, put_all, IsOutside};
ghost use Rattle.o2_ondisk.specs.ChainRecs.{chain_rec_of, chain_rec_numbers, chain_rec_fields};

use crate::number::{u32_at, u64_at, wide32, wide64};
use crate::{Field, Layout, put_numbers};

/// How long a record is.
pub const CHAIN_REC_SIZE: usize = 0x10;

/// The numbers of a chain record.
pub const CHAIN_REC: Layout<3> = Layout {
    fields: [
        Field { at: 0x0, width: 4 },
        Field { at: 0x4, width: 4 },
        Field { at: 0x8, width: 8 },
    ],
};

/// The fields of `struct ocfs2_chain_rec`.
#[derive(Clone, Copy, Debug, PartialEq, Eq)]
pub struct ChainRec {
    /// The clear bits of the chain's groups.
    pub free: u32,
    /// The bits of the chain's groups.
    pub total: u32,
    /// The block of the first group.
    pub blkno: u64,
}

/// The fields of a chain record. `block` begins where it does.
pub fn read_chain_rec(block: &[u8]) -> ChainRec
    requires { CHAIN_REC_SIZE ≤ length block.now }
    ensures { result ≡ chain_rec_of block.now }
{
    ChainRec {
        free: u32_at(block, 0x0),
        total: u32_at(block, 0x4),
        blkno: u64_at(block, 0x8),
    }
}

fn chain_rec_values(x: &ChainRec) -> [u64; 3]
    ensures values { result ≡ chain_rec_numbers x.now }
    ensures fit { Fit CHAIN_REC.fields (chain_rec_numbers x.now) }
{
    [wide32(x.free), wide32(x.total), wide64(x.blkno)]
}

/// Puts the fields of a chain record. `block` begins where it does.
pub fn write_chain_rec(block: &mut [u8], x: &ChainRec)
    requires { CHAIN_REC_SIZE ≤ length block.old }
    ensures put { block.new ≡ put_all chain_rec_fields (chain_rec_numbers x.now) block.old }
    // A read gives them back.
    ensures back { chain_rec_of block.new ≡ x.now }
    // A byte outside all fields stays, within the structure and past it.
    ensures alone { (i : ℕ) → IsOutside chain_rec_fields i → slice_index block.new i ≡ slice_index block.old i }
{
    put_numbers(block, &CHAIN_REC.fields, &chain_rec_values(x));
}
