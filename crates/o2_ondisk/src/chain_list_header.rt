// The header of the chain list of an allocator.
ghost use Rattle.std.specs.Prelude.{◌≡◌, ◌≤◌, ℕ, length, slice_index};
ghost use Rattle.o2_ondisk.specs.Fields.{Fit, put_all, IsOutside};
ghost use Rattle.o2_ondisk.specs.ChainListHeaders.{chain_list_header_of, chain_list_header_numbers, chain_list_header_fields};

use crate::number::{u16_at, wide16};
use crate::{Field, Layout, put_numbers};

/// Where the last field ends; the records begin at 0x10.
pub const CHAIN_LIST_HEADER_SIZE: usize = 0x8;

/// The numbers of a chain list's header.
pub const CHAIN_LIST_HEADER: Layout<4> = Layout {
    fields: [
        Field { at: 0x0, width: 2 },
        Field { at: 0x2, width: 2 },
        Field { at: 0x4, width: 2 },
        Field { at: 0x6, width: 2 },
    ],
};

/// The fields of `struct ocfs2_chain_list` before its records, which begin at byte 0x10.
#[derive(Clone, Copy, Debug, PartialEq, Eq)]
pub struct ChainListHeader {
    /// How many clusters a new group gets.
    pub cpg: u16,
    /// How many bits a cluster has.
    pub bpc: u16,
    /// How many records there is room for.
    pub count: u16,
    /// How many records are in use.
    pub next_free_rec: u16,
}

/// The fields of a chain list's header. `block` begins where it does.
pub fn read_chain_list_header(block: &[u8]) -> ChainListHeader
    requires { CHAIN_LIST_HEADER_SIZE ≤ length block.now }
    ensures { result ≡ chain_list_header_of block.now }
{
    ChainListHeader {
        cpg: u16_at(block, 0x0),
        bpc: u16_at(block, 0x2),
        count: u16_at(block, 0x4),
        next_free_rec: u16_at(block, 0x6),
    }
}

fn chain_list_header_values(x: &ChainListHeader) -> [u64; 4]
    ensures values { result ≡ chain_list_header_numbers x.now }
    ensures fit { Fit CHAIN_LIST_HEADER.fields (chain_list_header_numbers x.now) }
{
    [
        wide16(x.cpg),
        wide16(x.bpc),
        wide16(x.count),
        wide16(x.next_free_rec),
    ]
}

/// Puts the fields of a chain list's header. `block` begins where it does.
pub fn write_chain_list_header(block: &mut [u8], x: &ChainListHeader)
    requires { CHAIN_LIST_HEADER_SIZE ≤ length block.old }
    ensures put { block.new ≡ put_all chain_list_header_fields (chain_list_header_numbers x.now) block.old }
    // A read gives them back.
    ensures back { chain_list_header_of block.new ≡ x.now }
    // A byte outside all fields stays, within the structure and past it.
    ensures alone { (i : ℕ) → IsOutside chain_list_header_fields i → slice_index block.new i ≡ slice_index block.old i }
{
    put_numbers(
        block,
        &CHAIN_LIST_HEADER.fields,
        &chain_list_header_values(x),
    );
}
