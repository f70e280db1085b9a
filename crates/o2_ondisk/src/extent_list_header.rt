// The head of an extent list.
ghost use Rattle.std.specs.Prelude.{◌≡◌, ◌≤◌, ℕ, length, slice_index};
ghost use Rattle.o2_ondisk.specs.Fields.{Fit, put_all, IsOutside};
ghost use Rattle.o2_ondisk.specs.ExtentListHeaders.{extent_list_header_of, extent_list_header_numbers, extent_list_header_fields};

use crate::number::{u16_at, wide16};
use crate::{Field, Layout, put_numbers};

/// Where the last field ends; the records begin later.
pub const EXTENT_LIST_HEADER_SIZE: usize = 0x6;

/// The numbers of a head.
pub const EXTENT_LIST_HEADER: Layout<3> = Layout {
    fields: [
        Field { at: 0x0, width: 2 },
        Field { at: 0x2, width: 2 },
        Field { at: 0x4, width: 2 },
    ],
};

/// The fields of `struct ocfs2_extent_list` before its records.
#[derive(Clone, Copy, Debug, PartialEq, Eq)]
pub struct ExtentListHeader {
    /// 0 in a leaf list, else how many lists lie below each record.
    pub tree_depth: u16,
    /// How many records there is room for.
    pub count: u16,
    /// How many records are in use.
    pub next_free_rec: u16,
}

/// A head's fields. `block` begins where the list does.
pub fn read_extent_list_header(block: &[u8]) -> ExtentListHeader
    requires { EXTENT_LIST_HEADER_SIZE ≤ length block.now }
    ensures { result ≡ extent_list_header_of block.now }
{
    ExtentListHeader {
        tree_depth: u16_at(block, 0x0),
        count: u16_at(block, 0x2),
        next_free_rec: u16_at(block, 0x4),
    }
}

fn extent_list_header_values(x: &ExtentListHeader) -> [u64; 3]
    ensures values { result ≡ extent_list_header_numbers x.now }
    ensures fit { Fit EXTENT_LIST_HEADER.fields (extent_list_header_numbers x.now) }
{
    [
        wide16(x.tree_depth),
        wide16(x.count),
        wide16(x.next_free_rec),
    ]
}

/// Puts a head's fields. `block` begins where the list does.
pub fn write_extent_list_header(block: &mut [u8], x: &ExtentListHeader)
    requires { EXTENT_LIST_HEADER_SIZE ≤ length block.old }
    ensures put { block.new ≡ put_all extent_list_header_fields (extent_list_header_numbers x.now) block.old }
    // A read gives them back.
    ensures back { extent_list_header_of block.new ≡ x.now }
    // A byte outside all fields stays, within the structure and past it.
    ensures alone { (i : ℕ) → IsOutside extent_list_header_fields i → slice_index block.new i ≡ slice_index block.old i }
{
    put_numbers(
        block,
        &EXTENT_LIST_HEADER.fields,
        &extent_list_header_values(x),
    );
}
