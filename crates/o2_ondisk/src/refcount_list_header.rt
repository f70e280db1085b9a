// The header of the list in a refcount block without TREE.
ghost use Rattle.std.specs.Prelude.{◌≡◌, ◌≤◌, ℕ, length, slice_index};
ghost use Rattle.o2_ondisk.specs.Fields.{Fit, put_all, IsOutside};
ghost use Rattle.o2_ondisk.specs.RefcountListHeaders.{refcount_list_header_of, refcount_list_header_numbers, refcount_list_header_fields};

use crate::number::{u16_at, wide16};
use crate::{Field, Layout, put_numbers};

/// Where the last field ends; the records begin at 0x10.
pub const REFCOUNT_LIST_HEADER_SIZE: usize = 0x4;

/// The numbers of a refcount list's header.
pub const REFCOUNT_LIST_HEADER: Layout<2> = Layout {
    fields: [Field { at: 0x0, width: 2 }, Field { at: 0x2, width: 2 }],
};

/// The fields of `struct ocfs2_refcount_list` before its records, which begin at byte 0x10.
#[derive(Clone, Copy, Debug, PartialEq, Eq)]
pub struct RefcountListHeader {
    /// How many records there is room for.
    pub count: u16,
    /// How many records are in use.
    pub used: u16,
}

/// The fields of a refcount list's header. `block` begins where it does.
pub fn read_refcount_list_header(block: &[u8]) -> RefcountListHeader
    requires { REFCOUNT_LIST_HEADER_SIZE ≤ length block.now }
    ensures { result ≡ refcount_list_header_of block.now }
{
    RefcountListHeader {
        count: u16_at(block, 0x0),
        used: u16_at(block, 0x2),
    }
}

fn refcount_list_header_values(x: &RefcountListHeader) -> [u64; 2]
    ensures values { result ≡ refcount_list_header_numbers x.now }
    ensures fit { Fit REFCOUNT_LIST_HEADER.fields (refcount_list_header_numbers x.now) }
{
    [wide16(x.count), wide16(x.used)]
}

/// Puts the fields of a refcount list's header. `block` begins where it does.
pub fn write_refcount_list_header(block: &mut [u8], x: &RefcountListHeader)
    requires { REFCOUNT_LIST_HEADER_SIZE ≤ length block.old }
    ensures put { block.new ≡ put_all refcount_list_header_fields (refcount_list_header_numbers x.now) block.old }
    // A read gives them back.
    ensures back { refcount_list_header_of block.new ≡ x.now }
    // A byte outside all fields stays, within the structure and past it.
    ensures alone { (i : ℕ) → IsOutside refcount_list_header_fields i → slice_index block.new i ≡ slice_index block.old i }
{
    put_numbers(
        block,
        &REFCOUNT_LIST_HEADER.fields,
        &refcount_list_header_values(x),
    );
}
