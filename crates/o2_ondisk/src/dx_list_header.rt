// The header of a list of index entries.
ghost use Rattle.std.specs.Prelude.{◌≡◌, ◌≤◌, ℕ, length, slice_index};
ghost use Rattle.o2_ondisk.specs.Fields.{Fit, put_all, IsOutside};
ghost use Rattle.o2_ondisk.specs.DxListHeaders.{dx_list_header_of, dx_list_header_numbers, dx_list_header_fields};

use crate::number::{u16_at, wide16};
use crate::{Field, Layout, put_numbers};

/// Where the last field ends; the entries begin at 8.
pub const DX_LIST_HEADER_SIZE: usize = 0x8;

/// The numbers of an index list's header.
pub const DX_LIST_HEADER: Layout<2> = Layout {
    fields: [Field { at: 0x4, width: 2 }, Field { at: 0x6, width: 2 }],
};

/// The fields of `struct ocfs2_dx_entry_list` before its entries, which begin at byte 8.
#[derive(Clone, Copy, Debug, PartialEq, Eq)]
pub struct DxListHeader {
    /// How many entries there is room for.
    pub count: u16,
    /// How many entries are in use.
    pub num_used: u16,
}

/// The fields of an index list's header. `block` begins where it does.
pub fn read_dx_list_header(block: &[u8]) -> DxListHeader
    requires { DX_LIST_HEADER_SIZE ≤ length block.now }
    ensures { result ≡ dx_list_header_of block.now }
{
    DxListHeader {
        count: u16_at(block, 0x4),
        num_used: u16_at(block, 0x6),
    }
}

fn dx_list_header_values(x: &DxListHeader) -> [u64; 2]
    ensures values { result ≡ dx_list_header_numbers x.now }
    ensures fit { Fit DX_LIST_HEADER.fields (dx_list_header_numbers x.now) }
{
    [wide16(x.count), wide16(x.num_used)]
}

/// Puts the fields of an index list's header. `block` begins where it does.
pub fn write_dx_list_header(block: &mut [u8], x: &DxListHeader)
    requires { DX_LIST_HEADER_SIZE ≤ length block.old }
    ensures put { block.new ≡ put_all dx_list_header_fields (dx_list_header_numbers x.now) block.old }
    // A read gives them back.
    ensures back { dx_list_header_of block.new ≡ x.now }
    // A byte outside all fields stays, within the structure and past it.
    ensures alone { (i : ℕ) → IsOutside dx_list_header_fields i → slice_index block.new i ≡ slice_index block.old i }
{
    put_numbers(block, &DX_LIST_HEADER.fields, &dx_list_header_values(x));
}
