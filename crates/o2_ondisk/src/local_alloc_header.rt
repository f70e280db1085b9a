// The header of a window of clusters that a slot holds.
ghost use Rattle.std.specs.Prelude.{◌≡◌, ◌≤◌, ℕ, length, slice_index};
ghost use Rattle.o2_ondisk.specs.Fields.{Fit, put_all, IsOutside};
ghost use Rattle.o2_ondisk.specs.LocalAllocHeaders.{local_alloc_header_of, local_alloc_header_numbers, local_alloc_header_fields};

use crate::number::{u16_at, u32_at, wide16, wide32};
use crate::{Field, Layout, put_numbers};

/// Where the last field ends; the bitmap begins at 0x10.
pub const LOCAL_ALLOC_HEADER_SIZE: usize = 0x6;

/// The numbers of a local alloc's header.
pub const LOCAL_ALLOC_HEADER: Layout<2> = Layout {
    fields: [Field { at: 0x0, width: 4 }, Field { at: 0x4, width: 2 }],
};

/// The fields of `struct ocfs2_local_alloc` before its bitmap, which begins at byte 0x10.
#[derive(Clone, Copy, Debug, PartialEq, Eq)]
pub struct LocalAllocHeader {
    /// The window's first cluster.
    pub bm_off: u32,
    /// The bytes of the bitmap.
    pub size: u16,
}

/// The fields of a local alloc's header. `block` begins where it does.
pub fn read_local_alloc_header(block: &[u8]) -> LocalAllocHeader
    requires { LOCAL_ALLOC_HEADER_SIZE ≤ length block.now }
    ensures { result ≡ local_alloc_header_of block.now }
{
    LocalAllocHeader {
        bm_off: u32_at(block, 0x0),
        size: u16_at(block, 0x4),
    }
}

fn local_alloc_header_values(x: &LocalAllocHeader) -> [u64; 2]
    ensures values { result ≡ local_alloc_header_numbers x.now }
    ensures fit { Fit LOCAL_ALLOC_HEADER.fields (local_alloc_header_numbers x.now) }
{
    [wide32(x.bm_off), wide16(x.size)]
}

/// Puts the fields of a local alloc's header. `block` begins where it does.
pub fn write_local_alloc_header(block: &mut [u8], x: &LocalAllocHeader)
    requires { LOCAL_ALLOC_HEADER_SIZE ≤ length block.old }
    ensures put { block.new ≡ put_all local_alloc_header_fields (local_alloc_header_numbers x.now) block.old }
    // A read gives them back.
    ensures back { local_alloc_header_of block.new ≡ x.now }
    // A byte outside all fields stays, within the structure and past it.
    ensures alone { (i : ℕ) → IsOutside local_alloc_header_fields i → slice_index block.new i ≡ slice_index block.old i }
{
    put_numbers(
        block,
        &LOCAL_ALLOC_HEADER.fields,
        &local_alloc_header_values(x),
    );
}
