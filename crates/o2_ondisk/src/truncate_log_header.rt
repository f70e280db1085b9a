// The header of the list of clusters that a slot is to free.
ghost use Rattle.std.specs.Prelude.{◌≡◌, ◌≤◌, ℕ, length, slice_index};
ghost use Rattle.o2_ondisk.specs.Fields.{Fit, put_all, IsOutside};
ghost use Rattle.o2_ondisk.specs.TruncateLogHeaders.{truncate_log_header_of, truncate_log_header_numbers, truncate_log_header_fields};

use crate::number::{u16_at, wide16};
use crate::{Field, Layout, put_numbers};

/// Where the last field ends; the records begin at 8.
pub const TRUNCATE_LOG_HEADER_SIZE: usize = 0x4;

/// The numbers of a truncate log's header.
pub const TRUNCATE_LOG_HEADER: Layout<2> = Layout {
    fields: [Field { at: 0x0, width: 2 }, Field { at: 0x2, width: 2 }],
};

/// The fields of `struct ocfs2_truncate_log` before its records, which begin at byte 8.
#[derive(Clone, Copy, Debug, PartialEq, Eq)]
pub struct TruncateLogHeader {
    /// How many records there is room for.
    pub count: u16,
    /// How many records are in use.
    pub used: u16,
}

/// The fields of a truncate log's header. `block` begins where it does.
pub fn read_truncate_log_header(block: &[u8]) -> TruncateLogHeader
    requires { TRUNCATE_LOG_HEADER_SIZE ≤ length block.now }
    ensures { result ≡ truncate_log_header_of block.now }
{
    TruncateLogHeader {
        count: u16_at(block, 0x0),
        used: u16_at(block, 0x2),
    }
}

fn truncate_log_header_values(x: &TruncateLogHeader) -> [u64; 2]
    ensures values { result ≡ truncate_log_header_numbers x.now }
    ensures fit { Fit TRUNCATE_LOG_HEADER.fields (truncate_log_header_numbers x.now) }
{
    [wide16(x.count), wide16(x.used)]
}

/// Puts the fields of a truncate log's header. `block` begins where it does.
pub fn write_truncate_log_header(block: &mut [u8], x: &TruncateLogHeader)
    requires { TRUNCATE_LOG_HEADER_SIZE ≤ length block.old }
    ensures put { block.new ≡ put_all truncate_log_header_fields (truncate_log_header_numbers x.now) block.old }
    // A read gives them back.
    ensures back { truncate_log_header_of block.new ≡ x.now }
    // A byte outside all fields stays, within the structure and past it.
    ensures alone { (i : ℕ) → IsOutside truncate_log_header_fields i → slice_index block.new i ≡ slice_index block.old i }
{
    put_numbers(
        block,
        &TRUNCATE_LOG_HEADER.fields,
        &truncate_log_header_values(x),
    );
}
