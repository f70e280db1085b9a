// The header of a block that tells something of a log.
ghost use Rattle.std.specs.Prelude.{◌≡◌, ◌≤◌, ℕ, length, slice_index};
ghost use Rattle.o2_ondisk.specs.Fields.{Fit, big_put_all, IsOutside};
ghost use Rattle.o2_ondisk.specs.LogHeaders.{log_header_of, log_header_numbers, log_header_fields};

use crate::number::{big_u32_at, wide32};
use crate::{Field, Layout, put_big_numbers};

/// Where the last field ends.
pub const LOG_HEADER_SIZE: usize = 0xc;

/// The numbers of a log block's header.
pub const LOG_HEADER: Layout<3> = Layout {
    fields: [
        Field { at: 0x0, width: 4 },
        Field { at: 0x4, width: 4 },
        Field { at: 0x8, width: 4 },
    ],
};

/// The fields of `journal_header_t`, at the front of a descriptor, commit, revoke or superblock.
#[derive(Clone, Copy, Debug, PartialEq, Eq)]
pub struct LogHeader {
    pub magic: u32,
    /// Descriptor 1, commit 2, superblock 4, revoke 5.
    pub blocktype: u32,
    /// The number of the transaction.
    pub sequence: u32,
}

/// The fields of a log block's header. `block` begins where it does.
pub fn read_log_header(block: &[u8]) -> LogHeader
    requires { LOG_HEADER_SIZE ≤ length block.now }
    ensures { result ≡ log_header_of block.now }
{
    LogHeader {
        magic: big_u32_at(block, 0x0),
        blocktype: big_u32_at(block, 0x4),
        sequence: big_u32_at(block, 0x8),
    }
}

fn log_header_values(x: &LogHeader) -> [u64; 3]
    ensures values { result ≡ log_header_numbers x.now }
    ensures fit { Fit LOG_HEADER.fields (log_header_numbers x.now) }
{
    [wide32(x.magic), wide32(x.blocktype), wide32(x.sequence)]
}

/// Puts the fields of a log block's header. `block` begins where it does.
pub fn write_log_header(block: &mut [u8], x: &LogHeader)
    requires { LOG_HEADER_SIZE ≤ length block.old }
    ensures put { block.new ≡ big_put_all log_header_fields (log_header_numbers x.now) block.old }
    // A read gives them back.
    ensures back { log_header_of block.new ≡ x.now }
    // A byte outside all fields stays, within the structure and past it.
    ensures alone { (i : ℕ) → IsOutside log_header_fields i → slice_index block.new i ≡ slice_index block.old i }
{
    put_big_numbers(block, &LOG_HEADER.fields, &log_header_values(x));
}
