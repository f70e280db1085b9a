// The entries of an extended slot map.
ghost use Rattle.std.specs.Prelude.{◌≡◌, ◌≤◌, ℕ, length, slice_index};
ghost use Rattle.o2_ondisk.specs.Fields.{Fit, put_all, IsOutside};
ghost use Rattle.o2_ondisk.specs.SlotEntries.{slot_entry_of, slot_entry_numbers, slot_entry_fields};

use crate::number::{u8_at, u32_at, wide8, wide32};
use crate::{Field, Layout, put_numbers};

/// How long an entry is.
pub const SLOT_ENTRY_SIZE: usize = 0x8;

/// The numbers of a slot entry.
pub const SLOT_ENTRY: Layout<2> = Layout {
    fields: [Field { at: 0x0, width: 1 }, Field { at: 0x4, width: 4 }],
};

/// The fields of `struct ocfs2_extended_slot`.
#[derive(Clone, Copy, Debug, PartialEq, Eq)]
pub struct SlotEntry {
    /// 0 where no node has the slot.
    pub valid: u8,
    /// The number of the node that has it.
    pub node: u32,
}

/// The fields of a slot entry. `block` begins where it does.
pub fn read_slot_entry(block: &[u8]) -> SlotEntry
    requires { SLOT_ENTRY_SIZE ≤ length block.now }
    ensures { result ≡ slot_entry_of block.now }
{
    SlotEntry {
        valid: u8_at(block, 0x0),
        node: u32_at(block, 0x4),
    }
}

fn slot_entry_values(x: &SlotEntry) -> [u64; 2]
    ensures values { result ≡ slot_entry_numbers x.now }
    ensures fit { Fit SLOT_ENTRY.fields (slot_entry_numbers x.now) }
{
    [wide8(x.valid), wide32(x.node)]
}

/// Puts the fields of a slot entry. `block` begins where it does.
pub fn write_slot_entry(block: &mut [u8], x: &SlotEntry)
    requires { SLOT_ENTRY_SIZE ≤ length block.old }
    ensures put { block.new ≡ put_all slot_entry_fields (slot_entry_numbers x.now) block.old }
    // A read gives them back.
    ensures back { slot_entry_of block.new ≡ x.now }
    // A byte outside all fields stays, within the structure and past it.
    ensures alone { (i : ℕ) → IsOutside slot_entry_fields i → slice_index block.new i ≡ slice_index block.old i }
{
    put_numbers(block, &SLOT_ENTRY.fields, &slot_entry_values(x));
}
