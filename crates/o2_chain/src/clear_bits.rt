// The clear bits of a group, as clusters.
ghost use Rattle.std.specs.Prelude.{◌≡◌, ◌+◌, ◌*◌, ◌/◌, ◌%◌, ◌^◌, ◌<◌, ◌≤◌, ◌==◌, not, length, OnOk};
ghost use Rattle.o2_model.specs.Groups.{is_bit_set_in};
ghost use Rattle.o2_view.specs.RunLists.{end_of_runs, Gains};

use crate::bits::BITMAP_PLACE;
use o2_disk::NoMemory;
use o2_view::RunList;

/// Adds the cluster of each clear bit of the first `bits` of a byte, where `first` is that of its lowest bit.
fn add_clear_of_byte(runs: &mut RunList, byte: u8, first: u32, bits: u32) -> Result<(), NoMemory>
    requires some { 0 < bits }
    requires few { bits ≤ 8 }
    requires fits { first + bits < 2 ^ 32 }
    requires behind { end_of_runs runs.old ≤ first }
    ensures { OnOk result (Gains (λ k. not (byte / 2 ^ k % 2 == 1)) first bits runs.old runs.new) }
{
    if byte == 0xff {
        return Ok(());
    }
    if byte == 0 {
        return runs.add(first, bits);
    }
    for k in 0..bits {
        if byte >> k & 1 == 0 {
            runs.add(first + k, 1)?;
        }
    }
    Ok(())
}

/// Adds the cluster of each clear bit of a group, where `first` is that of its first bit.
pub fn add_clear(runs: &mut RunList, block: &[u8], first: u32, bits: u32) -> Result<(), NoMemory>
    requires room { 8 * 0x40 + bits ≤ 8 * length block.now }
    requires fits { first + bits < 2 ^ 32 }
    requires behind { end_of_runs runs.old ≤ first }
    ensures { OnOk result (Gains (λ k. not (is_bit_set_in 0x40 block.now k)) first bits runs.old runs.new) }
{
    for i in 0..bits.div_ceil(8) {
        let done = 8 * i;
        let count = (bits - done).min(8);
        add_clear_of_byte(runs, block[BITMAP_PLACE + i as usize], first + done, count)?;
    }
    Ok(())
}
