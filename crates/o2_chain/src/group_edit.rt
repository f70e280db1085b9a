// Bits of a group that are set or cleared, with its count of clear ones.
ghost use Rattle.std.specs.Prelude.{◌≡◌, ◌≤◌, ◌-◌, ◌*◌, ◌^◌, length};
ghost use Rattle.o2_chain.specs.Bits.{IsChangedGroup};
ghost use Rattle.o2_chain.specs.Edits.{clear_after};

use crate::bits::{BitRange, change_bits};
use o2_ondisk::{read_group_desc, write_group_desc};

/// A count of clear bits once `count` bits more are set, or clear.
fn clear_bits(old: u16, count: u16, set: bool) -> u16
    ensures { result ≡ clear_after (2 ^ 16) set old count }
{
    if set {
        old.wrapping_sub(count)
    } else {
        old.wrapping_add(count)
    }
}

/// Sets or clears these bits of the group whose block has these bytes, and counts them.
pub fn change_group(bytes: &mut [u8], range: BitRange, set: bool)
    requires order { range.first ≤ range.end }
    requires long { 64 ≤ length bytes.old }
    requires few { length bytes.old ≤ 4096 }
    requires within { range.end ≤ 8 * (length bytes.old - 64) }
    ensures { IsChangedGroup bytes.old bytes.new range.first range.end set }
{
    let mut desc = read_group_desc(bytes);
    let count = (range.end - range.first) as u16;
    desc.free_bits_count = clear_bits(desc.free_bits_count, count, set);
    write_group_desc(bytes, &desc);
    change_bits(bytes, range, set);
}
