// The bytes of a block of a slot map whose entries are emptied.
ghost use Rattle.std.specs.Prelude.{◌≡◌, ◌+◌, ◌-◌, ◌*◌, ◌/◌, ◌^◌, ◌<◌, ◌≤◌, ◌&&◌, ℕ, nat_le, nat_lt, length, slice_index, if◌then◌else◌};
ghost use Rattle.o2_view.specs.Geos.{HasSizes};
ghost use Rattle.o2_slots.specs.Entries.{entry_size};
ghost use Rattle.o2_slots.specs.Emptied.{IsEmptiedBlock, empty_width, empty_byte, emptied_byte};

use crate::entries::{entry_size, has_extended_entries};
use o2_extent::block_bytes;
use o2_model::Geo;

/// How many entries a block has.
pub fn entries_per_block(geo: &Geo) -> u64
    requires { HasSizes geo.now }
    ensures value { result ≡ 2 ^ geo.now.block_bits / entry_size geo.now }
    ensures whole { result * entry_size geo.now ≡ 2 ^ geo.now.block_bits }
    ensures some { 64 ≤ result }
{
    block_bytes(geo) / entry_size(geo) as u64
}

/// Empties the entry that begins at byte `at`.
fn empty_entry(bytes: &mut [u8], geo: &Geo, at: usize)
    requires { at + entry_size geo.now ≤ length bytes.old }
    ensures { (i : ℕ) → slice_index bytes.new i ≡ (if nat_le at i && nat_lt i (at + empty_width geo.now) then empty_byte geo.now else slice_index bytes.old i) }
{
    if has_extended_entries(geo) {
        bytes[at] = 0;
    } else {
        bytes[at] = 0xff;
        bytes[at + 1] = 0xff;
    }
}

/// Empties the entries of the slots from `first` on and below `end`, in bytes that begin with the entry of slot `base`.
fn empty_entries(bytes: &mut [u8], geo: &Geo, base: u64, first: u64, end: u64)
    requires order { base ≤ first }
    requires some { first ≤ end }
    requires few { end ≤ 65535 }
    requires within { (end - base) * entry_size geo.now ≤ length bytes.old }
    ensures { (i : ℕ) → slice_index bytes.new i ≡ emptied_byte geo.now first end (base * entry_size geo.now + i) (slice_index bytes.old i) }
{
    let size = entry_size(geo);
    for slot in first..end {
        empty_entry(bytes, geo, (slot - base) as usize * size);
    }
}

/// Empties the entries from slot `from` on in the bytes of block `k` of the file.
pub fn empty_in_block(bytes: &mut [u8], geo: &Geo, k: u64, from: u16)
    requires sizes { HasSizes geo.now }
    requires whole { length bytes.old ≡ 2 ^ geo.now.block_bits }
    requires some { from < geo.now.slots }
    requires first { k * (2 ^ geo.now.block_bits / entry_size geo.now) < geo.now.slots }
    requires last { from < (k + 1) * (2 ^ geo.now.block_bits / entry_size geo.now) }
    ensures { IsEmptiedBlock geo.now k from bytes.old bytes.new }
{
    let slots = u64::from(geo.slots);
    let per_block = entries_per_block(geo);
    let base = k * per_block;
    let first = u64::from(from).max(base);
    let end = slots.min(base + per_block);
    empty_entries(bytes, geo, base, first, end);
}
