// A sparse map of sectors: what is not there is zeros.
ghost use Rattle.std.specs.Prelude.{◌≡◌, ◌≢◌, ◌↔◌, Some, None, Option, ℕ, ◌+◌, ◌-◌, ◌*◌, ◌/◌, ◌%◌, ◌<◌, ◌≤◌, ◌^◌, ◌&&◌, length, OnOk, slice_index, IsSome, IsTrue, nat_le, nat_lt, if◌then◌else◌, unwrap_or};
ghost use Rattle.std.specs.Ordering.{nat_cmp};
ghost use Rattle.std.specs.BTreeMap.{get};
ghost use Rattle.o2_disk.specs.Image.{sectors_in, piece, zero_sector};
ghost use Rattle.o2_disk.specs.Stored.{stored};
ghost use Rattle.o2_disk.specs.Calls.{put_into, AreZeros};

use std::alloc::AllocError;
use std::collections::BTreeMap;

pub fn no_bytes() -> [u8; 512]
    ensures { result ≡ zero_sector }
{
    [0; 512]
}

pub fn sector_at(map: &BTreeMap<u64, [u8; 512]>, s: u64) -> [u8; 512]
    ensures { result ≡ stored map.now s }
{
    match map.get(&s) {
        Some(bytes) => *bytes,
        None => no_bytes(),
    }
}

pub fn are_zeros(bytes: &[u8]) -> bool
    ensures { IsTrue result ↔ AreZeros bytes.now }
{
    bytes.iter().all(|b| *b == 0)
}

/// Copies the sectors from `at` on.
pub fn copy_out(map: &BTreeMap<u64, [u8; 512]>, at: u64, out: &mut [u8])
    requires whole { length out.old % 512 ≡ 0 }
    requires fits { at + length out.old / 512 < 2 ^ 64 }
    ensures { (i : ℕ) → i < length out.old → slice_index out.new i ≡ slice_index (stored map.now (at + i / 512)) (i % 512) }
{
    for k in 0..out.len() / 512 {
        let bytes = sector_at(map, at + k as u64);
        out[512 * k..512 * k + 512].copy_from_slice(&bytes);
    }
}

/// Makes room for the sectors from `at` on, and changes none.
pub fn make_room(map: &mut BTreeMap<u64, [u8; 512]>, at: u64, count: u64) -> Result<(), AllocError>
    requires { at + count < 2 ^ 64 }
    ensures same { (s : ℕ) → stored map.new s ≡ stored map.old s }
    ensures keys { (s : ℕ) → get nat_cmp map.new s ≡ None → get nat_cmp map.old s ≡ None }
    ensures room { OnOk result ((s : ℕ) → at ≤ s → s < at + count → IsSome (get nat_cmp map.new s)) }
{
    for s in at..at + count {
        if map.get(&s).is_none() {
            map.insert(s, no_bytes())?;
        }
    }
    Ok(())
}

// Changes a sector that has room, and no other.
fn set_sector(map: &mut BTreeMap<u64, [u8; 512]>, s: u64, bytes: &[u8])
    requires { length bytes.now ≡ 512 }
    ensures here { IsSome (get nat_cmp map.old s) → get nat_cmp map.new s ≡ Some bytes.now }
    ensures absent { get nat_cmp map.old s ≡ None → get nat_cmp map.new s ≡ None }
    ensures others { (q : ℕ) → q ≢ s → get nat_cmp map.new q ≡ get nat_cmp map.old q }
{
    if let Some(sector) = map.get_mut(&s) {
        sector.copy_from_slice(bytes);
    }
}

/// Puts the bytes into the sectors from `at` on, for which there is room.
pub fn put(map: &mut BTreeMap<u64, [u8; 512]>, at: u64, bytes: &[u8])
    requires whole { length bytes.now % 512 ≡ 0 }
    requires fits { at + length bytes.now / 512 < 2 ^ 64 }
    requires room { (s : ℕ) → at ≤ s → s < at + length bytes.now / 512 → IsSome (get nat_cmp map.old s) }
    ensures put { (s : ℕ) → stored map.new s ≡ (if nat_le at s && nat_lt s (at + sectors_in bytes.now) then piece bytes.now (s - at) else stored map.old s) }
    ensures keys { (s : ℕ) → get nat_cmp map.new s ≡ None → get nat_cmp map.old s ≡ None }
{
    for k in 0..bytes.len() / 512 {
        set_sector(map, at + k as u64, &bytes[512 * k..512 * k + 512]);
    }
}

/// Puts zeros into the sectors from `at` on. It adds none to the map.
pub fn clear(map: &mut BTreeMap<u64, [u8; 512]>, at: u64, count: u64)
    requires { at + count < 2 ^ 64 }
    ensures put { (s : ℕ) → stored map.new s ≡ (if nat_le at s && nat_lt s (at + count) then zero_sector else stored map.old s) }
    ensures keys { (s : ℕ) → get nat_cmp map.new s ≡ None → get nat_cmp map.old s ≡ None }
{
    let zeros = no_bytes();
    for s in at..at + count {
        set_sector(map, s, &zeros);
    }
}
