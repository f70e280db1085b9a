// What a crash left of each sector.
ghost use Rattle.std.specs.Prelude.{◌≡◌, ◌≢◌, ℕ, ◌+◌, ◌-◌, ◌*◌, ◌/◌, ◌%◌, ◌<◌, ◌≤◌, ◌^◌, length, nat_lt, if◌then◌else◌, Some, None, Option, IfOk, OnOk};
ghost use Rattle.std.specs.Ordering.{nat_cmp};
ghost use Rattle.std.specs.BTreeMap.{get};
ghost use Rattle.o2_disk.specs.Image.{zero_sector};
ghost use Rattle.o2_disk.specs.Stored.{stored};
ghost use Rattle.o2_disk.specs.Calls.{put_by, put_into, step, run, start, chosen, put_or_zeros};

use crate::maps::Maps;
use crate::sparse::{no_bytes, sector_at};
use crate::{Call, NoMemory};
use std::alloc::Global;
use std::collections::BTreeMap;

// Sector s of what is written from sector `at` on, where it is in it.
fn piece_at(at: u64, bytes: &[u8], s: u64) -> Option<[u8; 512]>
    ensures { result ≡ put_into at bytes.now s }
{
    if s < at || s - at >= (bytes.len() / 512) as u64 {
        return None;
    }
    let from = 512 * (s - at) as usize;
    let mut piece = no_bytes();
    piece.copy_from_slice(&bytes[from..from + 512]);
    Some(piece)
}

// What a call puts into sector s.
fn written_by(call: &Call, s: u64) -> Option<[u8; 512]>
    ensures { result ≡ put_by call.now s }
{
    match call {
        Call::Write { at, bytes } => piece_at(*at, bytes.as_slice(), s),
        Call::Zeros { at, sectors } => {
            if s >= *at && s - *at < *sectors {
                Some(no_bytes())
            } else {
                None
            }
        }
        Call::Read | Call::Sync | Call::FailedSync => None,
    }
}

// One call more, of those that may have changed sector s.
fn add_choice(choices: &mut Vec<[u8; 512]>, call: &Call, s: u64) -> Result<(), NoMemory>
    requires { 0 < length choices.old.items }
    ensures { OnOk result (choices.new.items ≡ step call.now (λ _. choices.old.items) s) }
{
    if let Call::Sync = call {
        let newest = choices[choices.len() - 1];
        choices.clear();
        return choices.push(newest).map_err(|_| NoMemory);
    }
    match written_by(call, s) {
        Some(bytes) => choices.push(bytes).map_err(|_| NoMemory),
        None => Ok(()),
    }
}

// What sector s may hold behind these calls, the oldest first.
fn choices_of(
    alloc: Global,
    base: &BTreeMap<u64, [u8; 512]>,
    calls: &[Call],
    s: u64,
) -> Result<Vec<[u8; 512]>, NoMemory>
    ensures { IfOk result (λ v. v.items ≡ run (start base.now) calls.now s) }
{
    let mut choices = Vec::new(alloc);
    if choices.push(sector_at(base, s)).is_err() {
        return Err(NoMemory);
    }
    for call in calls {
        add_choice(&mut choices, call, s)?;
    }
    Ok(choices)
}

// Which of v choices is taken at sector s.
fn number_of(choice: u64, s: u64, v: usize) -> usize
    requires { 0 < v }
    ensures value { result ≡ choice * (s + 1) % v }
    ensures below { result < v }
{
    (u128::from(choice) * (u128::from(s) + 1) % v as u128) as usize
}

// What is left of sector s.
fn left_of(
    alloc: Global,
    base: &BTreeMap<u64, [u8; 512]>,
    calls: &[Call],
    s: u64,
    choice: u64,
) -> Result<[u8; 512], NoMemory>
    ensures { IfOk result (λ b. b ≡ chosen choice s (run (start base.now) calls.now s)) }
{
    let choices = choices_of(alloc, base, calls, s)?;
    Ok(choices[number_of(choice, s, choices.len())])
}

/// What a crash behind these calls left, where no sector but those of the map `held` was ever anything but zeros.
pub fn stopped(
    alloc: Global,
    base: &BTreeMap<u64, [u8; 512]>,
    held: &BTreeMap<u64, [u8; 512]>,
    calls: &[Call],
    choice: u64,
) -> Result<Maps, NoMemory>
    requires untouched { (s : ℕ) → get nat_cmp held.now s ≡ None → stored base.now s ≡ zero_sector }
    requires touched { (s k : ℕ) → get nat_cmp held.now s ≡ None → k < length calls.now → put_or_zeros calls.now k s ≡ zero_sector }
    ensures { IfOk result (λ m. (s : ℕ) → stored m.base s ≡ chosen choice s (run (start base.now) calls.now s)) }
{
    let mut maps = Maps::new(alloc);
    for s in held.keys() {
        let bytes = left_of(alloc, base, calls, *s, choice)?;
        maps = maps.put(*s, bytes)?;
    }
    Ok(maps)
}

/// The first sectors of a map.
pub fn first(alloc: Global, held: &BTreeMap<u64, [u8; 512]>, limit: u64) -> Result<Maps, NoMemory>
    ensures { IfOk result (λ m. (s : ℕ) → stored m.base s ≡ (if nat_lt s limit then stored held.now s else zero_sector)) }
{
    let mut maps = Maps::new(alloc);
    for s in held.keys() {
        if *s >= limit {
            continue;
        }
        maps = maps.put(*s, sector_at(held, *s))?;
    }
    Ok(maps)
}
