// What a call leaves in the record, in the map and in a count.
ghost use Rattle.std.specs.Prelude.{◌≡◌, ℕ, ◌+◌, ◌-◌, ◌/◌, ◌%◌, ◌<◌, ◌≤◌, ◌^◌, min, [], ◌∷◌, ◌++◌, length, OnOk, OnErr, None, unwrap_or, IsTrue, IsFalse};
ghost use Rattle.std.specs.Ordering.{nat_cmp};
ghost use Rattle.std.specs.BTreeMap.{get};
ghost use Rattle.o2_disk.specs.Device.{Rose};
ghost use Rattle.o2_disk.specs.Stored.{stored};
ghost use Rattle.o2_disk.specs.Calls.{put_into, RecordsWrite};
ghost use Rattle.o2_disk.specs.declared.call.Call.{Call as AnyCall};
ghost use Rattle.o2_disk.specs.declared.call.Call.TheVariants.{Sync, FailedSync};

use crate::sparse::{are_zeros, clear, make_room, put};
use crate::{Call, NoMemory};
use std::alloc::{AllocError, AllocFailed, Global};
use std::collections::BTreeMap;

/// Counts one more, and stops at the last number.
pub fn raise(count: &mut u64)
    ensures rose { Rose count.old count.new }
    ensures later { count.old ≤ count.new }
    ensures next { count.new ≡ min (count.old + 1) (2 ^ 64 - 1) }
{
    *count = count.saturating_add(1);
}

/// Records a call.
pub fn note(calls: &mut Vec<Call>, call: Call) -> Result<(), NoMemory>
    ensures ok { OnOk result (calls.new.items ≡ calls.old.items ++ call ∷ []) }
    ensures err { OnErr result (calls.new.items ≡ calls.old.items) }
{
    match calls.push(call) {
        Ok(()) => Ok(()),
        Err(_) => Err(NoMemory),
    }
}

/// How a sync is recorded.
pub fn sync_call(fails: bool) -> Call
    ensures failed { IsTrue fails → result ≡ FailedSync }
    ensures done { IsFalse fails → result ≡ Sync }
{
    if fails { Call::FailedSync } else { Call::Sync }
}

/// Writes into the map and into the record, or changes neither: room that was made in the map holds zeros.
pub fn keep(
    alloc: Global,
    map: &mut BTreeMap<u64, [u8; 512]>,
    calls: &mut Vec<Call>,
    at: u64,
    bytes: &[u8],
) -> Result<(), NoMemory>
    requires whole { length bytes.now % 512 ≡ 0 }
    requires fits { at + length bytes.now / 512 < 2 ^ 64 }
    ensures recorded { OnOk result ((c : AnyCall) × (calls.new.items ≡ calls.old.items ++ c ∷ []) × RecordsWrite at bytes.now c) }
    ensures put { OnOk result ((s : ℕ) → stored map.new s ≡ unwrap_or (put_into at bytes.now s) (stored map.old s)) }
    ensures err { OnErr result ((calls.new.items ≡ calls.old.items) × ((s : ℕ) → stored map.new s ≡ stored map.old s)) }
    ensures keys { (s : ℕ) → get nat_cmp map.new s ≡ None → get nat_cmp map.old s ≡ None }
{
    let sectors = (bytes.len() / 512) as u64;
    if are_zeros(bytes) {
        note(calls, Call::Zeros { at, sectors })?;
        clear(map, at, sectors);
        return Ok(());
    }
    let Ok(()) = make_room(map, at, sectors) else {
        return Err(NoMemory);
    };
    let Ok(kept) = bytes.to_vec(alloc) else {
        return Err(NoMemory);
    };
    note(calls, Call::Write { at, bytes: kept })?;
    put(map, at, bytes);
    Ok(())
}
