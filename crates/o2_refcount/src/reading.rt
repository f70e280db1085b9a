// What was read of a refcount tree so far.
ghost use Rattle.std.specs.Prelude.{◌≡◌, ℕ, ◌+◌, ◌^◌, ◌<◌, true, List, [], OnOk};
ghost use Rattle.o2_model.specs.RefcountTrees.{Refcounts, is_sound_refcount};
ghost use Rattle.o2_model.specs.Volume.{Volume};
ghost use Rattle.o2_refcount.specs.Readings.{Keeps, nothing_read, with_record, with_fault};

use o2_disk::NoMemory;
use o2_extent::put;
use o2_model::{Geo, PlacedRefcount};
use o2_ondisk::RefcountRec;
use std::alloc::Global;

/// What was read of a refcount tree so far, in order.
#[derive(Debug, Drop)]
pub struct Reading {
    /// The records, each with the block that it stands in.
    pub records: Vec<PlacedRefcount>,
    /// The cluster behind the last of them.
    pub end: u64,
    /// The blocks that are no refcount blocks, or whose records are at fault.
    pub faults: Vec<u64>,
}

/// Nothing was read yet.
pub fn start(alloc: Global) -> Reading
    ensures { Keeps [] result nothing_read }
{
    Reading {
        records: Vec::new(alloc),
        end: 0,
        faults: Vec::new(alloc),
    }
}

/// Adds a record that stands in block b.
pub fn add_record(reading: &mut Reading, b: u64, r: &RefcountRec) -> Result<(), NoMemory>
    requires { r.now.cpos + r.now.clusters < 2 ^ 64 }
    ensures { OnOk result ((before : List ℕ) (t : Refcounts) → Keeps before reading.old t → Keeps before reading.new (with_record t b r.now)) }
{
    let record = PlacedRefcount {
        block: b,
        fields: *r,
    };
    put(&mut reading.records, record)?;
    reading.end = r.cpos + u64::from(r.clusters);
    Ok(())
}

/// Adds a block that is at fault.
pub fn add_fault(reading: &mut Reading, b: u64) -> Result<(), NoMemory>
    ensures { OnOk result ((before : List ℕ) (t : Refcounts) → Keeps before reading.old t → Keeps before reading.new (with_fault t b)) }
{
    put(&mut reading.faults, b)
}

/// Whether the record may follow those that end at cluster `low`.
#[tactic(auto, unfolding(o2_model::specs::RefcountTrees::is_sound_refcount))]
pub fn is_sound_record(geo: &Geo, low: u64, r: &RefcountRec) -> bool
    ensures test { (v : Volume) → v.geo ≡ geo.now → result ≡ is_sound_refcount v low r.now }
    ensures fits { result ≡ true → r.now.cpos + r.now.clusters < 2 ^ 64 }
{
    let cpos = r.cpos;
    let clusters = u64::from(r.clusters);
    let all = u64::from(geo.clusters);
    let is_within = clusters <= all && cpos <= all - clusters;
    low <= cpos && 0 < cpos && 0 < clusters && is_within && 0 < r.refcount
}
