// How often each hash comes in each block.
ghost use Rattle.std.specs.Prelude.{◌≡◌, List, [], IfOk, OnOk, OnErr};
ghost use Rattle.o2_model.specs.Words.{push};
ghost use Rattle.o2_indexes.specs.Places.{times_at, ArePlaceCounts};

use o2_disk::NoMemory;
use std::alloc::Global;
use std::collections::BTreeMap;

/// The hash of a name, and the block that its entry stands in.
#[derive(Clone, Copy, Debug, PartialEq, Eq, PartialOrd, Ord)]
pub struct HashedPlace {
    pub block: u64,
    pub major: u32,
    pub minor: u32,
}

/// How often each hash comes in each block.
#[derive(Drop)]
pub struct PlaceCounts {
    // Of each hash that came in a block, how often it did.
    times: BTreeMap<HashedPlace, u64>,
}

impl PlaceCounts {
    /// No hash came yet.
    pub fn new(alloc: Global) -> Self
        ensures { ArePlaceCounts [] result }
    {
        PlaceCounts {
            times: BTreeMap::new(alloc),
        }
    }

    /// One hash more. NoMemory where memory runs out, or it came as often in that block as can be counted: 2^64 - 1 times. Then
    /// all counts are as before.
    pub fn add(&mut self, place: HashedPlace) -> Result<(), NoMemory>
        ensures ok { OnOk result ((ps : List HashedPlace) → ArePlaceCounts ps self.old → ArePlaceCounts (push ps place) self.new) }
        ensures err { OnErr result ((ps : List HashedPlace) → ArePlaceCounts ps self.old → ArePlaceCounts ps self.new) }
    {
        let Some(now) = self.count(place).checked_add(1) else {
            return Err(NoMemory);
        };
        match self.times.insert(place, now) {
            Ok(_) => Ok(()),
            Err(_) => Err(NoMemory),
        }
    }

    /// How often the hash came in the block.
    pub fn count(&self, place: HashedPlace) -> u64
        ensures { result ≡ times_at self.now place }
    {
        match self.times.get(&place) {
            Some(times) => *times,
            None => 0,
        }
    }
}

/// How often each of these came.
pub fn count_places(alloc: Global, places: &[HashedPlace]) -> Result<PlaceCounts, NoMemory>
    ensures { IfOk result (λ counts. ArePlaceCounts places.now counts) }
{
    let mut counts = PlaceCounts::new(alloc);
    for place in places {
        counts.add(*place)?;
    }
    Ok(counts)
}
