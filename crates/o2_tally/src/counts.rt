// How often numbers come.
ghost use Rattle.std.specs.Prelude.{◌≡◌, ℕ, List, [], OnOk, OnErr};
ghost use Rattle.o2_model.specs.Words.{push};
ghost use Rattle.o2_model.specs.Files.{times_in};
ghost use Rattle.o2_tally.specs.Gathered.{count_of, IsCount};

use o2_disk::NoMemory;
use std::alloc::Global;
use std::collections::BTreeMap;

/// How often each number came.
#[derive(Drop)]
pub struct Counts {
    // Of each number that came, how often it did.
    times: BTreeMap<u64, u64>,
}

impl Counts {
    /// No number came yet.
    pub fn new(alloc: Global) -> Self
        ensures { IsCount [] result }
    {
        Counts {
            times: BTreeMap::new(alloc),
        }
    }

    /// One number more. NoMemory where memory runs out, or the number came as often as can be counted: 2^64 - 1 times. Then
    /// all counts are as before.
    pub fn add(&mut self, number: u64) -> Result<(), NoMemory>
        ensures ok { OnOk result ((ns : List ℕ) → IsCount ns self.old → IsCount (push ns number) self.new) }
        ensures err { OnErr result ((ns : List ℕ) → IsCount ns self.old → IsCount ns self.new) }
    {
        let Some(now) = self.count(number).checked_add(1) else {
            return Err(NoMemory);
        };
        match self.times.insert(number, now) {
            Ok(_) => Ok(()),
            Err(_) => Err(NoMemory),
        }
    }

    /// How often the number came.
    pub fn count(&self, number: u64) -> u64
        ensures kept { result ≡ count_of self.now number }
        ensures told { (ns : List ℕ) → IsCount ns self.now → result ≡ times_in ns number }
    {
        match self.times.get(&number) {
            Some(times) => *times,
            None => 0,
        }
    }
}
