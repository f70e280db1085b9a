// The two maps of a disk that no call has reached yet.
ghost use Rattle.std.specs.Prelude.{◌≡◌, ◌≢◌, ℕ, IfOk, OnOk};
ghost use Rattle.o2_disk.specs.Image.{IsSector, zero_sector};
ghost use Rattle.o2_disk.specs.Stored.{stored};

use crate::NoMemory;
use std::alloc::Global;
use std::collections::BTreeMap;

/// Two maps that hold the same.
#[derive(Drop)]
pub struct Maps {
    pub base: BTreeMap<u64, [u8; 512]>,
    pub held: BTreeMap<u64, [u8; 512]>,
    ghost same: { (s : ℕ) → stored held s ≡ stored base s },
    ghost sound: { (s : ℕ) → IsSector (stored held s) },
}

impl Maps {
    pub fn new(alloc: Global) -> Maps
        ensures { (s : ℕ) → stored result.base s ≡ zero_sector }
    {
        Maps {
            base: BTreeMap::new(alloc),
            held: BTreeMap::new(alloc),
        }
    }

    /// Puts one sector into both, or lets both go.
    pub fn put(self, s: u64, bytes: [u8; 512]) -> Result<Maps, NoMemory>
        ensures here { IfOk result (λ m. stored m.base s ≡ bytes) }
        ensures others { IfOk result (λ m. (q : ℕ) → q ≢ s → stored m.base q ≡ stored self.base q) }
    {
        let Maps { mut base, mut held } = self;
        if base.insert(s, bytes).is_err() || held.insert(s, bytes).is_err() {
            return Err(NoMemory);
        }
        Ok(Maps { base, held })
    }
}
