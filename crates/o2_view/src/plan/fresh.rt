// Blocks of free space with their bytes.
ghost use Rattle.std.specs.Prelude.{◌≡◌, [], ◌∷◌, ◌++◌, OnOk, OnErr, option_copied};
ghost use Rattle.o2_view.specs.Plans.{last_of};

use crate::Block;
use o2_disk::NoMemory;
use std::alloc::Global;
use std::collections::BTreeMap;
use std::marker::Model;

/// Blocks with their bytes, in the order in which they were planned. The last one of a number counts.
#[derive(Drop)]
pub struct FreshBlocks {
    blocks: Vec<(u64, Block)>,
    // The place of the last one of each number.
    places: BTreeMap<u64, usize>,
}

impl Model for FreshBlocks {
    ghost use Rattle.std.specs.Prelude.{ℕ, List};
    ghost use Rattle.std.specs.Ordering.{nat_cmp};
    ghost use Rattle.std.specs.BTreeMap.{get};
    ghost use Rattle.o2_view.specs.Indexes.{AreLast};

    ghost Value = { List (ℕ × List ℕ) };

    ghost view = { λ fresh. fresh.blocks.items };

    ghost invariant = { λ fresh. AreLast fresh.blocks.items (get nat_cmp fresh.places) };
}

impl FreshBlocks {
    pub fn new(alloc: Global) -> Self
        ensures { result ≡ [] }
    {
        FreshBlocks {
            blocks: Vec::new(alloc),
            places: BTreeMap::new(alloc),
        }
    }

    /// One block more.
    pub fn push(&mut self, b: u64, block: Block) -> Result<(), NoMemory>
        ensures ok { OnOk result (self.new ≡ self.old ++ (b, block) ∷ []) }
        ensures err { OnErr result (self.new ≡ self.old) }
    {
        let place = self.blocks.len();
        let Ok(()) = self.blocks.push((b, block)) else {
            return Err(NoMemory);
        };
        let Ok(_) = self.places.insert(b, place) else {
            self.blocks.pop();
            return Err(NoMemory);
        };
        Ok(())
    }

    /// The last one of this number.
    pub fn last(&self, b: u64) -> Option<&Block>
        ensures { option_copied result ≡ last_of self.now b }
    {
        match self.places.get(&b) {
            Some(place) => Some(&self.blocks[*place].1),
            None => None,
        }
    }

    /// All of them.
    pub fn as_slice(&self) -> &[(u64, Block)]
        ensures { result.now ≡ self.now }
    {
        &self.blocks
    }
}
