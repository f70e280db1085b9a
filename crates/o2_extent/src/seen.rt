// The blocks that a reading looked at.
ghost use Rattle.std.specs.Prelude.{◌≡◌, [], is_ok, if◌then◌else◌};
ghost use Rattle.o2_model.specs.Words.{among, push};

use o2_disk::NoMemory;
use std::alloc::Global;
use std::collections::BTreeSet;
use std::marker::Model;

/// Blocks in the order in which they were looked at.
#[derive(Debug, Drop)]
pub struct SeenBlocks {
    blocks: Vec<u64>,
    // The same blocks, by number.
    table: BTreeSet<u64>,
}

impl Model for SeenBlocks {
    ghost use Rattle.std.specs.Prelude.{◌≡◌, ℕ, List};
    ghost use Rattle.std.specs.BTreeSet.{contains};
    ghost use Rattle.std.specs.Ordering.{nat_cmp};
    ghost use Rattle.o2_model.specs.Words.{among};

    ghost Value = { List ℕ };

    ghost view = { λ seen. seen.blocks.items };

    ghost invariant = { λ seen. (b : ℕ) → contains nat_cmp seen.table b ≡ among seen.blocks.items b };
}

impl SeenBlocks {
    /// No block was looked at.
    pub fn new(alloc: Global) -> Self
        ensures { result ≡ [] }
    {
        SeenBlocks {
            blocks: Vec::new(alloc),
            table: BTreeSet::new(alloc),
        }
    }

    /// One block more.
    pub fn push(&mut self, b: u64) -> Result<(), NoMemory>
        ensures { self.new ≡ (if is_ok result then push self.old b else self.old) }
    {
        let Ok(()) = self.blocks.push(b) else {
            return Err(NoMemory);
        };
        let Ok(_) = self.table.insert(b) else {
            self.blocks.pop();
            return Err(NoMemory);
        };
        Ok(())
    }

    /// Whether the block was looked at.
    pub fn has(&self, b: u64) -> bool
        ensures { result ≡ among self.now b }
    {
        self.table.contains(&b)
    }
}
