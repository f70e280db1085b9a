// Sums over the groups of each chain.
ghost use Rattle.std.specs.Prelude.{◌≡◌, ℕ, List, [], IfOk, OnOk, OnErr};
ghost use Rattle.o2_model.specs.Words.{push};
ghost use Rattle.o2_tables.specs.declared.groups.GroupRow.{GroupRow};
ghost use Rattle.o2_judges_alloc.specs.ChainSums.{sums_of, sums_over, AreSums};

use o2_disk::NoMemory;
use o2_tables::GroupRow;
use std::alloc::Global;
use std::collections::BTreeMap;

/// A chain of an allocator.
#[derive(Clone, Copy, Debug, PartialEq, Eq, PartialOrd, Ord)]
pub struct ChainKey {
    /// The block of the allocator's dinode.
    pub allocator: u64,
    /// The number of the chain.
    pub chain: usize,
}

/// What the groups of a chain have together, modulo 2^32.
#[derive(Clone, Copy, Debug, PartialEq, Eq)]
pub struct Bits {
    /// The sum of bg_free_bits_count.
    pub free: u32,
    /// The sum of bg_bits.
    pub total: u32,
}

/// What the groups of each chain have together.
#[derive(Drop)]
pub struct Sums {
    // Of each chain that has a group.
    chains: BTreeMap<ChainKey, Bits>,
}

impl Sums {
    /// There is no group yet.
    pub fn new(alloc: Global) -> Self
        ensures { AreSums [] result }
    {
        Sums {
            chains: BTreeMap::new(alloc),
        }
    }

    /// One group more. Where memory runs out, the sums are as before.
    pub fn add(&mut self, row: &GroupRow) -> Result<(), NoMemory>
        ensures ok { OnOk result ((rows : List GroupRow) → AreSums rows self.old → AreSums (push rows row.now) self.new) }
        ensures err { OnErr result ((rows : List GroupRow) → AreSums rows self.old → AreSums rows self.new) }
    {
        let key = ChainKey {
            allocator: row.group.of.block,
            chain: usize::from(row.group.chain),
        };
        let sum = self.of_chain(key);
        let more = Bits {
            free: sum.free.wrapping_add(u32::from(row.free_bits)),
            total: sum.total.wrapping_add(u32::from(row.group.bits)),
        };
        match self.chains.insert(key, more) {
            Ok(_) => Ok(()),
            Err(_) => Err(NoMemory),
        }
    }

    /// What the groups of the chain have together.
    pub fn of_chain(&self, key: ChainKey) -> Bits
        ensures kept { result ≡ sums_of self.now key }
        ensures told { (rows : List GroupRow) → AreSums rows self.now → result ≡ sums_over rows key }
    {
        match self.chains.get(&key) {
            Some(sum) => *sum,
            None => Bits { free: 0, total: 0 },
        }
    }
}

/// What the groups of each chain have together.
pub fn sums_of_groups(alloc: Global, groups: &[GroupRow]) -> Result<Sums, NoMemory>
    ensures { IfOk result (λ sums. AreSums groups.now sums) }
{
    let mut sums = Sums::new(alloc);
    for row in groups {
        sums.add(row)?;
    }
    Ok(sums)
}
