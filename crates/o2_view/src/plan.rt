// Changes that are planned, and not written yet.
mod fresh;
mod overlay;

ghost use Rattle.std.specs.Prelude.{◌≡◌, ◌≢◌, ◌+◌, ◌<◌, ◌≤◌, ◌^◌, ℕ, List, All, Some, length, IfOk, IfSome, IfNone, OnOk, OnErr};
ghost use Rattle.std.specs.BTreeMap.{get};
ghost use Rattle.std.specs.List.Sorted.{IsStrictlySortedBy};
ghost use Rattle.std.specs.Map.{keys_of};
ghost use Rattle.std.specs.Map.Iter.{ShowsInOrder, deref_pair};
ghost use Rattle.std.specs.Ordering.{nat_cmp};
ghost use Rattle.o2_view.specs.Plans.{Planned, AreWhole, no_plan, with_home, with_fresh, with_zeros, home_at, planned_at};

use crate::{Block, RunSet};
use fresh::FreshBlocks;
use o2_disk::NoMemory;
pub use overlay::Overlay;
use std::alloc::{AllocError, Global};
use std::collections::BTreeMap;
use std::collections::btree_map::Iter;
use std::marker::Model;

/// Changes of blocks: fresh blocks, runs of zeros, and home blocks, which change through the log.
#[derive(Drop)]
pub struct Plan {
    fresh: FreshBlocks,
    zeros: RunSet,
    home: BTreeMap<u64, Block>,
}

impl Model for Plan {
    ghost use Rattle.o2_view.specs.Plans.{Planned};

    ghost Value = { Planned };

    ghost view = { λ plan. record { fresh = plan.fresh; zeros = plan.zeros; home = plan.home.entries } };
}

// The first of these blocks at number `from` or behind it.
fn first_from(blocks: &BTreeMap<u64, Block>, from: u64) -> Option<(u64, &Block)>
    ensures found { IfSome result (λ e. (from ≤ e.0) × (get nat_cmp blocks.now e.0 ≡ Some e.1.now)) }
    ensures first { IfSome result (λ e. (b : ℕ) (bytes : List ℕ) → get nat_cmp blocks.now b ≡ Some bytes → from ≤ b → e.0 ≤ b) }
    ensures none { IfNone result ((b : ℕ) (bytes : List ℕ) → get nat_cmp blocks.now b ≡ Some bytes → b < from) }
{
    match blocks.range(from..).next() {
        Some((b, block)) => Some((*b, block)),
        None => None,
    }
}

impl Plan {
    /// A plan of nothing.
    pub fn new(alloc: Global) -> Self
        ensures { result ≡ no_plan }
    {
        Plan {
            fresh: FreshBlocks::new(alloc),
            zeros: RunSet::new(alloc),
            home: BTreeMap::new(alloc),
        }
    }

    /// Plans the bytes of a home block.
    pub fn put_home(&mut self, b: u64, bytes: Block) -> Result<(), NoMemory>
        ensures ok { OnOk result (self.new ≡ with_home self.old b bytes) }
        ensures whole { (size : ℕ) → AreWhole size self.old → length bytes ≡ size → AreWhole size self.new }
        ensures here { OnOk result (home_at self.new b ≡ Some bytes) }
        ensures others { OnOk result ((c : ℕ) → c ≢ b → home_at self.new c ≡ home_at self.old c) }
        ensures err { OnErr result (self.new ≡ self.old) }
    {
        match self.home.insert(b, bytes) {
            Ok(_) => Ok(()),
            Err(_) => Err(NoMemory),
        }
    }

    /// Plans the bytes of a fresh block.
    pub fn put_fresh(&mut self, b: u64, bytes: Block) -> Result<(), NoMemory>
        ensures ok { OnOk result (self.new ≡ with_fresh self.old b bytes) }
        ensures err { OnErr result (self.new ≡ self.old) }
    {
        self.fresh.push(b, bytes)
    }

    /// Plans that blocks are cleared.
    pub fn put_zeros(&mut self, first: u64, count: u64) -> Result<(), NoMemory>
        requires { first + count < 2 ^ 64 }
        ensures ok { OnOk result (self.new ≡ with_zeros self.old first count) }
        ensures err { OnErr result (self.new ≡ self.old) }
    {
        self.zeros.push(first, count)
    }

    /// A copy of what it has for block b, of so many bytes.
    #[tactic(auto, unfolding(crate::specs::Plans::planned_at))]
    pub fn bytes_at(&self, alloc: Global, size: usize, b: u64) -> Result<Option<Block>, AllocError>
        ensures { IfOk result (λ found. found ≡ planned_at size self.now b) }
    {
        if let Some(block) = self.home.get(&b) {
            return Ok(Some(block.copy(alloc)?));
        }
        if let Some(block) = self.fresh.last(b) {
            return Ok(Some(block.copy(alloc)?));
        }
        if self.zeros.has(b) {
            return Ok(Some(Block::zeros(alloc, size)?));
        }
        Ok(None)
    }

    /// The fresh blocks, in the order in which they were planned. The last one of a number counts.
    pub fn fresh_blocks(&self) -> &[(u64, Block)]
        ensures { result.now ≡ self.now.fresh }
    {
        self.fresh.as_slice()
    }

    /// The runs of blocks that are cleared, each by its first block and how many there are, in the order in which they were planned.
    pub fn zero_runs(&self) -> &[(u64, u64)]
        ensures items { result.now ≡ self.now.zeros }
        ensures ends { All (λ run. run.0 + run.1 < 2 ^ 64) self.now.zeros }
    {
        self.zeros.as_slice()
    }

    /// The home blocks, by rising block.
    pub fn home_blocks(&self) -> Iter<'_, u64, Block>
        ensures items { result ≡ self.now.home }
        ensures rise { IsStrictlySortedBy nat_cmp (keys_of self.now.home) }
        ensures runs { ShowsInOrder (deref_pair {K = ℕ} {X = List ℕ}) }
    {
        self.home.iter()
    }
}
