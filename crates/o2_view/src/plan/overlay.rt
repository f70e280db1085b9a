// What closed plans have, laid over one another.
ghost use Rattle.std.specs.Prelude.{◌≡◌, ◌≢◌, ◌+◌, ◌<◌, ◌≤◌, ◌^◌, ℕ, length, All, if◌then◌else◌, true, false, Some, None, IfOk, OnOk, OnErr};
ghost use Rattle.std.specs.BTreeMap.{get, values};
ghost use Rattle.std.specs.Option.{option_or};
ghost use Rattle.std.specs.Ordering.{nat_cmp};
ghost use Rattle.o2_view.specs.Plans.{AreWhole, no_plan, home_at, fresh_at, is_in_run, is_in_runs, zero_block, planned_at};

use super::{Plan, first_from};
use crate::{Block, RunSet};
use o2_disk::NoMemory;
use std::alloc::{AllocError, Global};
use std::collections::BTreeMap;
use std::marker::Model;

/// What the last of the plans that has a block has for it. A piece or a look-up takes as many steps as the logarithm of how much
/// there is, however many plans it came from.
#[derive(Drop)]
pub struct Overlay {
    // A block here is not cleared, though one of the runs may have it: that is older.
    blocks: BTreeMap<u64, Block>,
    zeros: RunSet,
}

impl Model for Overlay {
    ghost use Rattle.std.specs.Prelude.{[]};
    ghost use Rattle.o2_view.specs.Plans.{Planned};

    ghost Value = { Planned };

    ghost view = { λ overlay. record { fresh = []; zeros = overlay.zeros; home = overlay.blocks.entries } };
}

// Drops the blocks from `first` up to `end`. A block comes once and goes once, so the steps are paid when it comes.
fn drop_blocks(blocks: &mut BTreeMap<u64, Block>, first: u64, end: u64)
    ensures gone { (b : ℕ) → first ≤ b → b < end → get nat_cmp blocks.new b ≡ None }
    ensures others { (b : ℕ) → (first ≤ b → end ≤ b) → get nat_cmp blocks.new b ≡ get nat_cmp blocks.old b }
    ensures whole { (size : ℕ) → All (λ bytes. length bytes ≡ size) (values blocks.old) → All (λ bytes. length bytes ≡ size) (values blocks.new) }
{
    while let Some((b, _)) = first_from(blocks, first) {
        if end <= b {
            return;
        }
        blocks.remove(&b);
    }
}

impl Overlay {
    /// An overlay of nothing.
    pub fn new(alloc: Global) -> Self
        ensures { result ≡ no_plan }
    {
        Overlay {
            blocks: BTreeMap::new(alloc),
            zeros: RunSet::new(alloc),
        }
    }

    // Puts the bytes of block b over what it has.
    fn put_block(&mut self, b: u64, bytes: Block) -> Result<(), NoMemory>
        ensures here { OnOk result ((size : ℕ) → planned_at size self.new b ≡ Some bytes) }
        ensures others { OnOk result ((size c : ℕ) → c ≢ b → planned_at size self.new c ≡ planned_at size self.old c) }
        ensures whole { (size : ℕ) → AreWhole size self.old → length bytes ≡ size → AreWhole size self.new }
        ensures err { OnErr result (self.new ≡ self.old) }
    {
        match self.blocks.insert(b, bytes) {
            Ok(_) => Ok(()),
            Err(_) => Err(NoMemory),
        }
    }

    // Clears `count` blocks from `first` on.
    fn put_zeros(&mut self, first: u64, count: u64) -> Result<(), NoMemory>
        requires { first + count < 2 ^ 64 }
        ensures here { OnOk result ((size c : ℕ) → is_in_run c (first, count) ≡ true → planned_at size self.new c ≡ Some (zero_block size)) }
        ensures others { OnOk result ((size c : ℕ) → is_in_run c (first, count) ≡ false → planned_at size self.new c ≡ planned_at size self.old c) }
        ensures whole { (size : ℕ) → AreWhole size self.old → AreWhole size self.new }
        ensures err { OnErr result (self.new ≡ self.old) }
    {
        self.zeros.push(first, count)?;
        drop_blocks(&mut self.blocks, first, first + count);
        Ok(())
    }

    // Lays the runs of zeros of a plan over what it has.
    fn lay_zeros(&mut self, plan: &Plan) -> Result<(), NoMemory>
        ensures laid { OnOk result ((size b : ℕ) → planned_at size self.new b ≡ if is_in_runs plan.now.zeros b then Some (zero_block size) else planned_at size self.old b) }
        ensures kept { (size b : ℕ) → is_in_runs plan.now.zeros b ≡ false → planned_at size self.new b ≡ planned_at size self.old b }
        ensures whole { (size : ℕ) → AreWhole size self.old → AreWhole size self.new }
    {
        for (first, count) in plan.zero_runs() {
            self.put_zeros(*first, *count)?;
        }
        Ok(())
    }

    // Lays the fresh blocks of a plan over what it has, so that the last one of a number stays.
    fn lay_fresh(&mut self, alloc: Global, plan: &Plan) -> Result<(), NoMemory>
        ensures laid { OnOk result ((size b : ℕ) → planned_at size self.new b ≡ option_or (fresh_at plan.now b) (planned_at size self.old b)) }
        ensures kept { (size b : ℕ) → fresh_at plan.now b ≡ None → planned_at size self.new b ≡ planned_at size self.old b }
        ensures whole { (size : ℕ) → AreWhole size plan.now → AreWhole size self.old → AreWhole size self.new }
    {
        for (b, block) in plan.fresh_blocks() {
            let Ok(bytes) = block.copy(alloc) else {
                return Err(NoMemory);
            };
            self.put_block(*b, bytes)?;
        }
        Ok(())
    }

    // Lays the home blocks of a plan over what it has.
    fn lay_home(&mut self, alloc: Global, plan: &Plan) -> Result<(), NoMemory>
        ensures laid { OnOk result ((size b : ℕ) → planned_at size self.new b ≡ option_or (home_at plan.now b) (planned_at size self.old b)) }
        ensures kept { (size b : ℕ) → home_at plan.now b ≡ None → planned_at size self.new b ≡ planned_at size self.old b }
        ensures whole { (size : ℕ) → AreWhole size plan.now → AreWhole size self.old → AreWhole size self.new }
    {
        for (b, block) in plan.home_blocks() {
            let Ok(bytes) = block.copy(alloc) else {
                return Err(NoMemory);
            };
            self.put_block(*b, bytes)?;
        }
        Ok(())
    }

    /// Lays a plan over what it has. Where there is no memory for all of it, it may have some of the plan.
    pub fn lay(&mut self, alloc: Global, plan: &Plan) -> Result<(), NoMemory>
        ensures laid { OnOk result ((size b : ℕ) → planned_at size self.new b ≡ option_or (planned_at size plan.now b) (planned_at size self.old b)) }
        ensures kept { (size b : ℕ) → planned_at size plan.now b ≡ None → planned_at size self.new b ≡ planned_at size self.old b }
        ensures whole { (size : ℕ) → AreWhole size plan.now → AreWhole size self.old → AreWhole size self.new }
    {
        self.lay_zeros(plan)?;
        self.lay_fresh(alloc, plan)?;
        self.lay_home(alloc, plan)?;
        Ok(())
    }

    /// A copy of what it has for block b, of so many bytes.
    #[tactic(auto, unfolding(crate::specs::Plans::planned_at))]
    pub fn bytes_at(&self, alloc: Global, size: usize, b: u64) -> Result<Option<Block>, AllocError>
        ensures { IfOk result (λ found. found ≡ planned_at size self.now b) }
    {
        if let Some(block) = self.blocks.get(&b) {
            return Ok(Some(block.copy(alloc)?));
        }
        if self.zeros.has(b) {
            return Ok(Some(Block::zeros(alloc, size)?));
        }
        Ok(None)
    }
}
