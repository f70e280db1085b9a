// A disk that is read by blocks, under what is planned.
ghost use Rattle.std.specs.Prelude.{◌≡◌, ◌≢◌, ◌⊎◌, ◌+◌, ◌-◌, ◌*◌, ◌<◌, ◌≤◌, ◌^◌, ℕ, List, length, Option, IfOk, IfSome, IsOk, OnOk, OnErr, IsErrOf, Some, None};
ghost use Rattle.std.specs.Result.{IfErr};
ghost use Rattle.o2_disk.specs.Device.{Rose, SameDevice, ReadsOnly};
ghost use Rattle.o2_disk.specs.Image.{Image, block_at};
ghost use Rattle.o2_model.specs.Volume.{Volume, over};
ghost use Rattle.o2_model.specs.declared.geo.Geo.{Geo as Numbers};
ghost use Rattle.o2_view.specs.Counted.{CallsAtMost};
ghost use Rattle.o2_view.specs.Blocks.{AreBlocks, sectors_per_block};
ghost use Rattle.o2_view.specs.Plans.{AreWhole, no_plan, with_home, with_fresh, with_zeros, home_at, zero_block, IsUnplanned};

use crate::plan::Overlay;
use crate::{Block, Plan, ViewFault};
use o2_disk::{Disk, NoMemory};
use std::alloc::{AllocError, Global};
use std::mem;

/// A disk that is read by blocks, up to a number of them, as it will be once what is planned is written. It may keep N blocks
/// in memory, and keeps none so far.
#[derive(Drop)]
pub struct View<'a, D: Disk, const N: usize> {
    alloc: Global,
    disk: &'a mut D,
    block_bits: u32,
    blocks: u64,
    plan: Plan,
    // The plans that were closed, a later one over those before it.
    closed: Overlay,
    pub ghost sized: { AreBlocks block_bits blocks (D.state disk.now).sectors },
    pub ghost whole: { AreWhole (2 ^ block_bits) plan },
    pub ghost closed_whole: { AreWhole (2 ^ block_bits) closed },
}

impl<'a, D: Disk, const N: usize> View<'a, D, N> {
    ghost use Rattle.o2_view.specs.Views.{view_disk, view_state, view_bits, view_blocks, view_plan, closed_at, changed_at, HasRoom, Shows, SameView, OnlyReads, OnlyPlans, SameDisk, with_block, with_run};
    ghost use Rattle.o2_view.specs.OwnChecks.{BlockFails};

    /// A view of so many blocks of 2^`block_bits` bytes, with nothing planned. It takes no memory, so it answers Ok.
    pub fn new(
        alloc: Global,
        disk: &'a mut D,
        block_bits: u32,
        blocks: u64,
    ) -> Result<Self, NoMemory>
        requires least { 9 ≤ block_bits }
        requires most { block_bits ≤ 12 }
        requires within { sectors_per_block block_bits * blocks ≤ (D.state disk.old).sectors }
        requires some { 1 ≤ N }
        ensures bits { IfOk result (λ view. view_bits view ≡ block_bits) }
        ensures blocks { IfOk result (λ view. view_blocks view ≡ blocks) }
        ensures disk { IfOk result (λ view. (view_disk view).now ≡ disk.old) }
        ensures lent { IfOk result (λ view. (view_disk view).ghost_name ≡ disk.entry.ghost_name) }
        ensures plan { IfOk result (λ view. view_plan view ≡ no_plan) }
        ensures closed { IfOk result (λ view. (b : ℕ) → closed_at view b ≡ None) }
        ensures succeeds { IsOk result }
    {
        let _sectors = disk.sectors();
        Ok(View {
            alloc,
            disk,
            block_bits,
            blocks,
            plan: Plan::new(alloc),
            closed: Overlay::new(alloc),
        })
    }

    /// Ends the view and gives its disk back, so that it is known what the view left of it.
    pub fn into_disk(self) -> &'a mut D
        ensures same { result.ghost_name ≡ (view_disk self.entry).ghost_name }
        ensures now { result.now ≡ (view_disk self.entry).now }
    {
        let View { disk, .. } = self;
        disk
    }

    /// How many blocks it reads: those below this number.
    pub fn blocks(&self) -> u64
        ensures { result ≡ view_blocks self.now }
    {
        self.blocks
    }

    /// What is planned.
    pub fn planned(&self) -> &Plan
        ensures { result.now ≡ view_plan self.now }
    {
        &self.plan
    }

    /// The bytes of block b of the device.
    fn read_block(&mut self, b: u64) -> Result<Block, ViewFault>
        requires { b < view_blocks self.old }
        ensures bytes { IfOk result (λ block. (I : Image) → (view_state self.old).content ≡ Some I → block ≡ block_at (2 ^ view_bits self.old) I b) }
        ensures length { IfOk result (λ block. length block ≡ 2 ^ view_bits self.old) }
        ensures count { CallsAtMost 1 (view_state self.old) (view_state self.new) }
        ensures reads { OnlyReads self.old self.new }
        ensures fails { IfErr result (BlockFails self.old self.new) }
        ensures no_fault { OnOk result ((view_state self.new).faults ≡ (view_state self.old).faults) }
    {
        let size = 1usize << self.block_bits;
        let mut bytes = Vec::with_capacity(self.alloc, size)?;
        bytes.resize(size, 0)?;
        let per_block = 1u64 << (self.block_bits - 9);
        self.disk.read(b * per_block, &mut bytes)?;
        Ok(Block::from(bytes))
    }

    /// The bytes of block b: those planned, else those of the last closed plan that has the block, else those of the device.
    pub fn block(&mut self, b: u64) -> Result<Block, ViewFault>
        requires { b < view_blocks self.old }
        ensures shown { IfOk result (λ block. (geo : Numbers) (v : Volume) → Shows self.old geo v → block ≡ v.at b) }
        ensures changed { IfOk result (λ block. (bytes : List ℕ) → changed_at self.old b ≡ Some bytes → block ≡ bytes) }
        ensures length { IfOk result (λ block. length block ≡ 2 ^ view_bits self.old) }
        ensures count { CallsAtMost 1 (view_state self.old) (view_state self.new) }
        ensures reads { OnlyReads self.old self.new }
        ensures fails { IfErr result (BlockFails self.old self.new) }
        ensures no_fault { OnOk result ((view_state self.new).faults ≡ (view_state self.old).faults) }
    {
        match self.changed_bytes(b)? {
            Some(block) => Ok(block),
            None => self.read_block(b),
        }
    }

    /// Plans the bytes of a home block, in place of those that were planned for it.
    pub fn home(&mut self, b: u64, bytes: &[u8]) -> Result<(), NoMemory>
        requires room { HasRoom self.old (b + 1) }
        requires whole { length bytes.now ≡ 2 ^ view_bits self.old }
        ensures ok { OnOk result (view_plan self.new ≡ with_home (view_plan self.old) b bytes.now) }
        ensures err { OnErr result (view_plan self.new ≡ view_plan self.old) }
        ensures shown { OnOk result ((geo : Numbers) (v : Volume) → Shows self.old geo v → Shows self.new geo (over v (with_block b bytes.now v.at))) }
        ensures plans { OnlyPlans self.old self.new }
    {
        let block = match Block::of_bytes(self.alloc, bytes) {
            Ok(block) => block,
            Err(_) => return Err(NoMemory),
        };
        self.plan.put_home(b, block)?;
        Ok(())
    }

    /// Plans the bytes of a block of free space.
    pub fn fresh(&mut self, b: u64, bytes: &[u8]) -> Result<(), NoMemory>
        requires room { HasRoom self.old (b + 1) }
        requires whole { length bytes.now ≡ 2 ^ view_bits self.old }
        ensures ok { OnOk result (view_plan self.new ≡ with_fresh (view_plan self.old) b bytes.now) }
        ensures err { OnErr result (view_plan self.new ≡ view_plan self.old) }
        ensures shown { OnOk result (home_at (view_plan self.old) b ≡ None
            → (geo : Numbers) (v : Volume) → Shows self.old geo v → Shows self.new geo (over v (with_block b bytes.now v.at))) }
        ensures plans { OnlyPlans self.old self.new }
    {
        let block = match Block::of_bytes(self.alloc, bytes) {
            Ok(block) => block,
            Err(_) => return Err(NoMemory),
        };
        self.plan.put_fresh(b, block)?;
        Ok(())
    }

    /// Plans that `count` blocks from `first` on are cleared.
    pub fn zeros(&mut self, first: u64, count: u64) -> Result<(), NoMemory>
        requires room { HasRoom self.old (first + count) }
        ensures ok { OnOk result (view_plan self.new ≡ with_zeros (view_plan self.old) first count) }
        ensures err { OnErr result (view_plan self.new ≡ view_plan self.old) }
        ensures shown { OnOk result (IsUnplanned (view_plan self.old) first count
            → (geo : Numbers) (v : Volume) → Shows self.old geo v → Shows self.new geo (over v (with_run first count (zero_block (2 ^ view_bits self.old)) v.at))) }
        ensures plans { OnlyPlans self.old self.new }
    {
        let _sectors = self.disk.sectors();
        self.plan.put_zeros(first, count)?;
        Ok(())
    }

    /// Hands out the plan and leaves an empty one, over the bare device.
    pub fn take_plan(&mut self) -> Plan
        ensures taken { result ≡ view_plan self.old }
        ensures plan { view_plan self.new ≡ no_plan }
        ensures closed { (b : ℕ) → closed_at self.new b ≡ None }
        ensures same { SameDisk self.old self.new }
    {
        self.closed = Overlay::new(self.alloc);
        mem::replace(&mut self.plan, Plan::new(self.alloc))
    }

    /// Hands out the plan and leaves an empty one, over the device as if that held the bytes of the plan.
    pub fn close_plan(&mut self) -> Result<Plan, NoMemory>
        ensures closed { IfOk result (λ plan. plan ≡ view_plan self.old) }
        ensures plan { OnOk result (view_plan self.new ≡ no_plan) }
        ensures under { OnOk result ((b : ℕ) → closed_at self.new b ≡ changed_at self.old b) }
        ensures err { OnErr result (SameView self.old self.new) }
        ensures shown { (geo : Numbers) (v : Volume) → Shows self.old geo v → Shows self.new geo v }
        ensures same { SameDisk self.old self.new }
    {
        // While memory may end, the plan still stands above the pieces of it that were laid.
        self.closed.lay(self.alloc, &self.plan)?;
        Ok(mem::replace(&mut self.plan, Plan::new(self.alloc)))
    }

    // How many bytes a block has.
    fn block_size(&self) -> usize
        ensures { result ≡ 2 ^ view_bits self.now }
    {
        1usize << self.block_bits
    }

    // A copy of what the plans have for block b.
    fn changed_bytes(&self, b: u64) -> Result<Option<Block>, AllocError>
        ensures found { IfOk result (λ found. found ≡ changed_at self.now b) }
        ensures length { IfOk result (λ found. IfSome found (λ block. length block ≡ 2 ^ view_bits self.now)) }
    {
        let size = self.block_size();
        match self.plan.bytes_at(self.alloc, size, b)? {
            Some(block) => Ok(Some(block)),
            None => self.closed.bytes_at(self.alloc, size, b),
        }
    }
}
