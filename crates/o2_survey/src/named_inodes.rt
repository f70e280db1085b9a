// The inodes that entries of the system directory but the dots name, each read once.
ghost use Rattle.std.specs.Prelude.{◌≡◌, ◌==◌, ◌^◌, ◌≤◌, ℕ, List, true, false, length, Some, if◌then◌else◌, IfOk, OnOk, MatchOption};
ghost use Rattle.std.specs.BTreeMap.{get};
ghost use Rattle.std.specs.Option.{IfSome};
ghost use Rattle.std.specs.Ordering.{nat_cmp};
ghost use Rattle.std.specs.Result.{IfErr};
ghost use Rattle.o2_model.specs.Directories.{is_dot};
ghost use Rattle.o2_model.specs.Words.{push};
ghost use Rattle.o2_model.specs.Volume.{Volume, is_in_range};
ghost use Rattle.o2_view.specs.Counted.{CallsAtMost};
ghost use Rattle.o2_view.specs.Geos.{HasSizes, LiesIn, Reaches};
ghost use Rattle.o2_view.specs.OwnChecks.{BlockFails};
ghost use Rattle.o2_view.specs.Views.{view_state, Shows, OnlyReads};
ghost use Rattle.o2_survey.specs.SystemInodes.{AreRead, AreSystemInodes, named_by};

use crate::SystemNames;
use crate::roles::inodes_with_roles;
use crate::system_inode::{SystemInode, system_inode_in};
use o2_dir::is_dot_entry;
use o2_disk::{Disk, NoMemory};
use o2_extent::{block_bytes, is_block_in_range, look};
use o2_model::{Entry, Geo};
use o2_view::{Block, View, ViewFault};
use std::alloc::Global;
use std::collections::{BTreeMap, BTreeSet};

/// What the dinodes of the volume's own inodes say, and the blocks of those that are read further for what their names tell.
#[derive(Drop)]
pub struct SystemInodes {
    rows: BTreeMap<u64, SystemInode>,
    blocks: BTreeMap<u64, Block>,
}

fn put_row(rows: &mut BTreeMap<u64, SystemInode>, b: u64, row: SystemInode) -> Result<(), NoMemory>
    ensures { OnOk result ((c : ℕ) → get nat_cmp rows.new c ≡ (if b == c then Some row else get nat_cmp rows.old c)) }
{
    match rows.insert(b, row) {
        Ok(_) => Ok(()),
        Err(_) => Err(NoMemory),
    }
}

fn put_block(blocks: &mut BTreeMap<u64, Block>, b: u64, block: Block) -> Result<(), NoMemory>
    ensures { OnOk result ((c : ℕ) → get nat_cmp blocks.new c ≡ (if b == c then Some block else get nat_cmp blocks.old c)) }
{
    match blocks.insert(b, block) {
        Ok(_) => Ok(()),
        Err(_) => Err(NoMemory),
    }
}

/// Adds what block b says, and the block itself where it is one of these.
fn add_read(
    geo: &Geo,
    roles: &BTreeSet<u64>,
    b: u64,
    block: Block,
    inodes: &mut SystemInodes,
) -> Result<(), NoMemory>
    requires sizes { HasSizes geo.now }
    requires long { 512 ≤ length block }
    ensures { OnOk result ((v : Volume) → v.geo ≡ geo.now → block ≡ v.at b → is_in_range v b ≡ true → (named : List ℕ)
        → AreSystemInodes v named inodes.old → AreSystemInodes v (push named b) inodes.new) }
{
    put_row(
        &mut inodes.rows,
        b,
        system_inode_in(geo, b, block.as_slice()),
    )?;
    if roles.contains(&b) {
        put_block(&mut inodes.blocks, b, block)?;
    }
    Ok(())
}

/// Adds an inode. One out of range is not looked at, nor is one that was met before.
fn add_inode<D: Disk, const N: usize>(
    view: &mut View<'_, D, N>,
    geo: &Geo,
    roles: &BTreeSet<u64>,
    b: u64,
    inodes: &mut SystemInodes,
) -> Result<(), ViewFault>
    requires { LiesIn geo.now view.old }
    ensures added { OnOk result ((v : Volume) → Shows view.old geo.now v → (named : List ℕ)
        → AreSystemInodes v named inodes.old → AreSystemInodes v (push named b) inodes.new) }
    ensures count { CallsAtMost 1 (view_state view.old) (view_state view.new) }
    ensures reads { OnlyReads view.old view.new }
    ensures fails { IfErr result (BlockFails view.old view.new) }
{
    if !is_block_in_range(geo, b) || inodes.rows.contains_key(&b) {
        return Ok(());
    }
    let block = look(view, geo, b)?;
    add_read(geo, roles, b, block, inodes)?;
    Ok(())
}

/// Adds the inode that the entry names, unless it is a dot.
fn add_entry<D: Disk, const N: usize>(
    view: &mut View<'_, D, N>,
    geo: &Geo,
    roles: &BTreeSet<u64>,
    entry: &Entry,
    inodes: &mut SystemInodes,
) -> Result<(), ViewFault>
    requires { LiesIn geo.now view.old }
    ensures dot { OnOk result (is_dot entry.now ≡ true → inodes.new ≡ inodes.old) }
    ensures added { OnOk result ((v : Volume) → Shows view.old geo.now v → is_dot entry.now ≡ false → (named : List ℕ)
        → AreSystemInodes v named inodes.old → AreSystemInodes v (push named entry.now.inode) inodes.new) }
    ensures count { CallsAtMost (if is_dot entry.now then 0 else 1) (view_state view.old) (view_state view.new) }
    ensures reads { OnlyReads view.old view.new }
    ensures fails { IfErr result (BlockFails view.old view.new) }
{
    if is_dot_entry(entry) {
        return Ok(());
    }
    add_inode(view, geo, roles, entry.inode, inodes)?;
    Ok(())
}

/// The inodes that these entries of the system directory but the dots name: each is read once, however often it is named. The
/// blocks of allocators, journals, local allocs, truncate logs and the slot map are kept. NoMemory where memory runs out,
/// DeviceFault where a read fails.
pub fn system_inodes<D: Disk, const N: usize>(
    alloc: Global,
    view: &mut View<'_, D, N>,
    geo: &Geo,
    names: &SystemNames,
    entries: &[Entry],
) -> Result<SystemInodes, ViewFault>
    requires { LiesIn geo.now view.old }
    ensures told { IfOk result (λ inodes. (v : Volume) → Shows view.old geo.now v → AreSystemInodes v (named_by entries.now) inodes) }
    ensures count { CallsAtMost (length (named_by entries.now)) (view_state view.old) (view_state view.new) }
    ensures reads { OnlyReads view.old view.new }
    ensures fails { IfErr result (BlockFails view.old view.new) }
{
    let roles = inodes_with_roles(alloc, geo, names)?;
    let mut inodes = SystemInodes {
        rows: BTreeMap::new(alloc),
        blocks: BTreeMap::new(alloc),
    };
    for entry in entries {
        add_entry(view, geo, &roles, entry, &mut inodes)?;
    }
    Ok(inodes)
}

impl SystemInodes {
    ghost use Rattle.o2_model.specs.Words.{among};
    ghost use Rattle.o2_survey.specs.SystemInodes.{IsSystemInode};

    /// What the dinode of the inode says. None where it is out of range, or no entry but a dot names it.
    pub fn row_of(&self, b: u64) -> Option<SystemInode>
        ensures row { result ≡ get nat_cmp self.now.rows b }
        ensures told { (v : Volume) (named : List ℕ) → AreSystemInodes v named self.now → among named b ≡ true
            → MatchOption result (is_in_range v b ≡ false) (IsSystemInode v b) }
        ensures inside { (v : Volume) → AreRead v self.now → IfSome result (λ row. is_in_range v b ≡ true) }
    {
        self.rows.get(&b).copied()
    }

    /// The block, where it is kept and has so many bytes.
    fn kept(&self, b: u64, bytes: u64) -> Option<&Block>
        ensures is { IfSome result (λ block. get nat_cmp self.now.blocks b ≡ Some block.now) }
        ensures size { IfSome result (λ block. length block.now ≡ bytes) }
    {
        let block = self.blocks.get(&b)?;
        if block.as_slice().len() as u64 != bytes {
            return None;
        }
        Some(block)
    }
}

/// The bytes of block b: those that are kept, or else the volume's.
pub fn block_of<D: Disk, const N: usize>(
    alloc: Global,
    view: &mut View<'_, D, N>,
    geo: &Geo,
    inodes: &SystemInodes,
    b: u64,
) -> Result<Block, ViewFault>
    requires { Reaches geo.now view.old b }
    ensures bytes { IfOk result (λ block. (v : Volume) → Shows view.old geo.now v → AreRead v inodes.now → block ≡ v.at b) }
    ensures size { IfOk result (λ block. length block ≡ 2 ^ geo.now.block_bits) }
    ensures long { IfOk result (λ block. 512 ≤ length block) }
    ensures count { CallsAtMost 1 (view_state view.old) (view_state view.new) }
    ensures reads { OnlyReads view.old view.new }
    ensures fails { IfErr result (BlockFails view.old view.new) }
{
    if let Some(block) = inodes.kept(b, block_bytes(geo)) {
        return Ok(block.copy(alloc)?);
    }
    look(view, geo, b)
}
