// The volume's own files, which a sound skeleton has.
ghost use Rattle.std.specs.Prelude.{◌≡◌, ◌<◌, ◌≤◌, drop, length, Some, IfOk};
ghost use Rattle.std.specs.Result.{IfErr};
ghost use Rattle.o2_ondisk.specs.Dinodes.{last_part_place};
ghost use Rattle.o2_ondisk.specs.Super.{super_of};
ghost use Rattle.o2_model.specs.AfterReplay.{journal_length, super_of_volume};
ghost use Rattle.o2_model.specs.SystemFiles.{system_inode};
ghost use Rattle.o2_model.specs.Volume.{Volume};
ghost use Rattle.o2_skeleton.specs.SkeletonTables.{IsSkeleton};
ghost use Rattle.o2_survey.specs.SystemNames.{AreSystemNames};
ghost use Rattle.o2_view.specs.Geos.{HasSizes, LiesIn, blocks_of};
ghost use Rattle.o2_view.specs.OwnChecks.{BlockFails};
ghost use Rattle.o2_view.specs.Views.{Shows, OnlyReads};
ghost use Rattle.o2_debug.specs.OwnFiles.{clusters_in_use};

use o2_disk::{Disk, NoMemory};
use o2_extent::{is_block_in_range, look, read_own_list};
use o2_model::{Geo, SlotFile, SystemFile};
use o2_ondisk::{SUPER_AT, Super, read_dinode, read_super};
use o2_skeleton::Skeleton;
use o2_slots::clusters_without_gap;
use o2_survey::{SystemNames, block_of};
use o2_view::{View, ViewFault};
use std::alloc::Global;

// The block of the superblock.
const SUPER_BLOCK: u64 = 2;

/// The inode of one of the volume's own files. NoMemory where there is none, or it is out of range: SYSFILE held before, so
/// that this comes for no volume, and memory may run out at any time.
pub fn own_inode(geo: &Geo, names: &SystemNames, file: SystemFile) -> Result<u64, NoMemory>
    requires { HasSizes geo.now }
    ensures is { IfOk result (λ inode. (v : Volume) → AreSystemNames v names.now → system_inode v file ≡ Some inode) }
    ensures inside { IfOk result (λ inode. inode < blocks_of geo.now) }
{
    let Some(inode) = names.inode_of(file) else {
        return Err(NoMemory);
    };
    if !is_block_in_range(geo, inode) {
        return Err(NoMemory);
    }
    Ok(inode)
}

/// How many clusters are in use, as the global bitmap says.
pub fn used_clusters<D: Disk, const N: usize>(
    alloc: Global,
    view: &mut View<'_, D, N>,
    geo: &Geo,
    skeleton: &Skeleton,
) -> Result<u32, ViewFault>
    requires { LiesIn geo.now view.old }
    ensures told { IfOk result (λ used. (v : Volume) → Shows view.old geo.now v → IsSkeleton v skeleton.now → used ≡ clusters_in_use v) }
    ensures reads { OnlyReads view.old view.new }
    ensures fails { IfErr result (BlockFails view.old view.new) }
{
    let inode = own_inode(geo, &skeleton.names, SystemFile::GlobalBitmap)?;
    let block = block_of(alloc, view, geo, &skeleton.inodes, inode)?;
    Ok(read_dinode(block.as_slice()).role_data.used())
}

/// How many clusters the journal of a slot has. NoMemory where they have a gap too, since JOURNAL held before.
pub fn journal_clusters<D: Disk, const N: usize>(
    alloc: Global,
    view: &mut View<'_, D, N>,
    geo: &Geo,
    skeleton: &Skeleton,
    slot: u16,
) -> Result<u64, ViewFault>
    requires { LiesIn geo.now view.old }
    ensures told { IfOk result (λ clusters. (v : Volume) → Shows view.old geo.now v → IsSkeleton v skeleton.now → clusters ≡ journal_length v slot) }
    ensures reads { OnlyReads view.old view.new }
    ensures fails { IfErr result (BlockFails view.old view.new) }
{
    let journal = SystemFile::OfSlot(SlotFile::Journal, slot);
    let inode = own_inode(geo, &skeleton.names, journal)?;
    let block = block_of(alloc, view, geo, &skeleton.inodes, inode)?;
    let list = read_own_list(alloc, view, geo, inode, block.as_slice())?;
    match clusters_without_gap(list.leaves.as_slice()) {
        Some(clusters) => Ok(clusters),
        None => Err(ViewFault::NoMemory),
    }
}

/// The super's part of a block of these bytes.
fn super_in(bytes: &[u8]) -> Super
    requires { 512 ≤ length bytes.now }
    ensures { result ≡ super_of (drop last_part_place bytes.now) }
{
    read_super(&bytes[SUPER_AT..])
}

/// The super's part of block 2.
pub fn superblock<D: Disk, const N: usize>(
    view: &mut View<'_, D, N>,
    geo: &Geo,
) -> Result<Super, ViewFault>
    requires { LiesIn geo.now view.old }
    ensures told { IfOk result (λ part. (v : Volume) → Shows view.old geo.now v → part ≡ super_of_volume v) }
    ensures reads { OnlyReads view.old view.new }
    ensures fails { IfErr result (BlockFails view.old view.new) }
{
    let block = look(view, geo, SUPER_BLOCK)?;
    Ok(super_in(block.as_slice()))
}
