// BACKUP_SUPER: each backup of the superblock tells what block 2 tells.
ghost use Rattle.std.specs.Prelude.{◌≡◌, ◌++◌, ◌*◌, ◌≤◌, map, length, IfOk, OnOk};
ghost use Rattle.std.specs.Result.{IfErr};
ghost use Rattle.o2_model.specs.Checks.BackupSuper.{backup_blocks as blocks_of_backups, backup_super_faults, is_backup as is_backup_in};
ghost use Rattle.o2_model.specs.Faults.{fails_at, fails_unless};
ghost use Rattle.o2_model.specs.Volume.{Volume};
ghost use Rattle.o2_view.specs.Geos.{HasSizes, LiesIn};
ghost use Rattle.o2_view.specs.OwnChecks.{BlockFails};
ghost use Rattle.o2_view.specs.Views.{Shows, OnlyReads};

use crate::clusters::backup_clusters;
use crate::compare::is_backup;
use o2_disk::{Disk, NoMemory};
use o2_extent::{blocks_per_cluster, is_block_in_range, look};
use o2_model::Geo;
use o2_tally::put;
use o2_view::{View, ViewFault};
use std::alloc::Global;

/// The block of the superblock.
const SUPER_BLOCK: u64 = 2;

/// The first blocks of these clusters. NoMemory too for a cluster whose block has more than 64 bits, which no volume has.
fn first_blocks(alloc: Global, per_cluster: u64, clusters: &[u64]) -> Result<Vec<u64>, NoMemory>
    ensures { IfOk result (λ blocks. blocks.items ≡ map (λ c. c * per_cluster) clusters.now) }
{
    let mut blocks = Vec::new(alloc);
    for cluster in clusters {
        let Some(b) = cluster.checked_mul(per_cluster) else {
            return Err(NoMemory);
        };
        put(&mut blocks, b)?;
    }
    Ok(blocks)
}

/// Puts the block of a backup at the end, where it is none. It is read once.
fn add_backup<D: Disk, const N: usize>(
    view: &mut View<'_, D, N>,
    geo: &Geo,
    first: &[u8],
    b: u64,
    found: &mut Vec<u64>,
) -> Result<(), ViewFault>
    requires geo { LiesIn geo.now view.old }
    requires first { 512 ≤ length first.now }
    ensures added { OnOk result ((v : Volume) → Shows view.old geo.now v → first.now ≡ v.at 2
        → found.new.items ≡ found.old.items ++ fails_unless b (is_backup_in v b)) }
    ensures reads { OnlyReads view.old view.new }
    ensures fails { IfErr result (BlockFails view.old view.new) }
{
    if !is_block_in_range(geo, b) {
        // Backups stand in clusters of the volume. Memory may run out at any time, so that this answer is never wrong.
        return Err(ViewFault::NoMemory);
    }
    let block = look(view, geo, b)?;
    if !is_backup(block.as_slice(), first) {
        put(found, b)?;
    }
    Ok(())
}

/// The blocks of the superblock's backups.
fn backup_blocks(alloc: Global, geo: &Geo) -> Result<Vec<u64>, NoMemory>
    requires { HasSizes geo.now }
    ensures { IfOk result (λ found. (v : Volume) → v.geo ≡ geo.now → found.items ≡ blocks_of_backups v) }
{
    let clusters = backup_clusters(alloc, geo)?;
    first_blocks(alloc, blocks_per_cluster(geo), clusters.as_slice())
}

/// Those of these blocks that are no backups of the superblock.
fn judge_blocks<D: Disk, const N: usize>(
    alloc: Global,
    view: &mut View<'_, D, N>,
    geo: &Geo,
    blocks: &[u64],
) -> Result<Vec<u64>, ViewFault>
    requires { LiesIn geo.now view.old }
    ensures told { IfOk result (λ found. (v : Volume) → Shows view.old geo.now v → found.items ≡ fails_at (λ b. b) (is_backup_in v) blocks.now) }
    ensures reads { OnlyReads view.old view.new }
    ensures fails { IfErr result (BlockFails view.old view.new) }
{
    let first = look(view, geo, SUPER_BLOCK)?;
    let mut found = Vec::new(alloc);
    for b in blocks {
        add_backup(view, geo, first.as_slice(), *b, &mut found)?;
    }
    Ok(found)
}

/// The backups of the superblock at which BACKUP_SUPER fails. Block 2 and each backup are read once. NoMemory where memory runs
/// out, DeviceFault where a read fails.
pub fn backup_super<D: Disk, const N: usize>(
    alloc: Global,
    view: &mut View<'_, D, N>,
    geo: &Geo,
) -> Result<Vec<u64>, ViewFault>
    requires { LiesIn geo.now view.old }
    ensures told { IfOk result (λ found. (v : Volume) → Shows view.old geo.now v → found.items ≡ backup_super_faults v) }
    ensures reads { OnlyReads view.old view.new }
    ensures fails { IfErr result (BlockFails view.old view.new) }
{
    let blocks = backup_blocks(alloc, geo)?;
    judge_blocks(alloc, view, geo, blocks.as_slice())
}
