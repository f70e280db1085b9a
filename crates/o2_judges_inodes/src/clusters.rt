// INODE_CLUSTERS: i_clusters is the number of the inode's clusters.
ghost use Rattle.std.specs.Prelude.{◌≡◌, ◌%◌, ◌^◌, sum_by, IfOk};
ghost use Rattle.o2_model.specs.declared.check.Check.TheVariants as check;
ghost use Rattle.o2_model.specs.Faults.{fails_at};
ghost use Rattle.o2_model.specs.Orders.{rising};
ghost use Rattle.o2_model.specs.Volume.{Volume};
ghost use Rattle.o2_model.specs.Failing.{faults};
ghost use Rattle.o2_tables.specs.Rows.{IsAllocatorTable, IsGroupTable, IsInodeTable};
ghost use Rattle.o2_judges_inodes.specs.ClusterRows.{is_unasked as is_row_unasked, has_clusters as clusters_are};

use crate::allocator_totals::{AllocatorTotals, totals_of};
use crate::group_clusters::clusters_of_groups;
use o2_disk::NoMemory;
use o2_model::Geo;
use o2_ondisk::InodeFlags;
use o2_tables::{AllocatorRow, ClusterRun, GroupRow, InodeRow};
use std::alloc::{AllocError, Global};

/// How many clusters are in these runs, modulo 2^32.
fn clusters_in(runs: &[ClusterRun]) -> u32
    ensures { result ≡ sum_by (λ r. r.clusters) runs.now % 2 ^ 32 }
{
    let mut sum = 0u32;
    for run in runs {
        sum = sum.wrapping_add(run.clusters);
    }
    sum
}

/// Whether the inode is a local alloc or a truncate log, whose clusters are not asked.
fn is_unasked(row: &InodeRow) -> bool
    ensures { result ≡ is_row_unasked row.now }
{
    let unasked = InodeFlags(InodeFlags::LOCAL_ALLOC.0 + InodeFlags::DEALLOC.0);
    row.flags.has(unasked)
}

/// Whether `i_clusters` is the number of its clusters, as far as it is asked.
fn has_clusters(totals: &AllocatorTotals, row: &InodeRow) -> bool
    ensures { result ≡ clusters_are totals.now row.now }
{
    if is_unasked(row) {
        return true;
    }
    match totals.of_allocator(row.block) {
        Some(total) => row.clusters == total,
        None => row.clusters == clusters_in(row.runs.as_slice()),
    }
}

/// The inodes with another number of clusters.
fn with_other_clusters(
    alloc: Global,
    totals: &AllocatorTotals,
    inodes: &[InodeRow],
) -> Result<Vec<u64>, AllocError>
    ensures { IfOk result (λ blocks. blocks.items ≡ fails_at (λ r. r.block) (clusters_are totals.now) inodes.now) }
{
    inodes
        .iter()
        .filter(|row| !has_clusters(totals, row))
        .map(|row| row.block)
        .collect(alloc)
}

/// The inodes at which INODE_CLUSTERS fails, in a volume of these numbers. NoMemory where memory runs out.
pub fn inode_clusters(
    alloc: Global,
    geo: &Geo,
    allocators: &[AllocatorRow],
    groups: &[GroupRow],
    inodes: &[InodeRow],
) -> Result<Vec<u64>, NoMemory>
    ensures { IfOk result (λ blocks. (v : Volume) → v.geo ≡ geo.now → IsAllocatorTable v allocators.now → IsGroupTable v groups.now → IsInodeTable v inodes.now → rising blocks.items ≡ rising (faults v check.InodeClusters)) }
{
    let sums = clusters_of_groups(alloc, geo, groups)?;
    let totals = totals_of(alloc, geo, &sums, allocators)?;
    match with_other_clusters(alloc, &totals, inodes) {
        Ok(blocks) => Ok(blocks),
        Err(_) => Err(NoMemory),
    }
}
