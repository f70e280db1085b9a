// The clusters of each allocator.
ghost use Rattle.std.specs.Prelude.{◌≡◌, ◌==◌, ℕ, List, [], Some, if◌then◌else◌, IfOk, OnOk};
ghost use Rattle.std.specs.BTreeMap.{get};
ghost use Rattle.std.specs.Ordering.{nat_cmp};
ghost use Rattle.o2_model.specs.declared.geo.Geo.{Geo};
ghost use Rattle.o2_model.specs.Words.{push};
ghost use Rattle.o2_tables.specs.declared.allocators.AllocatorRow.{AllocatorRow};
ghost use Rattle.o2_judges_inodes.specs.ClusterRows.{row_total, kept_total, AreTotals};
ghost use Rattle.o2_judges_inodes.specs.declared.group_clusters.GroupClusters.{GroupClusters};

use crate::group_clusters::GroupClusters;
use o2_disk::NoMemory;
use o2_model::{BitUse, Geo};
use o2_tables::AllocatorRow;
use std::alloc::Global;
use std::collections::BTreeMap;

/// How many clusters an allocator has, modulo 2^32: the global bitmap all of the volume's, another those of its groups.
fn clusters_of(geo: &Geo, sums: &GroupClusters, row: &AllocatorRow) -> u32
    ensures { result ≡ row_total geo.now sums.now row.now }
{
    let all = geo.clusters;
    match row.allocator.bit_use {
        BitUse::Clusters => all,
        _ => sums.of_allocator(row.allocator.block),
    }
}

/// Puts a total with those that are kept, at block b.
fn put_total(totals: &mut BTreeMap<u64, u32>, b: u64, total: u32) -> Result<(), NoMemory>
    ensures { OnOk result ((other : ℕ) → get nat_cmp totals.new other ≡ (if b == other then Some total else get nat_cmp totals.old other)) }
{
    match totals.insert(b, total) {
        Ok(_) => Ok(()),
        Err(_) => Err(NoMemory),
    }
}

/// How many clusters each allocator has, modulo 2^32.
#[derive(Drop)]
pub struct AllocatorTotals {
    // Of the first allocator whose dinode is in that block.
    totals: BTreeMap<u64, u32>,
}

impl AllocatorTotals {
    /// There is no allocator yet.
    fn new(alloc: Global) -> Self
        ensures { (geo : Geo) (sums : GroupClusters) → AreTotals geo sums [] result }
    {
        AllocatorTotals {
            totals: BTreeMap::new(alloc),
        }
    }

    /// One allocator more, which counts unless an earlier one is in the same block.
    fn add(&mut self, geo: &Geo, sums: &GroupClusters, row: &AllocatorRow) -> Result<(), NoMemory>
        ensures { OnOk result ((rows : List AllocatorRow) → AreTotals geo.now sums.now rows self.old → AreTotals geo.now sums.now (push rows row.now) self.new) }
    {
        if self.totals.contains_key(&row.allocator.block) {
            return Ok(());
        }
        let total = clusters_of(geo, sums, row);
        put_total(&mut self.totals, row.allocator.block, total)
    }

    /// How many clusters the allocator has whose dinode is in that block; None where there is none.
    pub fn of_allocator(&self, b: u64) -> Option<u32>
        ensures { result ≡ kept_total self.now b }
    {
        match self.totals.get(&b) {
            Some(total) => Some(*total),
            None => None,
        }
    }
}

/// How many clusters each allocator has, by those of its groups. NoMemory where memory runs out.
pub fn totals_of(
    alloc: Global,
    geo: &Geo,
    sums: &GroupClusters,
    allocators: &[AllocatorRow],
) -> Result<AllocatorTotals, NoMemory>
    ensures { IfOk result (λ totals. AreTotals geo.now sums.now allocators.now totals) }
{
    let mut totals = AllocatorTotals::new(alloc);
    for row in allocators {
        totals.add(geo, sums, row)?;
    }
    Ok(totals)
}
