// The clusters of each allocator's groups.
ghost use Rattle.std.specs.Prelude.{◌≡◌, List, [], IfOk, OnOk};
ghost use Rattle.o2_model.specs.declared.geo.Geo.{Geo};
ghost use Rattle.o2_model.specs.Words.{push};
ghost use Rattle.o2_tables.specs.declared.groups.GroupRow.{GroupRow};
ghost use Rattle.o2_judges_inodes.specs.ClusterRows.{row_clusters, kept_sum, AreSums};

use o2_disk::NoMemory;
use o2_model::Geo;
use o2_tables::GroupRow;
use std::alloc::Global;
use std::collections::BTreeMap;

/// How many whole clusters the blocks of a group's bits fill.
fn clusters_of(geo: &Geo, row: &GroupRow) -> u32
    ensures { result ≡ row_clusters geo.now row.now }
{
    let shift = geo.cluster_bits.saturating_sub(geo.block_bits);
    match u32::from(row.group.bits).checked_shr(shift) {
        Some(clusters) => clusters,
        None => 0,
    }
}

/// How many clusters the groups of each allocator have, modulo 2^32.
#[derive(Drop)]
pub struct GroupClusters {
    // Of each allocator that has a group, by the block of its dinode.
    sums: BTreeMap<u64, u32>,
}

impl GroupClusters {
    /// There is no group yet.
    fn new(alloc: Global) -> Self
        ensures { (geo : Geo) → AreSums geo [] result }
    {
        GroupClusters {
            sums: BTreeMap::new(alloc),
        }
    }

    /// One group more.
    fn add(&mut self, geo: &Geo, row: &GroupRow) -> Result<(), NoMemory>
        ensures { OnOk result ((rows : List GroupRow) → AreSums geo.now rows self.old → AreSums geo.now (push rows row.now) self.new) }
    {
        let allocator = row.group.of.block;
        let sum = self
            .of_allocator(allocator)
            .wrapping_add(clusters_of(geo, row));
        match self.sums.insert(allocator, sum) {
            Ok(_) => Ok(()),
            Err(_) => Err(NoMemory),
        }
    }

    /// How many the groups of the allocator have whose dinode is in that block.
    pub fn of_allocator(&self, allocator: u64) -> u32
        ensures { result ≡ kept_sum self.now allocator }
    {
        match self.sums.get(&allocator) {
            Some(sum) => *sum,
            None => 0,
        }
    }
}

/// How many clusters the groups of each allocator have. NoMemory where memory runs out.
pub fn clusters_of_groups(
    alloc: Global,
    geo: &Geo,
    groups: &[GroupRow],
) -> Result<GroupClusters, NoMemory>
    ensures { IfOk result (λ sums. AreSums geo.now groups.now sums) }
{
    let mut sums = GroupClusters::new(alloc);
    for row in groups {
        sums.add(geo, row)?;
    }
    Ok(sums)
}
