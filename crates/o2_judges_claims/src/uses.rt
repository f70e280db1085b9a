// The uses of each cluster by records of inodes.
ghost use Rattle.std.specs.Prelude.{◌≡◌, ◌++◌, List, [], flat_map, IfOk, OnOk};
ghost use Rattle.o2_model.specs.Words.{push};
ghost use Rattle.o2_judges_claims.specs.declared.sharers.PlacedUse.{PlacedUse};
ghost use Rattle.o2_judges_claims.specs.Uses.{AreUses, use_at as use_in, with_use, uses_in_run, uses_in_row, sharer, is_good_at as is_good_of};

use crate::sharers::{PlacedUse, Sharer, Together};
use o2_disk::NoMemory;
use o2_tables::{ClusterRun, InodeRow};
use std::alloc::Global;
use std::collections::BTreeMap;

/// What the uses of each cluster are together.
#[derive(Drop)]
pub struct Uses {
    of: BTreeMap<u64, Together>,
}

/// What they are with one use more.
fn with_more(before: Option<Together>, one: PlacedUse) -> Together
    ensures { result ≡ with_use before one }
{
    match before {
        Some(uses) => {
            let is_same = uses.by.is_same(one.by);
            Together {
                are_several: true,
                may_share: uses.may_share && one.is_shared && is_same,
                by: uses.by,
            }
        }
        None => Together {
            are_several: false,
            may_share: one.is_shared,
            by: one.by,
        },
    }
}

/// The use of its k-th cluster by a run.
fn use_at(by: Sharer, run: ClusterRun, k: u32) -> PlacedUse
    ensures { result ≡ use_in by run k }
{
    PlacedUse {
        cluster: u64::from(run.start) + u64::from(k),
        is_shared: run.is_shared,
        by,
    }
}

/// Who uses the clusters of an inode.
fn sharer_of(row: &InodeRow) -> Sharer
    ensures { result ≡ sharer row.now }
{
    match row.tree {
        Some(root) => Sharer::Tree(root),
        None => Sharer::Inode(row.block),
    }
}

impl Uses {
    /// None yet.
    fn new(alloc: Global) -> Self
        ensures { AreUses [] result }
    {
        Uses {
            of: BTreeMap::new(alloc),
        }
    }

    /// One use more.
    fn add(&mut self, one: PlacedUse) -> Result<(), NoMemory>
        ensures { OnOk result ((us : List PlacedUse) → AreUses us self.old → AreUses (push us one) self.new) }
    {
        let now = with_more(self.of.get(&one.cluster).copied(), one);
        match self.of.insert(one.cluster, now) {
            Ok(_) => Ok(()),
            Err(_) => Err(NoMemory),
        }
    }

    /// The uses by a record.
    fn add_run(&mut self, by: Sharer, run: ClusterRun) -> Result<(), NoMemory>
        ensures { OnOk result ((us : List PlacedUse) → AreUses us self.old → AreUses (us ++ uses_in_run by run) self.new) }
    {
        for k in 0..run.clusters {
            let one = use_at(by, run, k);
            self.add(one)?;
        }
        Ok(())
    }

    /// The uses by an inode.
    fn add_row(&mut self, row: &InodeRow) -> Result<(), NoMemory>
        ensures { OnOk result ((us : List PlacedUse) → AreUses us self.old → AreUses (us ++ uses_in_row row.now) self.new) }
    {
        let by = sharer_of(row);
        for run in row.runs.as_slice() {
            self.add_run(by, *run)?;
        }
        Ok(())
    }

    /// Whether the uses of a cluster may stand together.
    pub fn is_good(&self, cluster: u64) -> bool
        ensures { result ≡ is_good_of self.now cluster }
    {
        match self.of.get(&cluster) {
            Some(uses) => !uses.are_several || uses.may_share,
            None => true,
        }
    }
}

/// The uses by all inodes.
pub fn uses_by_inodes(alloc: Global, inodes: &[InodeRow]) -> Result<Uses, NoMemory>
    ensures { IfOk result (λ uses. AreUses (flat_map uses_in_row inodes.now) uses) }
{
    let mut uses = Uses::new(alloc);
    for row in inodes {
        uses.add_row(row)?;
    }
    Ok(uses)
}
