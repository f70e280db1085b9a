// What a walk has met so far.
ghost use Rattle.std.specs.Prelude.{◌≡◌, ◌+◌, ◌*◌, ◌/◌, ◌-◌, ◌<◌, ◌≤◌, ◌^◌, [], ◌∷◌, ◌++◌, List, ℕ, length, true, false, map, OnOk, OnErr, IfOk};
ghost use Rattle.o2_model.specs.Words.{push};
ghost use Rattle.o2_model.specs.Volume.{Volume};
ghost use Rattle.o2_model.specs.Allocators.{are_clusters};
ghost use Rattle.o2_model.specs.Groups.{GroupWalk, with_bad_link};
ghost use Rattle.o2_model.specs.declared.allocator.Allocator.{Allocator as Judged};
ghost use Rattle.o2_view.specs.Geos.{HasSizes};
ghost use Rattle.o2_view.specs.declared.run.Run.{Run as Clusters};
ghost use Rattle.o2_chain.specs.Walks.{walked_before};
ghost use Rattle.o2_chain.specs.Readings.{Keeps, runs_of_group};

use crate::Group;
use crate::chain_list::is_bitmap;
use o2_disk::NoMemory;
use o2_extent::{blocks_per_cluster, put};
use o2_model::{Allocator, Geo};
use o2_view::{Run, RunSet};
use std::alloc::Global;

/// What a walk has met so far, in order.
#[derive(Drop)]
pub struct Walked {
    pub groups: Vec<Group>,
    /// The blocks whose link is bad.
    pub faults: Vec<u64>,
    /// The blocks that were looked at.
    pub seen: RunSet,
    /// The blocks at which runs of clusters begin that count as walked.
    pub starts: RunSet,
    /// Those clusters, and the clusters of the groups of blocks that were met.
    pub clusters: RunSet,
}

/// Counts the clusters of these runs as walked.
fn count_as_walked(geo: &Geo, before: &[Run], walked: &mut Walked) -> Result<(), NoMemory>
    requires { HasSizes geo.now }
    ensures starts { OnOk result (walked.new.starts ≡ walked.old.starts ++ map (λ run. (run.start * 2 ^ (geo.now.cluster_bits - geo.now.block_bits), 1)) before.now) }
    ensures clusters { OnOk result (walked.new.clusters ≡ walked.old.clusters ++ map (λ run. (run.start, run.clusters)) before.now) }
    ensures groups { walked.new.groups ≡ walked.old.groups }
    ensures faults { walked.new.faults ≡ walked.old.faults }
    ensures seen { walked.new.seen ≡ walked.old.seen }
{
    let per_cluster = blocks_per_cluster(geo);
    for run in before {
        let start = u64::from(run.start);
        walked.starts.push(start * per_cluster, 1)?;
        walked.clusters.push(start, u64::from(run.clusters))?;
    }
    Ok(())
}

/// Nothing was walked yet but the clusters of these runs.
pub fn start(alloc: Global, geo: &Geo, before: &[Run]) -> Result<Walked, NoMemory>
    requires { HasSizes geo.now }
    ensures keeps { IfOk result (λ walked. (v : Volume) → v.geo ≡ geo.now → (a : Judged) → Keeps v a before.now walked (record { groups = walked_before v before.now; faults = [] })) }
    ensures none { IfOk result (λ walked. walked.seen ≡ []) }
{
    let mut walked = Walked {
        groups: Vec::new(alloc),
        faults: Vec::new(alloc),
        seen: RunSet::new(alloc),
        starts: RunSet::new(alloc),
        clusters: RunSet::new(alloc),
    };
    count_as_walked(geo, before, &mut walked)?;
    Ok(walked)
}

/// Adds a block whose link is bad.
pub fn add_fault(walked: &mut Walked, holder: u64) -> Result<(), NoMemory>
    ensures added { OnOk result ((v : Volume) (a : Judged) (before : List Clusters) (w : GroupWalk) → Keeps v a before walked.old w → Keeps v a before walked.new (with_bad_link w holder)) }
    ensures seen { walked.new.seen ≡ walked.old.seen }
{
    put(&mut walked.faults, holder)
}

/// Adds a block that is looked at.
pub fn add_seen(walked: &mut Walked, b: u64) -> Result<(), NoMemory>
    requires { b + 1 < 2 ^ 64 }
    ensures added { OnOk result (walked.new.seen ≡ walked.old.seen ++ (b, 1) ∷ []) }
    ensures refused { OnErr result (walked.new.seen ≡ walked.old.seen) }
    ensures groups { walked.new.groups ≡ walked.old.groups }
    ensures faults { walked.new.faults ≡ walked.old.faults }
    ensures starts { walked.new.starts ≡ walked.old.starts }
    ensures clusters { walked.new.clusters ≡ walked.old.clusters }
{
    walked.seen.push(b, 1)
}

/// Adds a group of the allocator.
pub fn add_group(
    geo: &Geo,
    a: &Allocator,
    group: Group,
    walked: &mut Walked,
) -> Result<(), NoMemory>
    requires sizes { HasSizes geo.now }
    requires fits { are_clusters a.now.bit_use ≡ false → group.block + group.bits < 2 ^ 64 }
    ensures groups { OnOk result (walked.new.groups.items ≡ push walked.old.groups.items group) }
    ensures clusters { OnOk result (walked.new.clusters ≡ walked.old.clusters ++ runs_of_group geo.now a.now group) }
    ensures faults { walked.new.faults ≡ walked.old.faults }
    ensures starts { walked.new.starts ≡ walked.old.starts }
    ensures seen { walked.new.seen ≡ walked.old.seen }
{
    if !is_bitmap(a) {
        let per_cluster = blocks_per_cluster(geo);
        let count = u64::from(group.bits) / per_cluster;
        walked.clusters.push(group.block / per_cluster, count)?;
    }
    put(&mut walked.groups, group)
}
