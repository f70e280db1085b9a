// What the walks of several allocators have met.
ghost use Rattle.std.specs.Option.{IfSome};
ghost use Rattle.std.specs.Prelude.{◌≡◌, ◌<◌, ◌++◌, ◌∷◌, [], List, All, map, OnOk, IfOk};
ghost use Rattle.o2_model.specs.Words.{push};
ghost use Rattle.o2_model.specs.Volume.{Volume};
ghost use Rattle.o2_model.specs.Allocators.{allocators, are_clusters};
ghost use Rattle.o2_model.specs.declared.allocator.Allocator.{Allocator as Walks};
ghost use Rattle.o2_view.specs.Geos.{HasSizes, blocks_of};
ghost use Rattle.o2_chain.specs.Readings.{Keeps};
ghost use Rattle.o2_chain.specs.Walks.{allocator_walk, group_in, judged_as};
ghost use Rattle.o2_chain.specs.Whole.{HasGathered, run_of_group};

use crate::Group;
use crate::chain_list::is_bitmap;
use crate::walked::Walked;
use o2_disk::NoMemory;
use o2_extent::{blocks_per_cluster, put};
use o2_model::{Allocator, Geo};
use o2_view::Run;
use std::alloc::Global;

/// What the walks of several allocators have met, one after the other.
#[derive(Drop)]
pub struct Gathered {
    pub groups: Vec<o2_model::Group>,
    /// The blocks whose link is bad.
    pub faults: Vec<u64>,
    /// The clusters of the groups of blocks, which count as walked from then on.
    pub runs: Vec<Run>,
}

/// No allocator was walked yet.
pub fn nothing(alloc: Global) -> Gathered
    ensures { (v : Volume) → HasGathered v [] result }
{
    Gathered {
        groups: Vec::new(alloc),
        faults: Vec::new(alloc),
        runs: Vec::new(alloc),
    }
}

/// The group as one of its allocator. None where its numbers are wider than those of any group of a volume.
fn group_of_volume(a: &Allocator, group: &Group) -> Option<o2_model::Group>
    ensures { IfSome result (λ found. found ≡ group_in a.now group.now) }
{
    let (Ok(chain), Ok(bits)) = (u16::try_from(group.chain), u16::try_from(group.bits)) else {
        return None;
    };
    Some(o2_model::Group {
        of: *a,
        chain,
        block: group.block,
        bits,
    })
}

/// Adds groups of the allocator. A chain list has fewer than 2^16 chains, and a descriptor no wider count of bits, so that no group
/// which a walk meets is refused.
fn add_groups(
    a: &Allocator,
    met: &[Group],
    groups: &mut Vec<o2_model::Group>,
) -> Result<(), NoMemory>
    ensures { OnOk result (groups.new.items ≡ groups.old.items ++ map (group_in a.now) met.now) }
{
    for group in met {
        let Some(of_volume) = group_of_volume(a, group) else {
            return Err(NoMemory);
        };
        put(groups, of_volume)?;
    }
    Ok(())
}

/// Adds the clusters of a group of blocks. A group of the volume begins in a cluster whose number has 32 bits, so that none is refused.
fn add_run(geo: &Geo, group: &Group, runs: &mut Vec<Run>) -> Result<(), NoMemory>
    requires { HasSizes geo.now }
    ensures { OnOk result (runs.new.items ≡ push runs.old.items (run_of_group geo.now group.now)) }
{
    let per_cluster = blocks_per_cluster(geo);
    let Ok(start) = u32::try_from(group.block / per_cluster) else {
        return Err(NoMemory);
    };
    let run = Run {
        start,
        clusters: group.bits / per_cluster as u32,
    };
    put(runs, run)
}

/// Adds the clusters of these groups of blocks.
fn add_runs(geo: &Geo, met: &[Group], runs: &mut Vec<Run>) -> Result<(), NoMemory>
    requires { HasSizes geo.now }
    ensures { OnOk result (runs.new.items ≡ runs.old.items ++ map (run_of_group geo.now) met.now) }
{
    for group in met {
        add_run(geo, group, runs)?;
    }
    Ok(())
}

/// Adds blocks whose link is bad.
fn add_faults(faults: &mut Vec<u64>, more: &[u64]) -> Result<(), NoMemory>
    ensures { OnOk result (faults.new.items ≡ faults.old.items ++ more.now) }
{
    let Ok(()) = faults.extend_from_slice(more) else {
        return Err(NoMemory);
    };
    Ok(())
}

/// Adds what the walk of the next allocator has met.
pub fn add_walk(
    geo: &Geo,
    a: &Allocator,
    walked: &Walked,
    gathered: &mut Gathered,
) -> Result<(), NoMemory>
    requires { HasSizes geo.now }
    ensures { OnOk result ((v : Volume) → v.geo ≡ geo.now → (earlier later : List Walks) → allocators v ≡ earlier ++ a.now ∷ later → HasGathered v earlier gathered.old
        → Keeps v (judged_as (are_clusters a.now.bit_use) a.now.block) gathered.old.runs.items walked.now (allocator_walk v (judged_as (are_clusters a.now.bit_use) a.now.block) gathered.old.runs.items)
        → HasGathered v (earlier ++ a.now ∷ []) gathered.new) }
{
    let met = walked.groups.as_slice();
    add_groups(a, met, &mut gathered.groups)?;
    add_faults(&mut gathered.faults, walked.faults.as_slice())?;
    if is_bitmap(a) {
        return Ok(());
    }
    add_runs(geo, met, &mut gathered.runs)?;
    Ok(())
}
