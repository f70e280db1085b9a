// The runs of free clusters, by the groups of the global bitmap.
ghost use Rattle.std.specs.Prelude.{◌≡◌, ◌<◌, ◌≤◌, ◌+◌, ◌^◌, ℕ, List, [], true, map, length, OnOk, IfOk, IfErr};
ghost use Rattle.std.specs.Option.{IfNone, IfSome};
ghost use Rattle.std.specs.List.Sorted.{IsNonDecreasingBy, IsPermutation};
ghost use Rattle.o2_model.specs.Volume.{Volume};
ghost use Rattle.o2_view.specs.Counted.{CallsAtMost};
ghost use Rattle.o2_view.specs.Geos.{HasSizes, LiesIn};
ghost use Rattle.o2_view.specs.Views.{view_state, Shows, OnlyReads};
ghost use Rattle.o2_chain.specs.Faults.{ChainFails};
ghost use Rattle.o2_chain.specs.FreeGroups.{first_cluster, HasPlace};
ghost use Rattle.o2_view.specs.FreeRuns.{AreFreeRuns};
ghost use Rattle.o2_chain.specs.FreeRuns.{is_free, no_bad_group};
ghost use Rattle.o2_chain.specs.Walks.{judged_as, group_in, AreSoundGroups};

use crate::clear_bits::add_clear;
use crate::places::group_size;
use crate::{ChainFault, Group, Groups};
use o2_disk::{Disk, NoMemory};
use o2_extent::{blocks_per_cluster, look, volume_blocks};
use o2_model::{Check, Geo};
use o2_view::{RunList, Runs, View};
use std::alloc::Global;

/// The cluster of the group's first bit. None where the group has no place in the volume, at cluster `end` or behind.
fn place_of(geo: &Geo, group: &Group, end: u32) -> Option<u32>
    requires { HasSizes geo.now }
    ensures first { IfSome result (λ first. first ≡ first_cluster geo.now group.now.block) }
    ensures place { IfSome result (λ first. HasPlace geo.now end group.now) }
    ensures fits { IfSome result (λ first. first + group.now.bits < 2 ^ 32) }
    ensures none { IfNone result (HasPlace geo.now end group.now → ⊥) }
{
    if volume_blocks(geo) <= group.block {
        return None;
    }
    let size = group_size(geo);
    let first = group.block / blocks_per_cluster(geo) / size * size;
    let bits = u64::from(group.bits);
    if size < bits || u64::from(geo.clusters) < first + bits || first < u64::from(end) {
        return None;
    }
    Some(first as u32)
}

/// The groups, rising by their blocks. That is the order of their clusters too.
fn by_block(alloc: Global, groups: &[Group]) -> Result<Vec<Group>, NoMemory>
    ensures same { IfOk result (λ sorted. IsPermutation groups.now sorted.items) }
    ensures rising { IfOk result (λ sorted. IsNonDecreasingBy (λ group. group.block) sorted.items) }
{
    let mut sorted = Vec::new(alloc);
    let Ok(()) = sorted.extend_from_slice(groups) else {
        return Err(NoMemory);
    };
    sorted.sort_unstable_by_key(|group| group.block);
    Ok(sorted)
}

/// The longest runs of clusters whose bits in these groups of the global bitmap are clear, rising. Each group's block is
/// read once.
pub fn free_runs<D: Disk, const N: usize>(
    alloc: Global,
    view: &mut View<'_, D, N>,
    geo: &Geo,
    groups: &Groups,
) -> Result<Runs, ChainFault>
    requires geo { LiesIn geo.now view.old }
    requires walked { (v : Volume) → Shows view.old geo.now v → (bitmap : ℕ) × AreSoundGroups v (judged_as true bitmap) [] groups.now }
    ensures told { IfOk result (λ runs. (v : Volume) → Shows view.old geo.now v → AreFreeRuns (is_free v (map (group_in (judged_as true 0)) groups.now)) runs) }
    ensures count { CallsAtMost (length groups.now) (view_state view.old) (view_state view.new) }
    ensures reads { OnlyReads view.old view.new }
    ensures fails { IfErr result (ChainFails view.old view.new geo.now no_bad_group) }
{
    let sorted = by_block(alloc, groups.as_slice())?;
    let mut runs = RunList::new(alloc);
    let mut end = 0;
    for group in &sorted {
        let Some(first) = place_of(geo, group, end) else {
            return Err(ChainFault::Bad {
                check: Check::ChainLink,
                block: group.block,
            });
        };
        let block = look(view, geo, group.block)?;
        add_clear(&mut runs, block.as_slice(), first, group.bits)?;
        end = first + group.bits;
    }
    Ok(runs.into_runs())
}
