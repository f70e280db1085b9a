// Clusters that are taken from the global bitmap, or given back to it.
ghost use Rattle.std.specs.Prelude.{◌≡◌, ◌≤◌, ◌<◌, ◌+◌, ◌-◌, ◌*◌, ◌^◌, ℕ, true, false, nat_lt, List, [], ◌∷◌, length, map, OnOk, IfOk};
ghost use Rattle.std.specs.Result.{IfErr};
ghost use Rattle.o2_model.specs.declared.allocator.Allocator.{Allocator};
ghost use Rattle.o2_model.specs.Allocators.{is_sound_chain_header};
ghost use Rattle.o2_model.specs.Volume.{Volume, is_valid, over};
ghost use Rattle.o2_view.specs.Geos.{LiesIn, Reaches};
ghost use Rattle.o2_view.specs.OwnChecks.{BlockFails, NoneFails};
ghost use Rattle.o2_view.specs.Views.{Shows, with_block};
ghost use Rattle.o2_chain.specs.Bits.{IsChangedGroup};
ghost use Rattle.o2_chain.specs.declared.group.Group.{Group as Walked};
ghost use Rattle.o2_chain.specs.Edits.{IsEdited, IsEditedAllocator, AreEditedGroups, shared_by, shared_blocks, edited_blocks};
ghost use Rattle.o2_chain.specs.Faults.{ChainFails};
ghost use Rattle.o2_view.specs.HomePlans.{PlansHome, PlansOnly};
ghost use Rattle.o2_chain.specs.Walks.{AreSoundGroups, group_in, judged_as, chain_checks};

use crate::allocator_edit::change_allocator;
use crate::bits::BitRange;
use crate::group_edit::change_group;
use crate::shared::{bits_of_run, has_place};
use crate::{ChainFault, Group, walk};
use o2_disk::Disk;
use o2_extent::look;
use o2_model::{Check, Geo};
use o2_view::{Run, Runs, View, ViewFault};
use std::alloc::Global;

/// Plans the block of a group with these bits set, or clear.
fn plan_group<D: Disk, const N: usize>(
    view: &mut View<'_, D, N>,
    geo: &Geo,
    b: u64,
    range: BitRange,
    set: bool,
) -> Result<(), ViewFault>
    requires place { Reaches geo.now view.old b }
    requires order { range.first ≤ range.end }
    requires within { range.end ≤ 8 * (2 ^ geo.now.block_bits - 64) }
    ensures planned { OnOk result ((v : Volume) → Shows view.old geo.now v
        → (bytes : List ℕ) × Shows view.new geo.now (over v (with_block b bytes v.at)) × IsChangedGroup (v.at b) bytes range.first range.end set) }
    ensures alone { OnOk result (PlansOnly (b ∷ []) view.old view.new) }
    ensures plans { PlansHome view.old view.new }
    ensures fails { IfErr result (BlockFails view.old view.new) }
{
    let mut bytes = look(view, geo, b)?.into_vec();
    change_group(&mut bytes, range, set);
    view.home(b, &bytes)?;
    Ok(())
}

/// Plans the blocks of those groups that share clusters with the run. Answers whether there are such.
fn plan_groups<D: Disk, const N: usize>(
    view: &mut View<'_, D, N>,
    geo: &Geo,
    groups: &[Group],
    run: Run,
    set: bool,
) -> Result<bool, ChainFault>
    requires geo { LiesIn geo.now view.old }
    requires walked { (v : Volume) → Shows view.old geo.now v → (bitmap : ℕ) × AreSoundGroups v (judged_as true bitmap) [] groups.now }
    ensures planned { OnOk result ((v : Volume) → Shows view.old geo.now v → (a : Allocator)
        → (new : Volume) × Shows view.new geo.now new × AreEditedGroups v new set run (map (group_in a) groups.now)) }
    ensures some { IfOk result (λ some. (v : Volume) → v.geo ≡ geo.now → (a : Allocator) → some ≡ nat_lt 0 (shared_by v run (map (group_in a) groups.now))) }
    ensures alone { OnOk result ((v : Volume) → v.geo ≡ geo.now → (a : Allocator) → PlansOnly (shared_blocks v run (map (group_in a) groups.now)) view.old view.new) }
    ensures plans { PlansHome view.old view.new }
    ensures fails { IfErr result (λ fault. (bitmap : ℕ) → ChainFails view.old view.new geo.now (chain_checks true bitmap []) fault) }
{
    let mut some = false;
    for group in groups {
        let range = bits_of_run(geo, group, run);
        if range.first < range.end {
            if !has_place(geo, group) {
                return Err(ChainFault::Bad {
                    check: Check::ChainLink,
                    block: group.block,
                });
            }
            plan_group(view, geo, group.block, range, set)?;
            some = true;
        }
    }
    Ok(some)
}

/// Plans the dinode of the allocator of these groups with the counts of the run.
fn plan_allocator<D: Disk, const N: usize>(
    view: &mut View<'_, D, N>,
    geo: &Geo,
    bitmap: u64,
    groups: &[Group],
    run: Run,
    set: bool,
) -> Result<(), ViewFault>
    requires { Reaches geo.now view.old bitmap }
    // `old` is the volume before the groups were planned.
    ensures planned { OnOk result ((old v : Volume) → old.geo ≡ geo.now → v.at bitmap ≡ old.at bitmap → is_sound_chain_header old (judged_as true bitmap) ≡ true → Shows view.old geo.now v
        → (bytes : List ℕ) × Shows view.new geo.now (over v (with_block bitmap bytes v.at)) × IsEditedAllocator old (over v (with_block bitmap bytes v.at)) set run (judged_as true bitmap) (map (group_in (judged_as true bitmap)) groups.now)) }
    ensures alone { OnOk result (PlansOnly (bitmap ∷ []) view.old view.new) }
    ensures plans { PlansHome view.old view.new }
    ensures fails { IfErr result (BlockFails view.old view.new) }
{
    let mut bytes = look(view, geo, bitmap)?.into_vec();
    change_allocator(&mut bytes, geo, groups, run, set);
    view.home(bitmap, &bytes)?;
    Ok(())
}

/// Plans the groups of the global bitmap that share clusters with the run, and the allocator where there are such.
fn plan_run<D: Disk, const N: usize>(
    view: &mut View<'_, D, N>,
    geo: &Geo,
    bitmap: u64,
    groups: &[Group],
    run: Run,
    set: bool,
) -> Result<(), ChainFault>
    requires place { Reaches geo.now view.old bitmap }
    requires walked { (v : Volume) → Shows view.old geo.now v → AreSoundGroups v (judged_as true bitmap) [] groups.now }
    ensures edited { OnOk result ((v : Volume) → Shows view.old geo.now v → is_valid v bitmap ≡ true
        → (new : Volume) × Shows view.new geo.now new × IsEdited v new set run (judged_as true bitmap) (map (group_in (judged_as true bitmap)) groups.now)) }
    ensures alone { OnOk result ((v : Volume) → v.geo ≡ geo.now → PlansOnly (edited_blocks v run (judged_as true bitmap) (map (group_in (judged_as true bitmap)) groups.now)) view.old view.new) }
    ensures plans { PlansHome view.old view.new }
    ensures fails { IfErr result (ChainFails view.old view.new geo.now (chain_checks true bitmap [])) }
{
    let some = plan_groups(view, geo, groups, run, set)?;
    if some {
        plan_allocator(view, geo, bitmap, groups, run, set)?;
    }
    Ok(())
}

/// Sets or clears the bits of the run's clusters in the global bitmap, in the plan.
fn change<D: Disk, const N: usize>(
    alloc: Global,
    view: &mut View<'_, D, N>,
    geo: &Geo,
    bitmap: u64,
    run: Run,
    set: bool,
) -> Result<(), ChainFault>
    requires { Reaches geo.now view.old bitmap }
    ensures edited { OnOk result ((v : Volume) → Shows view.old geo.now v → is_valid v bitmap ≡ true → (groups : List Walked) → AreSoundGroups v (judged_as true bitmap) [] groups
        → (new : Volume) × Shows view.new geo.now new × IsEdited v new set run (judged_as true bitmap) (map (group_in (judged_as true bitmap)) groups)) }
    // No other block is planned.
    ensures alone { OnOk result ((v : Volume) → Shows view.old geo.now v → (groups : List Walked) → AreSoundGroups v (judged_as true bitmap) [] groups
        → PlansOnly (edited_blocks v run (judged_as true bitmap) (map (group_in (judged_as true bitmap)) groups)) view.old view.new) }
    ensures sound { OnOk result ((v : Volume) → Shows view.old geo.now v → NoneFails (chain_checks true bitmap []) v) }
    ensures plans { PlansHome view.old view.new }
    ensures fails { IfErr result (ChainFails view.old view.new geo.now (chain_checks true bitmap [])) }
{
    let none = Runs::from(Vec::new(alloc));
    let groups = walk(alloc, view, geo, bitmap, true, &none)?;
    plan_run(view, geo, bitmap, groups.as_slice(), run, set)?;
    Ok(())
}

/// Takes the clusters of a run from the global bitmap, whose dinode is in block `bitmap`: sets their bits and counts them, in
/// the plan. A cluster without a bit in a group of the bitmap is left alone.
pub fn take<D: Disk, const N: usize>(
    alloc: Global,
    view: &mut View<'_, D, N>,
    geo: &Geo,
    bitmap: u64,
    run: Run,
) -> Result<(), ChainFault>
    requires { Reaches geo.now view.old bitmap }
    ensures edited { OnOk result ((v : Volume) → Shows view.old geo.now v → is_valid v bitmap ≡ true → (groups : List Walked) → AreSoundGroups v (judged_as true bitmap) [] groups
        → (new : Volume) × Shows view.new geo.now new × IsEdited v new true run (judged_as true bitmap) (map (group_in (judged_as true bitmap)) groups)) }
    // No other block is planned.
    ensures alone { OnOk result ((v : Volume) → Shows view.old geo.now v → (groups : List Walked) → AreSoundGroups v (judged_as true bitmap) [] groups
        → PlansOnly (edited_blocks v run (judged_as true bitmap) (map (group_in (judged_as true bitmap)) groups)) view.old view.new) }
    ensures sound { OnOk result ((v : Volume) → Shows view.old geo.now v → NoneFails (chain_checks true bitmap []) v) }
    ensures plans { PlansHome view.old view.new }
    ensures fails { IfErr result (ChainFails view.old view.new geo.now (chain_checks true bitmap [])) }
{
    change(alloc, view, geo, bitmap, run, true)
}

/// Gives the clusters of a run back to the global bitmap, whose dinode is in block `bitmap`: clears their bits and counts them,
/// in the plan. A cluster without a bit in a group of the bitmap is left alone.
pub fn give<D: Disk, const N: usize>(
    alloc: Global,
    view: &mut View<'_, D, N>,
    geo: &Geo,
    bitmap: u64,
    run: Run,
) -> Result<(), ChainFault>
    requires { Reaches geo.now view.old bitmap }
    ensures edited { OnOk result ((v : Volume) → Shows view.old geo.now v → is_valid v bitmap ≡ true → (groups : List Walked) → AreSoundGroups v (judged_as true bitmap) [] groups
        → (new : Volume) × Shows view.new geo.now new × IsEdited v new false run (judged_as true bitmap) (map (group_in (judged_as true bitmap)) groups)) }
    // No other block is planned.
    ensures alone { OnOk result ((v : Volume) → Shows view.old geo.now v → (groups : List Walked) → AreSoundGroups v (judged_as true bitmap) [] groups
        → PlansOnly (edited_blocks v run (judged_as true bitmap) (map (group_in (judged_as true bitmap)) groups)) view.old view.new) }
    ensures sound { OnOk result ((v : Volume) → Shows view.old geo.now v → NoneFails (chain_checks true bitmap []) v) }
    ensures plans { PlansHome view.old view.new }
    ensures fails { IfErr result (ChainFails view.old view.new geo.now (chain_checks true bitmap [])) }
{
    change(alloc, view, geo, bitmap, run, false)
}
