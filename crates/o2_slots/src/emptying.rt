// The entries of a slot map from some slot on, emptied in the plan.
ghost use Rattle.std.specs.Prelude.{◌+◌, ◌-◌, ◌*◌, ◌/◌, ◌^◌, ◌<◌, ◌≤◌, ℕ, List, [], ◌∷◌, OnOk};
ghost use Rattle.std.specs.Result.{IfErr};
ghost use Rattle.o2_model.specs.Volume.{Volume, over};
ghost use Rattle.o2_view.specs.Geos.{LiesIn, Reaches, blocks_of};
ghost use Rattle.o2_view.specs.HomePlans.{PlansHome, PlansOnly};
ghost use Rattle.o2_view.specs.OwnChecks.{BlockFails, NoneFails, ReadFails};
ghost use Rattle.o2_view.specs.Views.{Shows, with_block};
ghost use Rattle.o2_slots.specs.Entries.{entry_size};
ghost use Rattle.o2_slots.specs.Emptied.{AreEmptied, IsEmptied, IsEmptiedBlock, entry_blocks, emptied_blocks};
ghost use Rattle.o2_slots.specs.SlotChecks.{slot_map_checks};

use crate::empty_bytes::{empty_in_block, entries_per_block};
use crate::map_records::map_records;
use o2_disk::Disk;
use o2_extent::{OrderedLeaves, look};
use o2_model::{Check, Geo};
use o2_view::{ReadFault, View, ViewFault};
use std::alloc::Global;

/// Plans block `b`, which is block `k` of the file of a slot map, with its entries from slot `from` on empty.
fn plan_block<D: Disk, const N: usize>(
    view: &mut View<'_, D, N>,
    geo: &Geo,
    b: u64,
    k: u64,
    from: u16,
) -> Result<(), ViewFault>
    requires place { Reaches geo.now view.old b }
    requires some { from < geo.now.slots }
    requires first { k * (2 ^ geo.now.block_bits / entry_size geo.now) < geo.now.slots }
    requires last { from < (k + 1) * (2 ^ geo.now.block_bits / entry_size geo.now) }
    ensures planned { OnOk result ((v : Volume) → Shows view.old geo.now v
        → (bytes : List ℕ) × Shows view.new geo.now (over v (with_block b bytes v.at)) × IsEmptiedBlock geo.now k from (v.at b) bytes) }
    ensures alone { OnOk result (PlansOnly (b ∷ []) view.old view.new) }
    ensures plans { PlansHome view.old view.new }
    ensures fails { IfErr result (BlockFails view.old view.new) }
{
    let mut bytes = look(view, geo, b)?.into_vec();
    empty_in_block(&mut bytes, geo, k, from);
    view.home(b, &bytes)?;
    Ok(())
}

/// Plans the blocks of the entries from slot `from` on as empty, in a file whose first cluster begins at block `place`.
fn plan_blocks<D: Disk, const N: usize>(
    view: &mut View<'_, D, N>,
    geo: &Geo,
    place: u64,
    from: u16,
) -> Result<(), ViewFault>
    requires geo { LiesIn geo.now view.old }
    requires within { place + 2 ^ (geo.now.cluster_bits - geo.now.block_bits) ≤ blocks_of geo.now }
    ensures emptied { OnOk result ((v : Volume) → Shows view.old geo.now v
        → (new : Volume) × Shows view.new geo.now new × AreEmptied v new place from) }
    ensures alone { OnOk result (PlansOnly (entry_blocks geo.now place from) view.old view.new) }
    ensures plans { PlansHome view.old view.new }
    ensures fails { IfErr result (BlockFails view.old view.new) }
{
    if geo.slots <= from {
        return Ok(());
    }
    let per_block = entries_per_block(geo);
    for k in u64::from(from) / per_block..u64::from(geo.slots).div_ceil(per_block) {
        plan_block(view, geo, place + k, k, from)?;
    }
    Ok(())
}

/// Empties the entries of the slots from `from` on in the slot map whose dinode is in block `inode`, in the plan: an extended
/// entry by its valid byte alone. Bad where SLOT_MAP fails for the inode.
pub fn empty_map<D: Disk, const N: usize>(
    alloc: Global,
    view: &mut View<'_, D, N>,
    geo: &Geo,
    inode: u64,
    from: u16,
) -> Result<(), ReadFault>
    requires { Reaches geo.now view.old inode }
    ensures emptied { OnOk result ((v : Volume) → Shows view.old geo.now v
        → (new : Volume) × Shows view.new geo.now new × IsEmptied v new inode from) }
    // No other block is planned.
    ensures alone { OnOk result ((v : Volume) → Shows view.old geo.now v → PlansOnly (emptied_blocks v inode from) view.old view.new) }
    ensures sound { OnOk result ((v : Volume) → Shows view.old geo.now v → NoneFails (slot_map_checks inode) v) }
    ensures plans { PlansHome view.old view.new }
    ensures fails { IfErr result (ReadFails view.old view.new geo.now (slot_map_checks inode)) }
{
    let leaves = OrderedLeaves::new(map_records(alloc, view, geo, inode)?);
    let Some(first) = leaves.find(0) else {
        return Err(ReadFault::Bad {
            check: Check::SlotMap,
            block: inode,
        });
    };
    plan_blocks(view, geo, first.block, from)?;
    Ok(())
}
