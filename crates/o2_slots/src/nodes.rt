// Which node has each slot.
ghost use Rattle.std.specs.Prelude.{◌≡◌, length, IfOk};
ghost use Rattle.std.specs.Result.{IfErr};
ghost use Rattle.o2_model.specs.Volume.{Volume};
ghost use Rattle.o2_view.specs.Geos.{Reaches};
ghost use Rattle.o2_view.specs.OwnChecks.{NoneFails, ReadFails};
ghost use Rattle.o2_view.specs.Views.{Shows, OnlyReads};
ghost use Rattle.o2_slots.specs.Entries.{nodes, is_occupied};
ghost use Rattle.o2_slots.specs.SlotChecks.{slot_map_checks};

use crate::entries::{entry_size, nodes_in};
use crate::map_records::map_records;
use o2_disk::Disk;
use o2_extent::{OrderedLeaves, add_bytes};
use o2_model::{Geo, Items};
use o2_view::{ReadFault, View};
use std::alloc::Global;

/// The number of the node that has each slot, none where a slot is free.
pub type SlotMap = Items<Option<u32>>;

/// The node of each slot, by the slot map whose dinode is in block `inode`. Bad where SLOT_MAP fails for it.
pub fn slot_map<D: Disk, const N: usize>(
    alloc: Global,
    view: &mut View<'_, D, N>,
    geo: &Geo,
    inode: u64,
) -> Result<SlotMap, ReadFault>
    requires { Reaches geo.now view.old inode }
    ensures told { IfOk result (λ map. (v : Volume) → Shows view.old geo.now v → NoneFails (slot_map_checks inode) v × (map ≡ nodes v inode)) }
    ensures slots { IfOk result (λ map. length map ≡ geo.now.slots) }
    ensures fails { IfErr result (ReadFails view.old view.new geo.now (slot_map_checks inode)) }
    ensures reads { OnlyReads view.old view.new }
{
    let leaves = OrderedLeaves::new(map_records(alloc, view, geo, inode)?);
    let end = u64::from(geo.slots) * entry_size(geo) as u64;
    let mut bytes = Vec::new(alloc);
    add_bytes(view, geo, &leaves, 0, end, &mut bytes)?;
    let nodes = nodes_in(alloc, geo, &bytes)?;
    Ok(SlotMap::from(nodes))
}

/// Whether a node has the slot. A slot past the end of the map has none.
pub fn occupied(map: &SlotMap, slot: u16) -> bool
    ensures { result ≡ is_occupied map.now slot }
{
    match map.as_slice().get(usize::from(slot)) {
        Some(node) => node.is_some(),
        None => false,
    }
}
