// The leaf records of a slot map.
ghost use Rattle.std.specs.Prelude.{◌≡◌, ◌*◌, ◌^◌, nat_le, ◌&&◌, length, IfOk};
ghost use Rattle.std.specs.Result.{IfErr};
ghost use Rattle.o2_model.specs.Volume.{Volume};
ghost use Rattle.o2_model.specs.Clusters.{cluster_size};
ghost use Rattle.o2_model.specs.Inodes.{leaf_records};
ghost use Rattle.o2_model.specs.LeafRecords.{clusters_in, are_without_gap, have_no_flags};
ghost use Rattle.o2_model.specs.Checks.SlotMap.{slot_entry_size};
ghost use Rattle.o2_view.specs.Geos.{HasSizes, LiesIn, Reaches};
ghost use Rattle.o2_view.specs.OwnChecks.{NoneFails, ReadFails, ReadFailsOf};
ghost use Rattle.o2_view.specs.Views.{Shows, ShowsBytes, OnlyReads};
ghost use Rattle.o2_extent.specs.Readings.{Within};
ghost use Rattle.o2_slots.specs.SlotChecks.{slot_map_checks, fault_of_map};

use crate::entries::entry_size;
use crate::gapless::{clusters_without_gap, have_no_flags};
use o2_disk::Disk;
use o2_extent::{Leaf, Leaves, look, records_in};
use o2_model::{Check, Geo};
use o2_view::{ReadFault, View};
use std::alloc::Global;

/// Whether these records have room for the entries of all slots, in clusters that follow one another and have no flags.
fn have_room(geo: &Geo, leaves: &[Leaf]) -> bool
    requires { HasSizes geo.now }
    ensures { (v : Volume) → v.geo ≡ geo.now → result ≡ (are_without_gap leaves.now && have_no_flags leaves.now && nat_le (v.geo.slots * slot_entry_size v) (clusters_in leaves.now * cluster_size v)) }
{
    let Some(clusters) = clusters_without_gap(leaves) else {
        return false;
    };
    let needed = u64::from(geo.slots) * entry_size(geo) as u64;
    have_no_flags(leaves) && needed <= clusters << geo.cluster_bits
}

/// The fault of the slot map at `inode` for one that is met in its leaf records.
fn fault_of_map(inode: u64, fault: ReadFault) -> ReadFault
    ensures { result ≡ fault_of_map inode fault }
{
    match fault {
        ReadFault::Bad { .. } => ReadFault::Bad {
            check: Check::SlotMap,
            block: inode,
        },
        ReadFault::NoMemory => ReadFault::NoMemory,
        ReadFault::DeviceFault => ReadFault::DeviceFault,
    }
}

/// The leaf records of the slot map whose dinode is in block `inode`, where these are its bytes. Bad where SLOT_MAP fails for it.
pub fn map_records_in<D: Disk, const N: usize>(
    alloc: Global,
    view: &mut View<'_, D, N>,
    geo: &Geo,
    inode: u64,
    bytes: &[u8],
) -> Result<Leaves, ReadFault>
    requires geo { LiesIn geo.now view.old }
    requires size { length bytes.now ≡ 2 ^ geo.now.block_bits }
    ensures told { IfOk result (λ leaves. (v : Volume) → ShowsBytes view.old geo.now inode bytes.now v
        → NoneFails (slot_map_checks inode) v × (leaves ≡ leaf_records v inode)) }
    ensures within { IfOk result (Within geo.now) }
    ensures fails { IfErr result (ReadFailsOf (ShowsBytes view.old geo.now inode bytes.now) view.old view.new (slot_map_checks inode)) }
    ensures reads { OnlyReads view.old view.new }
{
    let leaves = match records_in(alloc, view, geo, inode, bytes) {
        Ok(leaves) => leaves,
        Err(fault) => return Err(fault_of_map(inode, fault)),
    };
    if !have_room(geo, leaves.as_slice()) {
        return Err(ReadFault::Bad {
            check: Check::SlotMap,
            block: inode,
        });
    }
    Ok(leaves)
}

/// The leaf records of the slot map whose dinode is in block `inode`. Bad where SLOT_MAP fails for it.
pub fn map_records<D: Disk, const N: usize>(
    alloc: Global,
    view: &mut View<'_, D, N>,
    geo: &Geo,
    inode: u64,
) -> Result<Leaves, ReadFault>
    requires { Reaches geo.now view.old inode }
    ensures told { IfOk result (λ leaves. (v : Volume) → Shows view.old geo.now v → NoneFails (slot_map_checks inode) v × (leaves ≡ leaf_records v inode)) }
    ensures within { IfOk result (Within geo.now) }
    ensures fails { IfErr result (ReadFails view.old view.new geo.now (slot_map_checks inode)) }
    ensures reads { OnlyReads view.old view.new }
{
    let block = look(view, geo, inode)?;
    map_records_in(alloc, view, geo, inode, block.as_slice())
}
