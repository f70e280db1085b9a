// SLOT_MAP: the slot map has room for the entries of all slots.
ghost use Rattle.std.specs.Prelude.{◌≡◌, ◌^◌, length, IfOk};
ghost use Rattle.std.specs.Result.{IfErr};
ghost use Rattle.o2_model.specs.Volume.{Volume};
ghost use Rattle.o2_model.specs.Checks.SlotMap.{is_sound_slot_map};
ghost use Rattle.o2_view.specs.Geos.{LiesIn};
ghost use Rattle.o2_view.specs.OwnChecks.{BlockFails};
ghost use Rattle.o2_view.specs.Views.{ShowsBytes, OnlyReads};

use o2_disk::Disk;
use o2_model::Geo;
use o2_slots::map_records_in;
use o2_view::{ReadFault, View, ViewFault};
use std::alloc::Global;

/// Whether SLOT_MAP holds for the slot map at `inode`, where these are the bytes of its dinode. NoMemory where memory runs
/// out, DeviceFault where a read of an extent block fails.
pub fn is_sound_slot_map<D: Disk, const N: usize>(
    alloc: Global,
    view: &mut View<'_, D, N>,
    geo: &Geo,
    inode: u64,
    bytes: &[u8],
) -> Result<bool, ViewFault>
    requires geo { LiesIn geo.now view.old }
    requires size { length bytes.now ≡ 2 ^ geo.now.block_bits }
    ensures is { IfOk result (λ is. (v : Volume) → ShowsBytes view.old geo.now inode bytes.now v → is ≡ is_sound_slot_map v inode) }
    ensures reads { OnlyReads view.old view.new }
    ensures fails { IfErr result (BlockFails view.old view.new) }
{
    match map_records_in(alloc, view, geo, inode, bytes) {
        Ok(_) => Ok(true),
        Err(ReadFault::Bad { .. }) => Ok(false),
        Err(ReadFault::NoMemory) => Err(ViewFault::NoMemory),
        Err(ReadFault::DeviceFault) => Err(ViewFault::DeviceFault),
    }
}
