// SLOT_MAP: the slot map of the volume.
ghost use Rattle.std.specs.Prelude.{◌≡◌, ◌∷◌, [], IfOk};
ghost use Rattle.std.specs.Option.{IfNone, IfSome};
ghost use Rattle.std.specs.Result.{IfErr};
ghost use Rattle.o2_model.specs.Volume.{Volume};
ghost use Rattle.o2_model.specs.Checks.SlotMap.{is_sound_slot_map as is_map_sound, slot_map_faults};
ghost use Rattle.o2_view.specs.Geos.{LiesIn};
ghost use Rattle.o2_view.specs.OwnChecks.{BlockFails};
ghost use Rattle.o2_view.specs.Views.{Shows, OnlyReads};
ghost use Rattle.o2_survey.specs.SystemInodes.{AreRead};
ghost use Rattle.o2_survey.specs.SystemNames.{AreSystemNames};

use o2_disk::Disk;
use o2_extent::is_block_in_range;
use o2_judges_slots::is_sound_slot_map;
use o2_model::{Geo, SystemFile};
use o2_survey::{SystemInodes, SystemNames, block_of};
use o2_view::{View, ViewFault};
use std::alloc::Global;

/// Whether SLOT_MAP holds for the slot map at `inode`.
fn is_sound<D: Disk, const N: usize>(
    alloc: Global,
    view: &mut View<'_, D, N>,
    geo: &Geo,
    inodes: &SystemInodes,
    inode: u64,
) -> Result<bool, ViewFault>
    requires { LiesIn geo.now view.old }
    ensures is { IfOk result (λ is. (v : Volume) → Shows view.old geo.now v → AreRead v inodes.now → is ≡ is_map_sound v inode) }
    ensures reads { OnlyReads view.old view.new }
    ensures fails { IfErr result (BlockFails view.old view.new) }
{
    if !is_block_in_range(geo, inode) {
        // SYSFILE held before, so the slot map is in range. Memory may run out at any time, so that this answer is never wrong.
        return Err(ViewFault::NoMemory);
    }
    let block = block_of(alloc, view, geo, inodes, inode)?;
    is_sound_slot_map(alloc, view, geo, inode, block.as_slice())
}

/// The slot map, where SLOT_MAP fails for it. None where it holds, or there is no slot map. NoMemory where memory runs out, and
/// where the slot map is out of range, which SYSFILE refuses; DeviceFault where a read fails.
pub fn bad_slot_map<D: Disk, const N: usize>(
    alloc: Global,
    view: &mut View<'_, D, N>,
    geo: &Geo,
    names: &SystemNames,
    inodes: &SystemInodes,
) -> Result<Option<u64>, ViewFault>
    requires { LiesIn geo.now view.old }
    ensures none { IfOk result (λ found. IfNone found ((v : Volume) → Shows view.old geo.now v → AreSystemNames v names.now → AreRead v inodes.now
        → slot_map_faults v ≡ [])) }
    ensures some { IfOk result (λ found. IfSome found (λ b. (v : Volume) → Shows view.old geo.now v → AreSystemNames v names.now → AreRead v inodes.now
        → slot_map_faults v ≡ b ∷ [])) }
    ensures reads { OnlyReads view.old view.new }
    ensures fails { IfErr result (BlockFails view.old view.new) }
{
    let Some(inode) = names.inode_of(SystemFile::SlotMap) else {
        return Ok(None);
    };
    if is_sound(alloc, view, geo, inodes, inode)? {
        return Ok(None);
    }
    Ok(Some(inode))
}
