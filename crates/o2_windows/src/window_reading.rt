// A window as its dinode says it.
ghost use Rattle.std.specs.Prelude.{◌≡◌, true, false, [], IfOk};
ghost use Rattle.std.specs.Option.{IfNone, IfSome};
ghost use Rattle.std.specs.Result.{IfErr};
ghost use Rattle.o2_model.specs.Volume.{Volume};
ghost use Rattle.o2_model.specs.Windows.{is_sound_window, window_clusters, window_used};
ghost use Rattle.o2_view.specs.Geos.{LiesIn};
ghost use Rattle.o2_view.specs.OwnChecks.{BlockFails};
ghost use Rattle.o2_view.specs.Views.{Shows, OnlyReads};
ghost use Rattle.o2_slots.specs.Windows.{IsWindow, is_sound_window_head};
ghost use Rattle.o2_survey.specs.SystemInodes.{AreRead};

use crate::window_clusters::sound_clusters;
use o2_disk::{Disk, NoMemory};
use o2_extent::is_block_in_range;
use o2_model::Geo;
use o2_slots::{Window, local_alloc};
use o2_survey::SystemInodes;
use o2_view::{ReadFault, View, ViewFault};
use std::alloc::Global;

/// How many clusters of the window in the dinode are in use.
fn used_of(inodes: &SystemInodes, inode: u64) -> Result<u32, NoMemory>
    ensures { IfOk result (λ used. (v : Volume) → AreRead v inodes.now → used ≡ window_used v inode) }
{
    match inodes.row_of(inode) {
        Some(row) => Ok(row.role_data.used()),
        // Each inode in range that the system directory names was read. Memory may run out at any time, so that this answer is
        // never wrong.
        None => Err(NoMemory),
    }
}

/// The window in the dinode, where its bitmap fits.
fn read_window<D: Disk, const N: usize>(
    alloc: Global,
    view: &mut View<'_, D, N>,
    geo: &Geo,
    inode: u64,
) -> Result<Option<Window>, ViewFault>
    requires { LiesIn geo.now view.old }
    ensures none { IfOk result (λ found. IfNone found ((v : Volume) → Shows view.old geo.now v → is_sound_window_head v inode ≡ false)) }
    ensures some { IfOk result (λ found. IfSome found (λ window. (v : Volume) → Shows view.old geo.now v → (is_sound_window_head v inode ≡ true) × IsWindow v inode window)) }
    ensures reads { OnlyReads view.old view.new }
    ensures fails { IfErr result (BlockFails view.old view.new) }
{
    if !is_block_in_range(geo, inode) {
        return Err(ViewFault::NoMemory);
    }
    match local_alloc(alloc, view, geo, inode) {
        Ok(window) => Ok(Some(window)),
        Err(ReadFault::Bad { .. }) => Ok(None),
        Err(ReadFault::NoMemory) => Err(ViewFault::NoMemory),
        Err(ReadFault::DeviceFault) => Err(ViewFault::DeviceFault),
    }
}

/// The clusters of the clear bits of the window in the dinode, where it holds but for claims. NoMemory too where the inode is out
/// of range, DeviceFault where a read fails.
pub fn window_clusters<D: Disk, const N: usize>(
    alloc: Global,
    view: &mut View<'_, D, N>,
    geo: &Geo,
    inodes: &SystemInodes,
    inode: u64,
) -> Result<Option<Vec<u32>>, ViewFault>
    requires { LiesIn geo.now view.old }
    ensures none { IfOk result (λ found. IfNone found ((v : Volume) → Shows view.old geo.now v → AreRead v inodes.now → is_sound_window v [] inode ≡ false)) }
    ensures some { IfOk result (λ found. IfSome found (λ clusters. (v : Volume) → Shows view.old geo.now v → AreRead v inodes.now
        → (is_sound_window v [] inode ≡ true) × (clusters.items ≡ window_clusters v inode))) }
    ensures reads { OnlyReads view.old view.new }
    ensures fails { IfErr result (BlockFails view.old view.new) }
{
    let used = used_of(inodes, inode)?;
    let Some(window) = read_window(alloc, view, geo, inode)? else {
        return Ok(None);
    };
    Ok(sound_clusters(alloc, geo, &window, used)?)
}
