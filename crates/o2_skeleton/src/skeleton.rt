// The skeleton of a volume: the first seven checks.
ghost use Rattle.std.specs.Prelude.{◌≡◌, ◌/◌, ◌<◌, ◌≤◌, IfOk};
ghost use Rattle.std.specs.Result.{IfErr};
ghost use Rattle.o2_view.specs.Views.{view_bits, view_blocks, Shows, OnlyReads};
ghost use Rattle.o2_view.specs.Geos.{LiesIn};
ghost use Rattle.o2_view.specs.OwnChecks.{NoneFails, ReadFails};
ghost use Rattle.o2_model.specs.Volume.{Volume};
ghost use Rattle.o2_skeleton.specs.Skeleton.{directory_checks, skeleton_checks, HasSkeleton};
ghost use Rattle.o2_skeleton.specs.SkeletonTables.{IsSkeleton};

use crate::directories::sound_entries;
use crate::files::judge_files;
use crate::super_block::{SUPER_BLOCK, has_sound_super};
use crate::tables::{Skeleton, read_skeleton};
use o2_disk::Disk;
use o2_model::{Check, Geo};
use o2_view::{ReadFault, View};
use std::alloc::Global;

/// Judges SYSDIR, and then what the system directory names.
fn judge_directories<D: Disk, const N: usize>(
    alloc: Global,
    view: &mut View<'_, D, N>,
    geo: &Geo,
) -> Result<Skeleton, ReadFault>
    requires { LiesIn geo.now view.old }
    ensures told { IfOk result (λ skeleton. (v : Volume) → Shows view.old geo.now v → NoneFails directory_checks v × IsSkeleton v skeleton) }
    ensures reads { OnlyReads view.old view.new }
    ensures fails { IfErr result (ReadFails view.old view.new geo.now directory_checks) }
{
    let Some(entries) = sound_entries(alloc, view, geo, geo.sysdir)? else {
        return Err(ReadFault::Bad {
            check: Check::Sysdir,
            block: geo.sysdir,
        });
    };
    let skeleton = read_skeleton(alloc, view, geo, entries)?;
    judge_files(alloc, view, geo, &skeleton)?;
    Ok(skeleton)
}

/// Judges the skeleton of a volume, and hands out its tables. The view has all whole blocks of the device, and `geo` tells their
/// size right; nothing else of it is taken for granted. Bad with the first of SUPER (at block 2), SYSDIR (at the system
/// directory's dinode), SYSFILE, ROOT (at the root's), CHAIN_HEADER, JOURNAL and SLOT_MAP that fails, at its least block.
pub fn judge_skeleton<D: Disk, const N: usize>(
    alloc: Global,
    view: &mut View<'_, D, N>,
    geo: &Geo,
) -> Result<Skeleton, ReadFault>
    requires bits { geo.now.block_bits ≡ view_bits view.old }
    requires least { 9 ≤ geo.now.block_bits }
    requires most { geo.now.block_bits ≤ 12 }
    requires device { (v : Volume) → Shows view.old geo.now v → view_blocks view.old ≡ v.on_device }
    ensures told { IfOk result (λ skeleton. (v : Volume) → Shows view.old geo.now v → HasSkeleton v) }
    ensures tables { IfOk result (λ skeleton. (v : Volume) → Shows view.old geo.now v → IsSkeleton v skeleton) }
    ensures lies { IfOk result (λ _. LiesIn geo.now view.old) }
    ensures reads { OnlyReads view.old view.new }
    ensures fails { IfErr result (ReadFails view.old view.new geo.now skeleton_checks) }
{
    if !has_sound_super(view, geo)? {
        return Err(ReadFault::Bad {
            check: Check::Super,
            block: SUPER_BLOCK,
        });
    }
    judge_directories(alloc, view, geo)
}

#[cfg(test)]
mod tests;
