// The skeleton behind its two directories: one step after the other, up to the first check that fails.
ghost use Rattle.std.specs.Prelude.{OnOk};
ghost use Rattle.std.specs.Result.{IfErr};
ghost use Rattle.o2_model.specs.Volume.{Volume};
ghost use Rattle.o2_view.specs.Geos.{LiesIn};
ghost use Rattle.o2_view.specs.OwnChecks.{NoneFails, ReadFailsOf};
ghost use Rattle.o2_view.specs.Views.{OnlyReads};
ghost use Rattle.o2_skeleton.specs.Skeleton.{log_checks, allocator_checks, root_checks, file_checks};
ghost use Rattle.o2_skeleton.specs.SkeletonTables.{ShowsSkeleton};

use crate::steps::{
    judge_chain_headers, judge_journals, judge_root, judge_slot_map, judge_system_files,
};
use crate::tables::Skeleton;
use o2_disk::Disk;
use o2_model::Geo;
use o2_view::{ReadFault, View};
use std::alloc::Global;

/// Judges JOURNAL, then SLOT_MAP.
fn judge_logs<D: Disk, const N: usize>(
    alloc: Global,
    view: &mut View<'_, D, N>,
    geo: &Geo,
    skeleton: &Skeleton,
) -> Result<(), ReadFault>
    requires { LiesIn geo.now view.old }
    ensures told { OnOk result ((v : Volume) → ShowsSkeleton view.old geo.now skeleton.now v → NoneFails log_checks v) }
    ensures reads { OnlyReads view.old view.new }
    ensures fails { IfErr result (ReadFailsOf (ShowsSkeleton view.old geo.now skeleton.now) view.old view.new log_checks) }
{
    judge_journals(alloc, view, geo, skeleton)?;
    judge_slot_map(alloc, view, geo, skeleton)
}

/// Judges CHAIN_HEADER, then these.
fn judge_allocators<D: Disk, const N: usize>(
    alloc: Global,
    view: &mut View<'_, D, N>,
    geo: &Geo,
    skeleton: &Skeleton,
) -> Result<(), ReadFault>
    requires { LiesIn geo.now view.old }
    ensures told { OnOk result ((v : Volume) → ShowsSkeleton view.old geo.now skeleton.now v → NoneFails allocator_checks v) }
    ensures reads { OnlyReads view.old view.new }
    ensures fails { IfErr result (ReadFailsOf (ShowsSkeleton view.old geo.now skeleton.now) view.old view.new allocator_checks) }
{
    judge_chain_headers(alloc, geo, skeleton)?;
    judge_logs(alloc, view, geo, skeleton)
}

/// Judges ROOT, then these.
fn judge_from_root<D: Disk, const N: usize>(
    alloc: Global,
    view: &mut View<'_, D, N>,
    geo: &Geo,
    skeleton: &Skeleton,
) -> Result<(), ReadFault>
    requires { LiesIn geo.now view.old }
    ensures told { OnOk result ((v : Volume) → ShowsSkeleton view.old geo.now skeleton.now v → NoneFails root_checks v) }
    ensures reads { OnlyReads view.old view.new }
    ensures fails { IfErr result (ReadFailsOf (ShowsSkeleton view.old geo.now skeleton.now) view.old view.new root_checks) }
{
    judge_root(view, geo)?;
    judge_allocators(alloc, view, geo, skeleton)
}

/// Judges SYSFILE, ROOT, CHAIN_HEADER, JOURNAL and SLOT_MAP in this order, up to the first that fails.
pub fn judge_files<D: Disk, const N: usize>(
    alloc: Global,
    view: &mut View<'_, D, N>,
    geo: &Geo,
    skeleton: &Skeleton,
) -> Result<(), ReadFault>
    requires { LiesIn geo.now view.old }
    ensures told { OnOk result ((v : Volume) → ShowsSkeleton view.old geo.now skeleton.now v → NoneFails file_checks v) }
    ensures reads { OnlyReads view.old view.new }
    ensures fails { IfErr result (ReadFailsOf (ShowsSkeleton view.old geo.now skeleton.now) view.old view.new file_checks) }
{
    judge_system_files(alloc, geo, skeleton)?;
    judge_from_root(alloc, view, geo, skeleton)
}
