// The whole check.
ghost use Rattle.std.specs.Prelude.{◌≡◌, ◌<◌, ◌≤◌, ◌^◌, map, IfOk};
ghost use Rattle.std.specs.Result.{IfErr};
ghost use Rattle.o2_view.specs.Views.{view_bits, view_blocks, Shows, OnlyReads};
ghost use Rattle.o2_view.specs.Geos.{LiesIn, HasSizes, HasNumbers, blocks_of};
ghost use Rattle.o2_model.specs.Volume.{Volume};
ghost use Rattle.o2_skeleton.specs.Skeleton.{HasSkeleton};
ghost use Rattle.o2_skeleton.specs.SkeletonTables.{IsSkeleton};
ghost use Rattle.o2_check.specs.Faults.{CheckFails, TablesFail};
ghost use Rattle.o2_check.specs.Reports.{IsReport};
ghost use Rattle.o2_check.specs.WholeTables.{AreTables};

use crate::fault::CheckFault;
use crate::findings::find;
use crate::oddities::unsupported_in;
use crate::pairs::further_pairs;
use crate::report::{Report, first_alone};
use crate::tables::{Tables, read_tables};
use o2_disk::{Disk, NoMemory};
use o2_model::Geo;
use o2_skeleton::{Skeleton, judge_skeleton};
use o2_tally::put;
use o2_tree::EntryRow;
use o2_view::{Numbers, Pairs, ReadFault, View};
use std::alloc::Global;

/// The inodes that these entries name.
fn inodes_named(alloc: Global, entries: &[EntryRow]) -> Result<Numbers, NoMemory>
    ensures { IfOk result (λ inodes. inodes ≡ map (λ e. e.inode) entries.now) }
{
    let mut inodes = Vec::new(alloc);
    for entry in entries {
        put(&mut inodes, entry.inode)?;
    }
    Ok(Numbers::from(inodes))
}

/// The report of a volume whose skeleton holds. Unsupported where something on it is outside the profile.
fn report_of(alloc: Global, geo: &Geo, tables: Tables) -> Result<Report, CheckFault>
    requires sizes { HasSizes geo.now }
    requires numbers { HasNumbers geo.now }
    requires few { blocks_of geo.now < 2 ^ 64 }
    ensures told { IfOk result (λ report. (v : Volume) → v.geo ≡ geo.now → HasSkeleton v → AreTables v tables → IsReport v report) }
    ensures fails { IfErr result (TablesFail geo.now tables) }
{
    if let Some((what, block)) = unsupported_in(alloc, &tables)? {
        return Err(CheckFault::Unsupported { what, block });
    }
    let findings = find(alloc, geo, tables)?;
    let pairs = further_pairs(alloc, geo, &findings)?;
    let orphans = inodes_named(alloc, &findings.orphans)?;
    let walk = findings.walk;
    let judged = findings.judged;
    let tree = walk.tree;
    let pairs = Pairs::from(pairs);
    Ok(Report::new(pairs, tree.links, orphans, judged.claims))
}

/// Checks what stands behind the skeleton, which holds.
fn check_further<D: Disk, const N: usize>(
    alloc: Global,
    view: &mut View<'_, D, N>,
    geo: &Geo,
    skeleton: Skeleton,
) -> Result<Report, CheckFault>
    requires geo { LiesIn geo.now view.old }
    requires holds { (v : Volume) → Shows view.old geo.now v → HasSkeleton v }
    requires tables { (v : Volume) → Shows view.old geo.now v → IsSkeleton v skeleton }
    ensures told { IfOk result (λ report. (v : Volume) → Shows view.old geo.now v → IsReport v report) }
    ensures reads { OnlyReads view.old view.new }
    ensures fails { IfErr result (CheckFails view.old view.new geo.now) }
{
    let tables = read_tables(alloc, view, geo, skeleton)?;
    report_of(alloc, geo, tables)
}

/// Checks the volume, and writes nothing. The view has all whole blocks of the device, and `geo` tells their size right; nothing
/// else of it is taken for granted. The report has just the failing pairs of the table of checks, by number and then by block: the
/// first of the skeleton alone, where one of its checks fails. NoMemory where memory runs out, DeviceFault where a read fails,
/// Unsupported where the skeleton holds and something on the volume is outside the profile.
pub fn check<D: Disk, const N: usize>(
    alloc: Global,
    view: &mut View<'_, D, N>,
    geo: &Geo,
) -> Result<Report, CheckFault>
    requires bits { geo.now.block_bits ≡ view_bits view.old }
    requires least { 9 ≤ geo.now.block_bits }
    requires most { geo.now.block_bits ≤ 12 }
    requires device { (v : Volume) → Shows view.old geo.now v → view_blocks view.old ≡ v.on_device }
    ensures told { IfOk result (λ report. (v : Volume) → Shows view.old geo.now v → IsReport v report) }
    ensures reads { OnlyReads view.old view.new }
    ensures fails { IfErr result (CheckFails view.old view.new geo.now) }
{
    match judge_skeleton(alloc, view, geo) {
        Ok(skeleton) => check_further(alloc, view, geo, skeleton),
        Err(ReadFault::Bad { check, block }) => Ok(first_alone(alloc, check, block)?),
        Err(ReadFault::NoMemory) => Err(CheckFault::NoMemory),
        Err(ReadFault::DeviceFault) => Err(CheckFault::DeviceFault),
    }
}
