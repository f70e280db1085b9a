// Single steps of the skeleton's judgement over its tables.
ghost use Rattle.std.specs.Prelude.{◌≡◌, ◌∷◌, [], OnOk};
ghost use Rattle.std.specs.Result.{IfErr};
ghost use Rattle.o2_model.specs.Checks.ChainHeader.{chain_header_faults};
ghost use Rattle.o2_model.specs.Checks.Journal.{journal_faults};
ghost use Rattle.o2_model.specs.Checks.Root.{root_faults};
ghost use Rattle.o2_model.specs.Checks.SlotMap.{slot_map_faults};
ghost use Rattle.o2_model.specs.Checks.Sysfile.{sysfile_faults};
ghost use Rattle.o2_model.specs.Volume.{Volume};
ghost use Rattle.o2_view.specs.Geos.{LiesIn};
ghost use Rattle.o2_view.specs.OwnChecks.{ReadFails, ReadFailsOf};
ghost use Rattle.o2_view.specs.Views.{Shows, OnlyReads};
ghost use Rattle.o2_skeleton.specs.Skeleton.{sysfile_check, root_check, chain_header_check, journal_check, slot_map_check};
ghost use Rattle.o2_skeleton.specs.SkeletonTables.{IsSkeletonOf, ShowsSkeleton, TablesFail, TellsLeast};

use crate::directories::valid_directory;
use crate::journals::bad_journals;
use crate::slot_map::bad_slot_map;
use crate::tables::Skeleton;
use o2_disk::Disk;
use o2_extent::least;
use o2_judges_alloc::chain_header;
use o2_judges_system::sysfile;
use o2_model::{Check, Geo};
use o2_view::{ReadFault, View};
use std::alloc::Global;

/// Bad with the check at the least of these blocks, where there are some.
fn judged(check: Check, found: &[u64]) -> Result<(), ReadFault>
    ensures none { OnOk result (found.now ≡ []) }
    ensures bad { IfErr result (TellsLeast check found.now) }
{
    match least(found) {
        Some(block) => Err(ReadFault::Bad { check, block }),
        None => Ok(()),
    }
}

/// Bad where SYSFILE fails.
pub fn judge_system_files(alloc: Global, geo: &Geo, skeleton: &Skeleton) -> Result<(), ReadFault>
    ensures told { OnOk result ((v : Volume) → IsSkeletonOf geo.now skeleton.now v → sysfile_faults v ≡ []) }
    ensures fails { IfErr result (TablesFail (IsSkeletonOf geo.now skeleton.now) sysfile_check) }
{
    let found = sysfile(
        alloc,
        geo,
        &skeleton.names,
        skeleton.entries.as_slice(),
        &skeleton.inodes,
        skeleton.blocks.as_slice(),
    )?;
    judged(Check::Sysfile, found.as_slice())
}

/// Bad where CHAIN_HEADER fails.
pub fn judge_chain_headers(alloc: Global, geo: &Geo, skeleton: &Skeleton) -> Result<(), ReadFault>
    ensures told { OnOk result ((v : Volume) → IsSkeletonOf geo.now skeleton.now v → chain_header_faults v ≡ []) }
    ensures fails { IfErr result (TablesFail (IsSkeletonOf geo.now skeleton.now) chain_header_check) }
{
    let found = chain_header(alloc, skeleton.allocators.as_slice())?;
    judged(Check::ChainHeader, found.as_slice())
}

/// Bad where ROOT fails.
pub fn judge_root<D: Disk, const N: usize>(
    view: &mut View<'_, D, N>,
    geo: &Geo,
) -> Result<(), ReadFault>
    requires { LiesIn geo.now view.old }
    ensures told { OnOk result ((v : Volume) → Shows view.old geo.now v → root_faults v ≡ []) }
    ensures reads { OnlyReads view.old view.new }
    ensures fails { IfErr result (ReadFails view.old view.new geo.now (root_check ∷ [])) }
{
    let Some(_root) = valid_directory(view, geo, geo.root)? else {
        return Err(ReadFault::Bad {
            check: Check::Root,
            block: geo.root,
        });
    };
    Ok(())
}

/// Bad where JOURNAL fails.
pub fn judge_journals<D: Disk, const N: usize>(
    alloc: Global,
    view: &mut View<'_, D, N>,
    geo: &Geo,
    skeleton: &Skeleton,
) -> Result<(), ReadFault>
    requires { LiesIn geo.now view.old }
    ensures told { OnOk result ((v : Volume) → ShowsSkeleton view.old geo.now skeleton.now v → journal_faults v ≡ []) }
    ensures reads { OnlyReads view.old view.new }
    ensures fails { IfErr result (ReadFailsOf (ShowsSkeleton view.old geo.now skeleton.now) view.old view.new (journal_check ∷ [])) }
{
    let found = bad_journals(alloc, view, geo, &skeleton.names, &skeleton.inodes)?;
    judged(Check::Journal, found.as_slice())
}

/// Bad where SLOT_MAP fails.
pub fn judge_slot_map<D: Disk, const N: usize>(
    alloc: Global,
    view: &mut View<'_, D, N>,
    geo: &Geo,
    skeleton: &Skeleton,
) -> Result<(), ReadFault>
    requires { LiesIn geo.now view.old }
    ensures told { OnOk result ((v : Volume) → ShowsSkeleton view.old geo.now skeleton.now v → slot_map_faults v ≡ []) }
    ensures reads { OnlyReads view.old view.new }
    ensures fails { IfErr result (ReadFailsOf (ShowsSkeleton view.old geo.now skeleton.now) view.old view.new (slot_map_check ∷ [])) }
{
    match bad_slot_map(alloc, view, geo, &skeleton.names, &skeleton.inodes)? {
        Some(block) => Err(ReadFault::Bad {
            check: Check::SlotMap,
            block,
        }),
        None => Ok(()),
    }
}
