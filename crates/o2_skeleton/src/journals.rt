// JOURNAL: the journal of each slot.
ghost use Rattle.std.specs.Prelude.{◌≡◌, ◌++◌, IfOk, OnOk};
ghost use Rattle.std.specs.Result.{IfErr};
ghost use Rattle.o2_model.specs.Faults.{fails_unless};
ghost use Rattle.o2_model.specs.Volume.{Volume};
ghost use Rattle.o2_model.specs.Checks.Journal.{is_sound_journal as is_journal_sound, journal_faults};
ghost use Rattle.o2_view.specs.Geos.{LiesIn};
ghost use Rattle.o2_view.specs.OwnChecks.{BlockFails};
ghost use Rattle.o2_view.specs.Views.{Shows, OnlyReads};
ghost use Rattle.o2_survey.specs.SystemInodes.{AreRead};
ghost use Rattle.o2_survey.specs.SystemNames.{AreSystemNames};

use o2_disk::Disk;
use o2_extent::is_block_in_range;
use o2_judges_slots::is_sound_journal;
use o2_model::Geo;
use o2_survey::{SystemInodes, SystemNames, block_of, journals};
use o2_tally::put;
use o2_view::{View, ViewFault};
use std::alloc::Global;

/// Whether JOURNAL holds for the journal at `inode`.
fn is_sound<D: Disk, const N: usize>(
    alloc: Global,
    view: &mut View<'_, D, N>,
    geo: &Geo,
    inodes: &SystemInodes,
    inode: u64,
) -> Result<bool, ViewFault>
    requires { LiesIn geo.now view.old }
    ensures is { IfOk result (λ is. (v : Volume) → Shows view.old geo.now v → AreRead v inodes.now → is ≡ is_journal_sound v inode) }
    ensures reads { OnlyReads view.old view.new }
    ensures fails { IfErr result (BlockFails view.old view.new) }
{
    if !is_block_in_range(geo, inode) {
        // SYSFILE held before, so no journal is out of range. Memory may run out at any time, so that this answer is never wrong.
        return Err(ViewFault::NoMemory);
    }
    let block = block_of(alloc, view, geo, inodes, inode)?;
    is_sound_journal(alloc, view, geo, inode, block.as_slice())
}

/// Puts the journal at the end, where JOURNAL fails for it.
fn add_bad<D: Disk, const N: usize>(
    alloc: Global,
    view: &mut View<'_, D, N>,
    geo: &Geo,
    inodes: &SystemInodes,
    inode: u64,
    found: &mut Vec<u64>,
) -> Result<(), ViewFault>
    requires { LiesIn geo.now view.old }
    ensures added { OnOk result ((v : Volume) → Shows view.old geo.now v → AreRead v inodes.now
        → found.new.items ≡ found.old.items ++ fails_unless inode (is_journal_sound v inode)) }
    ensures reads { OnlyReads view.old view.new }
    ensures fails { IfErr result (BlockFails view.old view.new) }
{
    if !is_sound(alloc, view, geo, inodes, inode)? {
        put(found, inode)?;
    }
    Ok(())
}

/// The journals at which JOURNAL fails, slot by slot. NoMemory where memory runs out, and where a journal is out of range, which
/// SYSFILE refuses; DeviceFault where a read fails.
pub fn bad_journals<D: Disk, const N: usize>(
    alloc: Global,
    view: &mut View<'_, D, N>,
    geo: &Geo,
    names: &SystemNames,
    inodes: &SystemInodes,
) -> Result<Vec<u64>, ViewFault>
    requires { LiesIn geo.now view.old }
    ensures told { IfOk result (λ found. (v : Volume) → Shows view.old geo.now v → AreSystemNames v names.now → AreRead v inodes.now
        → found.items ≡ journal_faults v) }
    ensures reads { OnlyReads view.old view.new }
    ensures fails { IfErr result (BlockFails view.old view.new) }
{
    let all = journals(alloc, geo, names)?;
    let mut found = Vec::new(alloc);
    for inode in all.as_slice() {
        add_bad(alloc, view, geo, inodes, *inode, &mut found)?;
    }
    Ok(found)
}
