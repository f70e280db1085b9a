// The truncate logs of all slots, as a table.
ghost use Rattle.std.specs.Prelude.{◌≡◌, ◌++◌, ℕ, List, true, false, IfOk, OnOk};
ghost use Rattle.std.specs.Option.{IfNone, IfSome};
ghost use Rattle.std.specs.Result.{IfErr};
ghost use Rattle.o2_model.specs.declared.system_file.SlotFile.TheVariants as slot_file;
ghost use Rattle.o2_model.specs.TruncateLogs.{is_sound_truncate_header};
ghost use Rattle.o2_model.specs.Volume.{Volume};
ghost use Rattle.o2_view.specs.Geos.{LiesIn};
ghost use Rattle.o2_view.specs.OwnChecks.{BlockFails};
ghost use Rattle.o2_view.specs.Views.{Shows, OnlyReads};
ghost use Rattle.o2_slots.specs.Truncations.{truncated_runs};
ghost use Rattle.o2_survey.specs.SystemNames.{AreSystemNames};
ghost use Rattle.o2_windows.specs.SlotRows.{IsTruncateLogRow, AreTruncateLogRows, IsTruncateLogTable, inode_of_slot};

use o2_disk::Disk;
use o2_extent::is_block_in_range;
use o2_model::{Geo, Items, SlotFile, SystemFile};
use o2_slots::{TruncateRecords, truncate_log};
use o2_survey::SystemNames;
use o2_tally::put;
use o2_view::{ReadFault, Run, View, ViewFault};
use std::alloc::Global;

/// The truncate log of a slot.
#[derive(Debug, Drop)]
pub struct TruncateLogRow {
    pub slot: u16,
    /// The block of its dinode.
    pub inode: u64,
    /// Whether the records in use fit the log, and the log fits its dinode.
    pub has_sound_header: bool,
    /// The clusters of the records in use, void ones too. None where the header is not sound.
    pub records: Items<Run>,
}

/// The records of the log in the dinode, where its header is sound.
fn read_log<D: Disk, const N: usize>(
    alloc: Global,
    view: &mut View<'_, D, N>,
    geo: &Geo,
    inode: u64,
) -> Result<Option<TruncateRecords>, ViewFault>
    requires { LiesIn geo.now view.old }
    ensures none { IfOk result (λ found. IfNone found ((v : Volume) → Shows view.old geo.now v → is_sound_truncate_header v inode ≡ false)) }
    ensures some { IfOk result (λ found. IfSome found (λ records. (v : Volume) → Shows view.old geo.now v → (is_sound_truncate_header v inode ≡ true) × (records ≡ truncated_runs v inode))) }
    ensures reads { OnlyReads view.old view.new }
    ensures fails { IfErr result (BlockFails view.old view.new) }
{
    if !is_block_in_range(geo, inode) {
        return Err(ViewFault::NoMemory);
    }
    match truncate_log(alloc, view, geo, inode) {
        Ok(records) => Ok(Some(records)),
        Err(ReadFault::Bad { .. }) => Ok(None),
        Err(ReadFault::NoMemory) => Err(ViewFault::NoMemory),
        Err(ReadFault::DeviceFault) => Err(ViewFault::DeviceFault),
    }
}

/// The row of the log in the dinode, which is the slot's.
#[tactic(auto, using(crate::proofs::LogsTold::no_records))]
fn log_row<D: Disk, const N: usize>(
    alloc: Global,
    view: &mut View<'_, D, N>,
    geo: &Geo,
    slot: u16,
    inode: u64,
) -> Result<TruncateLogRow, ViewFault>
    requires { LiesIn geo.now view.old }
    ensures slot { IfOk result (λ row. row.slot ≡ slot) }
    ensures inode { IfOk result (λ row. row.inode ≡ inode) }
    ensures row { IfOk result (λ row. (v : Volume) → Shows view.old geo.now v → IsTruncateLogRow v row) }
    ensures reads { OnlyReads view.old view.new }
    ensures fails { IfErr result (BlockFails view.old view.new) }
{
    let found = read_log(alloc, view, geo, inode)?;
    let has_sound_header = found.is_some();
    let records = match found {
        Some(records) => records,
        None => Items::from(Vec::new(alloc)),
    };
    Ok(TruncateLogRow {
        slot,
        inode,
        has_sound_header,
        records,
    })
}

/// Puts the row of the slot's log at the end, where the slot has one.
fn add_log<D: Disk, const N: usize>(
    alloc: Global,
    view: &mut View<'_, D, N>,
    geo: &Geo,
    names: &SystemNames,
    slot: u16,
    rows: &mut Vec<TruncateLogRow>,
) -> Result<(), ViewFault>
    requires { LiesIn geo.now view.old }
    ensures added { OnOk result ((v : Volume) → Shows view.old geo.now v → AreSystemNames v names.now → (before : List (ℕ × ℕ))
        → AreTruncateLogRows v before rows.old.items → AreTruncateLogRows v (before ++ inode_of_slot v slot_file.TruncateLog slot) rows.new.items) }
    ensures reads { OnlyReads view.old view.new }
    ensures fails { IfErr result (BlockFails view.old view.new) }
{
    let file = SystemFile::OfSlot(SlotFile::TruncateLog, slot);
    let Some(inode) = names.inode_of(file) else {
        return Ok(());
    };
    let row = log_row(alloc, view, geo, slot, inode)?;
    put(rows, row)?;
    Ok(())
}

/// The truncate logs of the slots that have one, slot by slot. NoMemory where memory runs out, and where the inode of one is out
/// of range, which SYSFILE refuses; DeviceFault where a read fails.
pub fn truncate_logs<D: Disk, const N: usize>(
    alloc: Global,
    view: &mut View<'_, D, N>,
    geo: &Geo,
    names: &SystemNames,
) -> Result<Vec<TruncateLogRow>, ViewFault>
    requires { LiesIn geo.now view.old }
    ensures told { IfOk result (λ rows. (v : Volume) → Shows view.old geo.now v → AreSystemNames v names.now → IsTruncateLogTable v rows.items) }
    ensures reads { OnlyReads view.old view.new }
    ensures fails { IfErr result (BlockFails view.old view.new) }
{
    let mut rows = Vec::new(alloc);
    for slot in 0..geo.slots {
        add_log(alloc, view, geo, names, slot, &mut rows)?;
    }
    Ok(rows)
}
