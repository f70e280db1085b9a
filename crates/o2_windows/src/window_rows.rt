// The windows of all slots, as a table.
ghost use Rattle.std.specs.Prelude.{◌≡◌, ◌++◌, ℕ, List, [], true, false, IfOk, OnOk};
ghost use Rattle.std.specs.Option.{IfNone, IfSome};
ghost use Rattle.std.specs.Result.{IfErr};
ghost use Rattle.o2_model.specs.declared.system_file.SlotFile.TheVariants as slot_file;
ghost use Rattle.o2_model.specs.Volume.{Volume};
ghost use Rattle.o2_view.specs.Geos.{LiesIn};
ghost use Rattle.o2_view.specs.OwnChecks.{BlockFails};
ghost use Rattle.o2_view.specs.Views.{Shows, OnlyReads};
ghost use Rattle.o2_survey.specs.SystemNames.{AreSystemNames};
ghost use Rattle.o2_survey.specs.SystemInodes.{AreRead};
ghost use Rattle.o2_windows.specs.SlotRows.{IsWindowRow, AreWindowRows, IsWindowTable, inode_of_slot};

use crate::window_reading::window_clusters;
use o2_disk::Disk;
use o2_model::{Geo, Items, SlotFile, SystemFile};
use o2_survey::{SystemInodes, SystemNames};
use o2_tally::put;
use o2_view::{View, ViewFault};
use std::alloc::Global;

/// The window of a slot's local alloc.
#[derive(Debug, Drop)]
pub struct WindowRow {
    pub slot: u16,
    /// The block of its dinode.
    pub inode: u64,
    /// Whether it holds where nothing is claimed.
    pub is_sound_alone: bool,
    /// The clusters of its clear bits, none where it does not hold.
    pub clusters: Items<u32>,
}

/// The row of the window in the dinode, which is the slot's.
fn window_row<D: Disk, const N: usize>(
    alloc: Global,
    view: &mut View<'_, D, N>,
    geo: &Geo,
    inodes: &SystemInodes,
    slot: u16,
    inode: u64,
) -> Result<WindowRow, ViewFault>
    requires { LiesIn geo.now view.old }
    ensures slot { IfOk result (λ row. row.slot ≡ slot) }
    ensures inode { IfOk result (λ row. row.inode ≡ inode) }
    ensures row { IfOk result (λ row. (v : Volume) → Shows view.old geo.now v → AreRead v inodes.now → IsWindowRow v row) }
    ensures reads { OnlyReads view.old view.new }
    ensures fails { IfErr result (BlockFails view.old view.new) }
{
    let found = window_clusters(alloc, view, geo, inodes, inode)?;
    let is_sound_alone = found.is_some();
    let clusters = match found {
        Some(clusters) => Items::from(clusters),
        None => Items::from(Vec::new(alloc)),
    };
    Ok(WindowRow {
        slot,
        inode,
        is_sound_alone,
        clusters,
    })
}

/// Puts the row of the slot's window at the end, where the slot has one.
fn add_window<D: Disk, const N: usize>(
    alloc: Global,
    view: &mut View<'_, D, N>,
    geo: &Geo,
    names: &SystemNames,
    inodes: &SystemInodes,
    slot: u16,
    rows: &mut Vec<WindowRow>,
) -> Result<(), ViewFault>
    requires { LiesIn geo.now view.old }
    ensures added { OnOk result ((v : Volume) → Shows view.old geo.now v → AreSystemNames v names.now → AreRead v inodes.now → (before : List (ℕ × ℕ))
        → AreWindowRows v before rows.old.items → AreWindowRows v (before ++ inode_of_slot v slot_file.LocalAlloc slot) rows.new.items) }
    ensures reads { OnlyReads view.old view.new }
    ensures fails { IfErr result (BlockFails view.old view.new) }
{
    let file = SystemFile::OfSlot(SlotFile::LocalAlloc, slot);
    let Some(inode) = names.inode_of(file) else {
        return Ok(());
    };
    let row = window_row(alloc, view, geo, inodes, slot, inode)?;
    put(rows, row)?;
    Ok(())
}

/// The windows of the slots that have one, slot by slot. NoMemory where memory runs out, and where the inode of one is out of
/// range, which SYSFILE refuses; DeviceFault where a read fails.
pub fn windows<D: Disk, const N: usize>(
    alloc: Global,
    view: &mut View<'_, D, N>,
    geo: &Geo,
    names: &SystemNames,
    inodes: &SystemInodes,
) -> Result<Vec<WindowRow>, ViewFault>
    requires { LiesIn geo.now view.old }
    ensures told { IfOk result (λ rows. (v : Volume) → Shows view.old geo.now v → AreSystemNames v names.now → AreRead v inodes.now → IsWindowTable v rows.items) }
    ensures reads { OnlyReads view.old view.new }
    ensures fails { IfErr result (BlockFails view.old view.new) }
{
    let mut rows = Vec::new(alloc);
    for slot in 0..geo.slots {
        add_window(alloc, view, geo, names, inodes, slot, &mut rows)?;
    }
    Ok(rows)
}
