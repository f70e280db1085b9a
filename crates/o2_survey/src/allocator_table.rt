// The allocators of a volume, as a table.
ghost use Rattle.std.specs.Prelude.{◌≡◌, ◌++◌, List, IfOk, OnOk};
ghost use Rattle.std.specs.Result.{IfErr};
ghost use Rattle.o2_model.specs.declared.allocator.Allocator.{Allocator as Told};
ghost use Rattle.o2_model.specs.Volume.{Volume};
ghost use Rattle.o2_model.specs.Allocators.{allocator_named, slot_allocators};
ghost use Rattle.o2_view.specs.Geos.{LiesIn};
ghost use Rattle.o2_view.specs.OwnChecks.{BlockFails};
ghost use Rattle.o2_view.specs.Views.{Shows, OnlyReads};
ghost use Rattle.o2_tables.specs.Rows.{IsAllocatorTable};
ghost use Rattle.o2_survey.specs.SystemNames.{AreSystemNames};
ghost use Rattle.o2_survey.specs.SystemInodes.{AreRead};
ghost use Rattle.o2_survey.specs.AllocatorRows.{AreAllocatorRows, allocators_told, global_allocators};

use crate::SystemNames;
use crate::allocator_rows::row_of;
use crate::named_inodes::SystemInodes;
use o2_disk::Disk;
use o2_model::{Allocator, BitUse, Geo, SlotFile, SystemFile};
use o2_tables::{AllocatorRow, AllocatorTable};
use o2_tally::put;
use o2_view::{View, ViewFault};
use std::alloc::Global;

/// The slot of an allocator that belongs to none.
const NO_SLOT: u16 = 0xffff;

/// The allocator that the names tell for the file.
fn allocator_of(
    names: &SystemNames,
    bit_use: BitUse,
    slot: u16,
    file: SystemFile,
) -> Option<Allocator>
    ensures { (v : Volume) → AreSystemNames v names.now → allocators_told v result ≡ allocator_named v bit_use slot file }
{
    match names.inode_of(file) {
        Some(block) => Some(Allocator {
            bit_use,
            slot,
            block,
        }),
        None => None,
    }
}

/// Puts the row of the allocator at the end, where there is an allocator and its dinode is one's.
fn add_row<D: Disk, const N: usize>(
    alloc: Global,
    view: &mut View<'_, D, N>,
    geo: &Geo,
    inodes: &SystemInodes,
    told: Option<Allocator>,
    rows: &mut Vec<AllocatorRow>,
) -> Result<(), ViewFault>
    requires { LiesIn geo.now view.old }
    ensures added { OnOk result ((v : Volume) → Shows view.old geo.now v → AreRead v inodes.now → (before : List Told)
        → AreAllocatorRows v before rows.old.items → AreAllocatorRows v (before ++ allocators_told v told) rows.new.items) }
    ensures reads { OnlyReads view.old view.new }
    ensures fails { IfErr result (BlockFails view.old view.new) }
{
    let Some(a) = told else {
        return Ok(());
    };
    let Some(row) = row_of(alloc, view, geo, inodes, a)? else {
        return Ok(());
    };
    put(rows, row)?;
    Ok(())
}

/// Puts the rows of the slot's allocators at the end: that of its extent_alloc, then that of its inode_alloc.
fn add_rows_of_slot<D: Disk, const N: usize>(
    alloc: Global,
    view: &mut View<'_, D, N>,
    geo: &Geo,
    names: &SystemNames,
    inodes: &SystemInodes,
    slot: u16,
    rows: &mut Vec<AllocatorRow>,
) -> Result<(), ViewFault>
    requires { LiesIn geo.now view.old }
    ensures added { OnOk result ((v : Volume) → Shows view.old geo.now v → AreRead v inodes.now → AreSystemNames v names.now → (before : List Told)
        → AreAllocatorRows v before rows.old.items → AreAllocatorRows v (before ++ slot_allocators v slot) rows.new.items) }
    ensures reads { OnlyReads view.old view.new }
    ensures fails { IfErr result (BlockFails view.old view.new) }
{
    let extent_alloc = SystemFile::OfSlot(SlotFile::ExtentAlloc, slot);
    let inode_alloc = SystemFile::OfSlot(SlotFile::InodeAlloc, slot);
    let first = allocator_of(names, BitUse::Metadata, slot, extent_alloc);
    let second = allocator_of(names, BitUse::Inodes, slot, inode_alloc);
    add_row(alloc, view, geo, inodes, first, rows)?;
    add_row(alloc, view, geo, inodes, second, rows)
}

/// The rows of the allocators that belong to no slot: that of the global bitmap, then that of global_inode_alloc.
fn global_rows<D: Disk, const N: usize>(
    alloc: Global,
    view: &mut View<'_, D, N>,
    geo: &Geo,
    names: &SystemNames,
    inodes: &SystemInodes,
) -> Result<Vec<AllocatorRow>, ViewFault>
    requires { LiesIn geo.now view.old }
    ensures told { IfOk result (λ rows. (v : Volume) → Shows view.old geo.now v → AreRead v inodes.now → AreSystemNames v names.now → AreAllocatorRows v (global_allocators v) rows.items) }
    ensures reads { OnlyReads view.old view.new }
    ensures fails { IfErr result (BlockFails view.old view.new) }
{
    let mut rows = Vec::new(alloc);
    let bitmap = allocator_of(names, BitUse::Clusters, NO_SLOT, SystemFile::GlobalBitmap);
    let inode_alloc = allocator_of(names, BitUse::Inodes, NO_SLOT, SystemFile::GlobalInodeAlloc);
    add_row(alloc, view, geo, inodes, bitmap, &mut rows)?;
    add_row(alloc, view, geo, inodes, inode_alloc, &mut rows)?;
    Ok(rows)
}

/// The allocators of the volume in their order, with what their dinodes say: those that the names tell and whose dinodes are
/// valid and have chains. A dinode that is kept is not read again. NoMemory where memory runs out, DeviceFault where a read fails.
pub fn allocators<D: Disk, const N: usize>(
    alloc: Global,
    view: &mut View<'_, D, N>,
    geo: &Geo,
    names: &SystemNames,
    inodes: &SystemInodes,
) -> Result<AllocatorTable, ViewFault>
    requires { LiesIn geo.now view.old }
    ensures told { IfOk result (λ rows. (v : Volume) → Shows view.old geo.now v → AreRead v inodes.now → AreSystemNames v names.now → IsAllocatorTable v rows) }
    ensures reads { OnlyReads view.old view.new }
    ensures fails { IfErr result (BlockFails view.old view.new) }
{
    let mut rows = global_rows(alloc, view, geo, names, inodes)?;
    for slot in 0..geo.slots {
        add_rows_of_slot(alloc, view, geo, names, inodes, slot, &mut rows)?;
    }
    Ok(AllocatorTable::from(rows))
}
