// Each call once, on a disk in memory: a system directory with names in an order of their own, one of them twice.
ghost use Rattle.std.specs.Prelude.{◌≤◌};

use crate::testing::{
    FIRST_CHAIN, SECOND_CHAIN, allocator, bitmap, dinode, extent_alloc, numbers, system_entries,
    system_names,
};
use crate::{
    SystemInode, SystemInodes, SystemNames, allocators, dirty_journals, journals,
    orphan_directories, own_inodes, system_inodes,
};
use o2_disk::{Disk, How, MemDisk};
use o2_model::{Allocator, BitUse, SlotFile, SystemFile};
use o2_ondisk::{ChainRec, InodeFlags, RoleData};
use o2_tables::{AllocatorRow, AllocatorTable};
use o2_view::{View, ViewFault};
use std::alloc::Global;
use std::test::Fail;

#[test]
fn tells_the_first_of_each_name(rt: HostRuntime) -> Result<(), Fail> {
    let names = system_names(rt.alloc())?;
    let inode_alloc = SystemFile::OfSlot(SlotFile::InodeAlloc, 1);
    let orphan_dir = SystemFile::OfSlot(SlotFile::OrphanDir, 1);
    assert_eq!(rt; names.inode_of(SystemFile::GlobalBitmap), Some(40));
    assert_eq!(rt; names.inode_of(SystemFile::SlotMap), Some(46));
    assert_eq!(rt; names.inode_of(inode_alloc), Some(45));
    assert_eq!(rt; names.inode_of(orphan_dir), None);
    Ok(())
}

#[test]
fn tells_journals_by_slots(rt: HostRuntime) -> Result<(), Fail> {
    let alloc = rt.alloc();
    let names = system_names(alloc)?;
    let found = journals(alloc, &numbers(), &names)?;
    assert_eq!(rt; found.len(), 2);
    assert_eq!(rt; found[0], 50);
    assert_eq!(rt; found[1], 51);
    Ok(())
}

// Slot 1 has none.
#[test]
fn tells_orphan_directories(rt: HostRuntime) -> Result<(), Fail> {
    let alloc = rt.alloc();
    let names = system_names(alloc)?;
    let found = orphan_directories(alloc, &numbers(), &names)?;
    assert_eq!(rt; found.len(), 1);
    assert_eq!(rt; found[0], 52);
    Ok(())
}

// The allocators of a disk of the volume.
fn table_of<D: Disk>(alloc: Global, disk: &mut D) -> Result<AllocatorTable, ViewFault>
    requires { 28992 ≤ (D.state disk.old).sectors }
{
    let mut view = View::<D, 1>::new(alloc, disk, 9, 28992)?;
    let names = system_names(alloc)?;
    let entries = system_entries(alloc)?;
    let inodes = system_inodes(alloc, &mut view, &numbers(), &names, &entries)?;
    allocators(alloc, &mut view, &numbers(), &names, &inodes)
}

// Whether the row tells this.
fn is_row(
    row: &AllocatorRow,
    allocator: Allocator,
    used: u32,
    total: u32,
    chains: &[ChainRec],
) -> bool {
    row.allocator == allocator
        && row.used == used
        && row.total == total
        && row.chains.as_slice() == chains
}

fn named(bit_use: BitUse, slot: u16, block: u64) -> Allocator {
    Allocator {
        bit_use,
        slot,
        block,
    }
}

// The dinode of inode_alloc of slot 1 has no flag of chains.
#[test]
fn tells_allocators_in_their_order(rt: HostRuntime) -> Result<(), Fail> {
    let alloc = rt.alloc();
    let mut disk = MemDisk::new(alloc, 28992)?;
    disk.attach(alloc, "disk", How::ReadWrite)?;
    disk.write(40, &bitmap())?;
    disk.write(41, &allocator(41, 8, 3625))?;
    disk.write(42, &allocator(42, 3, 1024))?;
    disk.write(43, &extent_alloc())?;
    disk.write(44, &allocator(44, 0, 256))?;
    disk.write(45, &dinode(45, 0x1, 5, 256))?;
    let table = table_of(alloc, &mut disk)?;
    let rows = table.as_slice();
    let bitmap = named(BitUse::Clusters, 65535, 40);
    let inode_alloc = named(BitUse::Inodes, 65535, 42);
    let extents_of_slot = named(BitUse::Metadata, 0, 43);
    let inodes_of_slot = named(BitUse::Inodes, 0, 44);
    assert_eq!(rt; rows.len(), 4);
    assert!(rt; is_row(&rows[0], bitmap, 7, 3624, &[FIRST_CHAIN, SECOND_CHAIN]));
    assert!(rt; is_row(&rows[1], inode_alloc, 3, 1024, &[]));
    assert!(rt; is_row(&rows[2], extents_of_slot, 1, 512, &[FIRST_CHAIN]));
    assert!(rt; is_row(&rows[3], inodes_of_slot, 0, 256, &[]));
    Ok(())
}

// What the inodes say that the system directory names.
fn read_inodes<D: Disk>(alloc: Global, disk: &mut D) -> Result<SystemInodes, ViewFault>
    requires { 28992 ≤ (D.state disk.old).sectors }
{
    let mut view = View::<D, 1>::new(alloc, disk, 9, 28992)?;
    let names = system_names(alloc)?;
    let entries = system_entries(alloc)?;
    system_inodes(alloc, &mut view, &numbers(), &names, &entries)
}

// The dirty ones of these inodes on a disk of the volume.
fn dirty_of<D: Disk>(alloc: Global, disk: &mut D, journals: &[u64]) -> Result<Vec<u64>, ViewFault>
    requires { 28992 ≤ (D.state disk.old).sectors }
{
    let inodes = read_inodes(alloc, disk)?;
    let found = dirty_journals(alloc, &inodes, journals)?;
    Ok(found)
}

// The lowest bit of what a bitmap has as its set bits is a journal's flag that it is dirty.
#[test]
fn tells_dirty_journals(rt: HostRuntime) -> Result<(), Fail> {
    let alloc = rt.alloc();
    let mut disk = MemDisk::new(alloc, 28992)?;
    disk.attach(alloc, "disk", How::ReadWrite)?;
    disk.write(50, &dinode(50, 0x101, 2, 0))?;
    disk.write(51, &dinode(51, 0x101, 1, 0))?;
    let found = dirty_of(alloc, &mut disk, &[50, 51, 28992])?;
    assert_eq!(rt; found.len(), 1);
    assert_eq!(rt; found[0], 51);
    Ok(())
}

// Inode 51 is named once, 41 twice, 34 by a dot alone, and block 28992 is out of range.
#[test]
fn tells_inodes_that_are_named(rt: HostRuntime) -> Result<(), Fail> {
    let alloc = rt.alloc();
    let mut disk = MemDisk::new(alloc, 28992)?;
    disk.attach(alloc, "disk", How::ReadWrite)?;
    disk.write(51, &dinode(51, 0x101, 1, 0))?;
    let inodes = read_inodes(alloc, &mut disk)?;
    let told = SystemInode {
        is_valid: true,
        kind: None,
        flags: InodeFlags(0x101),
        has_refcount: false,
        role_data: RoleData(1),
    };
    assert!(rt; inodes.row_of(51) == Some(told));
    assert!(rt; inodes.row_of(41).is_some());
    assert!(rt; inodes.row_of(34).is_none());
    assert!(rt; inodes.row_of(28992).is_none());
    Ok(())
}

#[test]
fn tells_own_inodes(rt: HostRuntime) -> Result<(), Fail> {
    let alloc = rt.alloc();
    let entries = system_entries(alloc)?;
    let own = own_inodes(alloc, &numbers(), entries.as_slice())?;
    assert!(rt; own.contains(&34));
    assert!(rt; own.contains(&41));
    assert!(rt; own.contains(&28992));
    assert!(rt; !own.contains(&35));
    Ok(())
}
