// The volume's own inodes that are read further for what their names tell.
use crate::SystemNames;
use o2_disk::NoMemory;
use o2_model::{Geo, SlotFile, SystemFile};
use o2_tally::add_number;
use std::alloc::Global;
use std::collections::BTreeSet;

/// Adds the inode of the file, where there is one.
fn add_file(
    names: &SystemNames,
    file: SystemFile,
    inodes: &mut BTreeSet<u64>,
) -> Result<(), NoMemory> {
    if let Some(inode) = names.inode_of(file) {
        add_number(inodes, inode)?;
    }
    Ok(())
}

/// The inodes of the allocators, the journals, the local allocs, the truncate logs and the slot map, at most five for each slot
/// and three more.
pub fn inodes_with_roles(
    alloc: Global,
    geo: &Geo,
    names: &SystemNames,
) -> Result<BTreeSet<u64>, NoMemory> {
    let mut inodes = BTreeSet::new(alloc);
    add_file(names, SystemFile::GlobalBitmap, &mut inodes)?;
    add_file(names, SystemFile::GlobalInodeAlloc, &mut inodes)?;
    add_file(names, SystemFile::SlotMap, &mut inodes)?;
    for slot in 0..geo.slots {
        for file in [
            SlotFile::ExtentAlloc,
            SlotFile::InodeAlloc,
            SlotFile::Journal,
            SlotFile::LocalAlloc,
            SlotFile::TruncateLog,
        ] {
            add_file(names, SystemFile::OfSlot(file, slot), &mut inodes)?;
        }
    }
    Ok(inodes)
}
