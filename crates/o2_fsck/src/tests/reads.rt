// How often the device is called for a check.
use super::volume;
use crate::run_check;
use o2_disk::{MemDisk, MemSink};
use std::alloc::Global;
use std::process::Abort;
use std::test::Fail;

// How often the disk is called for a check of it, on which nothing fails.
fn calls_of(rt: &impl Abort, alloc: Global, disk: &mut MemDisk) -> Result<u64, Fail> {
    let before = disk.calls();
    let mut out = MemSink::new(alloc);
    let cause = run_check(alloc, disk, "disk", &mut out);
    assert_eq!(rt; cause.status("fsck"), 0);
    Ok(disk.calls().saturating_sub(before))
}

// The superblock is read once by the search for it. The volume's own inodes and the groups are read once for the skeleton and once for
// the tables, a local alloc and a truncate log once more for what they hold, and all other blocks once.
#[test]
fn calls_the_disk_so_often(rt: HostRuntime) -> Result<(), Fail> {
    let alloc = rt.alloc();
    let mut disk = volume(&rt, alloc)?;
    assert_eq!(rt; calls_of(&rt, alloc, &mut disk)?, 44);
    Ok(())
}
