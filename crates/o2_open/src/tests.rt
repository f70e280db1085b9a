// A whole volume in memory, opened, and a disk of zeros.
use crate::{open_for_reading, whole_view};
use o2_cause::Cause;
use o2_disk::{Disk, How, MemDisk};
use o2_test_volumes::put_whole_volume;
use std::alloc::Global;
use std::process::Abort;
use std::test::Fail;

fn volume(rt: &impl Abort, alloc: Global) -> Result<MemDisk, Fail> {
    let mut disk = MemDisk::new(alloc, 128)?;
    disk.attach(alloc, "made", How::ReadWrite)?;
    assert!(rt; disk.sectors() >= 128);
    put_whole_volume(&mut disk)?;
    Ok(disk)
}

// 16 clusters of 4 KiB, in blocks of 512 bytes.
#[test]
fn opens_a_volume_and_views_all_of_it(rt: HostRuntime) -> Result<(), Fail> {
    let alloc = rt.alloc();
    let mut disk = volume(&rt, alloc)?;
    match open_for_reading(alloc, &mut disk, "disk") {
        Ok(geo) => {
            assert_eq!(rt; geo.block_bits, 9);
            assert_eq!(rt; geo.clusters, 16);
            let view = whole_view::<MemDisk, 1>(alloc, &mut disk, &geo)?;
            assert_eq!(rt; view.blocks(), 128);
        }
        Err(cause) => assert_eq!(rt; cause.status("fsck"), 0),
    }
    Ok(())
}

#[test]
fn refuses_a_disk_of_zeros(rt: HostRuntime) -> Result<(), Fail> {
    let alloc = rt.alloc();
    let mut disk = MemDisk::new(alloc, 128)?;
    match open_for_reading(alloc, &mut disk, "disk") {
        Ok(geo) => assert_eq!(rt; geo.clusters, 0),
        Err(Cause::NotOcfs2) => (),
        Err(cause) => assert_eq!(rt; cause.status("fsck"), 4),
    }
    Ok(())
}
