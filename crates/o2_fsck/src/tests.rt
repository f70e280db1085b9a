// The check of a whole volume, of one with a byte changed, and of no volume.
ghost use Rattle.std.specs.Prelude.{◌<◌};
ghost use Rattle.o2_disk.specs.Device.{IsWritable};

use crate::run_check;
use o2_disk::{Disk, How, MemDisk, MemSink};
use o2_test_volumes::put_whole_volume;
use std::alloc::Global;
use std::process::Abort;
use std::test::Fail;

mod reads;

fn volume(rt: &impl Abort, alloc: Global) -> Result<MemDisk, Fail> {
    let mut disk = MemDisk::new(alloc, 128)?;
    disk.attach(alloc, "made", How::ReadWrite)?;
    assert!(rt; disk.sectors() == 128);
    put_whole_volume(&mut disk)?;
    Ok(disk)
}

// Turns all bits of a byte of the block.
fn turn<D: Disk>(disk: &mut D, block: u64, at: usize) -> Result<(), Fail>
    requires inside { block < (D.state disk.old).sectors }
    requires within { at < 512 }
    requires writable { IsWritable (D.state disk.old).attached }
{
    let mut bytes = [0; 512];
    disk.read(block, &mut bytes)?;
    bytes[at] = 0xff ^ bytes[at];
    Ok(disk.write(block, &bytes)?)
}

#[test]
fn finds_a_volume_consistent(rt: HostRuntime) -> Result<(), Fail> {
    let alloc = rt.alloc();
    let mut disk = volume(&rt, alloc)?;
    let mut out = MemSink::new(alloc);
    let cause = run_check(alloc, &mut disk, "disk", &mut out);
    assert_eq!(rt; cause.status("fsck"), 0);
    assert_eq!(rt; out.bytes(), b"fsck: volume is consistent\n".as_slice());
    Ok(())
}

// The signature of the root is gone: a check of the skeleton, which is told alone.
#[test]
fn tells_what_fails(rt: HostRuntime) -> Result<(), Fail> {
    let alloc = rt.alloc();
    let mut disk = volume(&rt, alloc)?;
    disk.attach(alloc, "made", How::ReadWrite)?;
    assert!(rt; disk.sectors() == 128);
    turn(&mut disk, 18, 0)?;
    let mut out = MemSink::new(alloc);
    let cause = run_check(alloc, &mut disk, "disk", &mut out);
    assert_eq!(rt; cause.status("fsck"), 4);
    assert_eq!(rt;
        out.bytes(),
        b"[ROOT] block 18\nfsck: 1 checks fail\n".as_slice()
    );
    Ok(())
}

#[test]
fn refuses_a_disk_of_zeros(rt: HostRuntime) -> Result<(), Fail> {
    let alloc = rt.alloc();
    let mut disk = MemDisk::new(alloc, 128)?;
    let mut out = MemSink::new(alloc);
    let cause = run_check(alloc, &mut disk, "disk", &mut out);
    assert_eq!(rt; cause.status("fsck"), 4);
    assert_eq!(rt; out.bytes(), b"fsck: not an OCFS2 volume\n".as_slice());
    Ok(())
}
