// A label given to a small volume in memory.
use crate::run_label;
use o2_disk::{Disk, How, MemDisk, MemSink};
use o2_test_volumes::put_small_volume;
use std::alloc::Global;
use std::process::Abort;
use std::test::Fail;

fn volume(rt: &impl Abort, alloc: Global) -> Result<MemDisk, Fail> {
    let mut disk = MemDisk::new(alloc, 128)?;
    disk.attach(alloc, "made", How::ReadWrite)?;
    assert!(rt; disk.sectors() >= 128);
    put_small_volume(&mut disk)?;
    Ok(disk)
}

#[test]
fn gives_a_label(rt: HostRuntime) -> Result<(), Fail> {
    let alloc = rt.alloc();
    let mut disk = volume(&rt, alloc)?;
    let mut out = MemSink::new(alloc);
    let cause = run_label(alloc, &mut disk, "disk", b"vol", &mut out);
    assert_eq!(rt; cause.status("tunefs"), 0);
    assert_eq!(rt; out.bytes(), b"tunefs: done\n".as_slice());
    // the label, in the superblock of a volume of blocks of 4 KiB
    let mut sector = [0; 512];
    assert!(rt; 16 < disk.sectors());
    disk.read(16, &mut sector)?;
    assert_eq!(rt; &sector[0x110..0x114], b"vol\0".as_slice());
    // a label that is too long
    let mut out = MemSink::new(alloc);
    let cause = run_label(alloc, &mut disk, "disk", &[b'a'; 65], &mut out);
    assert_eq!(rt; cause.status("tunefs"), 1);
    assert_eq!(rt; out.bytes(), b"tunefs: out of range: label 65\n".as_slice());
    Ok(())
}
