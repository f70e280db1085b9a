// Volumes in memory that are checked: a whole one, one without system files, and none.
use crate::run;
use o2_disk::{Disk, How, MemDisk, MemSink};
use o2_test_volumes::{put_small_volume, put_whole_volume};
use std::alloc::Global;
use std::process::Abort;
use std::test::Fail;

fn whole_volume(rt: &impl Abort, alloc: Global) -> Result<MemDisk, Fail> {
    let mut disk = MemDisk::new(alloc, 128)?;
    disk.attach(alloc, "made", How::ReadWrite)?;
    assert!(rt; disk.sectors() >= 128);
    put_whole_volume(&mut disk)?;
    Ok(disk)
}

// The volume with one file, whose system directory names nothing but itself.
fn small_volume(rt: &impl Abort, alloc: Global) -> Result<MemDisk, Fail> {
    let mut disk = MemDisk::new(alloc, 128)?;
    disk.attach(alloc, "made", How::ReadWrite)?;
    assert!(rt; disk.sectors() >= 128);
    put_small_volume(&mut disk)?;
    Ok(disk)
}

// The status of a check by these words, whose text is put on the sink.
fn check(alloc: Global, disk: &mut MemDisk, words: &[&str], out: &mut MemSink) -> Result<u8, Fail> {
    let mut line = Vec::new(alloc);
    for word in words {
        line.push(String::from_str(alloc, word)?)?;
    }
    let mut other = MemDisk::new(alloc, 0)?;
    let done = run(alloc, &line, disk, &mut other, out, 0, &[7; 24]);
    Ok(done.status)
}

// The letters come in any words and order.
#[test]
fn finds_a_volume_consistent(rt: HostRuntime) -> Result<(), Fail> {
    let alloc = rt.alloc();
    let mut disk = whole_volume(&rt, alloc)?;
    for words in [
        ["fsck", "-n", "disk"].as_slice(),
        ["fsck", "-fn", "disk"].as_slice(),
        ["fsck", "-f", "-n", "disk"].as_slice(),
    ] {
        let mut out = MemSink::new(alloc);
        assert_eq!(rt; check(alloc, &mut disk, words, &mut out)?, 0);
        assert_eq!(rt; out.bytes(), b"fsck: volume is consistent\n".as_slice());
    }
    Ok(())
}

#[test]
fn tells_what_fails_on_a_tree_made_by_hand(rt: HostRuntime) -> Result<(), Fail> {
    let alloc = rt.alloc();
    let mut disk = small_volume(&rt, alloc)?;
    let mut out = MemSink::new(alloc);
    assert_eq!(rt;
        check(alloc, &mut disk, &["fsck", "-n", "disk"], &mut out)?,
        4
    );
    assert_eq!(rt;
        out.bytes(),
        b"[SYSFILE] block 6\nfsck: 1 checks fail\n".as_slice()
    );
    Ok(())
}

// A device of 1000 bytes has one sector.
#[test]
fn finds_no_volume(rt: HostRuntime) -> Result<(), Fail> {
    let alloc = rt.alloc();
    let mut disk = MemDisk::new(alloc, 1)?;
    let mut out = MemSink::new(alloc);
    assert_eq!(rt;
        check(alloc, &mut disk, &["fsck", "-fn", "disk"], &mut out)?,
        4
    );
    assert_eq!(rt; out.bytes(), b"fsck: not an OCFS2 volume\n".as_slice());
    Ok(())
}

// A fault of the output stands in place of Fine, and of no other answer.
#[test]
fn one_put_fails(rt: HostRuntime) -> Result<(), Fail> {
    let alloc = rt.alloc();
    let mut sound = whole_volume(&rt, alloc)?;
    let mut out = MemSink::new(alloc);
    out.fail_at(0);
    assert_eq!(rt;
        check(alloc, &mut sound, &["fsck", "-n", "disk"], &mut out)?,
        65
    );
    let mut bad = small_volume(&rt, alloc)?;
    let mut out = MemSink::new(alloc);
    out.fail_at(1);
    assert_eq!(rt;
        check(alloc, &mut bad, &["fsck", "-n", "disk"], &mut out)?,
        4
    );
    assert_eq!(rt; out.bytes(), b"[SYSFILE] block 6\n".as_slice());
    Ok(())
}
