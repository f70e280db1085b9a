// Queries of a whole volume in memory, and of one without system files.
use crate::run;
use o2_disk::{Disk, How, MemDisk, MemSink};
use o2_test_volumes::{put_small_volume, put_whole_volume};
use std::alloc::Global;
use std::process::Abort;
use std::test::Fail;

fn volume(rt: &impl Abort, alloc: Global) -> Result<MemDisk, Fail> {
    let mut disk = MemDisk::new(alloc, 128)?;
    disk.attach(alloc, "made", How::ReadWrite)?;
    assert!(rt; disk.sectors() >= 128);
    put_whole_volume(&mut disk)?;
    Ok(disk)
}

// The volume with one file, whose system directory names nothing but itself.
fn small_volume(rt: &impl Abort, alloc: Global) -> Result<MemDisk, Fail> {
    let mut disk = MemDisk::new(alloc, 128)?;
    disk.attach(alloc, "made", How::ReadWrite)?;
    assert!(rt; disk.sectors() >= 128);
    put_small_volume(&mut disk)?;
    Ok(disk)
}

// The status of a query, whose text is put on the sink.
fn ask(alloc: Global, disk: &mut MemDisk, query: &str, out: &mut MemSink) -> Result<u8, Fail> {
    let mut line = Vec::new(alloc);
    for word in ["debugfs", "-R", query, "disk"] {
        line.push(String::from_str(alloc, word)?)?;
    }
    let mut other = MemDisk::new(alloc, 0)?;
    let done = run(alloc, &line, disk, &mut other, out, 0, &[7; 24]);
    Ok(done.status)
}

// What `stats` puts.
const STATS: &str = "Block size: 512
Cluster size: 4096
Clusters: 16
Used: 15
Slots: 1
Label: 
UUID: 00000000-0000-0000-0000-000000000000
Journal 0: 1
";

// What `ls /` puts.
const ROOT: &str = "18 2 .
18 2 ..
28 2 d
29 1 f
30 1 a
31 1 b
33 7 l
";

#[test]
fn answers_queries(rt: HostRuntime) -> Result<(), Fail> {
    let alloc = rt.alloc();
    let mut disk = volume(&rt, alloc)?;
    for (query, status, text) in [
        ("ls /", 0, ROOT),
        ("cat /a", 0, "hello"),
        ("refcount /a", 0, "11 1 2\n"),
        ("refcount /f", 1, "debugfs: wrong kind: /f\n"),
        ("slotmap", 0, ""),
        ("stats", 0, STATS),
        ("cat /a/b", 1, "debugfs: wrong kind: /a/b\n"),
        ("cat /c", 1, "debugfs: no such path: /c\n"),
    ] {
        let mut out = MemSink::new(alloc);
        assert_eq!(rt; ask(alloc, &mut disk, query, &mut out)?, status, "{query}");
        assert_eq!(rt; out.bytes(), text.as_bytes(), "{query}");
    }
    let mut out = MemSink::new(alloc);
    assert_eq!(rt; ask(alloc, &mut disk, "cat /f", &mut out)?, 0);
    assert_eq!(rt; out.bytes(), [0; 12288].as_slice());
    let mut out = MemSink::new(alloc);
    assert_eq!(rt; ask(alloc, &mut disk, "stat /f", &mut out)?, 0);
    assert!(rt;
        out.bytes()
            .ends_with(b"\nExtent: 0 1 80 0\nExtent: 2 1 104 0\n")
    );
    Ok(())
}

#[test]
fn one_put_fails(rt: HostRuntime) -> Result<(), Fail> {
    let alloc = rt.alloc();
    let mut disk = volume(&rt, alloc)?;
    // a put for each line
    for put in 0..7 {
        let mut out = MemSink::new(alloc);
        out.fail_at(put);
        assert_eq!(rt; ask(alloc, &mut disk, "ls /", &mut out)?, 65, "{put}");
        assert!(rt; ROOT.as_bytes().starts_with(out.bytes()), "{put}");
    }
    Ok(())
}

#[test]
fn refuses_a_volume_without_system_files(rt: HostRuntime) -> Result<(), Fail> {
    let alloc = rt.alloc();
    let mut disk = small_volume(&rt, alloc)?;
    let damaged = b"debugfs: damaged: SYSFILE block 6\n";
    for query in ["ls /", "ls //", "cat /a", "stat /a", "cat /a/b", "cat /b"] {
        let mut out = MemSink::new(alloc);
        assert_eq!(rt; ask(alloc, &mut disk, query, &mut out)?, 1, "{query}");
        assert_eq!(rt; out.bytes(), damaged.as_slice(), "{query}");
    }
    Ok(())
}
