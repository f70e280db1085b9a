// A query of a whole volume in memory.
use crate::run_query;
use o2_debug::{PathQuery, Query};
use o2_dir::{PathText, is_path};
use o2_disk::{Disk, How, MemDisk, MemSink};
use o2_test_volumes::put_whole_volume;
use std::alloc::Global;
use std::process::Abort;
use std::test::Fail;

fn volume(rt: &impl Abort, alloc: Global) -> Result<MemDisk, Fail> {
    let mut disk = MemDisk::new(alloc, 128)?;
    disk.attach(alloc, "made", How::ReadWrite)?;
    assert!(rt; disk.sectors() >= 128);
    put_whole_volume(&mut disk)?;
    Ok(disk)
}

#[test]
fn answers_a_query(rt: HostRuntime) -> Result<(), Fail> {
    let alloc = rt.alloc();
    let mut disk = volume(&rt, alloc)?;
    // the path, the status and the text
    for (text, status, lines) in [
        (
            "/",
            0,
            "18 2 .\n18 2 ..\n28 2 d\n29 1 f\n30 1 a\n31 1 b\n33 7 l\n",
        ),
        ("/d", 0, "28 2 .\n18 2 ..\n29 1 h\n"),
        ("/c", 1, "debugfs: no such path: /c\n"),
    ] {
        let mut out = MemSink::new(alloc);
        assert!(rt; is_path(text.as_bytes()));
        let query = Query::At(PathQuery::Ls {
            path: PathText::from(String::from_str(alloc, text)?),
        });
        let cause = run_query(alloc, &mut disk, "disk", query, &mut out);
        assert_eq!(rt; cause.status("debugfs"), status, "{text}");
        assert_eq!(rt; out.bytes(), lines.as_bytes(), "{text}");
    }
    Ok(())
}

#[test]
fn answers_of_the_volume(rt: HostRuntime) -> Result<(), Fail> {
    let alloc = rt.alloc();
    let mut disk = volume(&rt, alloc)?;
    let mut out = MemSink::new(alloc);
    let cause = run_query(alloc, &mut disk, "disk", Query::Stats, &mut out);
    assert_eq!(rt; cause.status("debugfs"), 0);
    assert!(rt; out.bytes().starts_with(b"Block size: 512\n"));
    assert!(rt; out.bytes().ends_with(b"\nJournal 0: 1\n"));
    // no slot has a node
    let mut out = MemSink::new(alloc);
    let cause = run_query(alloc, &mut disk, "disk", Query::SlotMap, &mut out);
    assert_eq!(rt; cause.status("debugfs"), 0);
    assert_eq!(rt; out.bytes().len(), 0);
    Ok(())
}

#[test]
fn answers_of_a_tree(rt: HostRuntime) -> Result<(), Fail> {
    let alloc = rt.alloc();
    let mut disk = volume(&rt, alloc)?;
    // the path, the status and the text
    for (text, status, lines) in [
        ("/a", 0, "11 1 2\n"),
        ("/f", 1, "debugfs: wrong kind: /f\n"),
    ] {
        let mut out = MemSink::new(alloc);
        assert!(rt; is_path(text.as_bytes()));
        let query = Query::At(PathQuery::Refcount {
            path: PathText::from(String::from_str(alloc, text)?),
        });
        let cause = run_query(alloc, &mut disk, "disk", query, &mut out);
        assert_eq!(rt; cause.status("debugfs"), status, "{text}");
        assert_eq!(rt; out.bytes(), lines.as_bytes(), "{text}");
    }
    Ok(())
}
