// Queries of a whole volume in memory.
use crate::{DebugFault, PathQuery, Query, ask};
use o2_dir::{PathText, is_path};
use o2_disk::{Disk, How, MemDisk, MemSink};
use o2_test_volumes::put_whole_volume;
use o2_view::find_super;
use std::alloc::Global;
use std::process::Abort;
use std::test::Fail;

mod reads;
mod trees;
mod volumes;

fn volume(rt: &impl Abort, alloc: Global) -> Result<MemDisk, Fail> {
    let mut disk = MemDisk::new(alloc, 128)?;
    disk.attach(alloc, "made", How::ReadWrite)?;
    assert!(rt; disk.sectors() >= 128);
    put_whole_volume(&mut disk)?;
    Ok(disk)
}

// The answer to a query, and what was put.
fn answered(
    rt: &impl Abort,
    alloc: Global,
    disk: &mut MemDisk,
    query: &Query,
    out: &mut MemSink,
) -> Result<Option<DebugFault>, Fail> {
    let Some(geo) = find_super(alloc, disk)? else {
        return Ok(None);
    };
    assert!(rt; geo.block_bits >= 9);
    assert!(rt; geo.block_bits <= 12);
    if let Some(path) = query.path() {
        assert!(rt; is_path(path));
    }
    match ask::<MemDisk, MemSink, 1>(alloc, disk, &geo, query, out) {
        Ok(()) => Ok(None),
        Err(fault) => Ok(Some(fault)),
    }
}

fn path(alloc: Global, text: &str) -> Result<PathText, Fail> {
    Ok(PathText::from(String::from_str(alloc, text)?))
}

// What is put for a query that is answered.
fn put_for(
    rt: &impl Abort,
    alloc: Global,
    disk: &mut MemDisk,
    query: &Query,
) -> Result<MemSink, Fail> {
    let mut out = MemSink::new(alloc);
    assert_eq!(rt; answered(rt, alloc, disk, query, &mut out)?, None);
    Ok(out)
}

#[test]
fn lists_directories(rt: HostRuntime) -> Result<(), Fail> {
    let alloc = rt.alloc();
    let mut disk = volume(&rt, alloc)?;
    for (text, lines) in [
        (
            "/",
            "18 2 .\n18 2 ..\n28 2 d\n29 1 f\n30 1 a\n31 1 b\n33 7 l\n",
        ),
        ("/d", "28 2 .\n18 2 ..\n29 1 h\n"),
    ] {
        let query = Query::At(PathQuery::Ls {
            path: path(alloc, text)?,
        });
        let out = put_for(&rt, alloc, &mut disk, &query)?;
        assert_eq!(rt; out.bytes(), lines.as_bytes(), "{text}");
    }
    Ok(())
}

// What `stat` says of the file `f`.
const NUMBERS_OF_FILE: &str = "Inode: 29
Kind: file
Mode: 0644
Owner: 0 0
Links: 2
Size: 12288
Clusters: 2
Atime: 0 0
Ctime: 0 0
Mtime: 0 0
Extent: 0 1 80 0
Extent: 2 1 104 0
";

// And of the link `l`.
const NUMBERS_OF_LINK: &str = "Inode: 33
Kind: link
Mode: 0777
Owner: 0 0
Links: 1
Size: 1
Clusters: 0
Atime: 0 0
Ctime: 0 0
Mtime: 0 0
";

#[test]
fn tells_numbers_and_extents(rt: HostRuntime) -> Result<(), Fail> {
    let alloc = rt.alloc();
    let mut disk = volume(&rt, alloc)?;
    for (text, lines) in [("/f", NUMBERS_OF_FILE), ("/l", NUMBERS_OF_LINK)] {
        let query = Query::At(PathQuery::Stat {
            path: path(alloc, text)?,
        });
        let out = put_for(&rt, alloc, &mut disk, &query)?;
        assert_eq!(rt; out.bytes(), lines.as_bytes(), "{text}");
    }
    // a record that is refcounted
    let query = Query::At(PathQuery::Stat {
        path: path(alloc, "/a")?,
    });
    let out = put_for(&rt, alloc, &mut disk, &query)?;
    assert!(rt; out.bytes().ends_with(b"\nExtent: 0 1 88 2\n"));
    Ok(())
}

#[test]
fn puts_bytes(rt: HostRuntime) -> Result<(), Fail> {
    let alloc = rt.alloc();
    let mut disk = volume(&rt, alloc)?;
    for text in ["/a", "/b"] {
        let query = Query::At(PathQuery::Cat {
            path: path(alloc, text)?,
        });
        let out = put_for(&rt, alloc, &mut disk, &query)?;
        assert_eq!(rt; out.bytes(), b"hello".as_slice(), "{text}");
    }
    // the file `f` by its other name, a hole among its bytes
    let query = Query::At(PathQuery::Cat {
        path: path(alloc, "/d/h")?,
    });
    let out = put_for(&rt, alloc, &mut disk, &query)?;
    assert_eq!(rt; out.bytes(), [0; 12288].as_slice());
    Ok(())
}

#[test]
fn refuses_queries(rt: HostRuntime) -> Result<(), Fail> {
    let alloc = rt.alloc();
    let mut disk = volume(&rt, alloc)?;
    for (text, fault) in [
        ("/c", DebugFault::Absent),
        ("/d/a", DebugFault::Absent),
        ("/a/b", DebugFault::WrongKind),
        ("/", DebugFault::WrongKind),
        ("/l", DebugFault::WrongKind),
    ] {
        let mut out = MemSink::new(alloc);
        let query = Query::At(PathQuery::Cat {
            path: path(alloc, text)?,
        });
        let answer = answered(&rt, alloc, &mut disk, &query, &mut out)?;
        assert_eq!(rt; answer, Some(fault), "{text}");
        assert_eq!(rt; out.bytes().len(), 0, "{text}");
    }
    Ok(())
}
