// Queries about refcount trees.
ghost use Rattle.std.specs.Prelude.{◌≤◌};
ghost use Rattle.o2_disk.specs.Device.{IsWritable};

use super::{answered, path, put_for, volume};
use crate::{DebugFault, PathQuery, Query};
use o2_disk::{Disk, Failed, How, MemDisk, MemSink};
use o2_model::Check;
use o2_test_volumes::put_whole_volume;
use std::alloc::Global;
use std::process::Abort;
use std::test::Fail;

fn refcount(alloc: Global, text: &str) -> Result<Query, Fail> {
    Ok(Query::At(PathQuery::Refcount {
        path: path(alloc, text)?,
    }))
}

#[test]
fn tells_records_of_a_tree(rt: HostRuntime) -> Result<(), Fail> {
    let alloc = rt.alloc();
    let mut disk = volume(&rt, alloc)?;
    // the one record of the tree of both files: cluster 11, which both refer to
    for text in ["/a", "/b"] {
        let query = refcount(alloc, text)?;
        let out = put_for(&rt, alloc, &mut disk, &query)?;
        assert_eq!(rt; out.bytes(), b"11 1 2\n".as_slice(), "{text}");
    }
    Ok(())
}

// Puts another number of the tree's root into the file `a`, of two bytes.
fn put_root<D: Disk>(disk: &mut D, low: u8, high: u8) -> Result<(), Failed>
    requires disk { 128 ≤ (D.state disk.old).sectors }
    requires writable { IsWritable (D.state disk.old).attached }
{
    let mut block = [0; 512];
    disk.read(30, &mut block)?;
    block[0x90] = low;
    block[0x91] = high;
    disk.write(30, &block)
}

fn volume_with_root(rt: &impl Abort, alloc: Global, low: u8, high: u8) -> Result<MemDisk, Fail> {
    let mut disk = MemDisk::new(alloc, 128)?;
    disk.attach(alloc, "made", How::ReadWrite)?;
    assert!(rt; disk.sectors() >= 128);
    put_whole_volume(&mut disk)?;
    put_root(&mut disk, low, high)?;
    Ok(disk)
}

// The fault for the file `a` of this volume. Nothing is put.
fn fault_of(
    rt: &impl Abort,
    alloc: Global,
    disk: &mut MemDisk,
    text: &str,
) -> Result<Option<DebugFault>, Fail> {
    let mut out = MemSink::new(alloc);
    let query = refcount(alloc, text)?;
    let fault = answered(rt, alloc, disk, &query, &mut out)?;
    assert_eq!(rt; out.bytes().len(), 0);
    Ok(fault)
}

#[test]
fn refuses_what_has_no_tree(rt: HostRuntime) -> Result<(), Fail> {
    let alloc = rt.alloc();
    let mut disk = volume(&rt, alloc)?;
    for text in ["/", "/f", "/l"] {
        let fault = fault_of(&rt, alloc, &mut disk, text)?;
        assert_eq!(rt; fault, Some(DebugFault::WrongKind), "{text}");
    }
    Ok(())
}

#[test]
fn tells_bad_trees(rt: HostRuntime) -> Result<(), Fail> {
    let alloc = rt.alloc();
    // a root that is no refcount block
    let mut disk = volume_with_root(&rt, alloc, 43, 0)?;
    let bad = DebugFault::Bad {
        check: Check::RefTree,
        block: 43,
    };
    assert_eq!(rt; fault_of(&rt, alloc, &mut disk, "/a")?, Some(bad));
    // A root past the end of the volume, so that the file itself is at fault too: it has the lesser block.
    let mut disk = volume_with_root(&rt, alloc, 0, 1)?;
    let bad = DebugFault::Bad {
        check: Check::RefTree,
        block: 30,
    };
    assert_eq!(rt; fault_of(&rt, alloc, &mut disk, "/a")?, Some(bad));
    Ok(())
}
