// A root with one directory, whose entries lack something.
use crate::{dir_dots, dirent_inode, dirent_type};
use o2_model::{Items, Origin};
use o2_ondisk::{InodeFlags, Kind};
use o2_tables::InodeRow;
use o2_tree::{DirectoryRow, EnteredRow, EntryName, EntryRow};
use std::alloc::{AllocError, Global};
use std::collections::BTreeSet;
use std::test::Fail;

fn inode(alloc: Global, block: u64, kind: Kind) -> InodeRow {
    InodeRow {
        block,
        kind: Some(kind),
        flags: InodeFlags::VALID,
        links: 1,
        clusters: 0,
        origin: Origin {
            slot: 0,
            bit: 0,
            loc: 0,
        },
        named_tree: None,
        tree: None,
        runs: Items::from(Vec::new(alloc)),
        extent_blocks: Items::from(Vec::new(alloc)),
    }
}

fn inodes(alloc: Global) -> Result<Vec<InodeRow>, Fail> {
    let mut rows = Vec::new(alloc);
    rows.push(inode(alloc, 5, Kind::Directory))?;
    rows.push(inode(alloc, 6, Kind::Directory))?;
    rows.push(inode(alloc, 7, Kind::Directory))?;
    rows.push(inode(alloc, 9, Kind::File))?;
    Ok(rows)
}

fn entry(inode: u64, kind: Kind, name: EntryName, block: u64) -> EntryRow {
    EntryRow {
        inode,
        file_type: kind.file_type(),
        name,
        block,
    }
}

fn directory(alloc: Global, block: u64, entries: &[EntryRow]) -> Result<DirectoryRow, AllocError> {
    Ok(DirectoryRow {
        block,
        entries: Items::from(Vec::from_slice(alloc, entries)?),
    })
}

// The directory 7 has a second `.` in block 22, and a `..` in block 23 that names itself. In block 24 one of its names names no
// inode, and in block 25 another names a file as a directory.
fn directories(alloc: Global) -> Result<Vec<DirectoryRow>, Fail> {
    let root = [
        entry(5, Kind::Directory, EntryName::Itself, 20),
        entry(5, Kind::Directory, EntryName::Parent, 20),
        entry(7, Kind::Directory, EntryName::Other, 20),
    ];
    let inner = [
        entry(7, Kind::Directory, EntryName::Itself, 21),
        entry(7, Kind::Directory, EntryName::Itself, 22),
        entry(7, Kind::Directory, EntryName::Parent, 23),
        entry(8, Kind::Directory, EntryName::Other, 24),
        entry(9, Kind::Directory, EntryName::Other, 25),
        entry(6, Kind::Directory, EntryName::Other, 26),
    ];
    let mut rows = Vec::new(alloc);
    rows.push(directory(alloc, 5, &root)?)?;
    rows.push(directory(alloc, 6, &[])?)?;
    rows.push(directory(alloc, 7, &inner)?)?;
    Ok(rows)
}

fn entered() -> [EnteredRow; 2] {
    [
        EnteredRow {
            inode: 5,
            parent: 5,
        },
        EnteredRow {
            inode: 7,
            parent: 5,
        },
    ]
}

#[test]
fn judges_dots(rt: HostRuntime) -> Result<(), Fail> {
    let alloc = rt.alloc();
    let found = dir_dots(alloc, &directories(alloc)?, &entered())?;
    assert_eq!(rt; found.as_slice(), [22, 23].as_slice());
    Ok(())
}

#[test]
fn judges_named_inodes(rt: HostRuntime) -> Result<(), Fail> {
    let alloc = rt.alloc();
    let mut own = BTreeSet::new(alloc);
    own.insert(6)?;
    let found = dirent_inode(
        alloc,
        &inodes(alloc)?,
        &own,
        &directories(alloc)?,
        &entered(),
    )?;
    assert_eq!(rt; found.as_slice(), [24, 26].as_slice());
    Ok(())
}

#[test]
fn judges_types(rt: HostRuntime) -> Result<(), Fail> {
    let alloc = rt.alloc();
    let found = dirent_type(alloc, &inodes(alloc)?, &directories(alloc)?, &entered())?;
    assert_eq!(rt; found.as_slice(), [25].as_slice());
    Ok(())
}
