// A tree of three directories and a file, walked from its root.
use crate::{names_user, walk_tree};
use o2_model::{Geo, Items, Origin};
use o2_ondisk::{DxSeed, InodeFlags, Kind};
use o2_tables::InodeRow;
use o2_tree::{DirectoryRow, EnteredRow, EntryName, EntryRow};
use std::alloc::{AllocError, Global};
use std::collections::BTreeSet;
use std::test::Fail;

fn geo() -> Geo {
    Geo {
        block_bits: 12,
        cluster_bits: 12,
        clusters: 100,
        slots: 1,
        root: 5,
        sysdir: 6,
        first_group: 1,
        generation: 1,
        compat: 0,
        incompat: 0,
        seed: DxSeed {
            first: 0,
            second: 0,
            third: 0,
        },
    }
}

fn inode(alloc: Global, block: u64, kind: Kind) -> InodeRow {
    InodeRow {
        block,
        kind: Some(kind),
        flags: InodeFlags::VALID,
        links: 1,
        clusters: 0,
        origin: Origin {
            slot: 0,
            bit: 0,
            loc: 0,
        },
        named_tree: None,
        tree: None,
        runs: Items::from(Vec::new(alloc)),
        extent_blocks: Items::from(Vec::new(alloc)),
    }
}

fn entry(inode: u64, name: EntryName, block: u64) -> EntryRow {
    EntryRow {
        inode,
        file_type: 0,
        name,
        block,
    }
}

fn directory(alloc: Global, block: u64, entries: &[EntryRow]) -> Result<DirectoryRow, AllocError> {
    Ok(DirectoryRow {
        block,
        entries: Items::from(Vec::from_slice(alloc, entries)?),
    })
}

fn inodes(alloc: Global) -> Result<Vec<InodeRow>, Fail> {
    let mut rows = Vec::new(alloc);
    rows.push(inode(alloc, 5, Kind::Directory))?;
    rows.push(inode(alloc, 6, Kind::Directory))?;
    rows.push(inode(alloc, 7, Kind::Directory))?;
    rows.push(inode(alloc, 8, Kind::Directory))?;
    rows.push(inode(alloc, 9, Kind::File))?;
    Ok(rows)
}

// The directory 8 names 7 once more, and 7 names the system directory.
fn directories(alloc: Global) -> Result<Vec<DirectoryRow>, Fail> {
    let root = [
        entry(5, EntryName::Itself, 20),
        entry(5, EntryName::Parent, 20),
        entry(7, EntryName::Other, 20),
        entry(9, EntryName::Other, 20),
    ];
    let first = [
        entry(7, EntryName::Itself, 21),
        entry(5, EntryName::Parent, 21),
        entry(8, EntryName::Other, 21),
        entry(6, EntryName::Other, 21),
    ];
    let second = [
        entry(8, EntryName::Itself, 22),
        entry(7, EntryName::Parent, 22),
        entry(7, EntryName::Other, 22),
        entry(9, EntryName::Other, 22),
    ];
    let mut rows = Vec::new(alloc);
    rows.push(directory(alloc, 5, &root)?)?;
    rows.push(directory(alloc, 6, &[])?)?;
    rows.push(directory(alloc, 7, &first)?)?;
    rows.push(directory(alloc, 8, &second)?)?;
    Ok(rows)
}

fn own(alloc: Global) -> Result<BTreeSet<u64>, Fail> {
    let mut blocks = BTreeSet::new(alloc);
    blocks.insert(6)?;
    Ok(blocks)
}

#[test]
fn tells_users(rt: HostRuntime) -> Result<(), Fail> {
    let rows = inodes(rt.alloc())?;
    let own = own(rt.alloc())?;
    assert!(rt; names_user(&rows, &own, 9));
    assert!(rt; !names_user(&rows, &own, 6));
    assert!(rt; !names_user(&rows, &own, 10));
    Ok(())
}

#[test]
fn walks_a_tree(rt: HostRuntime) -> Result<(), Fail> {
    let alloc = rt.alloc();
    let rows = inodes(alloc)?;
    let own = own(alloc)?;
    let walk = walk_tree(alloc, &geo(), &rows, &own, &directories(alloc)?)?;
    let entered = [
        EnteredRow {
            inode: 5,
            parent: 5,
        },
        EnteredRow {
            inode: 7,
            parent: 5,
        },
        EnteredRow {
            inode: 8,
            parent: 7,
        },
    ];
    assert_eq!(rt; walk.entered.as_slice(), entered.as_slice());
    assert_eq!(rt; walk.second_names.as_slice(), [22].as_slice());
    assert_eq!(rt; walk.tree.links.count(5), 3);
    assert_eq!(rt; walk.tree.links.count(7), 4);
    assert_eq!(rt; walk.tree.links.count(6), 1);
    assert!(rt; walk.tree.met.contains(&9));
    assert!(rt; !walk.tree.met.contains(&6));
    Ok(())
}
