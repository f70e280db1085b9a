// Each judge on a small table.
mod clusters;

use crate::{inode_count, not_connected, orphan_entry, orphan_flag};
use o2_model::{Items, Origin};
use o2_ondisk::{InodeFlags, Kind};
use o2_tables::{ClusterRun, InodeRow, TreeTable};
use o2_tally::{Counts, add_number};
use o2_tree::{EntryName, EntryRow};
use std::alloc::{AllocError, Global};
use std::collections::BTreeSet;
use std::test::Fail;

const MARKED: InodeFlags = InodeFlags(0x5);

/// A file in that block with two links and these runs of clusters.
fn file(
    alloc: Global,
    block: u64,
    flags: InodeFlags,
    clusters: u32,
    runs: &[ClusterRun],
) -> Result<InodeRow, AllocError> {
    Ok(InodeRow {
        block,
        kind: Some(Kind::File),
        flags,
        links: 2,
        clusters,
        origin: Origin {
            slot: 0,
            bit: 1,
            loc: 0,
        },
        named_tree: None,
        tree: None,
        runs: Items::from(Vec::from_slice(alloc, runs)?),
        extent_blocks: Items::from(Vec::new(alloc)),
    })
}

/// An entry of an orphan directory.
fn orphan(inode: u64, block: u64) -> EntryRow {
    EntryRow {
        inode,
        file_type: 0,
        name: EntryName::Other,
        block,
    }
}

/// The walk met two inodes, of which two entries name 100 and one names 102.
fn tree(alloc: Global) -> Result<TreeTable, Fail> {
    let mut links = Counts::new(alloc);
    links.add(100)?;
    links.add(102)?;
    links.add(100)?;
    let mut met = BTreeSet::new(alloc);
    add_number(&mut met, 100)?;
    add_number(&mut met, 102)?;
    Ok(TreeTable { links, met })
}

#[test]
fn tells_orphans_of_the_tree(rt: HostRuntime) -> Result<(), Fail> {
    let alloc = rt.alloc();
    let tree = tree(alloc)?;
    let inodes = [
        file(alloc, 100, MARKED, 0, &[])?,
        file(alloc, 101, MARKED, 0, &[])?,
        file(alloc, 102, InodeFlags::VALID, 0, &[])?,
    ];
    let blocks = orphan_flag(alloc, &tree, &inodes)?;
    assert_eq!(rt; blocks.as_slice(), [100].as_slice());
    Ok(())
}

#[test]
fn tells_other_links(rt: HostRuntime) -> Result<(), Fail> {
    let alloc = rt.alloc();
    let tree = tree(alloc)?;
    let inodes = [
        file(alloc, 100, InodeFlags::VALID, 0, &[])?,
        file(alloc, 101, InodeFlags::VALID, 0, &[])?,
        file(alloc, 102, InodeFlags::VALID, 0, &[])?,
    ];
    let blocks = inode_count(alloc, &tree, &inodes)?;
    assert_eq!(rt; blocks.as_slice(), [102].as_slice());
    Ok(())
}

#[test]
fn tells_inodes_that_nothing_names(rt: HostRuntime) -> Result<(), Fail> {
    let alloc = rt.alloc();
    let tree = tree(alloc)?;
    let mut own = BTreeSet::new(alloc);
    add_number(&mut own, 101)?;
    let inodes = [
        file(alloc, 100, InodeFlags::VALID, 0, &[])?,
        file(alloc, 101, InodeFlags::VALID, 0, &[])?,
        file(alloc, 103, MARKED, 0, &[])?,
        file(alloc, 104, MARKED, 0, &[])?,
        file(alloc, 105, InodeFlags::VALID, 0, &[])?,
    ];
    let orphans = [orphan(103, 50), orphan(105, 50)];
    let blocks = not_connected(alloc, &tree, &own, &orphans, &inodes)?;
    assert_eq!(rt; blocks.as_slice(), [104, 105].as_slice());
    Ok(())
}

#[test]
fn tells_entries_without_an_orphan(rt: HostRuntime) -> Result<(), Fail> {
    let alloc = rt.alloc();
    let mut own = BTreeSet::new(alloc);
    add_number(&mut own, 101)?;
    let inodes = [
        file(alloc, 101, MARKED, 0, &[])?,
        file(alloc, 103, MARKED, 0, &[])?,
        file(alloc, 105, InodeFlags::VALID, 0, &[])?,
    ];
    // The inode 101 is the volume's own, 105 is not marked, there is no 200, and 103 is named twice.
    let orphans = [
        orphan(103, 50),
        orphan(101, 51),
        orphan(105, 52),
        orphan(200, 53),
        orphan(103, 54),
    ];
    let blocks = orphan_entry(alloc, &inodes, &own, &orphans)?;
    assert_eq!(rt; blocks.as_slice(), [51, 52, 53, 54].as_slice());
    Ok(())
}
