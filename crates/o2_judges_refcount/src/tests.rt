// Each judge on a small table.
use crate::{References, ref_count, ref_cover, ref_tree, ref_users, references};
use o2_disk::NoMemory;
use o2_model::{Items, Origin, PlacedRefcount};
use o2_ondisk::{InodeFlags, Kind, RefcountRec};
use o2_tables::{ClusterRun, InodeRow, RefcountBlockRow, RefcountTreeRow};
use std::alloc::{AllocError, Global};
use std::test::Fail;

const ORIGIN: Origin = Origin {
    slot: 0,
    bit: 1,
    loc: 0,
};

fn shared(start: u32, clusters: u32) -> ClusterRun {
    ClusterRun {
        start,
        clusters,
        is_shared: true,
    }
}

/// A file that names this tree, with these runs.
fn file(
    alloc: Global,
    block: u64,
    tree: Option<u64>,
    runs: &[ClusterRun],
) -> Result<InodeRow, AllocError> {
    Ok(InodeRow {
        block,
        kind: Some(Kind::File),
        flags: InodeFlags::VALID,
        links: 1,
        clusters: 1,
        origin: ORIGIN,
        named_tree: tree,
        tree,
        runs: Items::from(Vec::from_slice(alloc, runs)?),
        extent_blocks: Items::from(Vec::new(alloc)),
    })
}

/// A record in the block.
fn placed(block: u64, cpos: u64, clusters: u32, refcount: u32) -> PlacedRefcount {
    PlacedRefcount {
        block,
        fields: RefcountRec {
            cpos,
            clusters,
            refcount,
        },
    }
}

/// A tree with this root that tells so many users, with these records.
fn tree(
    alloc: Global,
    root: u64,
    users: u32,
    records: &[PlacedRefcount],
) -> Result<RefcountTreeRow, AllocError> {
    Ok(RefcountTreeRow {
        root: RefcountBlockRow {
            block: root,
            is_refcount_block: true,
            origin: ORIGIN,
        },
        users,
        extent_blocks: Items::from(Vec::new(alloc)),
        leaves: Items::from(Vec::new(alloc)),
        records: Items::from(Vec::from_slice(alloc, records)?),
    })
}

/// The same root, where it is no refcount block.
fn no_tree(alloc: Global, root: u64) -> Result<RefcountTreeRow, AllocError> {
    let mut row = tree(alloc, root, 9, &[])?;
    row.root.is_refcount_block = false;
    Ok(row)
}

/// Two files of the tree 1002, which refer to cluster 50 once and to 51 and 52 twice, and one of the tree 1003, which refers to
/// 70 and 71. One file shares clusters and has no tree.
fn files(alloc: Global) -> Result<[InodeRow; 4], AllocError> {
    let own = ClusterRun {
        start: 60,
        clusters: 2,
        is_shared: false,
    };
    Ok([
        file(alloc, 200, Some(1002), &[shared(50, 3), own])?,
        file(alloc, 201, Some(1002), &[shared(51, 2)])?,
        file(alloc, 202, Some(1003), &[shared(70, 2)])?,
        file(alloc, 203, None, &[shared(80, 1)])?,
    ])
}

fn count(alloc: Global) -> Result<References, NoMemory> {
    let Ok(files) = files(alloc) else {
        return Err(NoMemory);
    };
    references(alloc, &files)
}

#[test]
fn counts_references(rt: HostRuntime) -> Result<(), Fail> {
    let alloc = rt.alloc();
    let counted = count(alloc)?;
    assert_eq!(rt; counted.users(1002), 2);
    assert_eq!(rt; counted.users(1004), 0);
    assert_eq!(rt; counted.times(1002, 50), 1);
    assert_eq!(rt; counted.times(1002, 52), 2);
    assert_eq!(rt; counted.times(1002, 53), 0);
    assert_eq!(rt; counted.times(1002, 60), 0);
    assert_eq!(rt; counted.times(1003, 52), 0);
    Ok(())
}

#[test]
fn tells_inodes_without_tree(rt: HostRuntime) -> Result<(), Fail> {
    let alloc = rt.alloc();
    let found = ref_tree(alloc, &files(alloc)?, &[1003])?;
    assert_eq!(rt; found.as_slice(), [203, 1003].as_slice());
    Ok(())
}

#[test]
fn tells_roots_of_other_users(rt: HostRuntime) -> Result<(), Fail> {
    let alloc = rt.alloc();
    let counted = count(alloc)?;
    let trees = [
        tree(alloc, 1002, 2, &[])?,
        tree(alloc, 1003, 2, &[])?,
        no_tree(alloc, 1004)?,
    ];
    let found = ref_users(alloc, &counted, &trees)?;
    assert_eq!(rt; found.as_slice(), [1003].as_slice());
    Ok(())
}

#[test]
fn tells_blocks_of_other_counts(rt: HostRuntime) -> Result<(), Fail> {
    let alloc = rt.alloc();
    let counted = count(alloc)?;
    // The clusters of the last record of 1002 are not referred to equally often, so that its number is not judged.
    let records = [
        placed(1010, 50, 1, 1),
        placed(1011, 51, 2, 3),
        placed(1012, 50, 2, 9),
    ];
    let trees = [
        tree(alloc, 1002, 2, &records)?,
        tree(alloc, 1003, 1, &[placed(1003, 70, 2, 1)])?,
    ];
    let found = ref_count(alloc, &counted, &trees)?;
    assert_eq!(rt; found.as_slice(), [1011].as_slice());
    Ok(())
}

#[test]
fn tells_roots_that_do_not_cover(rt: HostRuntime) -> Result<(), Fail> {
    let alloc = rt.alloc();
    let inodes = files(alloc)?;
    let counted = references(alloc, &inodes)?;
    let good = [placed(1002, 50, 1, 1), placed(1002, 51, 2, 2)];
    let trees = [
        tree(alloc, 1002, 2, &good)?,
        tree(alloc, 1003, 1, &[placed(1003, 70, 1, 1)])?,
        no_tree(alloc, 1004)?,
    ];
    let found = ref_cover(alloc, &counted, &inodes, &trees)?;
    assert_eq!(rt; found.as_slice(), [1003].as_slice());
    let trees = [tree(alloc, 1002, 2, &[placed(1002, 50, 3, 1)])?];
    let found = ref_cover(alloc, &counted, &inodes, &trees)?;
    assert_eq!(rt; found.as_slice(), [1002].as_slice());
    Ok(())
}
