// Extent blocks and refcount blocks.
use super::group;
use crate::meta_block;
use o2_model::{BitUse, Items, Origin};
use o2_ondisk::{InodeFlags, Kind};
use o2_tables::{ExtentBlockRow, InodeRow, RefcountBlockRow, RefcountTreeRow};
use std::alloc::{AllocError, Global};
use std::test::Fail;

const ORIGIN: Origin = Origin {
    slot: 0,
    bit: 1,
    loc: 0,
};

fn extent_blocks(alloc: Global, blocks: &[u64]) -> Result<Items<ExtentBlockRow>, AllocError> {
    let rows: Vec<ExtentBlockRow> = blocks
        .iter()
        .map(|block| ExtentBlockRow {
            block: *block,
            origin: ORIGIN,
        })
        .collect(alloc)?;
    Ok(Items::from(rows))
}

fn refcount_block(block: u64) -> RefcountBlockRow {
    RefcountBlockRow {
        block,
        is_refcount_block: true,
        origin: ORIGIN,
    }
}

/// A file whose list has these extent blocks.
fn file(alloc: Global, blocks: &[u64]) -> Result<InodeRow, AllocError> {
    Ok(InodeRow {
        block: 2001,
        kind: Some(Kind::File),
        flags: InodeFlags::VALID,
        links: 1,
        clusters: 1,
        origin: ORIGIN,
        named_tree: Some(1002),
        tree: Some(1002),
        runs: Items::from(Vec::new(alloc)),
        extent_blocks: extent_blocks(alloc, blocks)?,
    })
}

#[test]
fn tells_blocks_of_other_origin_or_of_two_uses(rt: HostRuntime) -> Result<(), Fail> {
    let alloc = rt.alloc();
    // The blocks from 1001 to 1007 are given out. Of those used, 2003 is none of them, nor is 1000, and 1001 is used twice.
    let groups = [
        group(alloc, BitUse::Metadata, 1000, 0b1111, 4)?,
        group(alloc, BitUse::Inodes, 2000, 0b11, 6)?,
    ];
    let inodes = [file(alloc, &[1001, 2003])?];
    let trees = [RefcountTreeRow {
        root: refcount_block(1002),
        users: 1,
        extent_blocks: extent_blocks(alloc, &[1007])?,
        leaves: Items::from(Vec::from_slice(alloc, &[refcount_block(1001), refcount_block(1000)])?),
        records: Items::from(Vec::new(alloc)),
    }];
    let found = meta_block(alloc, &groups, &inodes, &trees)?;
    assert_eq!(rt; found.as_slice(), [1001, 2003, 1001, 1000].as_slice());
    Ok(())
}
