// Indexes beside one group of metadata, in block 64 and of slot 3.
use crate::dx;
use o2_claims::Claims;
use o2_judges_claims::claim_once;
use o2_model::{Allocator, BitUse, Bytes, Group, Items, Origin, Owner};
use o2_tables::{ClusterRun, ExtentBlockRow, GroupRow};
use o2_tree::IndexRow;
use std::alloc::{AllocError, Global};
use std::test::Fail;

fn group(alloc: Global) -> GroupRow {
    GroupRow {
        group: Group {
            of: Allocator {
                bit_use: BitUse::Metadata,
                slot: 3,
                block: 20,
            },
            chain: 0,
            block: 64,
            bits: 8,
        },
        chain: 0,
        free_bits: 0,
        first: 0,
        bitmap: Bytes::from(Vec::new(alloc)),
    }
}

/// A block that says it is from that bit.
fn block(block: u64, bit: u16) -> ExtentBlockRow {
    ExtentBlockRow {
        block,
        origin: Origin {
            slot: 3,
            bit,
            loc: 0,
        },
    }
}

/// An index with clusters from `start` on.
fn index(
    alloc: Global,
    directory: u64,
    root: ExtentBlockRow,
    extent_blocks: &[ExtentBlockRow],
    start: u32,
    clusters: u32,
) -> Result<IndexRow, AllocError> {
    let run = ClusterRun {
        start,
        clusters,
        is_shared: false,
    };
    Ok(IndexRow {
        directory,
        root,
        extent_blocks: Items::from(Vec::from_slice(alloc, extent_blocks)?),
        runs: Items::from(Vec::from_slice(alloc, &[run])?),
        is_sound_alone: true,
    })
}

#[test]
fn judges_each_index_behind_those_before(rt: HostRuntime) -> Result<(), Fail> {
    let alloc = rt.alloc();
    let groups = [group(alloc)];
    let mut claims = Claims::new(alloc, 100)?;
    claim_once(&mut claims, 30, Owner::Inode(7))?;
    let unsound = IndexRow {
        is_sound_alone: false,
        ..index(alloc, 104, block(70, 6), &[], 21, 1)?
    };
    let indexes = [
        index(alloc, 100, block(65, 1), &[block(66, 2)], 10, 2)?,
        index(alloc, 101, block(67, 3), &[], 11, 1)?,
        index(alloc, 102, block(68, 5), &[], 22, 1)?,
        index(alloc, 103, block(69, 5), &[], 20, 1)?,
        unsound,
        index(alloc, 105, block(71, 7), &[], 30, 1)?,
    ];
    let judged = dx(alloc, &groups, &[], &[], &indexes, &mut claims)?;
    assert_eq!(rt; judged.faults.as_slice(), [101, 102, 104, 105].as_slice());
    assert_eq!(rt; judged.blocks.as_slice(), [65, 66, 69].as_slice());
    assert_eq!(rt; claims.owner(11), Some(Owner::Index(100)));
    assert_eq!(rt; claims.owner(20), Some(Owner::Index(103)));
    assert_eq!(rt; claims.owner(21), None);
    assert_eq!(rt; claims.count(), 4);
    Ok(())
}
