// Each judge on a small table.
use crate::{GroupPlace, inode_suballoc, is_right, meta_suballoc, placed_groups};
use o2_model::{Allocator, BitUse, Bytes, Group, Items, Origin};
use o2_ondisk::InodeFlags;
use o2_tables::{ExtentBlockRow, GroupRow, InodeRow, RefcountBlockRow, RefcountTreeRow};
use std::alloc::{AllocError, Global};
use std::test::Fail;

/// A group of eight bits in the block, of an allocator of slot 3.
fn group(alloc: Global, bit_use: BitUse, block: u64) -> Result<GroupRow, AllocError> {
    Ok(GroupRow {
        group: Group {
            of: Allocator {
                bit_use,
                slot: 3,
                block: 20,
            },
            chain: 0,
            block,
            bits: 8,
        },
        chain: 0,
        free_bits: 0,
        first: 0,
        bitmap: Bytes::from(Vec::from_slice(alloc, &[255])?),
    })
}

/// Groups of inodes in blocks 64 and 80, and one of metadata in block 72.
fn groups(alloc: Global) -> Result<Vec<GroupRow>, AllocError> {
    let mut groups = Vec::new(alloc);
    groups.push(group(alloc, BitUse::Inodes, 80)?)?;
    groups.push(group(alloc, BitUse::Metadata, 72)?)?;
    groups.push(group(alloc, BitUse::Inodes, 64)?)?;
    Ok(groups)
}

fn origin(slot: u16, bit: u16, loc: u64) -> Origin {
    Origin { slot, bit, loc }
}

/// An inode that says so, with these extent blocks.
fn inode(
    alloc: Global,
    block: u64,
    origin: Origin,
    extent_blocks: &[ExtentBlockRow],
) -> Result<InodeRow, AllocError> {
    Ok(InodeRow {
        block,
        kind: None,
        flags: InodeFlags(0),
        links: 1,
        clusters: 0,
        origin,
        named_tree: None,
        tree: None,
        runs: Items::from(Vec::new(alloc)),
        extent_blocks: Items::from(Vec::from_slice(alloc, extent_blocks)?),
    })
}

#[test]
fn finds_groups(rt: HostRuntime) -> Result<(), Fail> {
    let alloc = rt.alloc();
    let groups = groups(alloc)?;
    let placed = placed_groups(alloc, groups.as_slice(), BitUse::Inodes)?;
    let last = GroupPlace {
        block: 80,
        bits: 8,
        slot: 3,
    };
    assert_eq!(rt; placed.group_of(87), Some(last));
    assert_eq!(rt; placed.group_of(88), None);
    assert_eq!(rt; placed.group_of(80), None);
    assert_eq!(rt; placed.group_of(75), None);
    assert!(rt; is_right(&placed, &origin(3, 7, 80), 87));
    assert!(rt; !is_right(&placed, &origin(3, 6, 80), 87));
    Ok(())
}

#[test]
fn judges_inodes(rt: HostRuntime) -> Result<(), Fail> {
    let alloc = rt.alloc();
    let groups = groups(alloc)?;
    let mut inodes = Vec::new(alloc);
    inodes.push(inode(alloc, 65, origin(3, 1, 64), &[])?)?;
    inodes.push(inode(alloc, 66, origin(3, 2, 0), &[])?)?;
    // Another slot, another bit, another group.
    inodes.push(inode(alloc, 67, origin(2, 3, 64), &[])?)?;
    inodes.push(inode(alloc, 68, origin(3, 5, 64), &[])?)?;
    inodes.push(inode(alloc, 81, origin(3, 1, 64), &[])?)?;
    let found = inode_suballoc(alloc, groups.as_slice(), inodes.as_slice())?;
    assert_eq!(rt; found.as_slice(), [67, 68, 81].as_slice());
    Ok(())
}

fn refcount_block(block: u64, is_refcount_block: bool, origin: Origin) -> RefcountBlockRow {
    RefcountBlockRow {
        block,
        is_refcount_block,
        origin,
    }
}

/// A tree with this root, these leaves, and one extent block in block 74 that tells bit 3.
fn tree(
    alloc: Global,
    root: RefcountBlockRow,
    leaves: &[RefcountBlockRow],
) -> Result<RefcountTreeRow, AllocError> {
    let extent_block = ExtentBlockRow {
        block: 74,
        origin: origin(3, 3, 72),
    };
    Ok(RefcountTreeRow {
        root,
        users: 1,
        extent_blocks: Items::from(Vec::from_slice(alloc, &[extent_block])?),
        leaves: Items::from(Vec::from_slice(alloc, leaves)?),
        records: Items::from(Vec::new(alloc)),
    })
}

#[test]
fn judges_metadata(rt: HostRuntime) -> Result<(), Fail> {
    let alloc = rt.alloc();
    let groups = groups(alloc)?;
    // Another group, and a block that no group of metadata has.
    let extent_blocks = [
        ExtentBlockRow {
            block: 77,
            origin: origin(3, 5, 64),
        },
        ExtentBlockRow {
            block: 65,
            origin: origin(9, 9, 9),
        },
    ];
    let mut inodes = Vec::new(alloc);
    inodes.push(inode(alloc, 65, origin(0, 0, 0), &extent_blocks)?)?;
    // No refcount block, and another slot.
    let leaves = [
        refcount_block(75, false, origin(9, 9, 9)),
        refcount_block(76, true, origin(2, 4, 72)),
    ];
    let mut trees = Vec::new(alloc);
    trees.push(tree(alloc, refcount_block(78, true, origin(3, 5, 0)), &leaves)?)?;
    let found = meta_suballoc(
        alloc,
        groups.as_slice(),
        inodes.as_slice(),
        trees.as_slice(),
    )?;
    assert_eq!(rt; found.as_slice(), [77, 74, 78, 76].as_slice());
    Ok(())
}
