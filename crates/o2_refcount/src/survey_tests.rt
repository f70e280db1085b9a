// A survey of a tree with an extent block and two leaves, and of a root out of range.
ghost use Rattle.std.specs.Prelude.{◌≤◌, length};

use crate::testing::{leaf, leaf_of, numbers, placed, record, refcount_block};
use crate::{TreeReading, TreeSurvey, read_tree_row, refcount_trees, roots_named};
use o2_disk::{Disk, How, MemDisk};
use o2_model::{Items, Origin};
use o2_ondisk::{
    ExtentBlock, ExtentListHeader, InodeFlags, RefcountBlock, Signature, read_extent_block,
    read_refcount_block, write_extent_block, write_extent_list_header, write_extent_rec,
    write_refcount_block,
};
use o2_tables::{ExtentBlockRow, InodeRow, RefcountBlockRow};
use o2_view::{View, ViewFault};
use std::alloc::Global;
use std::test::Fail;

// A list of this depth.
fn header(tree_depth: u16, next_free_rec: u16) -> ExtentListHeader {
    ExtentListHeader {
        tree_depth,
        count: 55,
        next_free_rec,
    }
}

// A list of depth 1 that names extent block 20, in the bytes of a refcount root.
fn put_index(bytes: &mut [u8])
    requires { 0xa0 ≤ length bytes.old }
{
    write_extent_list_header(&mut bytes[0x80..], &header(1, 1));
    write_extent_rec(&mut bytes[0x90..], &leaf(0, 20));
}

// A list that names leaves 43 and 500, in the bytes of an extent block.
fn put_leaves(bytes: &mut [u8])
    requires { 0x60 ≤ length bytes.old }
{
    write_extent_list_header(&mut bytes[0x30..], &header(0, 2));
    write_extent_rec(&mut bytes[0x40..], &leaf(0, 43));
    write_extent_rec(&mut bytes[0x50..], &leaf(30, 500));
}

// The root in block 8 of a tree of three inodes, whose list has extent block 20. It names no last leaf of the list.
fn root() -> [u8; 1024] {
    let fields = RefcountBlock {
        suballoc_slot: 1,
        suballoc_bit: 5,
        suballoc_loc: 30,
        count: 3,
        ..read_refcount_block(&refcount_block(8, 2))
    };
    let mut block = [0; 1024];
    write_refcount_block(&mut block, &fields);
    put_index(&mut block);
    block
}

// Extent block 20, which names leaves 43 and 500, and a next extent block that there is none.
fn extent_block() -> [u8; 1024] {
    let fields = ExtentBlock {
        signature: Signature::EXBLK01,
        suballoc_bit: 7,
        fs_generation: 7,
        blkno: 20,
        suballoc_loc: 30,
        next_leaf_blk: 9,
        ..read_extent_block(&[0; 48])
    };
    let mut block = [0; 1024];
    write_extent_block(&mut block, &fields);
    put_leaves(&mut block);
    block
}

// The survey of the trees with roots 8 and 200, on a disk of 160 blocks.
fn survey<D: Disk>(alloc: Global, disk: &mut D) -> Result<TreeSurvey, ViewFault>
    requires { 320 ≤ (D.state disk.old).sectors }
{
    let mut view = View::<D, 1>::new(alloc, disk, 10, 160)?;
    refcount_trees(alloc, &mut view, &numbers(), &[8, 200])
}

// The reading of the tree with root 8.
fn reading<D: Disk>(alloc: Global, disk: &mut D) -> Result<TreeReading, ViewFault>
    requires { 320 ≤ (D.state disk.old).sectors }
{
    let mut view = View::<D, 1>::new(alloc, disk, 10, 160)?;
    read_tree_row(alloc, &mut view, &numbers(), 8)
}

// The row of a refcount block in slot 0 or 1.
fn row(block: u64, slot: u16, bit: u16, loc: u64) -> RefcountBlockRow {
    RefcountBlockRow {
        block,
        is_refcount_block: true,
        origin: Origin { slot, bit, loc },
    }
}

#[test]
fn surveys_a_tree_and_a_root_out_of_range(rt: HostRuntime) -> Result<(), Fail> {
    let alloc = rt.alloc();
    let mut disk = MemDisk::new(alloc, 320)?;
    disk.attach(alloc, "disk", How::ReadWrite)?;
    disk.write(16, &root())?;
    disk.write(40, &extent_block())?;
    disk.write(86, &leaf_of(43, 1, &record(5, 2, 2), &record(9, 1, 3)))?;
    let found = survey(alloc, &mut disk)?;
    assert_eq!(rt; found.trees.as_slice(), [500, 200, 200].as_slice());
    assert_eq!(rt; found.next_leaves.as_slice(), [20].as_slice());
    assert_eq!(rt; found.last_leaves.as_slice(), [8].as_slice());
    assert_eq!(rt; found.rows.as_slice().len(), 2);
    let second = &found.rows.as_slice()[1];
    assert_eq!(rt; second.root.block, 200);
    assert!(rt; !second.root.is_refcount_block);
    Ok(())
}

#[test]
fn reads_a_tree_with_an_extent_block(rt: HostRuntime) -> Result<(), Fail> {
    let alloc = rt.alloc();
    let mut disk = MemDisk::new(alloc, 320)?;
    disk.attach(alloc, "disk", How::ReadWrite)?;
    disk.write(16, &root())?;
    disk.write(40, &extent_block())?;
    disk.write(86, &leaf_of(43, 1, &record(5, 2, 2), &record(9, 1, 3)))?;
    let tree = reading(alloc, &mut disk)?;
    assert_eq!(rt; tree.row.root, row(8, 1, 5, 30));
    assert_eq!(rt; tree.row.users, 3);
    let blocks = [ExtentBlockRow {
        block: 20,
        origin: row(20, 0, 7, 30).origin,
    }];
    assert_eq!(rt; tree.row.extent_blocks.as_slice(), blocks.as_slice());
    let out_of_range = RefcountBlockRow {
        is_refcount_block: false,
        ..row(500, 0, 0, 0)
    };
    let leaves = [row(43, 0, 0, 0), out_of_range];
    assert_eq!(rt; tree.row.leaves.as_slice(), leaves.as_slice());
    let records = [placed(43, record(5, 2, 2))];
    assert_eq!(rt; tree.row.records.as_slice(), records.as_slice());
    assert_eq!(rt; tree.faults.as_slice(), [500].as_slice());
    Ok(())
}

// An inode that names this root.
fn inode(alloc: Global, block: u64, named_tree: Option<u64>) -> InodeRow {
    InodeRow {
        block,
        kind: None,
        flags: InodeFlags(0),
        links: 1,
        clusters: 0,
        origin: row(block, 0, 0, 0).origin,
        named_tree,
        tree: None,
        runs: Items::from(Vec::new(alloc)),
        extent_blocks: Items::from(Vec::new(alloc)),
    }
}

#[test]
fn gathers_the_roots_that_are_named(rt: HostRuntime) -> Result<(), Fail> {
    let alloc = rt.alloc();
    let inodes = [
        inode(alloc, 50, Some(200)),
        inode(alloc, 51, None),
        inode(alloc, 52, Some(8)),
        inode(alloc, 53, Some(200)),
    ];
    let roots = roots_named(alloc, &inodes)?;
    assert_eq!(rt; roots.as_slice(), [8, 200].as_slice());
    Ok(())
}
