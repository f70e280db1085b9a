// Each call once, on a disk in memory.
ghost use Rattle.std.specs.Prelude.{◌≡◌, ◌+◌, ◌≤◌, length, IfOk};
ghost use Rattle.o2_view.specs.Geos.{HasSizes, HasNumbers, blocks_of};
ghost use Rattle.o2_extent.specs.Maps.{AreNumbered};

use crate::{Leaf, Leaves, OrderedLeaves, list_of_runs, map_cluster, records};
use o2_disk::{Disk, How, MemDisk};
use o2_ondisk::{
    Dinode, DxRoot, DxSeed, ExtentBlock, ExtentListHeader, ExtentRec, ExtentSize, RefcountBlock,
    Signature, read_dinode, read_dx_root, read_refcount_block, write_dinode, write_dx_root,
    write_extent_block, write_extent_list_header, write_extent_rec, write_refcount_block,
};
use o2_view::{Check, Geo, ReadFault, Run, View};
use std::alloc::Global;
use std::test::Fail;

// A volume of 40 clusters of 4 KiB, with blocks of 1 KiB.
fn numbers() -> Geo
    ensures sizes { HasSizes result }
    ensures bits { result.block_bits ≡ 10 }
    ensures numbers { HasNumbers result }
    ensures blocks { blocks_of result ≡ 160 }
    ensures clusters { result.clusters ≡ 40 }
{
    Geo {
        block_bits: 10,
        cluster_bits: 12,
        clusters: 40,
        slots: 1,
        root: 5,
        sysdir: 6,
        first_group: 4,
        generation: 7,
        compat: 0,
        incompat: 0,
        seed: DxSeed {
            first: 0,
            second: 0,
            third: 0,
        },
    }
}

// A list of this depth with two records, which begins at byte `at`.
fn put_list(bytes: &mut [u8], at: usize, depth: u16, first: &ExtentRec, second: &ExtentRec)
    requires { at + 48 ≤ length bytes.old }
{
    let header = ExtentListHeader {
        tree_depth: depth,
        count: 4,
        next_free_rec: 2,
    };
    write_extent_list_header(&mut bytes[at..], &header);
    write_extent_rec(&mut bytes[at + 16..], first);
    write_extent_rec(&mut bytes[at + 32..], second);
}

// The dinode of a file, without its list.
fn file() -> Dinode {
    Dinode {
        signature: Signature::INODE01,
        clusters: 5,
        size: 20000,
        mode: 0o100644,
        blkno: 8,
        fs_generation: 7,
        ..read_dinode(&[0; 192])
    }
}

// An extent block, without its list.
fn extent_block(blkno: u64) -> ExtentBlock {
    ExtentBlock {
        signature: Signature::EXBLK01,
        suballoc_slot: 0,
        suballoc_bit: 0,
        fs_generation: 7,
        blkno,
        suballoc_loc: 0,
        next_leaf_blk: 0,
    }
}

// An index root with a list of leaves, without that list.
fn index_root() -> DxRoot {
    DxRoot {
        signature: Signature::DXDIR01,
        fs_generation: 7,
        blkno: 8,
        dir_blkno: 12,
        ..read_dx_root(&[0; 80])
    }
}

// A refcount root with a list of leaf blocks, without that list.
fn refcount_root() -> RefcountBlock {
    RefcountBlock {
        signature: Signature::REFCNT1,
        fs_generation: 7,
        blkno: 8,
        flags: 2,
        ..read_refcount_block(&[0; 80])
    }
}

fn record(cpos: u32, size: u32, blkno: u64) -> ExtentRec {
    ExtentRec {
        cpos,
        size: ExtentSize(size),
        blkno,
    }
}

fn leaf(cpos: u32, clusters: u32, block: u64, flags: u8) -> Leaf {
    Leaf {
        cpos,
        clusters,
        block,
        flags,
    }
}

// The records of the owner in block 8 of a disk of 160 blocks.
fn read_records<D: Disk>(alloc: Global, disk: &mut D) -> Result<Leaves, ReadFault>
    requires { 320 ≤ (D.state disk.old).sectors }
{
    let mut view = View::<D, 1>::new(alloc, disk, 10, 160)?;
    records(alloc, &mut view, &numbers(), 8)
}

#[test]
fn reads_the_records_of_a_file(rt: HostRuntime) -> Result<(), Fail> {
    let alloc = rt.alloc();
    let mut disk = MemDisk::new(alloc, 320)?;
    disk.attach(alloc, "disk", How::ReadWrite)?;
    let mut dinode = [0; 1024];
    write_dinode(&mut dinode, &file());
    put_list(&mut dinode, 0xc0, 1, &record(0, 6, 9), &record(6, 2, 10));
    disk.write(16, &dinode)?;
    let mut first = [0; 1024];
    write_extent_block(&mut first, &extent_block(9));
    put_list(
        &mut first,
        0x30,
        0,
        &record(0, 2, 40),
        &record(4, 0x0100_0002, 80),
    );
    disk.write(18, &first)?;
    let mut second = [0; 1024];
    write_extent_block(&mut second, &extent_block(10));
    put_list(
        &mut second,
        0x30,
        0,
        &record(6, 0, 0),
        &record(7, 0x0200_0001, 120),
    );
    disk.write(20, &second)?;
    let leaves = read_records(alloc, &mut disk)?;
    let found = leaves.as_slice();
    assert_eq!(rt; found.len(), 3);
    assert_eq!(rt; found[0], leaf(0, 2, 40, 0));
    assert_eq!(rt; found[1], leaf(4, 2, 80, 1));
    assert_eq!(rt; found[2], leaf(7, 1, 120, 2));
    Ok(())
}

#[test]
fn tells_a_tree_that_leads_back(rt: HostRuntime) -> Result<(), Fail> {
    let alloc = rt.alloc();
    let mut disk = MemDisk::new(alloc, 320)?;
    disk.attach(alloc, "disk", How::ReadWrite)?;
    let mut dinode = [0; 1024];
    write_dinode(&mut dinode, &file());
    put_list(&mut dinode, 0xc0, 2, &record(0, 6, 9), &record(6, 2, 9));
    disk.write(16, &dinode)?;
    let mut inner = [0; 1024];
    write_extent_block(&mut inner, &extent_block(9));
    put_list(&mut inner, 0x30, 1, &record(0, 2, 9), &record(4, 2, 9));
    disk.write(18, &inner)?;
    let answer = match read_records(alloc, &mut disk) {
        Ok(_) => None,
        Err(fault) => Some(fault),
    };
    let bad = ReadFault::Bad {
        check: Check::Extent,
        block: 8,
    };
    assert_eq!(rt; answer, Some(bad));
    Ok(())
}

#[test]
fn reads_the_records_of_an_index_root(rt: HostRuntime) -> Result<(), Fail> {
    let alloc = rt.alloc();
    let mut disk = MemDisk::new(alloc, 320)?;
    disk.attach(alloc, "disk", How::ReadWrite)?;
    let mut root = [0; 1024];
    write_dx_root(&mut root, &index_root());
    put_list(&mut root, 0xc0, 0, &record(0, 2, 40), &record(2, 1, 80));
    disk.write(16, &root)?;
    let leaves = read_records(alloc, &mut disk)?;
    let want = [leaf(0, 2, 40, 0), leaf(2, 1, 80, 0)];
    assert_eq!(rt; leaves.as_slice(), want.as_slice());
    Ok(())
}

#[test]
fn reads_the_blocks_that_a_refcount_root_names(rt: HostRuntime) -> Result<(), Fail> {
    let alloc = rt.alloc();
    let mut disk = MemDisk::new(alloc, 320)?;
    disk.attach(alloc, "disk", How::ReadWrite)?;
    let mut root = [0; 1024];
    write_refcount_block(&mut root, &refcount_root());
    put_list(&mut root, 0x80, 0, &record(0, 1, 41), &record(30, 1, 43));
    disk.write(16, &root)?;
    let leaves = read_records(alloc, &mut disk)?;
    let want = [leaf(0, 1, 41, 0), leaf(30, 1, 43, 0)];
    assert_eq!(rt; leaves.as_slice(), want.as_slice());
    Ok(())
}

#[test]
fn lists_runs(rt: HostRuntime) -> Result<(), Fail> {
    let runs = [
        Run {
            start: 3,
            clusters: 2,
        },
        Run {
            start: 9,
            clusters: 1,
        },
    ];
    let list = list_of_runs(&numbers(), &runs);
    let found = list.as_slice();
    assert_eq!(rt; found.len(), 2);
    assert_eq!(rt; found[0], leaf(0, 2, 12, 0));
    assert_eq!(rt; found[1], leaf(2, 1, 36, 0));
    Ok(())
}

// Clusters 2 to 4 and 7 of an inode.
fn two_leaves(alloc: Global) -> Result<Leaves, Fail>
    ensures { IfOk result (λ leaves. AreNumbered 4 leaves) }
{
    let first = Leaf {
        cpos: 2,
        clusters: 3,
        block: 40,
        flags: 0,
    };
    let second = Leaf {
        cpos: 7,
        clusters: 1,
        block: 80,
        flags: 1,
    };
    Ok(Leaves::from(Vec::from_array(alloc, [first, second])?))
}

#[test]
fn maps_clusters(rt: HostRuntime) -> Result<(), Fail> {
    let leaves = two_leaves(rt.alloc())?;
    assert_eq!(rt; map_cluster(&leaves, 4, 4), Some(48));
    assert_eq!(rt; map_cluster(&leaves, 4, 7), Some(80));
    assert_eq!(rt; map_cluster(&leaves, 4, 5), None);
    Ok(())
}

#[test]
fn finds_records_in_any_order(rt: HostRuntime) -> Result<(), Fail> {
    let rising = OrderedLeaves::new(two_leaves(rt.alloc())?);
    assert_eq!(rt; rising.find(4), Some(leaf(2, 3, 40, 0)));
    assert_eq!(rt; rising.find(7), Some(leaf(7, 1, 80, 1)));
    assert_eq!(rt; rising.find(5), None);
    let mut records = two_leaves(rt.alloc())?.into_vec();
    records.reverse();
    let falling = OrderedLeaves::new(Leaves::from(records));
    assert_eq!(rt; falling.find(4), Some(leaf(2, 3, 40, 0)));
    assert_eq!(rt; falling.find(7), Some(leaf(7, 1, 80, 1)));
    assert_eq!(rt; falling.find(5), None);
    Ok(())
}
