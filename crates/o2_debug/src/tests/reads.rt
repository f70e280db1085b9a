// How often the disk is called for a query: once for each block that it needs.
ghost use Rattle.std.specs.Prelude.{◌≤◌, ◌+◌, length};
ghost use Rattle.o2_disk.specs.Device.{IsWritable};

use super::{answered, path, volume};
use crate::{PathQuery, Query};
use o2_disk::{Disk, Failed, How, MemDisk, MemSink};
use o2_ondisk::{
    Dinode, ExtentBlock, ExtentListHeader, ExtentRec, ExtentSize, InodeFlags, Signature,
    read_dinode, write_dinode, write_extent_block, write_extent_list_header, write_extent_rec,
};
use o2_test_volumes::put_whole_volume;
use std::alloc::Global;
use std::process::Abort;
use std::test::Fail;

// The records of each of the two extent blocks, as many as fit a block of 512 bytes.
const RECORDS: u32 = 28;

// How many of these are written: the others have a flag that says that they are not.
const WRITTEN: u64 = 21;

// How many blocks a cluster has.
const BLOCKS_IN_CLUSTER: u64 = 8;

// A list of this depth, with so many records of so many that fit, which begins at byte `at`.
fn put_header(block: &mut [u8], at: usize, depth: u16, count: u16, used: u16)
    requires { at + 16 ≤ length block.old }
{
    let header = ExtentListHeader {
        tree_depth: depth,
        count,
        next_free_rec: used,
    };
    write_extent_list_header(&mut block[at..], &header);
}

fn put_record(block: &mut [u8], at: usize, cpos: u32, size: u32, blkno: u64)
    requires { at + 16 ≤ length block.old }
{
    let record = ExtentRec {
        cpos,
        size: ExtentSize(size),
        blkno,
    };
    write_extent_rec(&mut block[at..], &record);
}

// The file `f`, of 112 clusters, whose records are in blocks 44 and 45.
fn tree() -> [u8; 512] {
    let mut block = [0; 512];
    let fields = Dinode {
        signature: Signature::INODE01,
        suballoc_slot: 0xffff,
        suballoc_bit: 13,
        size: 112 * 4096,
        clusters: 56,
        mode: 0o100644,
        links_count: 2,
        flags: InodeFlags::VALID,
        blkno: 29,
        fs_generation: 5,
        last_eb_blk: 45,
        ..read_dinode(&[0; 192])
    };
    write_dinode(&mut block, &fields);
    put_header(&mut block, 0xc0, 1, 19, 2);
    put_record(&mut block, 0xd0, 0, 56, 44);
    put_record(&mut block, 0xe0, 56, 56, 45);
    block
}

// Each second cluster from `cpos` on, in the clusters 8 and 9 of the volume in turn, each fourth of them unwritten.
fn leaf(blkno: u16, cpos: u32, next: u64) -> [u8; 512]
    requires { cpos ≤ 1000 }
{
    let mut block = [0; 512];
    let fields = ExtentBlock {
        signature: Signature::EXBLK01,
        suballoc_slot: 0,
        suballoc_bit: blkno.saturating_sub(40),
        fs_generation: 5,
        blkno: u64::from(blkno),
        suballoc_loc: 0,
        next_leaf_blk: next,
    };
    write_extent_block(&mut block, &fields);
    put_header(&mut block, 0x30, 0, 28, 28);
    for k in 0..RECORDS {
        let size = if k % 4 == 3 { 0x0100_0001 } else { 1 };
        let place = 64 + BLOCKS_IN_CLUSTER * u64::from(k % 2);
        put_record(
            &mut block,
            0x40 + 16 * k as usize,
            cpos + 2 * k,
            size,
            place,
        );
    }
    block
}

// Puts the file and its two extent blocks where the whole volume has the file `f`.
fn put_tree<D: Disk>(disk: &mut D) -> Result<(), Failed>
    requires disk { 128 ≤ (D.state disk.old).sectors }
    requires writable { IsWritable (D.state disk.old).attached }
{
    disk.write(29, &tree())?;
    disk.write(44, &leaf(44, 0, 45))?;
    disk.write(45, &leaf(45, 56, 0))?;
    Ok(())
}

fn volume_with_tree(rt: &impl Abort, alloc: Global) -> Result<MemDisk, Fail> {
    let mut disk = MemDisk::new(alloc, 128)?;
    disk.attach(alloc, "made", How::ReadWrite)?;
    assert!(rt; disk.sectors() >= 128);
    put_whole_volume(&mut disk)?;
    put_tree(&mut disk)?;
    Ok(disk)
}

// How often the disk is called for the query.
fn calls_of(
    rt: &impl Abort,
    alloc: Global,
    disk: &mut MemDisk,
    query: &Query,
) -> Result<u64, Fail> {
    let before = disk.calls();
    let mut out = MemSink::new(alloc);
    assert_eq!(rt; answered(rt, alloc, disk, query, &mut out)?, None);
    Ok(disk.calls().saturating_sub(before))
}

#[test]
fn reads_each_block_once(rt: HostRuntime) -> Result<(), Fail> {
    let alloc = rt.alloc();
    let mut disk = volume_with_tree(&rt, alloc)?;
    // The file `a`, whose record stands in its dinode.
    let without_tree = Query::At(PathQuery::Stat {
        path: path(alloc, "/a")?,
    });
    let stat = Query::At(PathQuery::Stat {
        path: path(alloc, "/f")?,
    });
    let cat = Query::At(PathQuery::Cat {
        path: path(alloc, "/f")?,
    });
    let first = calls_of(&rt, alloc, &mut disk, &without_tree)?;
    assert!(rt; first < 400);
    // The two extent blocks.
    assert_eq!(rt; calls_of(&rt, alloc, &mut disk, &stat)?, first + 2);
    // And the blocks of the clusters that are written, of no hole and of no cluster that is not.
    let all = calls_of(&rt, alloc, &mut disk, &cat)?;
    assert_eq!(rt; all, first + 2 + 2 * WRITTEN * BLOCKS_IN_CLUSTER);
    Ok(())
}

#[test]
fn reads_each_inode_on_the_way_twice_at_most(rt: HostRuntime) -> Result<(), Fail> {
    let alloc = rt.alloc();
    let mut disk = volume(&rt, alloc)?;
    let root = Query::At(PathQuery::Stat {
        path: path(alloc, "/")?,
    });
    let dots = Query::At(PathQuery::Stat {
        path: path(alloc, "/./../.")?,
    });
    let at_root = calls_of(&rt, alloc, &mut disk, &root)?;
    assert!(rt; at_root < 400);
    // Each name is looked up in the root, and the inode that it names is judged.
    let at_dots = calls_of(&rt, alloc, &mut disk, &dots)?;
    assert!(rt; at_dots <= at_root + 6);
    Ok(())
}
