// Each call once, on a disk in memory: a global bitmap of two chains, whose last group is short.
ghost use Rattle.std.specs.Prelude.{◌≡◌, ◌≤◌, length};
ghost use Rattle.o2_view.specs.Geos.{HasSizes, HasNumbers, blocks_of};
ghost use Rattle.o2_view.specs.Views.{view_bits, view_blocks};

use crate::{ChainFault, Group, Groups, free_runs, give, take, walk};
use o2_disk::{Disk, How, MemDisk};
use o2_ondisk::{
    ChainListHeader, ChainRec, Dinode, DxSeed, GroupDesc, InodeFlags, RoleData, Signature,
    read_chain_rec, read_dinode, read_group_desc, write_chain_list_header, write_chain_rec,
    write_dinode, write_group_desc,
};
use o2_view::{Check, Geo, Run, Runs, View};
use std::alloc::Global;
use std::test::Fail;

// A volume of 3624 clusters of 4 KiB, with blocks of 512 bytes: a full group of 3584, and one of 40.
fn numbers() -> Geo
    ensures sizes { HasSizes result }
    ensures bits { result.block_bits ≡ 9 }
    ensures numbers { HasNumbers result }
    ensures blocks { blocks_of result ≡ 28992 }
{
    Geo {
        block_bits: 9,
        cluster_bits: 12,
        clusters: 3624,
        slots: 1,
        root: 33,
        sysdir: 34,
        first_group: 8,
        generation: 7,
        compat: 0,
        incompat: 0,
        seed: DxSeed {
            first: 0,
            second: 0,
            third: 0,
        },
    }
}

// The descriptor of a group of the bitmap.
fn group(signature: Signature, chain: u16, bits: u16, free: u16, blkno: u64) -> GroupDesc {
    GroupDesc {
        signature,
        size: 448,
        bits,
        free_bits_count: free,
        chain,
        generation: 7,
        next_group: 0,
        parent_dinode: 40,
        blkno,
    }
}

// Its block, with these bits set among the first eight.
fn group_block(desc: &GroupDesc, first_bits: u8) -> [u8; 512] {
    let mut block = [0; 512];
    write_group_desc(&mut block, desc);
    block[0x40] = first_bits;
    block
}

// A chain list of so many chains, in the bytes of a dinode.
fn put_chains(bytes: &mut [u8], chains: u16)
    requires { 512 ≤ length bytes.old }
{
    let header = ChainListHeader {
        cpg: 3584,
        bpc: 1,
        count: 19,
        next_free_rec: chains,
    };
    write_chain_list_header(&mut bytes[0xc0..], &header);
    write_chain_rec(&mut bytes[0xd0..], &chain(3578, 3584, 8));
    write_chain_rec(&mut bytes[0xe0..], &chain(39, 40, 28672));
}

// The dinode of the bitmap, with so many chains.
fn bitmap(chains: u16) -> [u8; 512] {
    let dinode = Dinode {
        signature: Signature::INODE01,
        blkno: 40,
        fs_generation: 7,
        flags: InodeFlags::VALID,
        role_data: RoleData(0x0e28_0000_0007),
        ..read_dinode(&[0; 192])
    };
    let mut block = [0; 512];
    write_dinode(&mut block, &dinode);
    put_chains(&mut block, chains);
    block
}

fn chain(free: u32, total: u32, blkno: u64) -> ChainRec {
    ChainRec { free, total, blkno }
}

// The groups that the bitmap's walk meets on a disk of the volume.
fn walk_bitmap<D: Disk>(alloc: Global, disk: &mut D) -> Result<Groups, ChainFault>
    requires { 28992 ≤ (D.state disk.old).sectors }
{
    let mut view = View::<D, 1>::new(alloc, disk, 9, 28992)?;
    let before = Runs::from(Vec::new(alloc));
    walk(alloc, &mut view, &numbers(), 40, true, &before)
}

#[test]
fn walks_two_chains(rt: HostRuntime) -> Result<(), Fail> {
    let alloc = rt.alloc();
    let mut disk = MemDisk::new(alloc, 28992)?;
    disk.attach(alloc, "disk", How::ReadWrite)?;
    disk.write(40, &bitmap(2))?;
    let first = group(Signature::GROUP01, 0, 3584, 3578, 8);
    disk.write(8, &group_block(&first, 0x3f))?;
    let last = group(Signature::GROUP01, 1, 40, 39, 28672);
    disk.write(28672, &group_block(&last, 0x01))?;
    let groups = walk_bitmap(alloc, &mut disk)?;
    let found = groups.as_slice();
    let first = Group {
        chain: 0,
        block: 8,
        bits: 3584,
    };
    let last = Group {
        chain: 1,
        block: 28672,
        bits: 40,
    };
    assert_eq!(rt; found.len(), 2);
    assert_eq!(rt; found[0], first);
    assert_eq!(rt; found[1], last);
    Ok(())
}

#[test]
fn tells_a_head_that_is_no_group(rt: HostRuntime) -> Result<(), Fail> {
    let alloc = rt.alloc();
    let mut disk = MemDisk::new(alloc, 28992)?;
    disk.attach(alloc, "disk", How::ReadWrite)?;
    disk.write(40, &bitmap(1))?;
    let other = group(Signature(0x0032_3050_554f_5247), 0, 3584, 3578, 8);
    disk.write(8, &group_block(&other, 0x3f))?;
    let answer = match walk_bitmap(alloc, &mut disk) {
        Ok(_) => None,
        Err(fault) => Some(fault),
    };
    let bad = ChainFault::Bad {
        check: Check::ChainLink,
        block: 40,
    };
    assert_eq!(rt; answer, Some(bad));
    Ok(())
}

// Gives a cluster of the second group back, and takes eight clusters of both.
fn give_and_take<D: Disk, const N: usize>(
    alloc: Global,
    view: &mut View<'_, D, N>,
) -> Result<(), ChainFault>
    requires blocks { view_blocks view.old ≡ 28992 }
    requires bits { view_bits view.old ≡ 9 }
    ensures blocks { view_blocks view.new ≡ view_blocks view.old }
    ensures bits { view_bits view.new ≡ view_bits view.old }
{
    let geo = numbers();
    let given = Run {
        start: 3584,
        clusters: 1,
    };
    let taken = Run {
        start: 3580,
        clusters: 8,
    };
    give(alloc, view, &geo, 40, given)?;
    take(alloc, view, &geo, 40, taken)
}

// How many bits are clear in both groups and in both chains, and how many are set in all; and two bytes of the bits.
fn counts(first: &[u8], last: &[u8], bitmap: &[u8]) -> [u32; 7]
    requires first { length first.now ≡ 512 }
    requires last { length last.now ≡ 512 }
    requires bitmap { length bitmap.now ≡ 512 }
{
    [
        u32::from(read_group_desc(first).free_bits_count),
        u32::from(read_group_desc(last).free_bits_count),
        read_chain_rec(&bitmap[0xd0..]).free,
        read_chain_rec(&bitmap[0xe0..]).free,
        read_dinode(bitmap).role_data.used(),
        u32::from(first[0x40 + 447]),
        u32::from(last[0x40]),
    ]
}

// The same of a disk of the volume, once clusters were given and taken.
fn after_changes<D: Disk>(alloc: Global, disk: &mut D) -> Result<[u32; 7], ChainFault>
    requires { 28992 ≤ (D.state disk.old).sectors }
{
    let mut view = View::<D, 1>::new(alloc, disk, 9, 28992)?;
    give_and_take(alloc, &mut view)?;
    let first = view.block(8)?;
    let last = view.block(28672)?;
    let bitmap = view.block(40)?;
    Ok(counts(first.as_slice(), last.as_slice(), bitmap.as_slice()))
}

#[test]
fn gives_and_takes(rt: HostRuntime) -> Result<(), Fail> {
    let alloc = rt.alloc();
    let mut disk = MemDisk::new(alloc, 28992)?;
    disk.attach(alloc, "disk", How::ReadWrite)?;
    disk.write(40, &bitmap(2))?;
    let first = group(Signature::GROUP01, 0, 3584, 3578, 8);
    disk.write(8, &group_block(&first, 0x3f))?;
    let last = group(Signature::GROUP01, 1, 40, 39, 28672);
    disk.write(28672, &group_block(&last, 0x01))?;
    let found = after_changes(alloc, &mut disk)?;
    assert_eq!(rt; found, [3574, 36, 3574, 36, 14, 0xf0, 0x0f]);
    Ok(())
}

// The free runs of a disk of the volume.
fn free_clusters<D: Disk>(alloc: Global, disk: &mut D) -> Result<Runs, ChainFault>
    requires { 28992 ≤ (D.state disk.old).sectors }
{
    let mut view = View::<D, 1>::new(alloc, disk, 9, 28992)?;
    let before = Runs::from(Vec::new(alloc));
    let geo = numbers();
    let groups = walk(alloc, &mut view, &geo, 40, true, &before)?;
    free_runs(alloc, &mut view, &geo, &groups)
}

#[test]
fn tells_free_runs(rt: HostRuntime) -> Result<(), Fail> {
    let alloc = rt.alloc();
    let mut disk = MemDisk::new(alloc, 28992)?;
    disk.attach(alloc, "disk", How::ReadWrite)?;
    disk.write(40, &bitmap(2))?;
    let first = group(Signature::GROUP01, 0, 3584, 3578, 8);
    disk.write(8, &group_block(&first, 0x3f))?;
    let last = group(Signature::GROUP01, 1, 40, 39, 28672);
    disk.write(28672, &group_block(&last, 0x01))?;
    let runs = free_clusters(alloc, &mut disk)?;
    let found = runs.as_slice();
    let of_first = Run {
        start: 6,
        clusters: 3578,
    };
    let of_last = Run {
        start: 3585,
        clusters: 39,
    };
    assert_eq!(rt; found.len(), 2);
    assert_eq!(rt; found[0], of_first);
    assert_eq!(rt; found[1], of_last);
    Ok(())
}
