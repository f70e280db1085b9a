// A file of one cluster, as a slot map and as a journal.
ghost use Rattle.std.specs.Prelude.{◌≡◌, ◌≤◌, length};
ghost use Rattle.o2_view.specs.Geos.{HasSizes, HasNumbers, blocks_of};

use crate::{is_sound_journal, is_sound_slot_map};
use o2_disk::{Disk, How, MemDisk};
use o2_model::Geo;
use o2_ondisk::{
    Dinode, DxSeed, ExtentListHeader, ExtentRec, ExtentSize, JournalSuper, Signature, read_dinode,
    read_journal_super, write_dinode, write_extent_list_header, write_extent_rec,
    write_journal_super,
};
use o2_view::{View, ViewFault};
use std::alloc::Global;
use std::test::Fail;

// A volume of 40 clusters of 4 KiB, with blocks of 512 bytes and two slots.
fn numbers() -> Geo
    ensures sizes { HasSizes result }
    ensures bits { result.block_bits ≡ 9 }
    ensures numbers { HasNumbers result }
    ensures blocks { blocks_of result ≡ 320 }
{
    Geo {
        block_bits: 9,
        cluster_bits: 12,
        clusters: 40,
        slots: 2,
        root: 33,
        sysdir: 34,
        first_group: 8,
        generation: 7,
        compat: 0,
        incompat: 0,
        seed: DxSeed {
            first: 0,
            second: 0,
            third: 0,
        },
    }
}

// The list of the file, in the bytes of its dinode: cluster 6, which begins at block 48.
fn put_list(bytes: &mut [u8])
    requires { 512 ≤ length bytes.old }
{
    let header = ExtentListHeader {
        tree_depth: 0,
        count: 19,
        next_free_rec: 1,
    };
    let record = ExtentRec {
        cpos: 0,
        size: ExtentSize(1),
        blkno: 48,
    };
    write_extent_list_header(&mut bytes[0xc0..], &header);
    write_extent_rec(&mut bytes[0xd0..], &record);
}

// The dinode of the file in block 40.
fn file() -> [u8; 512] {
    let dinode = Dinode {
        signature: Signature::INODE01,
        clusters: 1,
        size: 4096,
        mode: 0o100644,
        blkno: 40,
        fs_generation: 7,
        ..read_dinode(&[0; 192])
    };
    let mut bytes = [0; 512];
    write_dinode(&mut bytes, &dinode);
    put_list(&mut bytes);
    bytes
}

// The superblock of a log of so many blocks.
fn superblock(maxlen: u32) -> [u8; 512] {
    let header = JournalSuper {
        magic: 0xc03b_3998,
        blocktype: 4,
        blocksize: 512,
        maxlen,
        first: 1,
        ..read_journal_super(&[0; 512])
    };
    let mut bytes = [0; 512];
    write_journal_super(&mut bytes, &header);
    bytes
}

// Whether the file is a sound slot map.
fn judge_map<D: Disk>(alloc: Global, disk: &mut D) -> Result<bool, ViewFault>
    requires { 320 ≤ (D.state disk.old).sectors }
{
    let mut view = View::<D, 1>::new(alloc, disk, 9, 320)?;
    is_sound_slot_map(alloc, &mut view, &numbers(), 40, &file())
}

// Whether it is a sound journal.
fn judge_journal<D: Disk>(alloc: Global, disk: &mut D) -> Result<bool, ViewFault>
    requires { 320 ≤ (D.state disk.old).sectors }
{
    let mut view = View::<D, 1>::new(alloc, disk, 9, 320)?;
    is_sound_journal(alloc, &mut view, &numbers(), 40, &file())
}

#[test]
fn judges_a_slot_map(rt: HostRuntime) -> Result<(), Fail> {
    let alloc = rt.alloc();
    let mut disk = MemDisk::new(alloc, 320)?;
    disk.attach(alloc, "disk", How::ReadWrite)?;
    assert!(rt; judge_map(alloc, &mut disk)?);
    Ok(())
}

#[test]
fn judges_a_journal(rt: HostRuntime) -> Result<(), Fail> {
    let alloc = rt.alloc();
    let mut disk = MemDisk::new(alloc, 320)?;
    disk.attach(alloc, "disk", How::ReadWrite)?;
    // Its cluster has 8 blocks.
    disk.write(48, &superblock(8))?;
    assert!(rt; judge_journal(alloc, &mut disk)?);
    Ok(())
}

#[test]
fn refuses_a_log_that_is_too_long(rt: HostRuntime) -> Result<(), Fail> {
    let alloc = rt.alloc();
    let mut disk = MemDisk::new(alloc, 320)?;
    disk.attach(alloc, "disk", How::ReadWrite)?;
    disk.write(48, &superblock(9))?;
    assert!(rt; !judge_journal(alloc, &mut disk)?);
    Ok(())
}
