// Two journals and a slot map on a disk in memory, each in one cluster.
ghost use Rattle.std.specs.Prelude.{◌≡◌, ◌≤◌, length};
ghost use Rattle.o2_view.specs.Geos.{HasSizes, HasNumbers, blocks_of};

use crate::journals::bad_journals;
use crate::slot_map::bad_slot_map;
use o2_disk::{Disk, How, MemDisk};
use o2_model::{Bytes, Entry, Geo};
use o2_ondisk::{
    Dinode, DxSeed, ExtentListHeader, ExtentRec, ExtentSize, JournalSuper, Signature, read_dinode,
    read_journal_super, write_dinode, write_extent_list_header, write_extent_rec,
    write_journal_super,
};
use o2_survey::{SystemNames, system_inodes};
use o2_tally::put;
use o2_view::{View, ViewFault};
use std::alloc::{AllocError, Global};
use std::test::Fail;

// A volume of 40 clusters of 4 KiB, with blocks of 512 bytes and two slots.
fn numbers() -> Geo
    ensures sizes { HasSizes result }
    ensures bits { result.block_bits ≡ 9 }
    ensures numbers { HasNumbers result }
    ensures blocks { blocks_of result ≡ 320 }
{
    Geo {
        block_bits: 9,
        cluster_bits: 12,
        clusters: 40,
        slots: 2,
        root: 33,
        sysdir: 34,
        first_group: 8,
        generation: 7,
        compat: 0,
        incompat: 0,
        seed: DxSeed {
            first: 0,
            second: 0,
            third: 0,
        },
    }
}

// What each entry of the system directory names, in order.
const NAMED: [(&str, u64); 4] = [
    ("journal:0001", 41),
    ("heartbeat", 43),
    ("slot_map", 42),
    ("journal:0000", 40),
];

// A live entry of that directory.
fn entry(alloc: Global, name: &str, inode: u64) -> Result<Entry, AllocError> {
    let name = name.as_bytes().to_vec(alloc)?;
    Ok(Entry {
        inode,
        file_type: 1,
        name: Bytes::from(name),
        block: 34,
        at: 0,
    })
}

// Its entries.
fn system_entries(alloc: Global) -> Result<Vec<Entry>, ViewFault> {
    let mut entries = Vec::new(alloc);
    for (name, inode) in &NAMED {
        let entry = entry(alloc, name, *inode)?;
        put(&mut entries, entry)?;
    }
    Ok(entries)
}

// Its names.
fn system_names(alloc: Global) -> Result<SystemNames, ViewFault> {
    let entries = system_entries(alloc)?;
    let names = SystemNames::new(alloc, &entries)?;
    Ok(names)
}

// The list of a file of one cluster, in the bytes of its dinode.
fn put_list(bytes: &mut [u8], first: u64)
    requires { 512 ≤ length bytes.old }
{
    let header = ExtentListHeader {
        tree_depth: 0,
        count: 19,
        next_free_rec: 1,
    };
    let record = ExtentRec {
        cpos: 0,
        size: ExtentSize(1),
        blkno: first,
    };
    write_extent_list_header(&mut bytes[0xc0..], &header);
    write_extent_rec(&mut bytes[0xd0..], &record);
}

// The dinode in that block, of a file whose cluster begins at block `first`.
fn file(blkno: u64, first: u64) -> [u8; 512] {
    let dinode = Dinode {
        signature: Signature::INODE01,
        clusters: 1,
        size: 4096,
        mode: 0o100644,
        blkno,
        fs_generation: 7,
        ..read_dinode(&[0; 192])
    };
    let mut bytes = [0; 512];
    write_dinode(&mut bytes, &dinode);
    put_list(&mut bytes, first);
    bytes
}

// The superblock of a log of so many blocks.
fn superblock(maxlen: u32) -> [u8; 512] {
    let header = JournalSuper {
        magic: 0xc03b_3998,
        blocktype: 4,
        blocksize: 512,
        maxlen,
        first: 1,
        ..read_journal_super(&[0; 512])
    };
    let mut bytes = [0; 512];
    write_journal_super(&mut bytes, &header);
    bytes
}

// The bad journals of a disk of the volume.
fn journals_on<D: Disk>(alloc: Global, disk: &mut D) -> Result<Vec<u64>, ViewFault>
    requires { 320 ≤ (D.state disk.old).sectors }
{
    let mut view = View::<D, 1>::new(alloc, disk, 9, 320)?;
    let names = system_names(alloc)?;
    let entries = system_entries(alloc)?;
    let inodes = system_inodes(alloc, &mut view, &numbers(), &names, &entries)?;
    bad_journals(alloc, &mut view, &numbers(), &names, &inodes)
}

// Its slot map, where it is bad.
fn slot_map_on<D: Disk>(alloc: Global, disk: &mut D) -> Result<Option<u64>, ViewFault>
    requires { 320 ≤ (D.state disk.old).sectors }
{
    let mut view = View::<D, 1>::new(alloc, disk, 9, 320)?;
    let names = system_names(alloc)?;
    let entries = system_entries(alloc)?;
    let inodes = system_inodes(alloc, &mut view, &numbers(), &names, &entries)?;
    bad_slot_map(alloc, &mut view, &numbers(), &names, &inodes)
}

// Each cluster has 8 blocks, so a log of 9 is too long.
#[test]
fn tells_the_journal_with_a_log_that_is_too_long(rt: HostRuntime) -> Result<(), Fail> {
    let alloc = rt.alloc();
    let mut disk = MemDisk::new(alloc, 320)?;
    disk.attach(alloc, "disk", How::ReadWrite)?;
    disk.write(40, &file(40, 48))?;
    disk.write(48, &superblock(8))?;
    disk.write(41, &file(41, 56))?;
    disk.write(56, &superblock(9))?;
    let found = journals_on(alloc, &mut disk)?;
    assert_eq!(rt; found.len(), 1);
    assert_eq!(rt; found[0], 41);
    Ok(())
}

#[test]
fn accepts_a_slot_map_of_one_cluster(rt: HostRuntime) -> Result<(), Fail> {
    let alloc = rt.alloc();
    let mut disk = MemDisk::new(alloc, 320)?;
    disk.attach(alloc, "disk", How::ReadWrite)?;
    disk.write(42, &file(42, 64))?;
    assert_eq!(rt; slot_map_on(alloc, &mut disk)?, None);
    Ok(())
}

#[test]
fn tells_a_slot_map_without_clusters(rt: HostRuntime) -> Result<(), Fail> {
    let alloc = rt.alloc();
    let mut disk = MemDisk::new(alloc, 320)?;
    disk.attach(alloc, "disk", How::ReadWrite)?;
    assert_eq!(rt; slot_map_on(alloc, &mut disk)?, Some(42));
    Ok(())
}
