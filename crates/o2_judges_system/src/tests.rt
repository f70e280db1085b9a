// SYSFILE on the whole volume, and where a file is missing or named twice.
ghost use Rattle.std.specs.Prelude.{◌≡◌, ◌≤◌};
ghost use Rattle.o2_view.specs.Geos.{HasSizes, HasNumbers, blocks_of};

use crate::sysfile;
use o2_disk::{Disk, How, MemDisk};
use o2_model::{Bytes, Entry, Geo};
use o2_ondisk::DxSeed;
use o2_survey::{SystemNames, system_inodes};
use o2_test_volumes::put_whole_volume;
use o2_view::{View, ViewFault};
use std::alloc::{AllocError, Global};
use std::test::Fail;

// The numbers of the whole volume.
fn numbers() -> Geo
    ensures sizes { HasSizes result }
    ensures bits { result.block_bits ≡ 9 }
    ensures numbers { HasNumbers result }
    ensures blocks { blocks_of result ≡ 128 }
{
    Geo {
        block_bits: 9,
        cluster_bits: 12,
        clusters: 16,
        slots: 1,
        root: 18,
        sysdir: 17,
        first_group: 8,
        generation: 5,
        compat: 0,
        incompat: 0x1550,
        seed: DxSeed {
            first: 1,
            second: 2,
            third: 3,
        },
    }
}

// What each entry of its system directory names, in order, and the type that it tells.
const NAMED: [(&str, u64, u8); 11] = [
    (".", 17, 2),
    ("..", 17, 2),
    ("global_bitmap", 19, 1),
    ("global_inode_alloc", 20, 1),
    ("slot_map", 21, 1),
    ("orphan_dir:0000", 22, 2),
    ("extent_alloc:0000", 23, 1),
    ("inode_alloc:0000", 24, 1),
    ("journal:0000", 25, 1),
    ("local_alloc:0000", 26, 1),
    ("truncate_log:0000", 27, 1),
];

// The blocks on set bits of its one group of inodes.
const ON_BITS: [u64; 17] = [
    17, 18, 19, 20, 21, 22, 23, 24, 25, 26, 27, 28, 29, 30, 31, 32, 33,
];

fn add_entry(
    alloc: Global,
    entries: &mut Vec<Entry>,
    name: &str,
    inode: u64,
    file_type: u8,
) -> Result<(), AllocError> {
    let name = name.as_bytes().to_vec(alloc)?;
    entries.push(Entry {
        inode,
        file_type,
        name: Bytes::from(name),
        block: 17,
        at: 0,
    })?;
    Ok(())
}

fn entries(alloc: Global) -> Result<Vec<Entry>, AllocError> {
    let mut entries = Vec::new(alloc);
    for (name, inode, file_type) in &NAMED {
        add_entry(alloc, &mut entries, name, *inode, *file_type)?;
    }
    Ok(entries)
}

// Where SYSFILE fails on such a disk, whose system directory has these entries.
fn judged<D: Disk>(alloc: Global, disk: &mut D, entries: &[Entry]) -> Result<Vec<u64>, ViewFault>
    requires { 128 ≤ (D.state disk.old).sectors }
{
    let geo = numbers();
    let mut view = View::<D, 1>::new(alloc, disk, 9, 128)?;
    let names = SystemNames::new(alloc, entries)?;
    let inodes = system_inodes(alloc, &mut view, &geo, &names, entries)?;
    let found = sysfile(alloc, &geo, &names, entries, &inodes, &ON_BITS)?;
    Ok(found)
}

#[test]
fn accepts_sound_files(rt: HostRuntime) -> Result<(), Fail> {
    let alloc = rt.alloc();
    let mut disk = MemDisk::new(alloc, 128)?;
    disk.attach(alloc, "disk", How::ReadWrite)?;
    put_whole_volume(&mut disk)?;
    let entries = entries(alloc)?;
    let found = judged(alloc, &mut disk, &entries)?;
    assert_eq!(rt; found.len(), 0);
    Ok(())
}

// The local_alloc is named again, as the file of a slot that there is not.
#[test]
fn tells_bad_entries(rt: HostRuntime) -> Result<(), Fail> {
    let alloc = rt.alloc();
    let mut disk = MemDisk::new(alloc, 128)?;
    disk.attach(alloc, "disk", How::ReadWrite)?;
    put_whole_volume(&mut disk)?;
    let mut entries = entries(alloc)?;
    add_entry(alloc, &mut entries, "local_alloc:0001", 26, 1)?;
    let found = judged(alloc, &mut disk, &entries)?;
    assert_eq!(rt; found.len(), 2);
    assert_eq!(rt; found[0], 26);
    assert_eq!(rt; found[1], 26);
    Ok(())
}

// The truncate log is missing.
#[test]
fn tells_missing_files(rt: HostRuntime) -> Result<(), Fail> {
    let alloc = rt.alloc();
    let mut disk = MemDisk::new(alloc, 128)?;
    disk.attach(alloc, "disk", How::ReadWrite)?;
    put_whole_volume(&mut disk)?;
    let mut entries = entries(alloc)?;
    let _last = entries.pop();
    let found = judged(alloc, &mut disk, &entries)?;
    assert_eq!(rt; found.len(), 1);
    assert_eq!(rt; found[0], 17);
    Ok(())
}
