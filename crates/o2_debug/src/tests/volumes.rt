// Queries about a volume as a whole.
ghost use Rattle.std.specs.Prelude.{◌≤◌};
ghost use Rattle.o2_disk.specs.Device.{IsWritable};

use super::{put_for, volume};
use crate::Query;
use o2_disk::{Disk, Failed, How, MemDisk};
use o2_test_volumes::put_whole_volume;
use std::alloc::Global;
use std::process::Abort;
use std::test::Fail;

// What `stats` says of the whole volume, whose label and identifier are zeros.
const STATS: &str = "Block size: 512
Cluster size: 4096
Clusters: 16
Used: 15
Slots: 1
Label: \nUUID: 00000000-0000-0000-0000-000000000000
Journal 0: 1
";

// The same with a label and an identifier.
const STATS_WITH_NAMES: &str = "Block size: 512
Cluster size: 4096
Clusters: 16
Used: 15
Slots: 1
Label: vol
UUID: 01234567-89ab-cdef-f0e1-d2c3b4a59687
Journal 0: 1
";

// The identifier of these, byte by byte.
const IDENTIFIER: [u8; 16] = [
    0x01, 0x23, 0x45, 0x67, 0x89, 0xab, 0xcd, 0xef, 0xf0, 0xe1, 0xd2, 0xc3, 0xb4, 0xa5, 0x96, 0x87,
];

// Puts a label and an identifier into the bytes of block 2. Behind the NUL that ends the label there is another letter.
fn name_super(block: &mut [u8; 512]) {
    block[0x110] = b'v';
    block[0x111] = b'o';
    block[0x112] = b'l';
    block[0x114] = b'x';
    for (k, byte) in IDENTIFIER.iter().enumerate() {
        block[0x150 + k] = *byte;
    }
}

// Puts them into the superblock.
fn put_names<D: Disk>(disk: &mut D) -> Result<(), Failed>
    requires disk { 128 ≤ (D.state disk.old).sectors }
    requires writable { IsWritable (D.state disk.old).attached }
{
    let mut block = [0; 512];
    disk.read(2, &mut block)?;
    name_super(&mut block);
    disk.write(2, &block)
}

fn volume_with_names(rt: &impl Abort, alloc: Global) -> Result<MemDisk, Fail> {
    let mut disk = MemDisk::new(alloc, 128)?;
    disk.attach(alloc, "made", How::ReadWrite)?;
    assert!(rt; disk.sectors() >= 128);
    put_whole_volume(&mut disk)?;
    put_names(&mut disk)?;
    Ok(disk)
}

#[test]
fn tells_numbers_of_the_volume(rt: HostRuntime) -> Result<(), Fail> {
    let alloc = rt.alloc();
    let mut disk = volume(&rt, alloc)?;
    let out = put_for(&rt, alloc, &mut disk, &Query::Stats)?;
    assert_eq!(rt; out.bytes(), STATS.as_bytes());
    let mut named = volume_with_names(&rt, alloc)?;
    let out = put_for(&rt, alloc, &mut named, &Query::Stats)?;
    assert_eq!(rt; out.bytes(), STATS_WITH_NAMES.as_bytes());
    Ok(())
}

// Puts the entry of slot 0, an extended one, into the slot map: it is valid, and node 7 has the slot.
fn put_entry<D: Disk>(disk: &mut D) -> Result<(), Failed>
    requires disk { 128 ≤ (D.state disk.old).sectors }
    requires writable { IsWritable (D.state disk.old).attached }
{
    let mut block = [0; 512];
    block[0] = 1;
    block[4] = 7;
    disk.write(48, &block)
}

fn volume_in_use(rt: &impl Abort, alloc: Global) -> Result<MemDisk, Fail> {
    let mut disk = MemDisk::new(alloc, 128)?;
    disk.attach(alloc, "made", How::ReadWrite)?;
    assert!(rt; disk.sectors() >= 128);
    put_whole_volume(&mut disk)?;
    put_entry(&mut disk)?;
    Ok(disk)
}

#[test]
fn tells_occupied_slots(rt: HostRuntime) -> Result<(), Fail> {
    let alloc = rt.alloc();
    let mut disk = volume(&rt, alloc)?;
    let out = put_for(&rt, alloc, &mut disk, &Query::SlotMap)?;
    assert_eq!(rt; out.bytes().len(), 0);
    let mut occupied = volume_in_use(&rt, alloc)?;
    let out = put_for(&rt, alloc, &mut occupied, &Query::SlotMap)?;
    assert_eq!(rt; out.bytes(), b"0 7\n".as_slice());
    Ok(())
}
