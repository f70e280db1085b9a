// Each call once, on a disk in memory: what of a slot map is read.
ghost use Rattle.std.specs.Prelude.{◌≡◌, ◌≤◌, length};
ghost use Rattle.o2_view.specs.Geos.{HasSizes, HasNumbers, blocks_of};

use crate::{SlotMap, clusters_without_gap, have_no_flags, occupied, slot_map};
use o2_disk::{Disk, How, MemDisk};
use o2_extent::Leaf;
use o2_ondisk::{
    Dinode, DxSeed, ExtentListHeader, ExtentRec, ExtentSize, InodeFlags, Signature, read_dinode,
    write_dinode, write_extent_list_header, write_extent_rec,
};
use o2_view::{Geo, ReadFault, View};
use std::alloc::Global;
use std::test::Fail;

mod emptied;
mod logs;

// The feature of a slot map whose entries have 8 bytes.
const EXTENDED_SLOT_MAP: u32 = 0x100;

// A volume of 40 clusters of 4 KiB, with blocks of 512 bytes and so many slots.
fn numbers(slots: u16, incompat: u32) -> Geo
    requires some { 1 ≤ slots }
    requires few { slots ≤ 255 }
    ensures sizes { HasSizes result }
    ensures bits { result.block_bits ≡ 9 }
    ensures numbers { HasNumbers result }
    ensures blocks { blocks_of result ≡ 320 }
{
    Geo {
        block_bits: 9,
        cluster_bits: 12,
        clusters: 40,
        slots,
        root: 33,
        sysdir: 34,
        first_group: 8,
        generation: 7,
        compat: 0,
        incompat,
        seed: DxSeed {
            first: 0,
            second: 0,
            third: 0,
        },
    }
}

// A dinode in block 40 for a system file of one cluster, without its last part.
fn system_file(flags: InodeFlags) -> Dinode {
    Dinode {
        signature: Signature::INODE01,
        clusters: 1,
        size: 4096,
        mode: 0o100644,
        flags,
        blkno: 40,
        fs_generation: 7,
        ..read_dinode(&[0; 192])
    }
}

// The list of the slot map, in the bytes of its dinode: cluster 6, which begins at block 48.
fn put_map_list(bytes: &mut [u8])
    requires { 512 ≤ length bytes.old }
{
    let header = ExtentListHeader {
        tree_depth: 0,
        count: 19,
        next_free_rec: 1,
    };
    let record = ExtentRec {
        cpos: 0,
        size: ExtentSize(1),
        blkno: 48,
    };
    write_extent_list_header(&mut bytes[0xc0..], &header);
    write_extent_rec(&mut bytes[0xd0..], &record);
}

// The block of its dinode.
fn map_dinode() -> [u8; 512] {
    let mut bytes = [0; 512];
    write_dinode(&mut bytes, &system_file(InodeFlags::VALID));
    put_map_list(&mut bytes);
    bytes
}

// The slot map of a disk of the volume, with so many slots.
fn read_map<D: Disk>(
    alloc: Global,
    disk: &mut D,
    slots: u16,
    incompat: u32,
) -> Result<SlotMap, ReadFault>
    requires disk { 320 ≤ (D.state disk.old).sectors }
    requires some { 1 ≤ slots }
    requires few { slots ≤ 255 }
{
    let mut view = View::<D, 1>::new(alloc, disk, 9, 320)?;
    slot_map(alloc, &mut view, &numbers(slots, incompat), 40)
}

#[test]
fn reads_extended_entries(rt: HostRuntime) -> Result<(), Fail> {
    let alloc = rt.alloc();
    let mut disk = MemDisk::new(alloc, 320)?;
    disk.attach(alloc, "disk", How::ReadWrite)?;
    disk.write(40, &map_dinode())?;
    let mut first = [0; 512];
    // Slot 0 is node 5's, slot 1 is free though it names node 9, and slot 2 is node 256's.
    first[0] = 1;
    first[4] = 5;
    first[12] = 9;
    first[16] = 1;
    first[21] = 1;
    disk.write(48, &first)?;
    let map = read_map(alloc, &mut disk, 3, EXTENDED_SLOT_MAP)?;
    let nodes = map.as_slice();
    assert_eq!(rt; nodes.len(), 3);
    assert_eq!(rt; nodes[0], Some(5));
    assert_eq!(rt; nodes[1], None);
    assert_eq!(rt; nodes[2], Some(256));
    Ok(())
}

#[test]
fn reads_short_entries(rt: HostRuntime) -> Result<(), Fail> {
    let alloc = rt.alloc();
    let mut disk = MemDisk::new(alloc, 320)?;
    disk.attach(alloc, "disk", How::ReadWrite)?;
    disk.write(40, &map_dinode())?;
    let mut first = [0; 512];
    // Slot 0 is node 2's, slot 1 is free, and slot 2 is node 256's.
    first[0] = 2;
    first[2] = 0xff;
    first[3] = 0xff;
    first[5] = 1;
    disk.write(48, &first)?;
    let map = read_map(alloc, &mut disk, 3, 0)?;
    let nodes = map.as_slice();
    assert_eq!(rt; nodes.len(), 3);
    assert_eq!(rt; nodes[0], Some(2));
    assert_eq!(rt; nodes[1], None);
    assert_eq!(rt; nodes[2], Some(256));
    Ok(())
}

#[test]
fn tells_occupied_slots(rt: HostRuntime) -> Result<(), Fail> {
    let nodes = vec![in rt.alloc(); Some(0), None]?;
    let map = SlotMap::from(nodes);
    assert!(rt; occupied(&map, 0));
    assert!(rt; !occupied(&map, 1));
    assert!(rt; !occupied(&map, 2));
    Ok(())
}

// A record of two clusters.
fn leaf(cpos: u32, flags: u8) -> Leaf {
    Leaf {
        cpos,
        clusters: 2,
        block: 48,
        flags,
    }
}

#[test]
fn tells_gaps_and_flags(rt: HostRuntime) -> Result<(), Fail> {
    assert_eq!(rt; clusters_without_gap(&[leaf(0, 0), leaf(2, 1)]), Some(4));
    assert_eq!(rt; clusters_without_gap(&[leaf(0, 0), leaf(3, 0)]), None);
    assert!(rt; have_no_flags(&[leaf(0, 0), leaf(3, 0)]));
    assert!(rt; !have_no_flags(&[leaf(0, 0), leaf(2, 1)]));
    Ok(())
}
