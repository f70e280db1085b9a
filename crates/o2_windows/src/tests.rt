// Both calls, on a disk in memory with the local allocs of two slots and one truncate log.
ghost use Rattle.std.specs.Prelude.{◌≡◌, ◌≤◌, length};
ghost use Rattle.o2_view.specs.Geos.{HasSizes, HasNumbers, blocks_of};

use crate::{TruncateLogRow, WindowRow, truncate_logs, windows};
use o2_disk::{Disk, How, MemDisk};
use o2_model::{Bytes, Entry, Geo};
use o2_ondisk::{
    Dinode, DxSeed, InodeFlags, LocalAllocHeader, RoleData, Signature, TruncateLogHeader,
    TruncateRec, read_dinode, write_dinode, write_local_alloc_header, write_truncate_log_header,
    write_truncate_rec,
};
use o2_survey::{SystemNames, system_inodes};
use o2_tally::put;
use o2_view::{Run, View, ViewFault};
use std::alloc::{AllocError, Global};
use std::test::Fail;

// A volume of 40 clusters of 4 KiB and two slots, with blocks of 512 bytes.
fn numbers() -> Geo
    ensures sizes { HasSizes result }
    ensures bits { result.block_bits ≡ 9 }
    ensures numbers { HasNumbers result }
    ensures blocks { blocks_of result ≡ 320 }
{
    Geo {
        block_bits: 9,
        cluster_bits: 12,
        clusters: 40,
        slots: 2,
        root: 33,
        sysdir: 34,
        first_group: 8,
        generation: 7,
        compat: 0,
        incompat: 0,
        seed: DxSeed {
            first: 0,
            second: 0,
            third: 0,
        },
    }
}

// What the entries of the system directory name.
const NAMED: [(&str, u64); 3] = [
    ("truncate_log:0001", 42),
    ("local_alloc:0001", 41),
    ("local_alloc:0000", 40),
];

// A live entry of that directory.
fn entry(alloc: Global, name: &str, inode: u64) -> Result<Entry, AllocError> {
    let name = name.as_bytes().to_vec(alloc)?;
    Ok(Entry {
        inode,
        file_type: 1,
        name: Bytes::from(name),
        block: 34,
        at: 0,
    })
}

// Its entries.
fn system_entries(alloc: Global) -> Result<Vec<Entry>, ViewFault> {
    let mut entries = Vec::new(alloc);
    for (name, inode) in &NAMED {
        let entry = entry(alloc, name, *inode)?;
        put(&mut entries, entry)?;
    }
    Ok(entries)
}

// A dinode in that block, with so many bits set of so many.
fn dinode(blkno: u64, flags: InodeFlags, used: u32, total: u32) -> [u8; 512] {
    let dinode = Dinode {
        signature: Signature::INODE01,
        blkno,
        fs_generation: 7,
        flags,
        role_data: RoleData(0x1_0000_0000 * u64::from(total) + u64::from(used)),
        ..read_dinode(&[0; 192])
    };
    let mut block = [0; 512];
    write_dinode(&mut block, &dinode);
    block
}

// A window of 20 clusters from cluster 16 on in the bytes of its dinode, with bits 0 to 2 and 19 set.
fn put_window(bytes: &mut [u8])
    requires { 512 ≤ length bytes.old }
{
    let header = LocalAllocHeader {
        bm_off: 16,
        size: 4,
    };
    write_local_alloc_header(&mut bytes[0xc0..], &header);
    bytes[0xd0] = 0x07;
    bytes[0xd2] = 0x08;
    bytes[0xd4] = 0xff;
}

fn window(blkno: u64, used: u32) -> [u8; 512] {
    let mut bytes = dinode(blkno, InodeFlags::LOCAL_ALLOC, used, 20);
    put_window(&mut bytes);
    bytes
}

// A truncate log of which two records are in use, in the bytes of its dinode.
fn put_log(bytes: &mut [u8])
    requires { 512 ≤ length bytes.old }
{
    let header = TruncateLogHeader { count: 39, used: 2 };
    let void = TruncateRec {
        start: 0,
        clusters: 5,
    };
    let record = TruncateRec {
        start: 12,
        clusters: 3,
    };
    write_truncate_log_header(&mut bytes[0xc0..], &header);
    write_truncate_rec(&mut bytes[0xc8..], &void);
    write_truncate_rec(&mut bytes[0xd0..], &record);
    write_truncate_rec(&mut bytes[0xd8..], &record);
}

fn log() -> [u8; 512] {
    let mut bytes = dinode(42, InodeFlags::DEALLOC, 0, 0);
    put_log(&mut bytes);
    bytes
}

// The windows of a disk of the volume.
fn windows_of<D: Disk>(alloc: Global, disk: &mut D) -> Result<Vec<WindowRow>, ViewFault>
    requires { 320 ≤ (D.state disk.old).sectors }
{
    let mut view = View::<D, 1>::new(alloc, disk, 9, 320)?;
    let entries = system_entries(alloc)?;
    let names = SystemNames::new(alloc, &entries)?;
    let inodes = system_inodes(alloc, &mut view, &numbers(), &names, &entries)?;
    windows(alloc, &mut view, &numbers(), &names, &inodes)
}

// The window of slot 1 says that three clusters are in use.
#[test]
fn tells_windows(rt: HostRuntime) -> Result<(), Fail> {
    let alloc = rt.alloc();
    let mut disk = MemDisk::new(alloc, 320)?;
    disk.attach(alloc, "disk", How::ReadWrite)?;
    disk.write(40, &window(40, 4))?;
    disk.write(41, &window(41, 3))?;
    let rows = windows_of(alloc, &mut disk)?;
    assert_eq!(rt; rows.len(), 2);
    assert_eq!(rt; (rows[0].slot, rows[0].inode), (0, 40));
    assert!(rt; rows[0].is_sound_alone);
    let clusters = rows[0].clusters.as_slice();
    assert_eq!(rt; clusters.len(), 16);
    assert_eq!(rt; clusters[0], 19);
    assert_eq!(rt; clusters[15], 34);
    assert_eq!(rt; (rows[1].slot, rows[1].inode), (1, 41));
    assert!(rt; !rows[1].is_sound_alone);
    Ok(())
}

// The truncate logs of a disk of the volume.
fn logs_of<D: Disk>(alloc: Global, disk: &mut D) -> Result<Vec<TruncateLogRow>, ViewFault>
    requires { 320 ≤ (D.state disk.old).sectors }
{
    let mut view = View::<D, 1>::new(alloc, disk, 9, 320)?;
    let entries = system_entries(alloc)?;
    let names = SystemNames::new(alloc, &entries)?;
    truncate_logs(alloc, &mut view, &numbers(), &names)
}

#[test]
fn tells_truncate_logs(rt: HostRuntime) -> Result<(), Fail> {
    let alloc = rt.alloc();
    let mut disk = MemDisk::new(alloc, 320)?;
    disk.attach(alloc, "disk", How::ReadWrite)?;
    disk.write(42, &log())?;
    let rows = logs_of(alloc, &mut disk)?;
    assert_eq!(rt; rows.len(), 1);
    assert_eq!(rt; (rows[0].slot, rows[0].inode), (1, 42));
    assert!(rt; rows[0].has_sound_header);
    let runs = rows[0].records.as_slice();
    let record = Run {
        start: 12,
        clusters: 3,
    };
    assert_eq!(rt; runs.len(), 2);
    assert_eq!(rt; runs[1], record);
    Ok(())
}
