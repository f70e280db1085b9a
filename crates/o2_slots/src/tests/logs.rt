// A window, and a truncate log.
ghost use Rattle.std.specs.Prelude.{◌≤◌, length};

use super::{numbers, system_file};
use crate::{TruncateRecords, Window, local_alloc, truncate_log};
use o2_disk::{Disk, How, MemDisk};
use o2_ondisk::{
    Dinode, InodeFlags, LocalAllocHeader, RoleData, TruncateLogHeader, TruncateRec, write_dinode,
    write_local_alloc_header, write_truncate_log_header, write_truncate_rec,
};
use o2_view::{ReadFault, Run, View};
use std::alloc::Global;
use std::test::Fail;

// A window of 20 clusters from cluster 16 on, in the bytes of its dinode. Four are in use.
fn put_window(bytes: &mut [u8])
    requires { 512 ≤ length bytes.old }
{
    let header = LocalAllocHeader {
        bm_off: 16,
        size: 4,
    };
    write_local_alloc_header(&mut bytes[0xc0..], &header);
    bytes[0xd0] = 0x07;
    bytes[0xd2] = 0x08;
    bytes[0xd4] = 0xff;
}

// The block of its dinode.
fn window_dinode() -> [u8; 512] {
    let dinode = Dinode {
        role_data: RoleData(0x14_0000_0004),
        ..system_file(InodeFlags::LOCAL_ALLOC)
    };
    let mut bytes = [0; 512];
    write_dinode(&mut bytes, &dinode);
    put_window(&mut bytes);
    bytes
}

// The window of a disk of the volume.
fn read_window<D: Disk>(alloc: Global, disk: &mut D) -> Result<Window, ReadFault>
    requires { 320 ≤ (D.state disk.old).sectors }
{
    let mut view = View::<D, 1>::new(alloc, disk, 9, 320)?;
    local_alloc(alloc, &mut view, &numbers(1, 0), 40)
}

#[test]
fn reads_a_window(rt: HostRuntime) -> Result<(), Fail> {
    let alloc = rt.alloc();
    let mut disk = MemDisk::new(alloc, 320)?;
    disk.attach(alloc, "disk", How::ReadWrite)?;
    disk.write(40, &window_dinode())?;
    let window = read_window(alloc, &mut disk)?;
    assert_eq!(rt; window.start, 16);
    assert_eq!(rt; window.total, 20);
    assert_eq!(rt; window.bits.as_slice(), [0x07, 0, 0x08, 0].as_slice());
    Ok(())
}

// The truncate log of a disk of the volume.
fn read_log<D: Disk>(alloc: Global, disk: &mut D) -> Result<TruncateRecords, ReadFault>
    requires { 320 ≤ (D.state disk.old).sectors }
{
    let mut view = View::<D, 1>::new(alloc, disk, 9, 320)?;
    truncate_log(alloc, &mut view, &numbers(1, 0), 40)
}

fn to_free(start: u32, clusters: u32) -> TruncateRec {
    TruncateRec { start, clusters }
}

// A truncate log of three records, two of which are in use, in the bytes of its dinode.
fn put_log(bytes: &mut [u8])
    requires { 512 ≤ length bytes.old }
{
    let header = TruncateLogHeader { count: 39, used: 2 };
    write_truncate_log_header(&mut bytes[0xc0..], &header);
    write_truncate_rec(&mut bytes[0xc8..], &to_free(0, 5));
    write_truncate_rec(&mut bytes[0xd0..], &to_free(12, 3));
    write_truncate_rec(&mut bytes[0xd8..], &to_free(30, 1));
}

// The block of its dinode.
fn log_dinode() -> [u8; 512] {
    let mut bytes = [0; 512];
    write_dinode(&mut bytes, &system_file(InodeFlags::DEALLOC));
    put_log(&mut bytes);
    bytes
}

#[test]
fn reads_a_truncate_log(rt: HostRuntime) -> Result<(), Fail> {
    let alloc = rt.alloc();
    let mut disk = MemDisk::new(alloc, 320)?;
    disk.attach(alloc, "disk", How::ReadWrite)?;
    disk.write(40, &log_dinode())?;
    let log = read_log(alloc, &mut disk)?;
    let runs = log.as_slice();
    let void = Run {
        start: 0,
        clusters: 5,
    };
    let later = Run {
        start: 12,
        clusters: 3,
    };
    assert_eq!(rt; runs.len(), 2);
    assert_eq!(rt; runs[0], void);
    assert_eq!(rt; runs[1], later);
    Ok(())
}
