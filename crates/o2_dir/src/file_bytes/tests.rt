// Files on a disk in memory, read once in each place where bytes can be.
ghost use Rattle.std.specs.Prelude.{◌≤◌, ◌<◌, length};
ghost use Rattle.o2_disk.specs.Device.{SameDevice};
ghost use Rattle.o2_view.specs.Views.{OnlyReads};
ghost use Rattle.o2_view.specs.Geos.{Reaches};

use super::read_bytes;
use crate::data_inode::has_bytes;
use crate::testing::{dinode, entry, numbers, put_inline, put_text, record};
use o2_disk::{Disk, How, MemDisk};
use o2_ondisk::{
    ExtentListHeader, write_dinode, write_dir_entry, write_extent_list_header, write_extent_rec,
};
use o2_view::{Bytes, Check, Geo, ReadFault, View};
use std::alloc::Global;
use std::test::Fail;

// The bytes of the inode in this block. None where it is no file or link.
#[tactic(auto, using(o2_view::proofs::Shown::showed_before, o2_extent::proofs::Views::still_in, o2_extent::proofs::Views::only_both))]
fn read_through<D: Disk, const N: usize>(
    alloc: Global,
    view: &mut View<'_, D, N>,
    geo: &Geo,
    inode: u64,
    at: u64,
    len: u32,
) -> Result<Option<Bytes>, ReadFault>
    requires inode { Reaches geo.now view.old inode }
    ensures reads { OnlyReads view.old view.new }
{
    if !has_bytes(view, geo, inode)? {
        return Ok(None);
    }
    let bytes = read_bytes(alloc, view, geo, inode, at, len)?;
    Ok(Some(bytes))
}

// The same of a disk of 160 blocks.
fn read_from<D: Disk>(
    alloc: Global,
    disk: &mut D,
    inode: u64,
    at: u64,
    len: u32,
) -> Result<Option<Bytes>, ReadFault>
    requires disk { 320 ≤ (D.state disk.old).sectors }
    requires inode { inode < 160 }
    ensures device { SameDevice (D.state disk.old) (D.state disk.new) }
{
    let mut view = View::<D, 1>::new(alloc, disk, 10, 160)?;
    let bytes = read_through(alloc, &mut view, &numbers(), inode, at, len);
    let _disk = view.into_disk();
    bytes
}

// The answer is these bytes.
fn tells(answer: Option<Bytes>, want: &[u8]) -> bool {
    match answer {
        Some(bytes) => bytes.as_slice() == want,
        None => false,
    }
}

// Clusters 0 and 2 of the file in block 8 have blocks, those of cluster 0 unwritten. It ends in the second block of cluster 2.
fn put_file(block: &mut [u8])
    requires { 512 ≤ length block.old }
{
    write_dinode(block, &dinode(8, 0o100644, 9316));
    let header = ExtentListHeader {
        tree_depth: 0,
        count: 50,
        next_free_rec: 2,
    };
    write_extent_list_header(&mut block[0xc0..], &header);
    write_extent_rec(&mut block[0xd0..], &record(0, 0x0100_0001, 80));
    write_extent_rec(&mut block[0xe0..], &record(2, 1, 40));
}

#[test]
fn reads_what_is_mapped(rt: HostRuntime) -> Result<(), Fail> {
    let alloc = rt.alloc();
    let mut disk = MemDisk::new(alloc, 320)?;
    disk.attach(alloc, "disk", How::ReadWrite)?;
    let mut file = [0; 1024];
    put_file(&mut file);
    disk.write(16, &file)?;
    disk.write(160, &[0x55; 4096])?;
    disk.write(80, &[0x11; 1024])?;
    disk.write(82, &[0x22; 1024])?;
    let all = read_from(alloc, &mut disk, 8, 0, 20000)?;
    let Some(all) = all else {
        return Err(Fail::from("no file"));
    };
    let found = all.as_slice();
    assert_eq!(rt; found.len(), 9316);
    assert_eq!(rt; found[0], 0);
    assert_eq!(rt; found[4096], 0);
    assert_eq!(rt; found[8191], 0);
    assert_eq!(rt; found[8192], 0x11);
    assert_eq!(rt; found[9215], 0x11);
    assert_eq!(rt; found[9216], 0x22);
    assert_eq!(rt; found[9315], 0x22);
    let part = read_from(alloc, &mut disk, 8, 9214, 4)?;
    assert!(rt; tells(part, &[0x11, 0x11, 0x22, 0x22]));
    let last = read_from(alloc, &mut disk, 8, 9314, 0xffff_ffff)?;
    assert!(rt; tells(last, &[0x22, 0x22]));
    let behind = read_from(alloc, &mut disk, 8, 9316, 0xffff_ffff)?;
    assert!(rt; tells(behind, &[]));
    Ok(())
}

#[test]
fn reads_what_stands_in_the_dinode(rt: HostRuntime) -> Result<(), Fail> {
    let alloc = rt.alloc();
    let mut disk = MemDisk::new(alloc, 320)?;
    disk.attach(alloc, "disk", How::ReadWrite)?;
    let mut file = [0; 1024];
    put_inline(&mut file, dinode(9, 0o100644, 5), 100);
    put_text(&mut file, 0xc8, b"hello");
    disk.write(18, &file)?;
    let mut link = [0; 1024];
    write_dinode(&mut link, &dinode(10, 0o120777, 4));
    put_text(&mut link, 0xc0, b"/etc\0");
    disk.write(20, &link)?;
    let part = read_from(alloc, &mut disk, 9, 1, 3)?;
    assert!(rt; tells(part, b"ell"));
    let text = read_from(alloc, &mut disk, 10, 0, 100)?;
    assert!(rt; tells(text, b"/etc"));
    let nothing = read_from(alloc, &mut disk, 11, 0, 100)?;
    assert!(rt; nothing.is_none());
    Ok(())
}

// A system directory whose one file is that of block 12.
fn put_system_directory(block: &mut [u8])
    requires { 512 ≤ length block.old }
{
    put_inline(block, dinode(6, 0o040755, 48), 100);
    write_dir_entry(&mut block[200..], &entry(6, 16, 1));
    block[212] = b'.';
    write_dir_entry(&mut block[216..], &entry(6, 16, 2));
    block[228] = b'.';
    block[229] = b'.';
    write_dir_entry(&mut block[232..], &entry(12, 16, 1));
    block[244] = b'a';
}

#[test]
fn reads_the_end_of_a_file_of_the_volume(rt: HostRuntime) -> Result<(), Fail> {
    let alloc = rt.alloc();
    let mut disk = MemDisk::new(alloc, 320)?;
    disk.attach(alloc, "disk", How::ReadWrite)?;
    let mut file = [0; 1024];
    write_dinode(&mut file, &dinode(12, 0o100644, 0x8000_0000_0000_0000));
    disk.write(24, &file)?;
    let too_long = match read_from(alloc, &mut disk, 12, 0, 3) {
        Ok(_) => None,
        Err(fault) => Some(fault),
    };
    let bad = ReadFault::Bad {
        check: Check::InodeSize,
        block: 12,
    };
    assert_eq!(rt; too_long, Some(bad));
    let mut directory = [0; 1024];
    put_system_directory(&mut directory);
    disk.write(12, &directory)?;
    let end = read_from(alloc, &mut disk, 12, 0x7fff_ffff_ffff_fffd, 0xffff_ffff)?;
    assert!(rt; tells(end, &[0, 0, 0]));
    Ok(())
}
