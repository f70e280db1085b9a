// A volume as other programs leave one: with all features of the profile, an unwritten record, an index, and a journal with a
// history.
ghost use Rattle.std.specs.Prelude.{◌≡◌, ◌+◌, ◌≤◌, length};
ghost use Rattle.o2_disk.specs.Device.{SameDevice, IsWritable};

use crate::run;
use o2_disk::{Disk, How, MemDisk, MemSink};
use o2_test_volumes::put_whole_volume;
use std::alloc::Global;
use std::process::Abort;
use std::test::Fail;

// Puts bytes into a block of 512 bytes.
fn put<D: Disk>(disk: &mut D, block: u64, at: usize, bytes: &[u8]) -> Result<(), Fail>
    requires inside { block + 1 ≤ (D.state disk.old).sectors }
    requires within { at + length bytes.now ≤ 512 }
    requires writable { IsWritable (D.state disk.old).attached }
    ensures device { SameDevice (D.state disk.old) (D.state disk.new) }
{
    let mut sector = [0; 512];
    disk.read(block, &mut sector)?;
    sector[at..at + bytes.len()].copy_from_slice(bytes);
    Ok(disk.write(block, &sector)?)
}

// Puts a copy of one block into another.
fn copy<D: Disk>(disk: &mut D, from: u64, to: u64) -> Result<(), Fail>
    requires inside { from + 1 ≤ (D.state disk.old).sectors }
    requires within { to + 1 ≤ (D.state disk.old).sectors }
    requires writable { IsWritable (D.state disk.old).attached }
    ensures device { SameDevice (D.state disk.old) (D.state disk.new) }
{
    let mut sector = [0; 512];
    disk.read(from, &mut sector)?;
    Ok(disk.write(to, &sector)?)
}

// The whole volume with the features sparse, unwritten, inline data, extended attributes, indexed directories, refcount,
// discontiguous groups, extended slot map, append-dio and backup superblocks. The last cluster of the file `f` (29) is not written,
// and the journal (56) holds what is left of transaction 8.
fn foreign_volume(rt: &impl Abort, alloc: Global, sectors: u64) -> Result<MemDisk, Fail> {
    let mut disk = MemDisk::new(alloc, sectors)?;
    disk.attach(alloc, "made", How::ReadWrite)?;
    assert!(rt; disk.sectors() >= 128);
    put_whole_volume(&mut disk)?;
    put(&mut disk, 2, 0xdc, &[0x01])?;
    put(&mut disk, 2, 0xe0, &[0x50, 0xb7, 0, 0, 0x01])?;
    put(&mut disk, 41, 0x57, &[0x01])?;
    put(
        &mut disk,
        57,
        0,
        &[0xc0, 0x3b, 0x39, 0x98, 0, 0, 0, 1, 0, 0, 0, 8],
    )?;
    put(
        &mut disk,
        59,
        0,
        &[0xc0, 0x3b, 0x39, 0x98, 0, 0, 0, 2, 0, 0, 0, 8],
    )?;
    Ok(disk)
}

// The status that the words give, and the text.
fn said(alloc: Global, disk: &mut MemDisk, words: &[&str]) -> Result<(u8, MemSink), Fail> {
    let mut line = Vec::new(alloc);
    for word in words {
        line.push(String::from_str(alloc, word)?)?;
    }
    let mut other = MemDisk::new(alloc, 0)?;
    let mut out = MemSink::new(alloc);
    let done = run(alloc, &line, disk, &mut other, &mut out, 0, &[7; 24]);
    Ok((done.status, out))
}

#[test]
fn finds_it_consistent_and_answers(rt: HostRuntime) -> Result<(), Fail> {
    let alloc = rt.alloc();
    let mut disk = foreign_volume(&rt, alloc, 128)?;
    let (status, out) = said(alloc, &mut disk, &["fsck", "-fn", "disk"])?;
    assert_eq!(rt; out.bytes(), b"fsck: volume is consistent\n".as_slice());
    assert_eq!(rt; status, 0);
    let (_, out) = said(alloc, &mut disk, &["debugfs", "-R", "ls /d", "disk"])?;
    assert_eq!(rt; out.bytes(), b"28 2 .\n18 2 ..\n29 1 h\n".as_slice());
    let (_, out) = said(alloc, &mut disk, &["debugfs", "-R", "stat /f", "disk"])?;
    assert!(rt;
        out.bytes()
            .ends_with(b"\nExtent: 0 1 80 0\nExtent: 2 1 104 1\n")
    );
    let (_, out) = said(alloc, &mut disk, &["debugfs", "-R", "cat /b", "disk"])?;
    assert_eq!(rt; out.bytes(), b"hello".as_slice());
    Ok(())
}

// Metadata checksums are outside the profile.
#[test]
fn refuses_checksums(rt: HostRuntime) -> Result<(), Fail> {
    let alloc = rt.alloc();
    let mut disk = foreign_volume(&rt, alloc, 128)?;
    disk.attach(alloc, "made", How::ReadWrite)?;
    assert!(rt; disk.sectors() >= 128);
    put(&mut disk, 2, 0xe1, &[0xbf])?;
    let (status, out) = said(alloc, &mut disk, &["fsck", "-fn", "disk"])?;
    assert_eq!(rt;
        out.bytes(),
        b"fsck: unsupported: metaecc block 2\n".as_slice()
    );
    assert_eq!(rt; status, 4);
    Ok(())
}

// So are extended attributes that an inode has. Inode 2080 stands on bit 8 of a group of its own at block 2072.
#[test]
fn refuses_attributes(rt: HostRuntime) -> Result<(), Fail> {
    let alloc = rt.alloc();
    let mut disk = foreign_volume(&rt, alloc, 2096)?;
    disk.attach(alloc, "made", How::ReadWrite)?;
    assert!(rt; disk.sectors() >= 2096);
    put(&mut disk, 2, 0x14, &[0x06, 0x01])?;
    put(&mut disk, 24, 0xc6, &[1])?;
    put(&mut disk, 24, 0xd8, &[0x18, 0x08])?;
    copy(&mut disk, 40, 2072)?;
    put(&mut disk, 2072, 0x0a, &[16])?;
    put(&mut disk, 2072, 0x20, &[24])?;
    put(&mut disk, 2072, 0x28, &[0x18, 0x08])?;
    put(&mut disk, 2072, 0x40, &[0x01, 0x01])?;
    copy(&mut disk, 30, 2080)?;
    put(&mut disk, 2080, 0x0e, &[8])?;
    put(&mut disk, 2080, 0x50, &[0x20, 0x08])?;
    put(&mut disk, 2080, 0x76, &[0x12])?;
    let (status, out) = said(alloc, &mut disk, &["fsck", "-fn", "disk"])?;
    assert_eq!(rt;
        out.bytes(),
        b"fsck: unsupported: attributes block 2080\n".as_slice()
    );
    assert_eq!(rt; status, 4);
    Ok(())
}
