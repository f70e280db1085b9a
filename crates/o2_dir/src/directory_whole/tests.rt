// Directories read whole on a disk in memory, one in its dinode and one of two blocks.
ghost use Rattle.std.specs.Prelude.{◌≤◌, ◌+◌, ◌<◌, length};
ghost use Rattle.o2_disk.specs.Device.{SameDevice};
ghost use Rattle.o2_view.specs.Views.{OnlyReads};
ghost use Rattle.o2_view.specs.Geos.{Reaches};

use super::{WholeDirectory, whole_directory};
use crate::testing::{dinode, entry, numbers, put_inline, put_text, record};
use o2_disk::{Disk, How, MemDisk};
use o2_extent::read_inode;
use o2_ondisk::{
    DirEntry, DirTrailer, ExtentListHeader, Signature, write_dinode, write_dir_entry,
    write_dir_trailer, write_extent_list_header, write_extent_rec,
};
use o2_view::{Geo, View, ViewFault};
use std::alloc::Global;
use std::test::Fail;

// Puts an entry of this length with its name into a block.
fn put_entry(block: &mut [u8], at: usize, fields: &DirEntry, name: &[u8])
    requires { at + 12 + length name.now ≤ length block.old }
{
    write_dir_entry(&mut block[at..], fields);
    put_text(block, at + 12, name);
}

// The dinode of a directory in block 9 of two blocks from block 40 on.
fn put_directory(block: &mut [u8])
    requires { 1024 ≤ length block.old }
{
    write_dinode(block, &dinode(9, 0o040755, 2048));
    let header = ExtentListHeader {
        tree_depth: 0,
        count: 50,
        next_free_rec: 1,
    };
    write_extent_list_header(&mut block[0xc0..], &header);
    write_extent_rec(&mut block[0xd0..], &record(0, 1, 40));
}

// A block with the dots and a trailer.
fn put_block(block: &mut [u8])
    requires { 1024 ≤ length block.old }
{
    put_entry(block, 0, &entry(9, 16, 1), b".");
    put_entry(block, 16, &entry(5, 944, 2), b"..");
    let trailer = DirTrailer {
        inode: 0,
        rec_len: 64,
        signature: Signature::DIRTRL1,
        blkno: 40,
        parent_dinode: 9,
    };
    write_dir_trailer(&mut block[960..], &trailer);
}

// What is read of the directory in this block.
#[tactic(auto, using(o2_view::proofs::Shown::showed_before, o2_extent::proofs::Views::still_in, o2_extent::proofs::Views::only_both))]
fn whole_through<D: Disk, const N: usize>(
    alloc: Global,
    view: &mut View<'_, D, N>,
    geo: &Geo,
    inode: u64,
) -> Result<WholeDirectory, ViewFault>
    requires { Reaches geo.now view.old inode }
    ensures { OnlyReads view.old view.new }
{
    let found = read_inode(alloc, view, geo, inode)?;
    let bytes = found.block.as_slice();
    whole_directory(alloc, view, geo, inode, bytes, &found.reading.leaves)
}

// The same on a disk of 160 blocks.
fn whole_on<D: Disk>(alloc: Global, disk: &mut D, inode: u64) -> Result<WholeDirectory, ViewFault>
    requires disk { 320 ≤ (D.state disk.old).sectors }
    requires inode { inode < 160 }
    ensures device { SameDevice (D.state disk.old) (D.state disk.new) }
{
    let mut view = View::<D, 1>::new(alloc, disk, 10, 160)?;
    let found = whole_through(alloc, &mut view, &numbers(), inode);
    let _disk = view.into_disk();
    found
}

// Entries fill the first block of the two, which ends in a trailer.
#[test]
fn reads_what_is_sound(rt: HostRuntime) -> Result<(), Fail> {
    let alloc = rt.alloc();
    let mut disk = MemDisk::new(alloc, 320)?;
    disk.attach(alloc, "disk", How::ReadWrite)?;
    let mut block = [0; 1024];
    put_directory(&mut block);
    disk.write(18, &block)?;
    let mut block = [0; 1024];
    put_block(&mut block);
    disk.write(80, &block)?;
    let whole = whole_on(alloc, &mut disk, 9)?;
    assert_eq!(rt; whole.entries.as_slice().len(), 2);
    assert_eq!(rt; whole.entries.as_slice()[1].inode, 5);
    assert_eq!(rt; whole.blocks.as_slice(), [40, 41].as_slice());
    assert_eq!(rt; whole.faults.as_slice(), [41].as_slice());
    assert!(rt; !whole.has_trailers);
    Ok(())
}

// The inline bytes are one block, which begins with one dot alone.
#[test]
fn reads_inline_bytes(rt: HostRuntime) -> Result<(), Fail> {
    let alloc = rt.alloc();
    let mut disk = MemDisk::new(alloc, 320)?;
    disk.attach(alloc, "disk", How::ReadWrite)?;
    let mut block = [0; 1024];
    put_inline(&mut block, dinode(5, 0o040755, 16), 100);
    put_entry(&mut block, 200, &entry(5, 16, 1), b".");
    disk.write(10, &block)?;
    let whole = whole_on(alloc, &mut disk, 5)?;
    assert_eq!(rt; whole.entries.as_slice().len(), 1);
    assert_eq!(rt; whole.blocks.as_slice(), [5].as_slice());
    assert_eq!(rt; whole.faults.as_slice(), [5].as_slice());
    assert!(rt; !whole.has_trailers);
    Ok(())
}
