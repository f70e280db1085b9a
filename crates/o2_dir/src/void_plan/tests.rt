// Entries made void on a disk in memory, in a block and among inline bytes.
ghost use Rattle.std.specs.Prelude.{◌≡◌, ◌+◌, ◌≤◌, ◌<◌, Contains, length, IfOk};
ghost use Rattle.o2_model.specs.Directories.{directory_entries};
ghost use Rattle.o2_model.specs.Inodes.{is_inline as has_inline};
ghost use Rattle.o2_model.specs.Volume.{Volume};
ghost use Rattle.o2_view.specs.Geos.{Reaches};
ghost use Rattle.o2_view.specs.HomePlans.{PlansHome};
ghost use Rattle.o2_view.specs.Views.{Shows, OnlyReads};

use super::void_entry;
use crate::names::look_up;
use crate::path_step::is_directory_at;
use crate::testing::{dinode, entry, numbers, put_inline, put_text, record};
use crate::{DirFault, Entry};
use o2_disk::{Disk, How, MemDisk};
use o2_extent::{is_inline, look};
use o2_ondisk::{
    DirEntry, ExtentListHeader, read_dinode, write_dinode, write_dir_entry,
    write_extent_list_header, write_extent_rec,
};
use o2_view::{Block, Geo, View};
use std::alloc::Global;
use std::test::Fail;

// Puts an entry of this length with its name into a block.
fn put_entry(block: &mut [u8], at: usize, fields: &DirEntry, name: &[u8])
    requires { at + 12 + length name.now ≤ length block.old }
{
    write_dir_entry(&mut block[at..], fields);
    put_text(block, at + 12, name);
}

// A directory in the dinode of block 5: the dots, and the file `a` in this block.
fn put_inline_directory(block: &mut [u8], file: u64)
    requires { 1024 ≤ length block.old }
{
    put_inline(block, dinode(5, 0o040755, 48), 100);
    put_entry(block, 200, &entry(5, 16, 1), b".");
    put_entry(block, 216, &entry(5, 16, 2), b"..");
    put_entry(block, 232, &entry(file, 16, 1), b"a");
}

// The dinode of the directory in block 9, whose one block is 40.
fn put_directory(block: &mut [u8])
    requires { 1024 ≤ length block.old }
{
    write_dinode(block, &dinode(9, 0o040755, 1024));
    let header = ExtentListHeader {
        tree_depth: 0,
        count: 50,
        next_free_rec: 1,
    };
    write_extent_list_header(&mut block[0xc0..], &header);
    write_extent_rec(&mut block[0xd0..], &record(0, 1, 40));
}

// Its block: the dots, and the files `two` in this block and `three` in block 12.
fn put_directory_block(block: &mut [u8], file: u64)
    requires { 1024 ≤ length block.old }
{
    put_entry(block, 0, &entry(9, 16, 1), b".");
    put_entry(block, 16, &entry(5, 16, 2), b"..");
    put_entry(block, 32, &entry(file, 16, 3), b"two");
    put_entry(block, 48, &entry(12, 976, 5), b"three");
}

// Whether the entries of the directory stand in its dinode.
fn is_inline_at<D: Disk, const N: usize>(
    view: &mut View<'_, D, N>,
    geo: &Geo,
    inode: u64,
) -> Result<bool, DirFault>
    requires { Reaches geo.now view.old inode }
    ensures is { IfOk result (λ is. (v : Volume) → Shows view.old geo.now v → is ≡ has_inline v inode) }
    ensures reads { OnlyReads view.old view.new }
{
    let block = look(view, geo, inode)?;
    Ok(is_inline(&read_dinode(block.as_slice())))
}

// Makes this entry of the directory void. False where it stands in none of the directory's blocks but the dinode.
fn void_found<D: Disk, const N: usize>(
    alloc: Global,
    view: &mut View<'_, D, N>,
    geo: &Geo,
    inode: u64,
    entry: &Entry,
) -> Result<bool, DirFault>
    requires inode { Reaches geo.now view.old inode }
    requires among { (v : Volume) → Shows view.old geo.now v → Contains (directory_entries v inode) entry.now }
    ensures { PlansHome view.old view.new }
{
    let inline = is_inline_at(view, geo, inode)?;
    if entry.block >= view.blocks() {
        return Ok(false);
    }
    if !inline && entry.block == inode {
        return Ok(false);
    }
    void_entry(alloc, view, geo, inode, entry.block, entry.at)?;
    Ok(true)
}

// Makes the first entry of that name void. False where there is no such directory.
fn void_named<D: Disk, const N: usize>(
    alloc: Global,
    view: &mut View<'_, D, N>,
    geo: &Geo,
    inode: u64,
    name: &[u8],
) -> Result<bool, DirFault>
    requires { Reaches geo.now view.old inode }
    ensures { PlansHome view.old view.new }
{
    if !is_directory_at(view, geo, inode)? {
        return Ok(false);
    }
    let entry = look_up(alloc, view, geo, inode, name)?;
    void_found(alloc, view, geo, inode, &entry)
}

// Block `b` of a disk of the volume, once that entry is void. None where it is not made so.
fn block_after<D: Disk>(
    alloc: Global,
    disk: &mut D,
    inode: u64,
    name: &[u8],
    b: u64,
) -> Result<Option<Block>, DirFault>
    requires disk { 320 ≤ (D.state disk.old).sectors }
    requires inode { inode < 160 }
    requires block { b < 160 }
{
    let mut view = View::<D, 1>::new(alloc, disk, 10, 160)?;
    if !void_named(alloc, &mut view, &numbers(), inode, name)? {
        return Ok(None);
    }
    Ok(Some(view.block(b)?))
}

// The block has these bytes.
fn tells(block: Option<Block>, want: &[u8]) -> bool {
    match block {
        Some(block) => block.as_slice() == want,
        None => false,
    }
}

#[test]
fn voids_an_entry_of_a_block(rt: HostRuntime) -> Result<(), Fail> {
    let alloc = rt.alloc();
    let mut disk = MemDisk::new(alloc, 320)?;
    disk.attach(alloc, "disk", How::ReadWrite)?;
    let mut block = [0; 1024];
    put_directory(&mut block);
    disk.write(18, &block)?;
    let mut block = [0; 1024];
    put_directory_block(&mut block, 0x0102_0304_0506_0708);
    disk.write(80, &block)?;
    let after = block_after(alloc, &mut disk, 9, b"two", 40)?;
    put_directory_block(&mut block, 0);
    assert!(rt; tells(after, &block));
    Ok(())
}

#[test]
fn voids_an_inline_entry(rt: HostRuntime) -> Result<(), Fail> {
    let alloc = rt.alloc();
    let mut disk = MemDisk::new(alloc, 320)?;
    disk.attach(alloc, "disk", How::ReadWrite)?;
    let mut block = [0; 1024];
    put_inline_directory(&mut block, 0x0102_0304_0506_0708);
    disk.write(10, &block)?;
    let after = block_after(alloc, &mut disk, 5, b"a", 5)?;
    put_inline_directory(&mut block, 0);
    assert!(rt; tells(after, &block));
    Ok(())
}
