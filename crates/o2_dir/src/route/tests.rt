// Directories on a disk in memory, one in its dinode and one in a block.
ghost use Rattle.std.specs.Prelude.{◌≤◌, ◌+◌, ◌<◌, length};
ghost use Rattle.o2_disk.specs.Device.{SameDevice, IsWritable};
ghost use Rattle.o2_view.specs.Views.{OnlyReads};
ghost use Rattle.o2_view.specs.Geos.{LiesIn, Reaches};

use super::path;
use crate::directory::entries;
use crate::names::{look_up, system_file};
use crate::path_step::is_directory_at;
use crate::testing::{dinode, entry, numbers, put_inline, put_text, record};
use crate::{DirFault, Entries, Entry, PathFault};
use o2_disk::{Disk, How, MemDisk};
use o2_ondisk::{
    DirEntry, ExtentListHeader, write_dinode, write_dir_entry, write_extent_list_header,
    write_extent_rec,
};
use o2_view::{Geo, View};
use std::alloc::Global;
use std::test::Fail;

// Puts an entry of this length with its name into a block.
fn put_entry(block: &mut [u8], at: usize, fields: &DirEntry, name: &[u8])
    requires { at + 12 + length name.now ≤ length block.old }
{
    write_dir_entry(&mut block[at..], fields);
    put_text(block, at + 12, name);
}

// The root: the dots, the file `a` in block 8, and the directory `d` in block 9.
fn put_root(block: &mut [u8])
    requires { 1024 ≤ length block.old }
{
    put_inline(block, dinode(5, 0o040755, 64), 100);
    put_entry(block, 200, &entry(5, 16, 1), b".");
    put_entry(block, 216, &entry(5, 16, 2), b"..");
    put_entry(block, 232, &entry(8, 16, 1), b"a");
    put_entry(block, 248, &entry(9, 16, 1), b"d");
}

// The system directory: the dots, and `global_bitmap` in block 12.
fn put_system_directory(block: &mut [u8])
    requires { 1024 ≤ length block.old }
{
    put_inline(block, dinode(6, 0o040755, 60), 100);
    put_entry(block, 200, &entry(6, 16, 1), b".");
    put_entry(block, 216, &entry(6, 16, 2), b"..");
    put_entry(block, 232, &entry(12, 28, 13), b"global_bitmap");
}

// The dinode of the directory `d`, whose one block is 40.
fn put_directory(block: &mut [u8])
    requires { 1024 ≤ length block.old }
{
    write_dinode(block, &dinode(9, 0o040755, 1024));
    let header = ExtentListHeader {
        tree_depth: 0,
        count: 50,
        next_free_rec: 1,
    };
    write_extent_list_header(&mut block[0xc0..], &header);
    write_extent_rec(&mut block[0xd0..], &record(0, 1, 40));
}

// The block of the directory `d`: the dots, a void entry, and `two` twice, for blocks 8 and 12.
fn put_directory_block(block: &mut [u8])
    requires { 1024 ≤ length block.old }
{
    put_entry(block, 0, &entry(9, 16, 1), b".");
    put_entry(block, 16, &entry(5, 16, 2), b"..");
    put_entry(block, 32, &entry(0, 16, 3), b"old");
    put_entry(block, 48, &entry(8, 16, 3), b"two");
    put_entry(block, 64, &entry(12, 960, 3), b"two");
}

// The directories on a disk of 160 blocks.
fn put_all<D: Disk>(disk: &mut D) -> Result<(), Fail>
    requires disk { 320 ≤ (D.state disk.old).sectors }
    requires writable { IsWritable (D.state disk.old).attached }
    ensures device { SameDevice (D.state disk.old) (D.state disk.new) }
{
    let mut block = [0; 1024];
    put_root(&mut block);
    disk.write(10, &block)?;
    put_system_directory(&mut block);
    disk.write(12, &block)?;
    let mut block = [0; 1024];
    write_dinode(&mut block, &dinode(8, 0o100644, 0));
    disk.write(16, &block)?;
    put_directory(&mut block);
    disk.write(18, &block)?;
    write_dinode(&mut block, &dinode(12, 0o100644, 0));
    disk.write(24, &block)?;
    let mut block = [0; 1024];
    put_directory_block(&mut block);
    disk.write(80, &block)?;
    Ok(())
}

// The entries of the directory in this block. None where it is no directory.
#[tactic(auto, using(o2_view::proofs::Shown::showed_before, o2_extent::proofs::Views::still_in, o2_extent::proofs::Views::only_both))]
fn entries_through<D: Disk, const N: usize>(
    alloc: Global,
    view: &mut View<'_, D, N>,
    geo: &Geo,
    inode: u64,
) -> Result<Option<Entries>, DirFault>
    requires { Reaches geo.now view.old inode }
    ensures { OnlyReads view.old view.new }
{
    if !is_directory_at(view, geo, inode)? {
        return Ok(None);
    }
    let found = entries(alloc, view, geo, inode)?;
    Ok(Some(found))
}

// The same on such a disk.
fn entries_on<D: Disk>(alloc: Global, disk: &mut D, inode: u64) -> Result<Option<Entries>, DirFault>
    requires disk { 320 ≤ (D.state disk.old).sectors }
    requires inode { inode < 160 }
    ensures device { SameDevice (D.state disk.old) (D.state disk.new) }
{
    let mut view = View::<D, 1>::new(alloc, disk, 10, 160)?;
    let found = entries_through(alloc, &mut view, &numbers(), inode);
    let _disk = view.into_disk();
    found
}

// The entry of that name, in the same way.
#[tactic(auto, using(o2_view::proofs::Shown::showed_before, o2_extent::proofs::Views::still_in, o2_extent::proofs::Views::only_both))]
fn entry_through<D: Disk, const N: usize>(
    alloc: Global,
    view: &mut View<'_, D, N>,
    geo: &Geo,
    inode: u64,
    name: &[u8],
) -> Result<Option<Entry>, DirFault>
    requires { Reaches geo.now view.old inode }
    ensures { OnlyReads view.old view.new }
{
    if !is_directory_at(view, geo, inode)? {
        return Ok(None);
    }
    let found = look_up(alloc, view, geo, inode, name)?;
    Ok(Some(found))
}

// The same on such a disk.
fn entry_on<D: Disk>(
    alloc: Global,
    disk: &mut D,
    inode: u64,
    name: &[u8],
) -> Result<Option<Entry>, DirFault>
    requires disk { 320 ≤ (D.state disk.old).sectors }
    requires inode { inode < 160 }
    ensures device { SameDevice (D.state disk.old) (D.state disk.new) }
{
    let mut view = View::<D, 1>::new(alloc, disk, 10, 160)?;
    let found = entry_through(alloc, &mut view, &numbers(), inode, name);
    let _disk = view.into_disk();
    found
}

// The system file of that name, in the same way.
#[tactic(auto, using(o2_view::proofs::Shown::showed_before, o2_extent::proofs::Views::still_in, o2_extent::proofs::Views::only_both))]
fn system_file_through<D: Disk, const N: usize>(
    alloc: Global,
    view: &mut View<'_, D, N>,
    geo: &Geo,
    name: &[u8],
) -> Result<Option<u64>, DirFault>
    requires { LiesIn geo.now view.old }
    ensures { OnlyReads view.old view.new }
{
    if !is_directory_at(view, geo, geo.sysdir)? {
        return Ok(None);
    }
    let found = system_file(alloc, view, geo, name)?;
    Ok(Some(found))
}

// The same on such a disk.
fn system_file_on<D: Disk>(
    alloc: Global,
    disk: &mut D,
    name: &[u8],
) -> Result<Option<u64>, DirFault>
    requires { 320 ≤ (D.state disk.old).sectors }
    ensures device { SameDevice (D.state disk.old) (D.state disk.new) }
{
    let mut view = View::<D, 1>::new(alloc, disk, 10, 160)?;
    let found = system_file_through(alloc, &mut view, &numbers(), name);
    let _disk = view.into_disk();
    found
}

// Where the path leads.
fn path_on<D: Disk>(alloc: Global, disk: &mut D, text: &[u8]) -> Result<u64, PathFault>
    requires { 320 ≤ (D.state disk.old).sectors }
    ensures device { SameDevice (D.state disk.old) (D.state disk.new) }
{
    let mut view = View::<D, 1>::new(alloc, disk, 10, 160)?;
    let found = path(alloc, &mut view, &numbers(), text);
    let _disk = view.into_disk();
    found
}

#[test]
fn reads_directories(rt: HostRuntime) -> Result<(), Fail> {
    let alloc = rt.alloc();
    let mut disk = MemDisk::new(alloc, 320)?;
    disk.attach(alloc, "disk", How::ReadWrite)?;
    put_all(&mut disk)?;
    let Some(root) = entries_on(alloc, &mut disk, 5)? else {
        return Err(Fail::from("no directory"));
    };
    assert_eq!(rt; root.as_slice().len(), 4);
    assert_eq!(rt; root.as_slice()[2].inode, 8);
    assert_eq!(rt; root.as_slice()[2].at, 32);
    assert!(rt; root.as_slice()[3].name.as_slice() == b"d".as_slice());
    let Some(in_blocks) = entries_on(alloc, &mut disk, 9)? else {
        return Err(Fail::from("no directory"));
    };
    assert_eq!(rt; in_blocks.as_slice().len(), 4);
    assert_eq!(rt; in_blocks.as_slice()[3].inode, 12);
    assert_eq!(rt; in_blocks.as_slice()[3].block, 40);
    Ok(())
}

#[test]
fn finds_by_name(rt: HostRuntime) -> Result<(), Fail> {
    let alloc = rt.alloc();
    let mut disk = MemDisk::new(alloc, 320)?;
    disk.attach(alloc, "disk", How::ReadWrite)?;
    put_all(&mut disk)?;
    let Some(two) = entry_on(alloc, &mut disk, 9, b"two")? else {
        return Err(Fail::from("no directory"));
    };
    assert_eq!(rt; two.inode, 8);
    assert_eq!(rt; two.at, 48);
    assert_eq!(rt;
        entry_on(alloc, &mut disk, 9, b"old").err(),
        Some(DirFault::Absent)
    );
    assert_eq!(rt;
        system_file_on(alloc, &mut disk, b"global_bitmap")?,
        Some(12)
    );
    Ok(())
}

#[test]
fn follows_paths(rt: HostRuntime) -> Result<(), Fail> {
    let alloc = rt.alloc();
    let mut disk = MemDisk::new(alloc, 320)?;
    disk.attach(alloc, "disk", How::ReadWrite)?;
    put_all(&mut disk)?;
    assert_eq!(rt; path_on(alloc, &mut disk, b"/"), Ok(5));
    assert_eq!(rt; path_on(alloc, &mut disk, b"//"), Ok(6));
    assert_eq!(rt; path_on(alloc, &mut disk, b"/d/two"), Ok(8));
    assert_eq!(rt; path_on(alloc, &mut disk, b"/d/../a"), Ok(8));
    assert_eq!(rt; path_on(alloc, &mut disk, b"//global_bitmap"), Ok(12));
    assert_eq!(rt;
        path_on(alloc, &mut disk, b"/d/none"),
        Err(PathFault::Absent)
    );
    assert_eq!(rt;
        path_on(alloc, &mut disk, b"/a/b"),
        Err(PathFault::WrongKind)
    );
    Ok(())
}
