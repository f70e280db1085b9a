// The indexes of directories on a disk in memory: one in its root, and one with leaves.
ghost use Rattle.std.specs.Prelude.{◌+◌, ◌*◌, ◌≤◌, ◌<◌, length};
ghost use Rattle.o2_disk.specs.Device.{SameDevice};
ghost use Rattle.o2_view.specs.Views.{OnlyReads};
ghost use Rattle.o2_view.specs.Geos.{Reaches};

use super::{IndexEntries, index_entries};
use crate::DirFault;
use crate::path_step::is_directory_at;
use crate::testing::{dinode, numbers, record};
use o2_disk::{Disk, How, MemDisk};
use o2_ondisk::{
    Dinode, DxEntry, DxLeaf, DxListHeader, DxRoot, DynFeatures, ExtentListHeader, Signature,
    read_dx_root, write_dinode, write_dx_entry, write_dx_leaf, write_dx_list_header, write_dx_root,
    write_extent_list_header, write_extent_rec,
};
use o2_view::{Check, Geo, View};
use std::alloc::Global;
use std::test::Fail;

// The index entries of the inode in this block. None where it is no directory.
#[tactic(auto, using(o2_view::proofs::Shown::showed_before, o2_extent::proofs::Views::still_in, o2_extent::proofs::Views::only_both))]
fn read_through<D: Disk, const N: usize>(
    alloc: Global,
    view: &mut View<'_, D, N>,
    geo: &Geo,
    inode: u64,
) -> Result<Option<IndexEntries>, DirFault>
    requires inode { Reaches geo.now view.old inode }
    ensures reads { OnlyReads view.old view.new }
{
    if !is_directory_at(view, geo, inode)? {
        return Ok(None);
    }
    let entries = index_entries(alloc, view, geo, inode)?;
    Ok(Some(entries))
}

// The same of a disk of 160 blocks.
fn read_from<D: Disk>(
    alloc: Global,
    disk: &mut D,
    inode: u64,
) -> Result<Option<IndexEntries>, DirFault>
    requires disk { 320 ≤ (D.state disk.old).sectors }
    requires inode { inode < 160 }
    ensures device { SameDevice (D.state disk.old) (D.state disk.new) }
{
    let mut view = View::<D, 1>::new(alloc, disk, 10, 160)?;
    let entries = read_through(alloc, &mut view, &numbers(), inode);
    let _disk = view.into_disk();
    entries
}

// An entry of this hash, for a name in block 12.
fn hashed(major_hash: u32) -> DxEntry {
    DxEntry {
        major_hash,
        minor_hash: 7,
        dirent_blk: 12,
    }
}

// The list at this place has an entry of each of these hashes.
fn put_list(block: &mut [u8], at: usize, hashes: &[u32])
    requires room { at + 8 + 16 * length hashes.now ≤ length block.old }
    requires few { length hashes.now < 50 }
{
    let header = DxListHeader {
        count: 50,
        num_used: hashes.len() as u16,
    };
    write_dx_list_header(&mut block[at..], &header);
    for k in 0..hashes.len() {
        write_dx_entry(&mut block[at + 8 + 16 * k..], &hashed(hashes[k]));
    }
}

// The leaf in this block.
fn put_leaf(block: &mut [u8], blkno: u64, hashes: &[u32])
    requires room { 1024 ≤ length block.old }
    requires few { length hashes.now < 50 }
{
    let leaf = DxLeaf {
        signature: Signature::DXLEAF1,
        blkno,
        fs_generation: 7,
    };
    write_dx_leaf(block, &leaf);
    put_list(block, 0x28, hashes);
}

// The root in block 20 of the index of the directory in block 9.
fn root(flags: u8) -> DxRoot {
    DxRoot {
        signature: Signature::DXDIR01,
        blkno: 20,
        fs_generation: 7,
        flags,
        dir_blkno: 9,
        ..read_dx_root(&[0; 192])
    }
}

// The same root, whose leaves are the blocks of the cluster at block 40.
fn put_root_of_leaves(block: &mut [u8])
    requires { 1024 ≤ length block.old }
{
    write_dx_root(block, &root(0));
    let header = ExtentListHeader {
        tree_depth: 0,
        count: 51,
        next_free_rec: 1,
    };
    write_extent_list_header(&mut block[0xc0..], &header);
    write_extent_rec(&mut block[0xd0..], &record(0, 1, 40));
}

// A directory in block 9 with this root.
fn directory() -> Dinode {
    Dinode {
        dyn_features: DynFeatures::INDEXED_DIR,
        dx_root: 20,
        ..dinode(9, 0o040755, 1024)
    }
}

// The hashes are these, in this order.
fn has_hashes(found: Option<IndexEntries>, hashes: &[u32]) -> bool {
    let Some(found) = found else {
        return false;
    };
    let found = found.as_slice();
    found.len() == hashes.len() && (0..hashes.len()).all(|k| found[k] == hashed(hashes[k]))
}

#[test]
fn reads_the_entries_in_the_root(rt: HostRuntime) -> Result<(), Fail> {
    let alloc = rt.alloc();
    let mut disk = MemDisk::new(alloc, 320)?;
    disk.attach(alloc, "disk", How::ReadWrite)?;
    let mut block = [0; 1024];
    write_dinode(&mut block, &directory());
    disk.write(18, &block)?;
    let mut block = [0; 1024];
    write_dx_root(&mut block, &root(1));
    put_list(&mut block, 0xc0, &[5, 3]);
    disk.write(40, &block)?;
    let found = read_from(alloc, &mut disk, 9)?;
    assert!(rt; has_hashes(found, &[5, 3]));
    Ok(())
}

#[test]
fn reads_the_entries_of_the_leaves(rt: HostRuntime) -> Result<(), Fail> {
    let alloc = rt.alloc();
    let mut disk = MemDisk::new(alloc, 320)?;
    disk.attach(alloc, "disk", How::ReadWrite)?;
    let mut block = [0; 1024];
    write_dinode(&mut block, &directory());
    disk.write(18, &block)?;
    let mut block = [0; 1024];
    put_root_of_leaves(&mut block);
    disk.write(40, &block)?;
    let mut block = [0; 1024];
    put_leaf(&mut block, 40, &[1]);
    disk.write(80, &block)?;
    put_leaf(&mut block, 41, &[]);
    disk.write(82, &block)?;
    put_leaf(&mut block, 42, &[9, 4]);
    disk.write(84, &block)?;
    assert_eq!(rt;
        read_from(alloc, &mut disk, 9).err(),
        Some(DirFault::Bad {
            check: Check::Dx,
            block: 9
        })
    );
    put_leaf(&mut block, 43, &[2]);
    disk.write(86, &block)?;
    let found = read_from(alloc, &mut disk, 9)?;
    assert!(rt; has_hashes(found, &[1, 9, 4, 2]));
    Ok(())
}
