// Each call once, on a disk in memory.
ghost use Rattle.std.specs.Prelude.{◌≡◌, ◌≤◌};
ghost use Rattle.o2_view.specs.Views.{view_bits, view_blocks};

use crate::testing::{leaf_of, numbers, placed, put_records, record, refcount_block, root_of};
use crate::{RefRecords, counts, set_counts};
use o2_disk::{Disk, How, MemDisk};
use o2_view::{Block, Check, ReadFault, View};
use std::alloc::Global;
use std::test::Fail;

// The records of the tree whose root is in block 8 of a disk of 160 blocks.
fn read_counts<D: Disk>(alloc: Global, disk: &mut D) -> Result<RefRecords, ReadFault>
    requires { 320 ≤ (D.state disk.old).sectors }
{
    let mut view = View::<D, 1>::new(alloc, disk, 10, 160)?;
    counts(alloc, &mut view, &numbers(), 8)
}

#[test]
fn reads_the_records_of_a_root(rt: HostRuntime) -> Result<(), Fail> {
    let alloc = rt.alloc();
    let mut disk = MemDisk::new(alloc, 320)?;
    disk.attach(alloc, "disk", How::ReadWrite)?;
    let (first, second) = (record(5, 2, 2), record(9, 1, 3));
    let mut root = refcount_block(8, 0);
    put_records(&mut root, 2, &first, &second);
    disk.write(16, &root)?;
    let records = read_counts(alloc, &mut disk)?;
    let want = [placed(8, first), placed(8, second)];
    assert_eq!(rt; records.as_slice(), want.as_slice());
    Ok(())
}

#[test]
fn reads_the_records_of_two_leaves(rt: HostRuntime) -> Result<(), Fail> {
    let alloc = rt.alloc();
    let mut disk = MemDisk::new(alloc, 320)?;
    disk.attach(alloc, "disk", How::ReadWrite)?;
    let (first, second, last) = (record(5, 2, 2), record(9, 1, 3), record(30, 10, 4));
    disk.write(16, &root_of(43, 41))?;
    disk.write(86, &leaf_of(43, 2, &first, &second))?;
    disk.write(82, &leaf_of(41, 1, &last, &first))?;
    let records = read_counts(alloc, &mut disk)?;
    let want = [placed(43, first), placed(43, second), placed(41, last)];
    assert_eq!(rt; records.as_slice(), want.as_slice());
    Ok(())
}

#[test]
fn tells_the_least_leaf_whose_records_overlap(rt: HostRuntime) -> Result<(), Fail> {
    let alloc = rt.alloc();
    let mut disk = MemDisk::new(alloc, 320)?;
    disk.attach(alloc, "disk", How::ReadWrite)?;
    let (first, second) = (record(5, 2, 2), record(6, 1, 3));
    disk.write(16, &root_of(43, 41))?;
    disk.write(86, &leaf_of(43, 2, &first, &second))?;
    disk.write(82, &leaf_of(41, 1, &second, &first))?;
    let answer = match read_counts(alloc, &mut disk) {
        Ok(_) => None,
        Err(fault) => Some(fault),
    };
    let bad = ReadFault::Bad {
        check: Check::RefTree,
        block: 41,
    };
    assert_eq!(rt; answer, Some(bad));
    Ok(())
}

// Gives the records of the tree these counts, where there are as many.
fn recount<D: Disk, const N: usize>(
    alloc: Global,
    view: &mut View<'_, D, N>,
    to: &[u32],
) -> Result<(), ReadFault>
    requires blocks { view_blocks view.old ≡ 160 }
    requires bits { view_bits view.old ≡ 10 }
    ensures blocks { view_blocks view.new ≡ view_blocks view.old }
    ensures bits { view_bits view.new ≡ view_bits view.old }
{
    let geo = numbers();
    let records = counts(alloc, view, &geo, 8)?;
    if records.as_slice().len() == to.len() {
        set_counts(alloc, view, &geo, 8, to)?;
    }
    Ok(())
}

// Both leaves of the tree on a disk of the volume, once its records have these counts.
fn recounted<D: Disk>(alloc: Global, disk: &mut D, to: &[u32]) -> Result<(Block, Block), ReadFault>
    requires { 320 ≤ (D.state disk.old).sectors }
{
    let mut view = View::<D, 1>::new(alloc, disk, 10, 160)?;
    recount(alloc, &mut view, to)?;
    let first = view.block(43)?;
    let second = view.block(41)?;
    Ok((first, second))
}

#[test]
fn gives_new_counts(rt: HostRuntime) -> Result<(), Fail> {
    let alloc = rt.alloc();
    let mut disk = MemDisk::new(alloc, 320)?;
    disk.attach(alloc, "disk", How::ReadWrite)?;
    let (first, second, last) = (record(5, 2, 2), record(9, 1, 3), record(30, 10, 4));
    disk.write(16, &root_of(43, 41))?;
    let mut in_43 = leaf_of(43, 2, &first, &second);
    disk.write(86, &in_43)?;
    let mut in_41 = leaf_of(41, 1, &last, &first);
    disk.write(82, &in_41)?;
    let (now_43, now_41) = recounted(alloc, &mut disk, &[0x0304, 1, 9])?;
    in_43[0x9c] = 4;
    in_43[0x9d] = 3;
    in_43[0xac] = 1;
    in_41[0x9c] = 9;
    assert_eq!(rt; now_43.as_slice(), in_43.as_slice());
    assert_eq!(rt; now_41.as_slice(), in_41.as_slice());
    Ok(())
}
