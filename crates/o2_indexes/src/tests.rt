// The index of a directory on a disk in memory: in its root, and with leaves.
ghost use Rattle.std.specs.Prelude.{◌≤◌};
ghost use Rattle.o2_disk.specs.Device.{SameDevice};

use crate::testing::{dot, entries, file, leaf, numbers, root_with_entries, root_with_leaves};
use crate::{IndexedDirectory, read_index};
use o2_disk::{Disk, How, MemDisk};
use o2_model::{Entry, Origin};
use o2_tables::{ClusterRun, ExtentBlockRow};
use o2_tree::IndexRow;
use o2_view::{View, ViewFault};
use std::alloc::Global;
use std::test::Fail;

// The row of the index of the directory in block 9, which has these entries, on a disk of 160 blocks.
fn read_from<D: Disk>(
    alloc: Global,
    disk: &mut D,
    root: u64,
    entries: &[Entry],
) -> Result<IndexRow, ViewFault>
    requires { 320 ≤ (D.state disk.old).sectors }
    ensures { SameDevice (D.state disk.old) (D.state disk.new) }
{
    let listed = IndexedDirectory {
        entries,
        blocks: &[12],
        has_trailers: true,
    };
    let mut view = View::<D, 1>::new(alloc, disk, 10, 160)?;
    let row = read_index(alloc, &mut view, &numbers(), 9, root, &listed);
    let _disk = view.into_disk();
    row
}

// Block 20, and where its root says that it is from.
fn root_row() -> ExtentBlockRow {
    ExtentBlockRow {
        block: 20,
        origin: Origin {
            slot: 1,
            bit: 6,
            loc: 14,
        },
    }
}

#[test]
fn reads_an_index_in_its_root(rt: HostRuntime) -> Result<(), Fail> {
    let alloc = rt.alloc();
    let mut disk = MemDisk::new(alloc, 320)?;
    disk.attach(alloc, "disk", How::ReadWrite)?;
    disk.write(40, &root_with_entries())?;
    let mut listed = entries(alloc)?;
    let row = read_from(alloc, &mut disk, 20, &listed)?;
    assert_eq!(rt; row.directory, 9);
    assert_eq!(rt; row.root, root_row());
    assert!(rt; row.is_sound_alone);
    assert!(rt; row.runs.as_slice().is_empty());
    let _entry = listed.pop();
    assert!(rt; !read_from(alloc, &mut disk, 20, &listed)?.is_sound_alone);
    Ok(())
}

#[test]
fn reads_an_index_with_leaves(rt: HostRuntime) -> Result<(), Fail> {
    let alloc = rt.alloc();
    let mut disk = MemDisk::new(alloc, 320)?;
    disk.attach(alloc, "disk", How::ReadWrite)?;
    disk.write(40, &root_with_leaves())?;
    disk.write(80, &leaf(40, &[dot()]))?;
    disk.write(82, &leaf(41, &[]))?;
    disk.write(84, &leaf(42, &[file(), dot()]))?;
    let listed = entries(alloc)?;
    let clusters = [ClusterRun {
        start: 10,
        clusters: 1,
        is_shared: false,
    }];
    let row = read_from(alloc, &mut disk, 20, &listed)?;
    assert!(rt; !row.is_sound_alone);
    assert_eq!(rt; row.runs.as_slice(), clusters.as_slice());
    disk.write(86, &leaf(43, &[]))?;
    let row = read_from(alloc, &mut disk, 20, &listed)?;
    assert!(rt; row.is_sound_alone);
    assert!(rt; row.extent_blocks.as_slice().is_empty());
    Ok(())
}

#[test]
fn reads_no_root_out_of_range(rt: HostRuntime) -> Result<(), Fail> {
    let alloc = rt.alloc();
    let mut disk = MemDisk::new(alloc, 320)?;
    let row = read_from(alloc, &mut disk, 160, &[])?;
    assert_eq!(rt; row.root.block, 160);
    assert!(rt; !row.is_sound_alone);
    Ok(())
}
