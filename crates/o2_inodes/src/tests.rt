// The pass over a few blocks, on a disk in memory.
ghost use Rattle.std.specs.Prelude.{◌≤◌};

use crate::testing::{directory, file, file_with_leaf, inode, leaf, numbers};
use crate::{InodeSurvey, inodes};
use o2_disk::{Disk, How, MemDisk};
use o2_model::Origin;
use o2_ondisk::{InodeFlags, Kind};
use o2_tables::{ClusterRun, ExtentBlockRow};
use o2_tally::add_number;
use o2_view::{View, ViewFault};
use std::alloc::Global;
use std::collections::BTreeSet;
use std::test::Fail;

// What is told of these blocks of a disk of the volume, whose own inode is 65.
fn survey_of<D: Disk>(alloc: Global, disk: &mut D, blocks: &[u64]) -> Result<InodeSurvey, ViewFault>
    requires { 28992 ≤ (D.state disk.old).sectors }
{
    let mut own = BTreeSet::new(alloc);
    add_number(&mut own, 65)?;
    let mut view = View::<D, 1>::new(alloc, disk, 9, 28992)?;
    inodes(alloc, &mut view, &numbers(), blocks, &own)
}

const SHARED: ClusterRun = ClusterRun {
    start: 10,
    clusters: 2,
    is_shared: true,
};

const LEAF: ExtentBlockRow = ExtentBlockRow {
    block: 70,
    origin: Origin {
        slot: 1,
        bit: 6,
        loc: 64,
    },
};

// A file and a fifo: the root that both name is out of range. Block 62 is no dinode, and no block 28992 is in range.
#[test]
fn keeps_rows(rt: HostRuntime) -> Result<(), Fail> {
    let alloc = rt.alloc();
    let mut disk = MemDisk::new(alloc, 28992)?;
    disk.attach(alloc, "disk", How::ReadWrite)?;
    disk.write(60, &file())?;
    disk.write(63, &inode(63, 0o010644, 0, 9))?;
    disk.write(66, &file_with_leaf())?;
    disk.write(70, &leaf())?;
    let survey = survey_of(alloc, &mut disk, &[60, 62, 63, 66, 28992])?;
    assert_eq!(rt; survey.rows.len(), 3);
    let row = &survey.rows[0];
    assert_eq!(rt; row.block, 60);
    assert_eq!(rt; row.kind, Some(Kind::File));
    assert_eq!(rt; row.flags, InodeFlags::VALID);
    assert_eq!(rt; row.links, 65539);
    assert_eq!(rt; row.clusters, 2);
    assert_eq!(rt; row.origin.bit, 5);
    assert_eq!(rt; row.named_tree, Some(28992));
    assert_eq!(rt; row.tree, None);
    assert_eq!(rt; row.runs.as_slice(), [SHARED].as_slice());
    assert_eq!(rt; survey.rows[1].kind, Some(Kind::Fifo));
    assert_eq!(rt; survey.rows[2].extent_blocks.as_slice(), [LEAF].as_slice());
    Ok(())
}

// Of block 61 no kind is known, and its empty list has no last leaf. Files 64 and 65 are a byte longer than all clusters that
// have a number, and 65 is the volume's own. The fifo has no list, so that no last leaf is asked for. The leaf of 66 is at fault.
#[test]
fn judges_inode_by_inode(rt: HostRuntime) -> Result<(), Fail> {
    let alloc = rt.alloc();
    let mut disk = MemDisk::new(alloc, 28992)?;
    disk.attach(alloc, "disk", How::ReadWrite)?;
    disk.write(61, &inode(61, 0, 0, 5))?;
    disk.write(63, &inode(63, 0o010644, 0, 9))?;
    disk.write(64, &inode(64, 0o100644, 0x1000_0000_0001, 0))?;
    disk.write(65, &inode(65, 0o100644, 0x1000_0000_0001, 0))?;
    disk.write(66, &file_with_leaf())?;
    disk.write(70, &leaf())?;
    let survey = survey_of(alloc, &mut disk, &[61, 63, 64, 65, 66])?;
    assert_eq!(rt; survey.rows.len(), 5);
    assert_eq!(rt; survey.kinds.as_slice(), [61].as_slice());
    assert_eq!(rt; survey.extents.as_slice(), [70].as_slice());
    assert_eq!(rt; survey.sizes.as_slice(), [64].as_slice());
    assert_eq!(rt; survey.next_leaves.as_slice(), [70].as_slice());
    assert_eq!(rt; survey.last_leaves.as_slice(), [61].as_slice());
    Ok(())
}

// The directory's names are judged, and its entries kept; the file has no extended attributes.
#[test]
fn keeps_directories(rt: HostRuntime) -> Result<(), Fail> {
    let alloc = rt.alloc();
    let mut disk = MemDisk::new(alloc, 28992)?;
    disk.attach(alloc, "disk", How::ReadWrite)?;
    disk.write(60, &file())?;
    disk.write(67, &directory())?;
    let survey = survey_of(alloc, &mut disk, &[60, 67])?;
    assert_eq!(rt; survey.directories.len(), 1);
    assert_eq!(rt; survey.directories[0].block, 67);
    assert_eq!(rt; survey.directories[0].entries.as_slice().len(), 5);
    assert_eq!(rt; survey.directories[0].entries.as_slice()[3].inode, 61);
    assert!(rt; survey.dir_blocks.is_empty());
    assert_eq!(rt; survey.names.as_slice(), [67].as_slice());
    assert_eq!(rt; survey.again.as_slice(), [67].as_slice());
    assert_eq!(rt; survey.attributes.as_slice(), [67].as_slice());
    Ok(())
}
