// Each call once: three groups, of the global bitmap, of inodes and of metadata.
ghost use Rattle.std.specs.Prelude.{◌≤◌};

use crate::testing::numbers;
use crate::{GroupSurvey, groups, inode_blocks};
use o2_chain::VolumeWalk;
use o2_disk::{Disk, How, MemDisk};
use o2_model::{Allocator, BitUse, Group, Items};
use o2_ondisk::{GroupDesc, read_group_desc, write_group_desc};
use o2_tally::put;
use o2_view::{Numbers, View, ViewFault};
use std::alloc::Global;
use std::test::Fail;

fn group(bit_use: BitUse, block: u64, bits: u16) -> Group {
    Group {
        of: Allocator {
            bit_use,
            slot: 0,
            block: 44,
        },
        chain: 2,
        block,
        bits,
    }
}

// What the walk met: the second group of the global bitmap, and two groups of 16 blocks.
fn walk(alloc: Global) -> Result<VolumeWalk, ViewFault> {
    let mut met = Vec::new(alloc);
    put(&mut met, group(BitUse::Clusters, 28672, 40))?;
    put(&mut met, group(BitUse::Inodes, 64, 16))?;
    put(&mut met, group(BitUse::Metadata, 96, 16))?;
    Ok(VolumeWalk {
        groups: Items::from(met),
        faults: Numbers::from(Vec::new(alloc)),
    })
}

// A descriptor of chain 1 with a bitmap of 256 bytes and so many clear bits, and the first two of those bytes.
fn descriptor(free_bits_count: u16, bitmap: [u8; 2]) -> [u8; 512] {
    let desc = GroupDesc {
        size: 256,
        free_bits_count,
        chain: 1,
        ..read_group_desc(&[0; 48])
    };
    let mut block = [0; 512];
    write_group_desc(&mut block, &desc);
    block[0x40] = bitmap[0];
    block[0x41] = bitmap[1];
    block
}

// The groups of that walk on a disk of the volume.
fn survey_of<D: Disk>(alloc: Global, disk: &mut D) -> Result<GroupSurvey, ViewFault>
    requires { 28992 ≤ (D.state disk.old).sectors }
{
    let mut view = View::<D, 1>::new(alloc, disk, 9, 28992)?;
    let walk = walk(alloc)?;
    groups(alloc, &mut view, &numbers(), &walk)
}

// Bits 0, 1, 2 and 15 of the group of inodes are set. The group of metadata has one record behind its bitmap.
#[test]
fn reads_groups(rt: HostRuntime) -> Result<(), Fail> {
    let alloc = rt.alloc();
    let mut disk = MemDisk::new(alloc, 28992)?;
    disk.attach(alloc, "disk", How::ReadWrite)?;
    disk.write(28672, &descriptor(39, [1, 0]))?;
    disk.write(64, &descriptor(12, [7, 128]))?;
    let mut scattered = descriptor(13, [7, 0]);
    scattered[0x144] = 1;
    disk.write(96, &scattered)?;
    let survey = survey_of(alloc, &mut disk)?;
    let rows = survey.rows.as_slice();
    assert_eq!(rt; rows.len(), 3);
    assert_eq!(rt; rows[0].first, 3584);
    assert_eq!(rt; rows[0].bitmap.as_slice(), [1, 0, 0, 0, 0].as_slice());
    assert_eq!(rt; rows[1].chain, 1);
    assert_eq!(rt; rows[1].free_bits, 12);
    assert_eq!(rt; rows[1].bitmap.as_slice(), [7, 128].as_slice());
    assert_eq!(rt; survey.discontiguous.as_slice(), [96].as_slice());
    let found = inode_blocks(alloc, rows)?;
    assert_eq!(rt; found.as_slice(), [65, 66, 79].as_slice());
    Ok(())
}
