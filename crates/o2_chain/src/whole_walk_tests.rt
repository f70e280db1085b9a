// A walk over three allocators: the second has no sound header, and the third a bad link. It reads a file, and what a file holds
// is told to no contract.
ghost use Rattle.std.specs.Prelude.{◌≡◌, ◌≤◌};
ghost use Rattle.o2_disk.specs.FileState.{file_state};
ghost use Rattle.o2_view.specs.Geos.{HasSizes, HasNumbers, blocks_of};

use crate::{VolumeWalk, walk_all};
use o2_disk::{Disk, FileDisk, How};
use o2_model::{Allocator, BitUse, Geo, Group, Items};
use o2_ondisk::{ChainRec, DxSeed, GroupDesc, Signature, write_group_desc};
use o2_tables::AllocatorRow;
use o2_view::{View, ViewFault};
use std::alloc::{AllocError, Global};
use std::fs;
use std::test::Fail;

const NAME: &str = "three_allocators.img";

// The global bitmap, whose dinode is in block 40.
const BITMAP: Allocator = Allocator {
    bit_use: BitUse::Clusters,
    slot: 0xffff,
    block: 40,
};

// An allocator of extent blocks, whose dinode is in block 42.
const EXTENTS: Allocator = Allocator {
    bit_use: BitUse::Metadata,
    slot: 0,
    block: 42,
};

// An allocator of inodes, whose dinode is in block 41.
const INODES: Allocator = Allocator {
    bit_use: BitUse::Inodes,
    slot: 0,
    block: 41,
};

// A volume of 16 clusters of 4 KiB, with blocks of 512 bytes.
fn numbers() -> Geo
    ensures sizes { HasSizes result }
    ensures bits { result.block_bits ≡ 9 }
    ensures numbers { HasNumbers result }
    ensures blocks { blocks_of result ≡ 128 }
{
    Geo {
        block_bits: 9,
        cluster_bits: 12,
        clusters: 16,
        slots: 1,
        root: 33,
        sysdir: 34,
        first_group: 8,
        generation: 7,
        compat: 0,
        incompat: 0,
        seed: DxSeed {
            first: 0,
            second: 0,
            third: 0,
        },
    }
}

// The block of a group of the allocator.
fn group_block(of: &Allocator, chain: u16, bits: u16, blkno: u64, next_group: u64) -> [u8; 512] {
    let desc = GroupDesc {
        signature: Signature::GROUP01,
        size: 448,
        bits,
        free_bits_count: 0,
        chain,
        generation: 7,
        next_group,
        parent_dinode: of.block,
        blkno,
    };
    let mut block = [0; 512];
    write_group_desc(&mut block, &desc);
    block
}

fn chain_to(blkno: u64) -> ChainRec {
    ChainRec {
        free: 0,
        total: 0,
        blkno,
    }
}

// The row of an allocator with these chains.
fn row(
    alloc: Global,
    allocator: Allocator,
    has_sound_header: bool,
    chains: &[ChainRec],
) -> Result<AllocatorRow, AllocError> {
    Ok(AllocatorRow {
        allocator,
        used: 0,
        total: 0,
        has_sound_header,
        chains: Items::from(Vec::from_slice(alloc, chains)?),
    })
}

// The walk over these allocators, on a file that is attached.
fn walk_file(
    alloc: Global,
    disk: &mut FileDisk,
    rows: &[AllocatorRow],
) -> Result<VolumeWalk, ViewFault>
    requires { 128 ≤ (file_state disk.old).sectors }
{
    let mut view = View::<FileDisk, 1>::new(alloc, disk, 9, 128)?;
    walk_all(alloc, &mut view, &numbers(), rows)
}

fn group(of: Allocator, chain: u16, block: u64, bits: u16) -> Group {
    Group {
        of,
        chain,
        block,
        bits,
    }
}

#[test]
fn goes_on_behind_a_bad_link(rt: HostRuntime) -> Result<(), Fail> {
    let alloc = rt.alloc();
    fs::write(&rt, NAME, [0u8; 65536].as_slice())?;
    let mut disk = FileDisk::new(rt, alloc);
    let sectors = disk.attach(alloc, NAME, How::ReadWrite)?;
    assert!(rt; sectors >= 128);
    disk.write(8, &group_block(&BITMAP, 0, 16, 8, 0))?;
    // The second link of chain 0 leads to the bitmap's group.
    disk.write(64, &group_block(&INODES, 0, 8, 64, 8))?;
    disk.write(72, &group_block(&INODES, 1, 8, 72, 0))?;
    let rows = [
        row(alloc, BITMAP, true, &[chain_to(8)])?,
        row(alloc, EXTENTS, false, &[])?,
        row(alloc, INODES, true, &[chain_to(64), chain_to(72)])?,
    ];
    let walk = walk_file(alloc, &mut disk, &rows)?;
    fs::remove_file(&rt, NAME)?;
    let groups = walk.groups.as_slice();
    assert_eq!(rt; groups.len(), 3);
    assert_eq!(rt; groups[0], group(BITMAP, 0, 8, 16));
    assert_eq!(rt; groups[1], group(INODES, 0, 64, 8));
    assert_eq!(rt; groups[2], group(INODES, 1, 72, 8));
    assert_eq!(rt; walk.faults.as_slice().len(), 1);
    assert_eq!(rt; walk.faults.as_slice()[0], 64);
    Ok(())
}
