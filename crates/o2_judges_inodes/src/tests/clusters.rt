// Clusters of inodes and of allocators.
use super::file;
use crate::inode_clusters;
use o2_model::{Allocator, BitUse, Bytes, Geo, Group, Items};
use o2_ondisk::{DxSeed, InodeFlags};
use o2_tables::{AllocatorRow, ClusterRun, GroupRow};
use std::alloc::Global;
use std::test::Fail;

// Blocks of 512 bytes, clusters of eight blocks.
const GEO: Geo = Geo {
    block_bits: 9,
    cluster_bits: 12,
    clusters: 8000,
    slots: 1,
    root: 40,
    sysdir: 41,
    first_group: 16,
    generation: 1,
    compat: 0,
    incompat: 0,
    seed: DxSeed {
        first: 0,
        second: 0,
        third: 0,
    },
};

const RUNS: [ClusterRun; 2] = [
    ClusterRun {
        start: 10,
        clusters: 2,
        is_shared: false,
    },
    ClusterRun {
        start: 20,
        clusters: 3,
        is_shared: true,
    },
];

fn allocator(bit_use: BitUse, block: u64) -> Allocator {
    Allocator {
        bit_use,
        slot: 0,
        block,
    }
}

fn allocator_row(alloc: Global, allocator: Allocator) -> AllocatorRow {
    AllocatorRow {
        allocator,
        used: 0,
        total: 0,
        has_sound_header: true,
        chains: Items::from(Vec::new(alloc)),
    }
}

fn group(alloc: Global, of: Allocator, block: u64, bits: u16) -> GroupRow {
    GroupRow {
        group: Group {
            of,
            chain: 0,
            block,
            bits,
        },
        chain: 0,
        free_bits: 0,
        first: 0,
        bitmap: Bytes::from(Vec::new(alloc)),
    }
}

#[test]
fn tells_other_numbers_of_clusters(rt: HostRuntime) -> Result<(), Fail> {
    let alloc = rt.alloc();
    let bitmap = allocator(BitUse::Clusters, 20);
    let inode_alloc = allocator(BitUse::Inodes, 21);
    let extent_alloc = allocator(BitUse::Metadata, 22);
    let allocators = [
        allocator_row(alloc, bitmap),
        allocator_row(alloc, inode_alloc),
        allocator_row(alloc, extent_alloc),
    ];
    let groups = [
        group(alloc, bitmap, 16, 3584),
        group(alloc, inode_alloc, 800, 16),
        group(alloc, inode_alloc, 1600, 24),
    ];
    let inodes = [
        file(alloc, 20, InodeFlags::VALID, 8000, &[])?,
        file(alloc, 21, InodeFlags::VALID, 5, &[])?,
        file(alloc, 22, InodeFlags::VALID, 1, &[])?,
        file(alloc, 30, InodeFlags::VALID, 5, &RUNS)?,
        file(alloc, 31, InodeFlags::VALID, 6, &RUNS)?,
        file(alloc, 32, InodeFlags::LOCAL_ALLOC, 6, &RUNS)?,
    ];
    let blocks = inode_clusters(alloc, &GEO, &allocators, &groups, &inodes)?;
    assert_eq!(rt; blocks.as_slice(), [22, 31].as_slice());
    Ok(())
}
