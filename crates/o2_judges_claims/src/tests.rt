// Each call on a small volume: blocks of 512 bytes, 2048 of them a cluster, 3584 clusters a group.
use crate::{add_inode_claims, claim_once, claim_run, dup_clusters, structure_claims};
use o2_claims::Claims;
use o2_model::{Allocator, BitUse, Bytes, Geo, Group, Items, Origin, Owner};
use o2_ondisk::{DxSeed, InodeFlags};
use o2_tables::{ClusterRun, GroupRow, InodeRow};
use std::alloc::{AllocError, Global};
use std::test::Fail;

/// A group of the allocator in block 20.
fn group(alloc: Global, bit_use: BitUse, block: u64, bits: u16) -> Result<GroupRow, AllocError> {
    Ok(GroupRow {
        group: Group {
            of: Allocator {
                bit_use,
                slot: 0,
                block: 20,
            },
            chain: 0,
            block,
            bits,
        },
        chain: 0,
        free_bits: 0,
        first: 0,
        bitmap: Bytes::from(Vec::new(alloc)),
    })
}

/// An inode with these clusters.
fn inode(
    alloc: Global,
    block: u64,
    tree: Option<u64>,
    runs: &[ClusterRun],
) -> Result<InodeRow, AllocError> {
    Ok(InodeRow {
        block,
        kind: None,
        flags: InodeFlags(0),
        links: 1,
        clusters: 0,
        origin: Origin {
            slot: 0,
            bit: 0,
            loc: 0,
        },
        named_tree: tree,
        tree,
        runs: Items::from(Vec::from_slice(alloc, runs)?),
        extent_blocks: Items::from(Vec::new(alloc)),
    })
}

fn run(start: u32, clusters: u32, is_shared: bool) -> ClusterRun {
    ClusterRun {
        start,
        clusters,
        is_shared,
    }
}

#[test]
fn structures_have_their_clusters(rt: HostRuntime) -> Result<(), Fail> {
    let alloc = rt.alloc();
    let geo = Geo {
        block_bits: 9,
        cluster_bits: 20,
        clusters: 8000,
        slots: 1,
        root: 40,
        sysdir: 41,
        first_group: 4096,
        generation: 1,
        compat: 1,
        incompat: 0,
        seed: DxSeed {
            first: 0,
            second: 0,
            third: 0,
        },
    };
    let groups = [
        group(alloc, BitUse::Clusters, 4096, 3584)?,
        group(alloc, BitUse::Inodes, 20480, 4096)?,
    ];
    let claims = structure_claims(alloc, &geo, &groups)?;
    assert_eq!(rt; claims.owner(2), Some(Owner::Super));
    assert_eq!(rt; claims.owner(3), None);
    assert_eq!(rt; claims.owner(7168), Some(Owner::GlobalGroup));
    assert_eq!(rt; claims.owner(4096), Some(Owner::Backup));
    assert_eq!(rt; claims.owner(11), Some(Owner::Suballocator(20)));
    assert_eq!(rt; claims.owner(12), None);
    assert_eq!(rt; claims.count(), 9);
    Ok(())
}

#[test]
fn inodes_stand_behind_others(rt: HostRuntime) -> Result<(), Fail> {
    let alloc = rt.alloc();
    let mut claims = Claims::new(alloc, 20)?;
    claim_run(&mut claims, 9, 3, Owner::Suballocator(20))?;
    claim_once(&mut claims, 20, Owner::Backup)?;
    let inodes = [inode(alloc, 700, None, &[run(11, 2, false)])?];
    add_inode_claims(&inodes, &mut claims)?;
    assert_eq!(rt; claims.owner(11), Some(Owner::Suballocator(20)));
    assert_eq!(rt; claims.owner(12), Some(Owner::Inode(700)));
    assert_eq!(rt; claims.count(), 4);
    Ok(())
}

#[test]
fn tells_clusters_that_may_not_be_shared(rt: HostRuntime) -> Result<(), Fail> {
    let alloc = rt.alloc();
    let mut structures = Claims::new(alloc, 100)?;
    claim_once(&mut structures, 12, Owner::Backup)?;
    let inodes = [
        inode(alloc, 700, None, &[run(11, 2, false)])?,
        inode(alloc, 701, None, &[run(30, 1, false)])?,
        inode(alloc, 702, Some(900), &[run(40, 1, true)])?,
        inode(alloc, 703, Some(900), &[run(40, 1, true)])?,
        inode(alloc, 704, Some(900), &[run(50, 1, true)])?,
        inode(alloc, 705, Some(901), &[run(50, 1, true)])?,
    ];
    let blocks = dup_clusters(alloc, &structures, &inodes)?;
    assert_eq!(rt; blocks.as_slice(), [700, 704, 705].as_slice());
    Ok(())
}
