// Each judge on a small table.
mod metadata;

use crate::{
    alloc_totals, block_alloc_bit, chain_bits, chain_header, cluster_alloc_bit, group_chain,
    group_free_bits, group_missing, inode_alloc_bit,
};
use o2_claims::Claims;
use o2_model::{Allocator, BitUse, Bytes, Geo, Group, Items, Owner};
use o2_ondisk::{ChainRec, DxSeed};
use o2_tables::{AllocatorRow, GroupRow};
use o2_tally::add_number;
use std::alloc::{AllocError, Global};
use std::collections::BTreeSet;
use std::test::Fail;

/// A group of eight bits in chain 0 of the allocator in block 20.
fn group(
    alloc: Global,
    bit_use: BitUse,
    block: u64,
    bits: u8,
    free_bits: u16,
) -> Result<GroupRow, AllocError> {
    Ok(GroupRow {
        group: Group {
            of: Allocator {
                bit_use,
                slot: 0,
                block: 20,
            },
            chain: 0,
            block,
            bits: 8,
        },
        chain: 0,
        free_bits,
        first: 0,
        bitmap: Bytes::from(Vec::from_slice(alloc, &[bits])?),
    })
}

/// An allocator with one chain.
fn allocator(
    alloc: Global,
    block: u64,
    used: u32,
    total: u32,
    chain: ChainRec,
) -> Result<AllocatorRow, AllocError> {
    Ok(AllocatorRow {
        allocator: Allocator {
            bit_use: BitUse::Inodes,
            slot: 0,
            block,
        },
        used,
        total,
        has_sound_header: true,
        chains: Items::from(Vec::from_slice(alloc, &[chain])?),
    })
}

#[test]
fn tells_missing_groups(rt: HostRuntime) -> Result<(), Fail> {
    let alloc = rt.alloc();
    // Blocks of 512 bytes, clusters of eight blocks, 3584 clusters a group: 8000 clusters need three groups.
    let geo = Geo {
        block_bits: 9,
        cluster_bits: 12,
        clusters: 8000,
        slots: 1,
        root: 40,
        sysdir: 41,
        first_group: 16,
        generation: 1,
        compat: 0,
        incompat: 0,
        seed: DxSeed {
            first: 0,
            second: 0,
            third: 0,
        },
    };
    let groups = [
        group(alloc, BitUse::Clusters, 16, 0, 8)?,
        group(alloc, BitUse::Inodes, 28672, 0, 8)?,
        group(alloc, BitUse::Clusters, 57344, 0, 8)?,
    ];
    let missing = group_missing(alloc, &geo, &groups)?;
    assert_eq!(rt; missing.as_slice(), [28672].as_slice());
    Ok(())
}

#[test]
fn tells_bits_of_no_inode(rt: HostRuntime) -> Result<(), Fail> {
    let alloc = rt.alloc();
    let mut inodes = BTreeSet::new(alloc);
    add_number(&mut inodes, 1001)?;
    add_number(&mut inodes, 3001)?;
    let groups = [
        group(alloc, BitUse::Inodes, 1000, 0b11, 6)?,
        group(alloc, BitUse::Inodes, 2000, 0b101, 6)?,
        group(alloc, BitUse::Inodes, 3000, 0b10, 7)?,
        group(alloc, BitUse::Metadata, 4000, 0b10, 7)?,
    ];
    let blocks = inode_alloc_bit(alloc, &groups, &inodes)?;
    assert_eq!(rt; blocks.as_slice(), [2000, 3000].as_slice());
    Ok(())
}

#[test]
fn tells_bits_of_other_blocks(rt: HostRuntime) -> Result<(), Fail> {
    let alloc = rt.alloc();
    let mut in_use = BTreeSet::new(alloc);
    add_number(&mut in_use, 1001)?;
    add_number(&mut in_use, 2002)?;
    let groups = [
        group(alloc, BitUse::Metadata, 1000, 0b11, 6)?,
        group(alloc, BitUse::Metadata, 2000, 0b1, 7)?,
        group(alloc, BitUse::Inodes, 3000, 0b11, 6)?,
    ];
    let blocks = block_alloc_bit(alloc, &groups, &in_use)?;
    assert_eq!(rt; blocks.as_slice(), [2000].as_slice());
    Ok(())
}

#[test]
fn tells_bits_of_other_clusters(rt: HostRuntime) -> Result<(), Fail> {
    let alloc = rt.alloc();
    let mut claims = Claims::new(alloc, 100)?;
    claims.claim(3, Owner::Super)?;
    let mut later = group(alloc, BitUse::Clusters, 57344, 0b1, 7)?;
    later.first = 8;
    let groups = [
        group(alloc, BitUse::Clusters, 16, 0b1000, 7)?,
        later,
        group(alloc, BitUse::Inodes, 1000, 0b1, 7)?,
    ];
    let blocks = cluster_alloc_bit(alloc, &groups, &claims)?;
    assert_eq!(rt; blocks.as_slice(), [57344].as_slice());
    Ok(())
}

#[test]
fn tells_other_numbers_of_groups(rt: HostRuntime) -> Result<(), Fail> {
    let alloc = rt.alloc();
    let mut other = group(alloc, BitUse::Inodes, 2000, 0b101, 5)?;
    other.chain = 1;
    let groups = [group(alloc, BitUse::Inodes, 1000, 0b101, 6)?, other];
    let chains = group_chain(alloc, &groups)?;
    assert_eq!(rt; chains.as_slice(), [2000].as_slice());
    let counts = group_free_bits(alloc, &groups)?;
    assert_eq!(rt; counts.as_slice(), [2000].as_slice());
    Ok(())
}

#[test]
fn tells_other_sums(rt: HostRuntime) -> Result<(), Fail> {
    let alloc = rt.alloc();
    let groups = [
        group(alloc, BitUse::Inodes, 1000, 0b1, 7)?,
        group(alloc, BitUse::Inodes, 2000, 0b11, 6)?,
    ];
    let chain = ChainRec {
        free: 13,
        total: 16,
        blkno: 1000,
    };
    let allocators = [
        allocator(alloc, 20, 3, 16, chain)?,
        allocator(alloc, 21, 4, 16, chain)?,
    ];
    let sums = chain_bits(alloc, &allocators, &groups)?;
    assert_eq!(rt; sums.as_slice(), [21].as_slice());
    let totals = alloc_totals(alloc, &allocators)?;
    assert_eq!(rt; totals.as_slice(), [21].as_slice());
    Ok(())
}

#[test]
fn tells_bad_headers(rt: HostRuntime) -> Result<(), Fail> {
    let alloc = rt.alloc();
    let chain = ChainRec {
        free: 1,
        total: 8,
        blkno: 16,
    };
    let sound = allocator(alloc, 20, 7, 8, chain)?;
    let bad = AllocatorRow {
        has_sound_header: false,
        ..allocator(alloc, 21, 7, 8, chain)?
    };
    let rows = [sound, bad];
    let found = chain_header(alloc, &rows)?;
    assert_eq!(rt; found.len(), 1);
    assert_eq!(rt; found[0], 21);
    Ok(())
}
