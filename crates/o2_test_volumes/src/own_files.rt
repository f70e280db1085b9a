// The volume's own files, in blocks 17 to 27 of the whole volume, and what their clusters hold.
use crate::dinodes::{allocator, block_of, inline_directory, own, put_record};
use crate::entries::{DIRECTORY, FILE, INLINE, put_dots, put_entry};
use o2_ondisk::{
    ChainListHeader, ChainRec, Dinode, ExtentRec, ExtentSize, JournalSuper, LocalAllocHeader,
    RoleData, TruncateLogHeader, TruncateRec, write_chain_list_header, write_chain_rec,
    write_journal_super, write_local_alloc_header, write_truncate_log_header, write_truncate_rec,
};

/// The system directory: an entry for each of the volume's own files.
pub fn system_directory() -> [u8; 512] {
    let mut block = block_of(&inline_directory(own(17, 0x11), 284));
    block[0xc0] = 0x38;
    block[0xc1] = 0x01;
    put_dots(&mut block, INLINE, 17, 17);
    put_entry(&mut block, 232, 19, 28, FILE, b"global_bitmap".as_slice());
    put_entry(
        &mut block,
        260,
        20,
        32,
        FILE,
        b"global_inode_alloc".as_slice(),
    );
    put_entry(&mut block, 292, 21, 20, FILE, b"slot_map".as_slice());
    put_entry(
        &mut block,
        312,
        22,
        28,
        DIRECTORY,
        b"orphan_dir:0000".as_slice(),
    );
    put_entry(
        &mut block,
        340,
        23,
        32,
        FILE,
        b"extent_alloc:0000".as_slice(),
    );
    put_entry(
        &mut block,
        372,
        24,
        28,
        FILE,
        b"inode_alloc:0000".as_slice(),
    );
    put_entry(&mut block, 400, 25, 24, FILE, b"journal:0000".as_slice());
    put_entry(
        &mut block,
        424,
        26,
        28,
        FILE,
        b"local_alloc:0000".as_slice(),
    );
    put_entry(
        &mut block,
        452,
        27,
        32,
        FILE,
        b"truncate_log:0000".as_slice(),
    );
    block
}

/// Puts a chain list with room for one chain, and the chain where there is one.
fn put_chains(block: &mut [u8; 512], cpg: u16, bpc: u16, chain: Option<ChainRec>) {
    let header = ChainListHeader {
        cpg,
        bpc,
        count: 1,
        next_free_rec: if chain.is_some() { 1 } else { 0 },
    };
    write_chain_list_header(&mut block[0xc0..], &header);
    if let Some(chain) = chain {
        write_chain_rec(&mut block[0xd0..], &chain);
    }
}

/// An allocator with its chain list, of groups of so many clusters with so many blocks in a cluster, and of this chain, where
/// there is one.
fn with_chains(dinode: &Dinode, cpg: u16, bpc: u16, chain: Option<ChainRec>) -> [u8; 512] {
    let mut block = block_of(dinode);
    put_chains(&mut block, cpg, bpc, chain);
    block
}

/// A chain with so many clear bits of so many, of the group in this block.
fn chain(free: u32, total: u32, blkno: u64) -> Option<ChainRec> {
    Some(ChainRec { free, total, blkno })
}

/// One of the volume's own files with one cluster, which begins with this block.
pub fn own_file(inode: u16, flags: u32, blkno: u64) -> [u8; 512] {
    let dinode = Dinode {
        clusters: 1,
        size: 4096,
        ..own(inode, flags)
    };
    let mut block = block_of(&dinode);
    let record = ExtentRec {
        cpos: 0,
        size: ExtentSize(1),
        blkno,
    };
    put_record(&mut block, &record);
    block
}

/// The orphan directory, which names inode 32.
pub fn orphan_directory() -> [u8; 512] {
    let mut block = block_of(&inline_directory(own(22, 0x11), 48));
    block[0xc0] = 0x38;
    block[0xc1] = 0x01;
    put_dots(&mut block, INLINE, 22, 22);
    put_entry(&mut block, 232, 32, 16, FILE, b"o".as_slice());
    block
}

/// The window of slot 0: clusters 13 and 14, of which the first is in use.
pub fn window() -> [u8; 512] {
    let dinode = Dinode {
        role_data: RoleData(0x2_0000_0001),
        ..own(26, 0xd1)
    };
    let mut block = block_of(&dinode);
    let header = LocalAllocHeader {
        bm_off: 13,
        size: 304,
    };
    write_local_alloc_header(&mut block[0xc0..], &header);
    block[0xd0] = 0x1;
    block
}

/// Puts a truncate log of one record, cluster 12.
fn put_truncation(block: &mut [u8; 512]) {
    let header = TruncateLogHeader { count: 39, used: 1 };
    let record = TruncateRec {
        start: 12,
        clusters: 1,
    };
    write_truncate_log_header(&mut block[0xc0..], &header);
    write_truncate_rec(&mut block[0xc8..], &record);
}

/// The truncate log of slot 0, with cluster 12.
pub fn truncate_log() -> [u8; 512] {
    let mut block = block_of(&own(27, 0x811));
    put_truncation(&mut block);
    block
}

/// The superblock of the journal, whose log is empty.
pub fn journal_super() -> [u8; 512] {
    let fields = JournalSuper {
        magic: 0xc03b_3998,
        blocktype: 4,
        blocksize: 512,
        maxlen: 8,
        first: 1,
        sequence: 9,
        start: 0,
        feature_compat: 0,
        feature_incompat: 0,
        feature_ro_compat: 0,
        nr_users: 0,
    };
    let mut block = [0; 512];
    write_journal_super(&mut block, &fields);
    block
}

/// The global bitmap, with one group of 16 bits.
pub fn global_bitmap() -> [u8; 512] {
    with_chains(&allocator(19, 16, 15, 16), 3584, 1, chain(1, 16, 8))
}

/// The allocator of the volume's own inodes, with one group of 24 bits.
pub fn global_inode_alloc() -> [u8; 512] {
    with_chains(&allocator(20, 3, 18, 24), 3, 8, chain(6, 24, 16))
}

/// extent_alloc of slot 0, with one group of 8 bits.
pub fn extent_alloc() -> [u8; 512] {
    with_chains(&allocator(23, 1, 4, 8), 1, 8, chain(4, 8, 40))
}

/// inode_alloc of slot 0, which has no group.
pub fn inode_alloc() -> [u8; 512] {
    with_chains(&allocator(24, 0, 0, 0), 2, 8, None)
}
