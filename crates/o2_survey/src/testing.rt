// A small volume, by hand.
ghost use Rattle.std.specs.Prelude.{◌≡◌, ◌≤◌, length};
ghost use Rattle.o2_view.specs.Geos.{HasSizes, HasNumbers, blocks_of};

use crate::SystemNames;
use o2_model::{Bytes, Entry, Geo};
use o2_ondisk::{
    ChainListHeader, ChainRec, Dinode, DxSeed, InodeFlags, RoleData, Signature, read_dinode,
    write_chain_list_header, write_chain_rec, write_dinode,
};
use o2_tally::put;
use o2_view::ViewFault;
use std::alloc::{AllocError, Global};

// A volume of 3624 clusters of 4 KiB and two slots, with blocks of 512 bytes.
pub fn numbers() -> Geo
    ensures sizes { HasSizes result }
    ensures bits { result.block_bits ≡ 9 }
    ensures numbers { HasNumbers result }
    ensures blocks { blocks_of result ≡ 28992 }
{
    Geo {
        block_bits: 9,
        cluster_bits: 12,
        clusters: 3624,
        slots: 2,
        root: 33,
        sysdir: 34,
        first_group: 8,
        generation: 7,
        compat: 0,
        incompat: 0,
        seed: DxSeed {
            first: 0,
            second: 0,
            third: 0,
        },
    }
}

// What each entry of the system directory names, in order.
const NAMED: [(&str, u64); 12] = [
    (".", 34),
    ("journal:0001", 51),
    ("inode_alloc:0000", 44),
    ("global_bitmap", 40),
    ("extent_alloc:0001", 28992),
    ("extent_alloc:0000", 43),
    ("global_bitmap", 41),
    ("inode_alloc:0001", 45),
    ("global_inode_alloc", 42),
    ("journal:0000", 50),
    ("slot_map", 46),
    ("orphan_dir:0000", 52),
];

// A live entry of that directory.
fn entry(alloc: Global, name: &str, inode: u64) -> Result<Entry, AllocError> {
    let name = name.as_bytes().to_vec(alloc)?;
    Ok(Entry {
        inode,
        file_type: 1,
        name: Bytes::from(name),
        block: 34,
        at: 0,
    })
}

// Its entries.
pub fn system_entries(alloc: Global) -> Result<Vec<Entry>, ViewFault> {
    let mut entries = Vec::new(alloc);
    for (name, inode) in &NAMED {
        let entry = entry(alloc, name, *inode)?;
        put(&mut entries, entry)?;
    }
    Ok(entries)
}

// Its names.
pub fn system_names(alloc: Global) -> Result<SystemNames, ViewFault> {
    let entries = system_entries(alloc)?;
    let names = SystemNames::new(alloc, &entries)?;
    Ok(names)
}

// The dinode in that block, with the flags and with so many bits set of so many.
pub fn dinode(blkno: u64, flags: u32, used: u32, total: u32) -> [u8; 512] {
    let dinode = Dinode {
        signature: Signature::INODE01,
        blkno,
        fs_generation: 7,
        flags: InodeFlags(flags),
        role_data: RoleData(0x1_0000_0000 * u64::from(total) + u64::from(used)),
        ..read_dinode(&[0; 192])
    };
    let mut block = [0; 512];
    write_dinode(&mut block, &dinode);
    block
}

// The same of an allocator: it is valid, and has the flag of chains. Its chain list is not sound.
pub fn allocator(blkno: u64, used: u32, total: u32) -> [u8; 512] {
    dinode(blkno, 0x401, used, total)
}

// Its chain list, of groups of so many clusters with so many bits each, and of so many chains.
fn put_chains(bytes: &mut [u8], cpg: u16, bpc: u16, chains: u16)
    requires { 512 ≤ length bytes.old }
{
    let header = ChainListHeader {
        cpg,
        bpc,
        count: 19,
        next_free_rec: chains,
    };
    write_chain_list_header(&mut bytes[0xc0..], &header);
    write_chain_rec(&mut bytes[0xd0..], &FIRST_CHAIN);
    write_chain_rec(&mut bytes[0xe0..], &SECOND_CHAIN);
}

pub const FIRST_CHAIN: ChainRec = ChainRec {
    free: 3578,
    total: 3584,
    blkno: 8,
};

pub const SECOND_CHAIN: ChainRec = ChainRec {
    free: 39,
    total: 40,
    blkno: 28672,
};

// The global bitmap, with two chains.
pub fn bitmap() -> [u8; 512] {
    let mut block = allocator(40, 7, 3624);
    put_chains(&mut block, 3584, 1, 2);
    block
}

// extent_alloc of slot 0, with one chain.
pub fn extent_alloc() -> [u8; 512] {
    let mut block = allocator(43, 1, 512);
    put_chains(&mut block, 64, 8, 1);
    block
}
