// A small directory with an index, by hand.
ghost use Rattle.std.specs.Prelude.{◌≡◌, ◌+◌, ◌*◌, ◌<◌, ◌≤◌, length};
ghost use Rattle.o2_view.specs.Geos.{HasSizes, HasNumbers, blocks_of};

use o2_model::{Bytes, Entry, Geo};
use o2_ondisk::{
    DxEntry, DxLeaf, DxListHeader, DxRoot, DxSeed, ExtentListHeader, ExtentRec, ExtentSize,
    Signature, read_dx_root, write_dx_entry, write_dx_leaf, write_dx_list_header, write_dx_root,
    write_extent_list_header, write_extent_rec,
};
use std::alloc::Global;
use std::test::Fail;

// A volume of 40 clusters of 4 KiB, with blocks of 1 KiB.
pub fn numbers() -> Geo
    ensures sizes { HasSizes result }
    ensures bits { result.block_bits ≡ 10 }
    ensures numbers { HasNumbers result }
    ensures blocks { blocks_of result ≡ 160 }
{
    Geo {
        block_bits: 10,
        cluster_bits: 12,
        clusters: 40,
        slots: 1,
        root: 5,
        sysdir: 6,
        first_group: 4,
        generation: 7,
        compat: 0,
        incompat: 0,
        seed: DxSeed {
            first: 0x0102_0304,
            second: 0xa0b0_c0d0,
            third: 0,
        },
    }
}

// An entry of this name in block 12.
fn entry(alloc: Global, name: &[u8]) -> Result<Entry, Fail> {
    Ok(Entry {
        inode: 30,
        file_type: 1,
        name: Bytes::from(Vec::from_slice(alloc, name)?),
        block: 12,
        at: 0,
    })
}

// The dots and a file.
pub fn entries(alloc: Global) -> Result<Vec<Entry>, Fail> {
    let mut entries = Vec::new(alloc);
    entries.push(entry(alloc, b".")?)?;
    entries.push(entry(alloc, b"..")?)?;
    entries.push(entry(alloc, b"abc")?)?;
    Ok(entries)
}

// The index entry of this hash for a name in block 12.
fn hashed(major_hash: u32, minor_hash: u32) -> DxEntry {
    DxEntry {
        major_hash,
        minor_hash,
        dirent_blk: 12,
    }
}

// The index entry of each dot.
pub fn dot() -> DxEntry {
    hashed(0, 0)
}

// The index entry of the file.
pub fn file() -> DxEntry {
    hashed(0xcfd5_db9b, 0xae3b_f17d)
}

// The list at this place has these entries.
fn put_list(block: &mut [u8], at: usize, entries: &[DxEntry])
    requires room { at + 8 + 16 * length entries.now ≤ length block.old }
    requires few { length entries.now < 50 }
{
    let header = DxListHeader {
        count: 50,
        num_used: entries.len() as u16,
    };
    write_dx_list_header(&mut block[at..], &header);
    for k in 0..entries.len() {
        write_dx_entry(&mut block[at + 8 + 16 * k..], &entries[k]);
    }
}

// The leaf in this block.
pub fn leaf(blkno: u64, entries: &[DxEntry]) -> [u8; 1024]
    requires { length entries.now < 50 }
{
    let leaf = DxLeaf {
        signature: Signature::DXLEAF1,
        blkno,
        fs_generation: 7,
    };
    let mut block = [0; 1024];
    write_dx_leaf(&mut block, &leaf);
    put_list(&mut block, 0x28, entries);
    block
}

// The root in block 20 of the index of the directory in block 9, which has three entries.
fn root(flags: u8) -> DxRoot {
    DxRoot {
        signature: Signature::DXDIR01,
        suballoc_slot: 1,
        suballoc_bit: 6,
        fs_generation: 7,
        blkno: 20,
        flags,
        dir_blkno: 9,
        num_entries: 3,
        suballoc_loc: 14,
        ..read_dx_root(&[0; 192])
    }
}

// The same root with the entries in it.
pub fn root_with_entries() -> [u8; 1024] {
    let mut block = [0; 1024];
    write_dx_root(&mut block, &root(1));
    put_list(&mut block, 0xc0, &[dot(), file(), dot()]);
    block
}

// The list in the root names the cluster at block 40.
fn put_leaves(block: &mut [u8])
    requires { 1024 ≤ length block.old }
{
    let header = ExtentListHeader {
        tree_depth: 0,
        count: 51,
        next_free_rec: 1,
    };
    let record = ExtentRec {
        cpos: 0,
        size: ExtentSize(1),
        blkno: 40,
    };
    write_extent_list_header(&mut block[0xc0..], &header);
    write_extent_rec(&mut block[0xd0..], &record);
}

// The same root, whose leaves are the blocks of the cluster at block 40.
pub fn root_with_leaves() -> [u8; 1024] {
    let mut block = [0; 1024];
    write_dx_root(&mut block, &root(0));
    put_leaves(&mut block);
    block
}
