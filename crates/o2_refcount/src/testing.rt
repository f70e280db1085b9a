// A small volume with a refcount tree, by hand.
ghost use Rattle.std.specs.Prelude.{◌≡◌, ◌≤◌, length};
ghost use Rattle.o2_view.specs.Geos.{HasSizes, HasNumbers, blocks_of};

use crate::PlacedRefcount;
use o2_model::Geo;
use o2_ondisk::{
    DxSeed, ExtentListHeader, ExtentRec, ExtentSize, RefcountBlock, RefcountListHeader,
    RefcountRec, Signature, read_refcount_block, write_extent_list_header, write_extent_rec,
    write_refcount_block, write_refcount_list_header, write_refcount_rec,
};

// A volume of 40 clusters of 4 KiB, with blocks of 1 KiB.
pub fn numbers() -> Geo
    ensures sizes { HasSizes result }
    ensures bits { result.block_bits ≡ 10 }
    ensures numbers { HasNumbers result }
    ensures blocks { blocks_of result ≡ 160 }
{
    Geo {
        block_bits: 10,
        cluster_bits: 12,
        clusters: 40,
        slots: 1,
        root: 5,
        sysdir: 6,
        first_group: 4,
        generation: 7,
        compat: 0,
        incompat: 0,
        seed: DxSeed {
            first: 0,
            second: 0,
            third: 0,
        },
    }
}

pub fn record(cpos: u64, clusters: u32, refcount: u32) -> RefcountRec {
    RefcountRec {
        cpos,
        clusters,
        refcount,
    }
}

pub fn placed(block: u64, fields: RefcountRec) -> PlacedRefcount {
    PlacedRefcount { block, fields }
}

// A refcount block of the volume, without its list.
pub fn refcount_block(blkno: u64, flags: u32) -> [u8; 1024] {
    let fields = RefcountBlock {
        signature: Signature::REFCNT1,
        fs_generation: 7,
        blkno,
        flags,
        ..read_refcount_block(&[0; 80])
    };
    let mut block = [0; 1024];
    write_refcount_block(&mut block, &fields);
    block
}

// The first `used` of two records, in the bytes of a refcount block.
pub fn put_records(bytes: &mut [u8], used: u16, first: &RefcountRec, second: &RefcountRec)
    requires { 0xb0 ≤ length bytes.old }
{
    let header = RefcountListHeader { count: 55, used };
    write_refcount_list_header(&mut bytes[0x80..], &header);
    write_refcount_rec(&mut bytes[0x90..], first);
    write_refcount_rec(&mut bytes[0xa0..], second);
}

// A leaf with the first `used` of two records.
pub fn leaf_of(blkno: u64, used: u16, first: &RefcountRec, second: &RefcountRec) -> [u8; 1024] {
    let mut block = refcount_block(blkno, 1);
    put_records(&mut block, used, first, second);
    block
}

// A list that names two leaves, in the bytes of a refcount root.
pub fn put_leaves(bytes: &mut [u8], first: u64, second: u64)
    requires { 0xb0 ≤ length bytes.old }
{
    let header = ExtentListHeader {
        tree_depth: 0,
        count: 55,
        next_free_rec: 2,
    };
    write_extent_list_header(&mut bytes[0x80..], &header);
    write_extent_rec(&mut bytes[0x90..], &leaf(0, first));
    write_extent_rec(&mut bytes[0xa0..], &leaf(30, second));
}

// The root in block 8 of a tree with these two leaves.
pub fn root_of(first: u64, second: u64) -> [u8; 1024] {
    let mut block = refcount_block(8, 2);
    put_leaves(&mut block, first, second);
    block
}

pub fn leaf(cpos: u32, blkno: u64) -> ExtentRec {
    ExtentRec {
        cpos,
        size: ExtentSize(1),
        blkno,
    }
}
