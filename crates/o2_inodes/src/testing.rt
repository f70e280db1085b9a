// A small volume, by hand.
ghost use Rattle.std.specs.Prelude.{◌≡◌, ◌+◌, ◌≤◌, length};
ghost use Rattle.o2_view.specs.Geos.{HasSizes, HasNumbers, blocks_of};

use o2_model::Geo;
use o2_ondisk::{
    Dinode, DirEntry, DxSeed, DynFeatures, ExtentBlock, ExtentListHeader, ExtentRec, ExtentSize,
    InodeFlags, Signature, read_dinode, write_dinode, write_dir_entry, write_extent_block,
    write_extent_list_header, write_extent_rec,
};

// A volume of 3624 clusters of 4 KiB and two slots, with blocks of 512 bytes.
pub fn numbers() -> Geo
    ensures sizes { HasSizes result }
    ensures bits { result.block_bits ≡ 9 }
    ensures numbers { HasNumbers result }
    ensures blocks { blocks_of result ≡ 28992 }
{
    Geo {
        block_bits: 9,
        cluster_bits: 12,
        clusters: 3624,
        slots: 2,
        root: 33,
        sysdir: 34,
        first_group: 8,
        generation: 7,
        compat: 0,
        incompat: 0,
        seed: DxSeed {
            first: 0,
            second: 0,
            third: 0,
        },
    }
}

// The dinode in that block of an inode of this mode and size, whose last leaf block is this one, with an empty list.
pub fn inode(blkno: u64, mode: u16, size: u64, last_eb_blk: u64) -> [u8; 512] {
    let dinode = Dinode {
        signature: Signature::INODE01,
        suballoc_slot: 1,
        suballoc_bit: 5,
        links_count: 3,
        links_count_hi: 1,
        clusters: 2,
        size,
        mode,
        flags: InodeFlags::VALID,
        blkno,
        last_eb_blk,
        fs_generation: 7,
        dyn_features: DynFeatures::HAS_REFCOUNT,
        refcount_loc: 28992,
        ..read_dinode(&[0; 192])
    };
    let mut block = [0; 512];
    write_dinode(&mut block, &dinode);
    block
}

// The same with one record in its list, of this depth.
fn put_record(bytes: &mut [u8], tree_depth: u16, record: &ExtentRec)
    requires { 512 ≤ length bytes.old }
{
    let header = ExtentListHeader {
        tree_depth,
        count: 19,
        next_free_rec: 1,
    };
    write_extent_list_header(&mut bytes[0xc0..], &header);
    write_extent_rec(&mut bytes[0xd0..], record);
}

// A file in block 60 with two shared clusters from block 80 on.
pub fn file() -> [u8; 512] {
    let mut block = inode(60, 0o100644, 8000, 0);
    let record = ExtentRec {
        cpos: 0,
        size: ExtentSize(0x0200_0002),
        blkno: 80,
    };
    put_record(&mut block, 0, &record);
    block
}

// A file in block 66, whose list names extent block 70.
pub fn file_with_leaf() -> [u8; 512] {
    let mut block = inode(66, 0o100644, 8000, 70);
    let record = ExtentRec {
        cpos: 0,
        size: ExtentSize(2),
        blkno: 70,
    };
    put_record(&mut block, 1, &record);
    block
}

// Extent block 70, a leaf that names block 71 as the next one. Its list says that it has more records than fit.
pub fn leaf() -> [u8; 512] {
    let fields = ExtentBlock {
        signature: Signature::EXBLK01,
        suballoc_slot: 1,
        suballoc_bit: 6,
        fs_generation: 7,
        blkno: 70,
        suballoc_loc: 64,
        next_leaf_blk: 71,
    };
    let header = ExtentListHeader {
        tree_depth: 0,
        count: 29,
        next_free_rec: 1,
    };
    let mut block = [0; 512];
    write_extent_block(&mut block, &fields);
    write_extent_list_header(&mut block[0x30..], &header);
    block
}

// An entry of this length with its name.
fn put_entry(block: &mut [u8], at: usize, inode: u64, rec_len: u16, name: &[u8])
    requires room { at + 12 + length name.now ≤ length block.old }
    requires few { length name.now ≤ 255 }
{
    let fields = DirEntry {
        inode,
        rec_len,
        name_len: name.len() as u8,
        file_type: 1,
    };
    write_dir_entry(&mut block[at..], &fields);
    block[at + 12..at + 12 + name.len()].copy_from_slice(name);
}

// A directory in block 67 with extended attributes: the dots, `a`, `a` again, and `b/`, in its dinode.
pub fn directory() -> [u8; 512] {
    let mut block = inode(67, 0o040755, 80, 0);
    let dinode = Dinode {
        dyn_features: DynFeatures(DynFeatures::INLINE_DATA.0 | DynFeatures::HAS_XATTR.0),
        ..read_dinode(&block)
    };
    write_dinode(&mut block, &dinode);
    block[0xc0] = 255;
    put_entry(&mut block, 200, 67, 16, b".");
    put_entry(&mut block, 216, 33, 16, b"..");
    put_entry(&mut block, 232, 60, 16, b"a");
    put_entry(&mut block, 248, 61, 16, b"a");
    put_entry(&mut block, 264, 62, 16, b"b/");
    block
}
