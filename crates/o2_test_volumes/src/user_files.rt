// The files and directories of users, in blocks 28 to 33 of the whole volume, and what their blocks hold.
use crate::dinodes::{block_of, inline_directory, plain, put_record};
use crate::entries::{DIRECTORY, FILE, INLINE, LINK, put_dots, put_entry};
use o2_ondisk::{
    Dinode, DirTrailer, DxEntry, DxListHeader, DxRoot, DynFeatures, ExtentBlock, ExtentListHeader,
    ExtentRec, ExtentSize, InodeFlags, RefcountBlock, RefcountListHeader, RefcountRec, Signature,
    read_dx_root, read_refcount_block, write_dir_trailer, write_dx_entry, write_dx_list_header,
    write_dx_root, write_extent_block, write_extent_list_header, write_extent_rec,
    write_refcount_block, write_refcount_list_header, write_refcount_rec,
};

/// The root: the directory `d`, the files `f`, `a` and `b`, and the link `l`.
pub fn root() -> [u8; 512] {
    let dinode = Dinode {
        links_count: 3,
        ..inline_directory(plain(18), 112)
    };
    let mut block = block_of(&dinode);
    block[0xc0] = 0x38;
    block[0xc1] = 0x01;
    put_dots(&mut block, INLINE, 18, 18);
    put_entry(&mut block, 232, 28, 16, DIRECTORY, b"d".as_slice());
    put_entry(&mut block, 248, 29, 16, FILE, b"f".as_slice());
    put_entry(&mut block, 264, 30, 16, FILE, b"a".as_slice());
    put_entry(&mut block, 280, 31, 16, FILE, b"b".as_slice());
    put_entry(&mut block, 296, 33, 16, LINK, b"l".as_slice());
    block
}

/// The dinode with a list of this one record.
fn with_record(dinode: &Dinode, cpos: u32, size: u32, blkno: u64) -> [u8; 512] {
    let mut block = block_of(dinode);
    let record = ExtentRec {
        cpos,
        size: ExtentSize(size),
        blkno,
    };
    put_record(&mut block, &record);
    block
}

/// The directory `d`, with one block and an index.
pub fn directory() -> [u8; 512] {
    let dinode = Dinode {
        mode: 0o040755,
        links_count: 2,
        clusters: 1,
        size: 512,
        dyn_features: DynFeatures::INDEXED_DIR,
        dx_root: 43,
        ..plain(28)
    };
    with_record(&dinode, 0, 1, 72)
}

/// Its block: the dots, a further name of file 29, and the trailer.
pub fn directory_block() -> [u8; 512] {
    let mut block = [0; 512];
    put_dots(&mut block, 0, 28, 18);
    put_entry(&mut block, 32, 29, 416, FILE, b"h".as_slice());
    let trailer = DirTrailer {
        inode: 0,
        rec_len: 64,
        signature: Signature::DIRTRL1,
        blkno: 0,
        parent_dinode: 0,
    };
    write_dir_trailer(&mut block[448..], &trailer);
    block
}

/// Its index, whose three entries stand in the root of the index.
pub fn index_root() -> [u8; 512] {
    let fields = DxRoot {
        signature: Signature::DXDIR01,
        suballoc_bit: 3,
        fs_generation: 5,
        blkno: 43,
        flags: 1,
        dir_blkno: 28,
        num_entries: 3,
        ..read_dx_root(&[0; 512])
    };
    let mut block = [0; 512];
    write_dx_root(&mut block, &fields);
    let header = DxListHeader {
        count: 19,
        num_used: 3,
    };
    write_dx_list_header(&mut block[0xc0..], &header);
    put_index_entries(&mut block);
    block
}

/// The entries of the index: the dots, and `h`.
fn put_index_entries(block: &mut [u8; 512]) {
    let dot = DxEntry {
        major_hash: 0,
        minor_hash: 0,
        dirent_blk: 72,
    };
    let named = DxEntry {
        major_hash: 0xe97f_8bba,
        minor_hash: 0xf0a7_cad4,
        dirent_blk: 72,
    };
    write_dx_entry(&mut block[0xc8..], &dot);
    write_dx_entry(&mut block[0xd8..], &dot);
    write_dx_entry(&mut block[0xe8..], &named);
}

/// The file `f`, with two names: two clusters with a hole of one between them, whose records stand in an extent block.
pub fn file_with_hole() -> [u8; 512] {
    let dinode = Dinode {
        links_count: 2,
        clusters: 2,
        size: 12288,
        last_eb_blk: 41,
        ..plain(29)
    };
    let mut block = with_record(&dinode, 0, 3, 41);
    block[0xc0] = 1;
    block
}

/// Puts the list of its extent block: cluster 0 in block 80, and cluster 2 in block 104.
fn put_two_records(block: &mut [u8; 512]) {
    let header = ExtentListHeader {
        tree_depth: 0,
        count: 28,
        next_free_rec: 2,
    };
    let first = ExtentRec {
        cpos: 0,
        size: ExtentSize(1),
        blkno: 80,
    };
    let second = ExtentRec {
        cpos: 2,
        size: ExtentSize(1),
        blkno: 104,
    };
    write_extent_list_header(&mut block[0x30..], &header);
    write_extent_rec(&mut block[0x40..], &first);
    write_extent_rec(&mut block[0x50..], &second);
}

/// Its extent block.
pub fn extent_block() -> [u8; 512] {
    let fields = ExtentBlock {
        signature: Signature::EXBLK01,
        suballoc_slot: 0,
        suballoc_bit: 1,
        fs_generation: 5,
        blkno: 41,
        suballoc_loc: 0,
        next_leaf_blk: 0,
    };
    let mut block = [0; 512];
    write_extent_block(&mut block, &fields);
    put_two_records(&mut block);
    block
}

/// One of the files `a` and `b`, which share the cluster with `hello`.
pub fn shared_file(inode: u16) -> [u8; 512] {
    let dinode = Dinode {
        links_count: 1,
        clusters: 1,
        size: 5,
        dyn_features: DynFeatures::HAS_REFCOUNT,
        refcount_loc: 42,
        ..plain(inode)
    };
    with_record(&dinode, 0, 0x0200_0001, 88)
}

/// Puts a list of one refcount record: cluster 11, which is referred to twice.
fn put_refcount(block: &mut [u8; 512]) {
    let header = RefcountListHeader { count: 23, used: 1 };
    let record = RefcountRec {
        cpos: 11,
        clusters: 1,
        refcount: 2,
    };
    write_refcount_list_header(&mut block[0x80..], &header);
    write_refcount_rec(&mut block[0x90..], &record);
}

/// The refcount tree of these two files, in one block.
pub fn refcount_block() -> [u8; 512] {
    let fields = RefcountBlock {
        signature: Signature::REFCNT1,
        suballoc_bit: 2,
        fs_generation: 5,
        blkno: 42,
        count: 2,
        ..read_refcount_block(&[0; 512])
    };
    let mut block = [0; 512];
    write_refcount_block(&mut block, &fields);
    put_refcount(&mut block);
    block
}

/// A file without a name, which the orphan directory has.
pub fn orphan() -> [u8; 512] {
    let dinode = Dinode {
        clusters: 1,
        size: 4096,
        flags: InodeFlags(0x5),
        ..plain(32)
    };
    with_record(&dinode, 0, 1, 64)
}

/// The link `l` to `f`, whose text stands in its dinode.
pub fn link() -> [u8; 512] {
    let dinode = Dinode {
        mode: 0o120777,
        links_count: 1,
        size: 1,
        ..plain(33)
    };
    let mut block = block_of(&dinode);
    block[0xc0] = b'f';
    block
}

/// The data that `a` and `b` share.
pub fn shared_data() -> [u8; 512] {
    let mut block = [0; 512];
    block[..5].copy_from_slice(b"hello");
    block
}
