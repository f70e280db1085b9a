ghost use Rattle.std.specs.Prelude.{◌≤◌};

use super::*;
use crate::{
    Dinode, DirEntry, DirTrailer, DynFeatures, ExtentBlock, ExtentFlags, ExtentListHeader,
    ExtentRec, ExtentSize, InodeFlags, JournalFlags, Kind, RoleData, Signature, read_dinode,
    read_dir_entry, read_dir_trailer, read_extent_block, read_extent_list_header, read_extent_rec,
    write_dinode, write_dir_entry, write_dir_trailer, write_extent_block, write_extent_list_header,
    write_extent_rec,
};

// Each byte is its own place.
fn numbered() -> [u8; 200] {
    let mut block = [0; 200];
    for place in 0..200u8 {
        block[usize::from(place)] = place;
    }
    block
}

// The block with 0xee from one place to another.
fn blank(mut block: [u8; 200], from: usize, to: usize) -> [u8; 200]
    requires { to ≤ 200 }
{
    for place in from..to {
        block[place] = 0xee;
    }
    block
}

#[test]
fn reads_and_writes_dinode(rt: HostRuntime) {
    let x = Dinode {
        signature: Signature(0x0706050403020100),
        generation: 0x0b0a0908,
        suballoc_slot: 0x0d0c,
        suballoc_bit: 0x0f0e,
        links_count_hi: 0x1110,
        xattr_inline_size: 0x1312,
        clusters: 0x17161514,
        uid: 0x1b1a1918,
        gid: 0x1f1e1d1c,
        size: 0x2726252423222120,
        mode: 0x2928,
        links_count: 0x2b2a,
        flags: InodeFlags(0x2f2e2d2c),
        atime: 0x3736353433323130,
        ctime: 0x3f3e3d3c3b3a3938,
        mtime: 0x4746454443424140,
        dtime: 0x4f4e4d4c4b4a4948,
        blkno: 0x5756555453525150,
        last_eb_blk: 0x5f5e5d5c5b5a5958,
        fs_generation: 0x63626160,
        atime_nsec: 0x67666564,
        ctime_nsec: 0x6b6a6968,
        mtime_nsec: 0x6f6e6d6c,
        attr: 0x73727170,
        orphaned_slot: 0x7574,
        dyn_features: DynFeatures(0x7776),
        xattr_loc: 0x7f7e7d7c7b7a7978,
        check: 0x8786858483828180,
        dx_root: 0x8f8e8d8c8b8a8988,
        refcount_loc: 0x9796959493929190,
        suballoc_loc: 0x9f9e9d9c9b9a9998,
        role_data: RoleData(0xbfbebdbcbbbab9b8),
    };
    assert_eq!(rt; read_dinode(&numbered()), x);

    let mut written = [0xee; 200];
    write_dinode(&mut written, &x);
    let want = numbered();
    let want = blank(want, 0xa0, 0xb8);
    let want = blank(want, 0xc0, 200);
    assert_eq!(rt; written, want);
}

#[test]
fn reads_and_writes_extent_rec(rt: HostRuntime) {
    let x = ExtentRec {
        cpos: 0x03020100,
        size: ExtentSize(0x07060504),
        blkno: 0x0f0e0d0c0b0a0908,
    };
    assert_eq!(rt; read_extent_rec(&numbered()), x);

    let mut written = [0xee; 200];
    write_extent_rec(&mut written, &x);
    let want = numbered();
    let want = blank(want, 0x10, 200);
    assert_eq!(rt; written, want);
}

#[test]
fn reads_and_writes_extent_list_header(rt: HostRuntime) {
    let x = ExtentListHeader {
        tree_depth: 0x0100,
        count: 0x0302,
        next_free_rec: 0x0504,
    };
    assert_eq!(rt; read_extent_list_header(&numbered()), x);

    let mut written = [0xee; 200];
    write_extent_list_header(&mut written, &x);
    let want = numbered();
    let want = blank(want, 6, 200);
    assert_eq!(rt; written, want);
}

#[test]
fn reads_and_writes_extent_block(rt: HostRuntime) {
    let x = ExtentBlock {
        signature: Signature(0x0706050403020100),
        suballoc_slot: 0x1110,
        suballoc_bit: 0x1312,
        fs_generation: 0x17161514,
        blkno: 0x1f1e1d1c1b1a1918,
        suballoc_loc: 0x2726252423222120,
        next_leaf_blk: 0x2f2e2d2c2b2a2928,
    };
    assert_eq!(rt; read_extent_block(&numbered()), x);

    let mut written = [0xee; 200];
    write_extent_block(&mut written, &x);
    let want = numbered();
    let want = blank(want, 0x8, 0x10);
    let want = blank(want, 0x30, 200);
    assert_eq!(rt; written, want);
}

#[test]
fn reads_and_writes_dir_entry(rt: HostRuntime) {
    let x = DirEntry {
        inode: 0x0706050403020100,
        rec_len: 0x0908,
        name_len: 0x0a,
        file_type: 0x0b,
    };
    assert_eq!(rt; read_dir_entry(&numbered()), x);

    let mut written = [0xee; 200];
    write_dir_entry(&mut written, &x);
    let want = numbered();
    let want = blank(want, 0xc, 200);
    assert_eq!(rt; written, want);
}

#[test]
fn reads_and_writes_dir_trailer(rt: HostRuntime) {
    let x = DirTrailer {
        inode: 0x0706050403020100,
        rec_len: 0x0908,
        signature: Signature(0x1716151413121110),
        blkno: 0x2f2e2d2c2b2a2928,
        parent_dinode: 0x3736353433323130,
    };
    assert_eq!(rt; read_dir_trailer(&numbered()), x);

    let mut written = [0xee; 200];
    write_dir_trailer(&mut written, &x);
    let want = numbered();
    let want = blank(want, 0xa, 0x10);
    let want = blank(want, 0x18, 0x28);
    let want = blank(want, 0x38, 200);
    assert_eq!(rt; written, want);
}

#[test]
fn reads_bytes_by_their_place(rt: HostRuntime) {
    let data = RoleData(0x0102030400000001);
    assert_eq!(rt; data.device(), 0x0102030400000001);
    assert_eq!(rt; data.used(), 1);
    assert_eq!(rt; data.total(), 0x01020304);
    assert_eq!(rt; data.journal_flags(), JournalFlags::DIRTY);
    assert_eq!(rt; data.recovery_generation(), 0x01020304);

    let size = ExtentSize(0x02ff1234);
    assert_eq!(rt; size.int_clusters(), 0x02ff1234);
    assert_eq!(rt; size.leaf_clusters(), 0x1234);
    assert_eq!(rt; size.flags(), ExtentFlags::REFCOUNTED);
    assert!(rt; !size.flags().has(ExtentFlags::UNWRITTEN));
}

#[test]
fn tells_kinds(rt: HostRuntime) {
    let table = [
        (0o100644, 1, Some(Kind::File)),
        (0o041777, 2, Some(Kind::Directory)),
        (0o020600, 3, Some(Kind::Character)),
        (0o060600, 4, Some(Kind::Block)),
        (0o010600, 5, Some(Kind::Fifo)),
        (0o140600, 6, Some(Kind::Socket)),
        (0o120777, 7, Some(Kind::Link)),
        (0o110777, 8, None),
        (0o000777, 0, None),
    ];
    for (mode, file_type, kind) in table {
        assert_eq!(rt; Kind::of_mode(mode), kind);
        assert_eq!(rt; Kind::of_type(file_type), kind);
    }
}

#[test]
fn signatures_begin_with_their_first_letter(rt: HostRuntime) {
    assert_eq!(rt; Signature::INODE01.0.to_le_bytes(), *b"INODE01\0");
    assert_eq!(rt; Signature::OCFSV2.0.to_le_bytes(), *b"OCFSV2\0\0");
}
