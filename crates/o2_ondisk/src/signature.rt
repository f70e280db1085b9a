// The letters that say what a structure is.
ghost use Rattle.std.specs.Prelude.{◌≡◌, ◌∷◌, ◌++◌, [], codes};
ghost use Rattle.byteorder.specs.Endian.{little_number};
ghost use Rattle.o2_ondisk.specs.Signatures.{superblock_signature, inode_signature, extent_block_signature, group_signature, dx_root_signature, dx_leaf_signature, refcount_block_signature, dir_trailer_signature};

/// The letters that say what a structure is, filled up with NUL to 8 bytes, as the number that these are.
#[derive(Clone, Copy, Debug, PartialEq, Eq)]
pub struct Signature(pub u64);

impl Signature {
    /// `OCFSV2`: the block of the super, whose dinode holds the super's part.
    pub const OCFSV2: Self = Self(0x0000_3256_5346_434f);

    /// `INODE01`: every other dinode.
    pub const INODE01: Self = Self(0x0031_3045_444f_4e49);

    /// `EXBLK01`: a block of an extent list.
    pub const EXBLK01: Self = Self(0x0031_304b_4c42_5845);

    /// `GROUP01`: a group descriptor of a chain allocator.
    pub const GROUP01: Self = Self(0x0031_3050_554f_5247);

    /// `DXDIR01`: the root of a directory's index.
    pub const DXDIR01: Self = Self(0x0031_3052_4944_5844);

    /// `DXLEAF1`: a leaf of a directory's index.
    pub const DXLEAF1: Self = Self(0x0031_4641_454c_5844);

    /// `REFCNT1`: a block of a refcount tree.
    pub const REFCNT1: Self = Self(0x0031_544e_4346_4552);

    /// `DIRTRL1`: the trailer of a directory block.
    pub const DIRTRL1: Self = Self(0x0031_4c52_5452_4944);
}

/// A law: each signature is its letters.
pub fn signatures_are_letters()
    ensures superblock { Signature.OCFSV2 ≡ record { 0 = superblock_signature } }
    ensures inode { Signature.INODE01 ≡ record { 0 = inode_signature } }
    ensures extent_block { Signature.EXBLK01 ≡ record { 0 = extent_block_signature } }
    ensures group { Signature.GROUP01 ≡ record { 0 = group_signature } }
    ensures dx_root { Signature.DXDIR01 ≡ record { 0 = dx_root_signature } }
    ensures dx_leaf { Signature.DXLEAF1 ≡ record { 0 = dx_leaf_signature } }
    ensures refcount_block { Signature.REFCNT1 ≡ record { 0 = refcount_block_signature } }
    ensures dir_trailer { Signature.DIRTRL1 ≡ record { 0 = dir_trailer_signature } }
    ensures superblock_letters { superblock_signature ≡ little_number 8 (codes "OCFSV2" ++ 0 ∷ 0 ∷ []) }
    ensures inode_letters { inode_signature ≡ little_number 8 (codes "INODE01" ++ 0 ∷ []) }
    ensures extent_block_letters { extent_block_signature ≡ little_number 8 (codes "EXBLK01" ++ 0 ∷ []) }
    ensures group_letters { group_signature ≡ little_number 8 (codes "GROUP01" ++ 0 ∷ []) }
    ensures dx_root_letters { dx_root_signature ≡ little_number 8 (codes "DXDIR01" ++ 0 ∷ []) }
    ensures dx_leaf_letters { dx_leaf_signature ≡ little_number 8 (codes "DXLEAF1" ++ 0 ∷ []) }
    ensures refcount_block_letters { refcount_block_signature ≡ little_number 8 (codes "REFCNT1" ++ 0 ∷ []) }
    ensures dir_trailer_letters { dir_trailer_signature ≡ little_number 8 (codes "DIRTRL1" ++ 0 ∷ []) }
{}
