// The dinode: the block of an inode, up to what it holds of its own.
ghost use Rattle.std.specs.Prelude.{◌≡◌, ◌≤◌, ◌+◌, ◌*◌, ℕ, length, slice_index};
ghost use Rattle.o2_ondisk.specs.Fields.{Fit, put_all, IsOutside};
ghost use Rattle.o2_ondisk.specs.Dinodes.{dinode_of, dinode_numbers, dinode_fields};

use crate::number::{u16_at, u32_at, u64_at, wide16, wide32, wide64};
use crate::{DynFeatures, Field, InodeFlags, Kind, Layout, RoleData, Signature, put_numbers};

/// Where the last field ends, and what the dinode holds of its own begins.
pub const DINODE_SIZE: usize = 0xc0;

/// The numbers of a dinode.
pub const DINODE: Layout<32> = Layout {
    fields: [
        Field { at: 0x0, width: 8 },
        Field { at: 0x8, width: 4 },
        Field { at: 0xc, width: 2 },
        Field { at: 0xe, width: 2 },
        Field { at: 0x10, width: 2 },
        Field { at: 0x12, width: 2 },
        Field { at: 0x14, width: 4 },
        Field { at: 0x18, width: 4 },
        Field { at: 0x1c, width: 4 },
        Field { at: 0x20, width: 8 },
        Field { at: 0x28, width: 2 },
        Field { at: 0x2a, width: 2 },
        Field { at: 0x2c, width: 4 },
        Field { at: 0x30, width: 8 },
        Field { at: 0x38, width: 8 },
        Field { at: 0x40, width: 8 },
        Field { at: 0x48, width: 8 },
        Field { at: 0x50, width: 8 },
        Field { at: 0x58, width: 8 },
        Field { at: 0x60, width: 4 },
        Field { at: 0x64, width: 4 },
        Field { at: 0x68, width: 4 },
        Field { at: 0x6c, width: 4 },
        Field { at: 0x70, width: 4 },
        Field { at: 0x74, width: 2 },
        Field { at: 0x76, width: 2 },
        Field { at: 0x78, width: 8 },
        Field { at: 0x80, width: 8 },
        Field { at: 0x88, width: 8 },
        Field { at: 0x90, width: 8 },
        Field { at: 0x98, width: 8 },
        Field { at: 0xb8, width: 8 },
    ],
};

/// The fields of `struct ocfs2_dinode` before its last union.
#[derive(Clone, Copy, Debug, PartialEq, Eq)]
pub struct Dinode {
    pub signature: Signature,
    pub generation: u32,
    /// The slot of the suballocator that the block is from.
    pub suballoc_slot: u16,
    /// The block's bit in its group of that suballocator.
    pub suballoc_bit: u16,
    pub links_count_hi: u16,
    pub xattr_inline_size: u16,
    pub clusters: u32,
    pub uid: u32,
    pub gid: u32,
    /// The length of what the inode holds, in bytes.
    pub size: u64,
    pub mode: u16,
    pub links_count: u16,
    pub flags: InodeFlags,
    pub atime: u64,
    pub ctime: u64,
    pub mtime: u64,
    pub dtime: u64,
    /// The block that this dinode is in.
    pub blkno: u64,
    /// The last of the leaf blocks of the inode's extents.
    pub last_eb_blk: u64,
    pub fs_generation: u32,
    pub atime_nsec: u32,
    pub ctime_nsec: u32,
    pub mtime_nsec: u32,
    pub attr: u32,
    /// The slot whose orphan directory names the inode, with ORPHANED.
    pub orphaned_slot: u16,
    pub dyn_features: DynFeatures,
    pub xattr_loc: u64,
    /// The block's checksum and error-correcting code, with META_ECC. Nothing here reads it.
    pub check: u64,
    /// The block of a directory's index, with INDEXED_DIR.
    pub dx_root: u64,
    /// The block of the inode's refcount tree, with HAS_REFCOUNT.
    pub refcount_loc: u64,
    /// The block of the group that the block is from.
    pub suballoc_loc: u64,
    pub role_data: RoleData,
}

impl Dinode {
    ghost use Rattle.o2_ondisk.specs.Kinds.{kind_of_mode};

    /// How many entries name the inode.
    pub fn links(&self) -> u32
        ensures { result ≡ self.now.links_count_hi * 65536 + self.now.links_count }
    {
        u32::from(self.links_count_hi) * 65536 + u32::from(self.links_count)
    }

    /// The kind that the mode says, if its bits are one's.
    pub fn kind(&self) -> Option<Kind>
        ensures { result ≡ kind_of_mode self.now.mode }
    {
        Kind::of_mode(self.mode)
    }
}

/// A dinode's fields. `block` begins where the dinode does.
pub fn read_dinode(block: &[u8]) -> Dinode
    requires { DINODE_SIZE ≤ length block.now }
    ensures { result ≡ dinode_of block.now }
{
    Dinode {
        signature: Signature(u64_at(block, 0x0)),
        generation: u32_at(block, 0x8),
        suballoc_slot: u16_at(block, 0xc),
        suballoc_bit: u16_at(block, 0xe),
        links_count_hi: u16_at(block, 0x10),
        xattr_inline_size: u16_at(block, 0x12),
        clusters: u32_at(block, 0x14),
        uid: u32_at(block, 0x18),
        gid: u32_at(block, 0x1c),
        size: u64_at(block, 0x20),
        mode: u16_at(block, 0x28),
        links_count: u16_at(block, 0x2a),
        flags: InodeFlags(u32_at(block, 0x2c)),
        atime: u64_at(block, 0x30),
        ctime: u64_at(block, 0x38),
        mtime: u64_at(block, 0x40),
        dtime: u64_at(block, 0x48),
        blkno: u64_at(block, 0x50),
        last_eb_blk: u64_at(block, 0x58),
        fs_generation: u32_at(block, 0x60),
        atime_nsec: u32_at(block, 0x64),
        ctime_nsec: u32_at(block, 0x68),
        mtime_nsec: u32_at(block, 0x6c),
        attr: u32_at(block, 0x70),
        orphaned_slot: u16_at(block, 0x74),
        dyn_features: DynFeatures(u16_at(block, 0x76)),
        xattr_loc: u64_at(block, 0x78),
        check: u64_at(block, 0x80),
        dx_root: u64_at(block, 0x88),
        refcount_loc: u64_at(block, 0x90),
        suballoc_loc: u64_at(block, 0x98),
        role_data: RoleData(u64_at(block, 0xb8)),
    }
}

fn dinode_values(x: &Dinode) -> [u64; 32]
    ensures values { result ≡ dinode_numbers x.now }
    ensures fit { Fit DINODE.fields (dinode_numbers x.now) }
{
    [
        wide64(x.signature.0),
        wide32(x.generation),
        wide16(x.suballoc_slot),
        wide16(x.suballoc_bit),
        wide16(x.links_count_hi),
        wide16(x.xattr_inline_size),
        wide32(x.clusters),
        wide32(x.uid),
        wide32(x.gid),
        wide64(x.size),
        wide16(x.mode),
        wide16(x.links_count),
        wide32(x.flags.0),
        wide64(x.atime),
        wide64(x.ctime),
        wide64(x.mtime),
        wide64(x.dtime),
        wide64(x.blkno),
        wide64(x.last_eb_blk),
        wide32(x.fs_generation),
        wide32(x.atime_nsec),
        wide32(x.ctime_nsec),
        wide32(x.mtime_nsec),
        wide32(x.attr),
        wide16(x.orphaned_slot),
        wide16(x.dyn_features.0),
        wide64(x.xattr_loc),
        wide64(x.check),
        wide64(x.dx_root),
        wide64(x.refcount_loc),
        wide64(x.suballoc_loc),
        wide64(x.role_data.0),
    ]
}

/// Puts a dinode's fields. `block` begins where the dinode does.
pub fn write_dinode(block: &mut [u8], x: &Dinode)
    requires { DINODE_SIZE ≤ length block.old }
    ensures put { block.new ≡ put_all dinode_fields (dinode_numbers x.now) block.old }
    // A read gives them back.
    ensures back { dinode_of block.new ≡ x.now }
    // A byte outside all fields stays, within the structure and past it.
    ensures alone { (i : ℕ) → IsOutside dinode_fields i → slice_index block.new i ≡ slice_index block.old i }
{
    put_numbers(block, &DINODE.fields, &dinode_values(x));
}
