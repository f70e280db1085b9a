// Dinodes of the whole volume.
ghost use Rattle.std.specs.Prelude.{◌≡◌, ◌+◌, ◌≤◌, length};

use o2_ondisk::{
    Dinode, DynFeatures, ExtentListHeader, ExtentRec, InodeFlags, RoleData, Signature, read_dinode,
    write_dinode, write_extent_list_header, write_extent_rec,
};

/// A file without clusters and links in this block, which has its bit in the group of inodes that begins block 16.
pub fn plain(block: u16) -> Dinode {
    Dinode {
        signature: Signature::INODE01,
        suballoc_slot: 0xffff,
        suballoc_bit: block.saturating_sub(16),
        mode: 0o100644,
        flags: InodeFlags::VALID,
        blkno: u64::from(block),
        fs_generation: 5,
        ..read_dinode(&[0; 192])
    }
}

/// One of the volume's own files, with one link and with these flags.
pub fn own(block: u16, flags: u32) -> Dinode {
    Dinode {
        links_count: 1,
        flags: InodeFlags(flags),
        ..plain(block)
    }
}

/// An allocator (VALID, SYSTEM, BITMAP and CHAIN) of so many clusters, with so many bits in use of so many.
pub fn allocator(block: u16, clusters: u32, used: u32, total: u32) -> Dinode {
    Dinode {
        clusters,
        role_data: RoleData(0x1_0000_0000 * u64::from(total) + u64::from(used)),
        ..own(block, 0x491)
    }
}

/// The same inode as a directory of so many bytes of entries, which stand in its dinode.
pub fn inline_directory(dinode: Dinode, size: u64) -> Dinode {
    Dinode {
        mode: 0o040755,
        links_count: 2,
        size,
        dyn_features: DynFeatures::INLINE_DATA,
        ..dinode
    }
}

/// A block with the dinode.
pub fn block_of(dinode: &Dinode) -> [u8; 512] {
    let mut block = [0; 512];
    write_dinode(&mut block, dinode);
    block
}

/// Puts a list of this one record, of 19 that fit, into the block of a dinode.
pub fn put_record(block: &mut [u8], record: &ExtentRec)
    requires { length block.old ≡ 512 }
    ensures { length block.new ≡ 512 }
{
    let header = ExtentListHeader {
        tree_depth: 0,
        count: 19,
        next_free_rec: 1,
    };
    write_extent_list_header(&mut block[0xc0..], &header);
    write_extent_rec(&mut block[0xd0..], record);
}
