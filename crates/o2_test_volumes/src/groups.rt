// The superblock and the groups of the whole volume.
use crate::dinodes::{block_of, plain};
use o2_ondisk::{Dinode, GroupDesc, InodeFlags, Signature, write_group_desc};

/// Block 2: the superblock of 16 clusters of 4 KiB, with blocks of 512 bytes, one slot, the first group in block 8, the root in
/// block 18 and the system directory in block 17. Its hashes have the seed 1, 2, 3.
pub fn super_block() -> [u8; 512] {
    let dinode = Dinode {
        signature: Signature::OCFSV2,
        clusters: 16,
        flags: InodeFlags(0x31),
        ..plain(2)
    };
    let mut block = block_of(&dinode);
    block[0xe0] = 0x50;
    block[0xe1] = 0x15;
    block[0xe8] = 18;
    block[0xf0] = 17;
    block[0xf8] = 9;
    block[0xfc] = 12;
    block[0x100] = 1;
    block[0x108] = 8;
    block[0x17c] = 1;
    block[0x180] = 2;
    block[0x184] = 3;
    block
}

/// The group in this block, of the allocator in that one, with so many bits, so many of them clear, and with this bitmap.
pub fn group(
    block: u64,
    allocator: u64,
    bits: u16,
    free_bits_count: u16,
    bitmap: [u8; 3],
) -> [u8; 512] {
    let desc = GroupDesc {
        signature: Signature::GROUP01,
        size: 448,
        bits,
        free_bits_count,
        chain: 0,
        generation: 5,
        next_group: 0,
        parent_dinode: allocator,
        blkno: block,
    };
    let mut bytes = [0; 512];
    write_group_desc(&mut bytes, &desc);
    bytes[0x40..0x43].copy_from_slice(&bitmap);
    bytes
}
