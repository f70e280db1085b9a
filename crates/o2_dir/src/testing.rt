// A small volume, by hand.
ghost use Rattle.std.specs.Prelude.{◌≡◌, ◌+◌, ◌≤◌, length};
ghost use Rattle.o2_view.specs.Geos.{HasSizes, HasNumbers, blocks_of};

use o2_ondisk::{
    Dinode, DirEntry, DxSeed, DynFeatures, ExtentRec, ExtentSize, InodeFlags, Signature,
    read_dinode, write_dinode,
};
use o2_view::Geo;

// A volume of 40 clusters of 4 KiB, with blocks of 1 KiB.
pub fn numbers() -> Geo
    ensures sizes { HasSizes result }
    ensures bits { result.block_bits ≡ 10 }
    ensures numbers { HasNumbers result }
    ensures blocks { blocks_of result ≡ 160 }
{
    Geo {
        block_bits: 10,
        cluster_bits: 12,
        clusters: 40,
        slots: 1,
        root: 5,
        sysdir: 6,
        first_group: 4,
        generation: 7,
        compat: 0,
        incompat: 0,
        seed: DxSeed {
            first: 0,
            second: 0,
            third: 0,
        },
    }
}

// The dinode in this block, of so many bytes.
pub fn dinode(blkno: u64, mode: u16, size: u64) -> Dinode {
    Dinode {
        signature: Signature::INODE01,
        size,
        mode,
        flags: InodeFlags::VALID,
        blkno,
        fs_generation: 7,
        ..read_dinode(&[0; 192])
    }
}

pub fn record(cpos: u32, size: u32, blkno: u64) -> ExtentRec {
    ExtentRec {
        cpos,
        size: ExtentSize(size),
        blkno,
    }
}

// An entry of this length, which names a file.
pub fn entry(inode: u64, rec_len: u16, name_len: u8) -> DirEntry {
    DirEntry {
        inode,
        rec_len,
        name_len,
        file_type: 1,
    }
}

// Puts a text into a block.
pub fn put_text(block: &mut [u8], at: usize, text: &[u8])
    requires { at + length text.now ≤ length block.old }
{
    block[at..at + text.len()].copy_from_slice(text);
}

// The dinode, with room for so many inline bytes.
pub fn put_inline(block: &mut [u8], dinode: Dinode, count: u8)
    requires { 512 ≤ length block.old }
{
    let inline = Dinode {
        dyn_features: DynFeatures::INLINE_DATA,
        ..dinode
    };
    write_dinode(block, &inline);
    block[0xc0] = count;
}
