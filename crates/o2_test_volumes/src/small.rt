// The small volume: the root with the file `a`, of which one of two clusters is there.
ghost use Rattle.std.specs.Prelude.{◌≡◌, ◌+◌, ◌≤◌, length};
ghost use Rattle.o2_disk.specs.Device.{SameDevice, IsWritable, HasCause};

use o2_disk::{Disk, Failed};
use o2_ondisk::{
    Dinode, DirEntry, DynFeatures, ExtentListHeader, ExtentRec, ExtentSize, InodeFlags, Signature,
    read_dinode, write_dinode, write_dir_entry, write_extent_list_header, write_extent_rec,
};

// The dinode in this block, of so many bytes, with one link.
fn dinode(blkno: u64, mode: u16, size: u64) -> Dinode {
    Dinode {
        signature: Signature::INODE01,
        size,
        mode,
        links_count: 1,
        flags: InodeFlags::VALID,
        blkno,
        ..read_dinode(&[0; 192])
    }
}

// The first sector of block 2: 16 clusters, 1 slot, first group 3, root 5 and system directory 6.
fn super_sector() -> [u8; 512] {
    let mut sector = [0; 512];
    sector[..6].copy_from_slice(b"OCFSV2");
    sector[0x14] = 16;
    sector[0x2c] = 1;
    sector[0x50] = 2;
    sector[0xe0] = 0x50;
    sector[0xe8] = 5;
    sector[0xf0] = 6;
    sector[0xf8] = 12;
    sector[0xfc] = 12;
    sector[0x100] = 1;
    sector[0x108] = 3;
    sector
}

fn put_entry(block: &mut [u8], at: usize, inode: u64, file_type: u8, name: &[u8])
    requires room { at + 16 ≤ length block.old }
    requires name { length name.now ≤ 4 }
{
    let entry = DirEntry {
        inode,
        rec_len: 16,
        name_len: name.len() as u8,
        file_type,
    };
    write_dir_entry(&mut block[at..], &entry);
    block[at + 12..at + 12 + name.len()].copy_from_slice(name);
}

// A directory in its dinode, with so many entries of 16 bytes.
fn directory(inode: u64, entries: u64) -> [u8; 4096] {
    let mut block = [0; 4096];
    let fields = Dinode {
        dyn_features: DynFeatures::INLINE_DATA,
        ..dinode(inode, 0o040755, 16 * (entries % 4))
    };
    write_dinode(&mut block, &fields);
    block[0xc0] = 64;
    put_entry(&mut block, 0xc8, inode, 2, b".");
    put_entry(&mut block, 0xd8, inode, 2, b"..");
    if entries == 3 {
        put_entry(&mut block, 0xe8, 8, 1, b"a");
    }
    block
}

fn put_file(block: &mut [u8])
    requires { 4096 ≤ length block.old }
{
    let fields = Dinode {
        clusters: 1,
        ..dinode(8, 0o100644, 5000)
    };
    write_dinode(block, &fields);
    let header = ExtentListHeader {
        tree_depth: 0,
        count: 243,
        next_free_rec: 1,
    };
    write_extent_list_header(&mut block[0xc0..], &header);
    let record = ExtentRec {
        cpos: 0,
        size: ExtentSize(1),
        blkno: 10,
    };
    write_extent_rec(&mut block[0xd0..], &record);
}

/// Puts the volume on a disk of 128 sectors or more. It has 16 clusters of 4 KiB, blocks of as many bytes, the root in block
/// 5 and the system directory in block 6. The file `a` in block 8 has 5000 bytes: 4096 times the letter `a`, and a hole.
pub fn put_small_volume<D: Disk>(disk: &mut D) -> Result<(), Failed>
    requires disk { 128 ≤ (D.state disk.old).sectors }
    requires writable { IsWritable (D.state disk.old).attached }
    ensures device { SameDevice (D.state disk.old) (D.state disk.new) }
    ensures cause { HasCause (D.state disk.old).faults (D.state disk.new).faults result }
{
    disk.write(16, &super_sector())?;
    disk.write(40, &directory(5, 3))?;
    disk.write(48, &directory(6, 2))?;
    let mut block = [0; 4096];
    put_file(&mut block);
    disk.write(64, &block)?;
    disk.write(80, &[0x61; 4096])?;
    Ok(())
}
