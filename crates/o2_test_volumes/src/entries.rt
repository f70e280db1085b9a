// Entries of directories.
ghost use Rattle.std.specs.Prelude.{◌≡◌, ◌+◌, ◌≤◌, length};

use o2_ondisk::{DirEntry, write_dir_entry};

/// The types of entries that are used here.
pub const FILE: u8 = 1;

pub const DIRECTORY: u8 = 2;

pub const LINK: u8 = 7;

/// Where the entries of a directory begin that stand in its dinode.
pub const INLINE: usize = 0xc8;

/// Puts an entry of so many bytes at this byte of the block.
pub fn put_entry(block: &mut [u8], at: usize, inode: u64, rec_len: u16, file_type: u8, name: &[u8])
    requires room { at + 12 + length name.now ≤ length block.old }
    requires name { length name.now ≤ 255 }
    ensures { length block.new ≡ length block.old }
{
    let entry = DirEntry {
        inode,
        rec_len,
        name_len: name.len() as u8,
        file_type,
    };
    write_dir_entry(&mut block[at..], &entry);
    block[at + 12..at + 12 + name.len()].copy_from_slice(name);
}

/// Puts the entries of the directory itself and of the one above it, of 16 bytes each.
pub fn put_dots(block: &mut [u8], at: usize, directory: u64, parent: u64)
    requires { at + 32 ≤ length block.old }
    ensures { length block.new ≡ length block.old }
{
    put_entry(block, at, directory, 16, DIRECTORY, b".".as_slice());
    put_entry(block, at + 16, parent, 16, DIRECTORY, b"..".as_slice());
}
