// The bytes of a piece of a directory.
ghost use Rattle.std.specs.Prelude.{◌≡◌, ◌+◌, ◌≤◌, ◌%◌, ◌++◌, All, length, replicate, OnOk, IfOk, Some};
ghost use Rattle.o2_model.specs.Directories.{entries_in};
ghost use Rattle.o2_dir.specs.Packings.{HasName, IsTold, need_of, needs_of, placed_front, placed_bytes, piece_bytes, piece_entries};

use crate::Entry;
use o2_ondisk::{DIR_ENTRY_SIZE, DirEntry, write_dir_entry};
use std::alloc::{AllocError, Global};

/// How many bytes an entry needs.
pub fn need(entry: &Entry) -> u32
    requires { length entry.now.name ≤ 255 }
    ensures { result ≡ need_of entry.now }
{
    let name = entry.name.as_slice().len() as u32;
    (12 + name + 3) / 4 * 4
}

/// The bytes of the fields of an entry of this length.
fn front_of(entry: &Entry, len: u16) -> [u8; DIR_ENTRY_SIZE]
    requires { length entry.now.name ≤ 255 }
    ensures bytes { result ≡ placed_front (record { len = len; entry = entry.now }) }
    ensures told { IsTold (record { len = len; entry = entry.now }) }
{
    let fields = DirEntry {
        inode: entry.inode,
        rec_len: len,
        name_len: entry.name.as_slice().len() as u8,
        file_type: entry.file_type,
    };
    let mut front = [0; DIR_ENTRY_SIZE];
    write_dir_entry(&mut front, &fields);
    front
}

/// Puts so many zeros at the end.
fn put_zeros(bytes: &mut Vec<u8>, count: usize) -> Result<(), AllocError>
    requires { count ≤ 65536 }
    ensures { OnOk result (bytes.new.items ≡ bytes.old.items ++ replicate count 0) }
{
    bytes.resize(bytes.len() + count, 0)?;
    Ok(())
}

/// Puts the bytes of an entry of this length at the end.
fn put_entry(bytes: &mut Vec<u8>, entry: &Entry, len: u16) -> Result<(), AllocError>
    requires name { length entry.now.name ≤ 255 }
    requires room { 12 + length entry.now.name ≤ len }
    ensures put { OnOk result (bytes.new.items ≡ bytes.old.items ++ placed_bytes (record { len = len; entry = entry.now })) }
    ensures long { OnOk result (length bytes.new.items ≡ length bytes.old.items + len) }
    ensures told { IsTold (record { len = len; entry = entry.now }) }
{
    let name = entry.name.as_slice();
    bytes.extend_from_slice(&front_of(entry, len))?;
    bytes.extend_from_slice(name)?;
    put_zeros(bytes, usize::from(len) - (DIR_ENTRY_SIZE + name.len()))?;
    Ok(())
}

/// The bytes of a piece of `room` bytes with these entries: each as long as it needs to be, and the last up to the end.
pub fn piece_of(alloc: Global, entries: &[Entry], room: u32) -> Result<Vec<u8>, AllocError>
    requires some { 1 ≤ length entries.now }
    requires names { All HasName entries.now }
    requires fit { needs_of entries.now ≤ room }
    requires most { room ≤ 4096 }
    requires multiple { room % 4 ≡ 0 }
    ensures bytes { IfOk result (λ bytes. bytes.items ≡ piece_bytes room entries.now) }
    ensures read { IfOk result (λ bytes. entries_in bytes.items ≡ Some (piece_entries room entries.now)) }
{
    let mut bytes = Vec::with_capacity(alloc, room as usize)?;
    let last = entries.len() - 1;
    for entry in &entries[..last] {
        put_entry(&mut bytes, entry, need(entry) as u16)?;
    }
    let left = room as usize - bytes.len();
    put_entry(&mut bytes, &entries[last], left as u16)?;
    Ok(bytes)
}
