// The entries that fill the bytes of a block.
ghost use Rattle.std.specs.Prelude.{◌≡◌, ◌+◌, ◌≤◌, ◌<◌, [], ◌++◌, length, take, IfOk, Some, None, option_map, unwrap_or, is_some, true, false, if◌then◌else◌};
ghost use Rattle.o2_ondisk.specs.DirEntries.{dir_entry_of};
ghost use Rattle.o2_model.specs.Words.{push};
ghost use Rattle.o2_model.specs.Directories.{entry_at_front, is_live, standing, has_entry as begins_with_entry, entries_in, behind, live_from};

use crate::Entry;
use o2_disk::NoMemory;
use o2_ondisk::read_dir_entry;
use o2_view::Bytes;
use std::alloc::{AllocError, Global};
use std::cmp::min;

/// Whether an entry stands at the front of these bytes.
#[tactic(auto, unfolding(o2_model::specs::Directories::has_entry))]
pub fn has_entry(bytes: &[u8]) -> bool
    ensures test { result ≡ begins_with_entry bytes.now }
    ensures long { result ≡ true → 12 ≤ (dir_entry_of bytes.now).rec_len }
    ensures inside { result ≡ true → (dir_entry_of bytes.now).rec_len ≤ length bytes.now }
{
    if bytes.len() < 12 {
        return false;
    }
    let fields = read_dir_entry(bytes);
    let length = usize::from(fields.rec_len);
    let name = usize::from(fields.name_len);
    let has_room = fields.inode == 0 || 12 + name <= length;
    length % 4 == 0 && 12 <= length && length <= bytes.len() && has_room
}

/// The name of the entry at the front of these bytes.
fn name_at_front(alloc: Global, bytes: &[u8]) -> Result<Vec<u8>, AllocError>
    requires { 12 ≤ length bytes.now }
    ensures { IfOk result (λ name. name.items ≡ (entry_at_front bytes.now).name) }
{
    let behind = &bytes[12..];
    let count = min(usize::from(read_dir_entry(bytes).name_len), behind.len());
    let mut name = Vec::with_capacity(alloc, count)?;
    name.extend_from_slice(&behind[..count])?;
    Ok(name)
}

/// The entry at the front of these bytes, which stand in the block from byte `at` on.
fn entry_of_front(alloc: Global, bytes: &[u8], block: u64, at: u32) -> Result<Entry, NoMemory>
    requires { 12 ≤ length bytes.now }
    ensures { IfOk result (λ e. e ≡ standing block at (entry_at_front bytes.now)) }
{
    let fields = read_dir_entry(bytes);
    match name_at_front(alloc, bytes) {
        Ok(name) => Ok(Entry {
            inode: fields.inode,
            file_type: fields.file_type,
            name: Bytes::from(name),
            block,
            at,
        }),
        Err(_) => Err(NoMemory),
    }
}

/// Puts the entry at the front of these bytes at the end, where it is live.
fn add_live(
    alloc: Global,
    bytes: &[u8],
    block: u64,
    at: u32,
    entries: &mut Vec<Entry>,
) -> Result<(), NoMemory>
    requires { 12 ≤ length bytes.now }
    ensures { IfOk result (λ _. entries.new.items
        ≡ (if is_live (entry_at_front bytes.now) then push entries.old.items (standing block at (entry_at_front bytes.now)) else entries.old.items)) }
{
    let inode = read_dir_entry(bytes).inode;
    if inode == 0 {
        return Ok(());
    }
    let entry = entry_of_front(alloc, bytes, block, at)?;
    match entries.push(entry) {
        Ok(()) => Ok(()),
        Err(_) => Err(NoMemory),
    }
}

/// Puts the live ones of the entries that fill the bytes of this block at the end. False where none fill them, and then
/// some may have been put there.
fn add_while_filled(
    alloc: Global,
    bytes: &[u8],
    block: u64,
    entries: &mut Vec<Entry>,
) -> Result<bool, NoMemory>
    requires { length bytes.now ≤ 4096 }
    ensures kept { IfOk result (λ _. take (length entries.old.items) entries.new.items ≡ entries.old.items) }
    ensures filled { IfOk result (λ filled. filled ≡ true
        → Some entries.new.items ≡ behind entries.old.items (option_map (live_from block 0) (entries_in bytes.now))) }
    ensures bad { IfOk result (λ filled. filled ≡ false → entries_in bytes.now ≡ None) }
{
    let mut at = 0;
    while at < bytes.len() {
        let rest = &bytes[at..];
        if !has_entry(rest) {
            return Ok(false);
        }
        add_live(alloc, rest, block, at as u32, entries)?;
        at += usize::from(read_dir_entry(rest).rec_len);
    }
    Ok(true)
}

/// Puts the live ones of the entries that fill the bytes of this block at the end. False where none fill them, and then
/// nothing is put there.
pub fn add_entries(
    alloc: Global,
    bytes: &[u8],
    block: u64,
    entries: &mut Vec<Entry>,
) -> Result<bool, NoMemory>
    requires { length bytes.now ≤ 4096 }
    ensures entries { IfOk result (λ _. entries.new.items ≡ entries.old.items ++ live_from block 0 (unwrap_or (entries_in bytes.now) [])) }
    ensures filled { IfOk result (λ filled. filled ≡ is_some (entries_in bytes.now)) }
{
    let before = entries.len();
    let filled = add_while_filled(alloc, bytes, block, entries)?;
    if !filled {
        entries.truncate(before);
    }
    Ok(filled)
}
