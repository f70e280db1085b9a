// Entries that are packed into pieces of a directory.
ghost use Rattle.std.specs.Prelude.{◌≡◌, ◌+◌, ◌≤◌, ◌<◌, ◌%◌, All, length, take, slice_get, IfOk, Some};
ghost use Rattle.o2_model.specs.declared.entry.Entry.{Entry as Live};
ghost use Rattle.o2_dir.specs.Packings.{ArePieces, HasName, need_of, needs_of};

use crate::piece::{need, piece_of};
use crate::{Entries, Entry};
use o2_disk::NoMemory;
use o2_view::{Block, Blocks};
use std::alloc::{AllocError, Global};

/// How many of the first entries have room in one piece.
fn count_that_fit(entries: &[Entry], room: u32) -> usize
    requires names { All HasName entries.now }
    requires most { room ≤ 4096 }
    ensures within { result ≤ length entries.now }
    ensures fit { needs_of (take result entries.now) ≤ room }
    ensures full { (next : Live) → slice_get entries.now result ≡ Some next → room < needs_of (take result entries.now) + need_of next }
{
    let mut used = 0;
    for (count, entry) in entries.iter().enumerate() {
        used += need(entry);
        if room < used {
            return count;
        }
    }
    entries.len()
}

/// The pieces that the entries fill.
fn pieces_of(alloc: Global, entries: &[Entry], room: u32) -> Result<Vec<Block>, AllocError>
    requires names { All HasName entries.now }
    requires multiple { room % 4 ≡ 0 }
    requires least { 268 ≤ room }
    requires most { room ≤ 4096 }
    ensures { IfOk result (λ blocks. ArePieces room entries.now blocks.items) }
{
    let mut blocks = Vec::new(alloc);
    let mut at = 0;
    while at < entries.len() {
        let rest = &entries[at..];
        let count = count_that_fit(rest, room);
        let bytes = piece_of(alloc, &rest[..count], room)?;
        blocks.push(Block::from(bytes))?;
        at += count;
    }
    Ok(blocks)
}

/// The entries packed in their order into pieces of `room` bytes: an entry that has no room in a piece begins the next one, and
/// the last entry of each piece reaches its end. Where the entries stood before counts for nothing.
pub fn build_directory(alloc: Global, entries: &Entries, room: u32) -> Result<Blocks, NoMemory>
    requires names { All HasName entries.now }
    requires multiple { room % 4 ≡ 0 }
    requires least { 268 ≤ room }
    requires most { room ≤ 4096 }
    ensures packed { IfOk result (λ blocks. ArePieces room entries.now blocks) }
    ensures sizes { IfOk result (λ blocks. All (λ block. length block ≡ room) blocks) }
{
    match pieces_of(alloc, entries.as_slice(), room) {
        Ok(blocks) => Ok(Blocks::from(blocks)),
        Err(_) => Err(NoMemory),
    }
}

#[cfg(test)]
mod tests;
