// What was read of a directory so far, with where its blocks are and how they end.
ghost use Rattle.std.specs.Prelude.{◌≡◌, ◌≤◌, ℕ, List, [], length, OnOk};
ghost use Rattle.o2_model.specs.Words.{push};
ghost use Rattle.o2_model.specs.Directories.{DirBlock, entries_in};
ghost use Rattle.o2_dir.specs.WholeDirectories.{KeepsWhole};

use crate::places::put;
use crate::reading::{Reading, add_block, start};
use crate::trailer::ends_in_trailer;
use o2_disk::NoMemory;
use std::alloc::Global;

/// What was read of a directory's blocks so far, in order.
#[derive(Debug, Drop)]
pub struct WholeReading {
    pub reading: Reading,
    /// The blocks themselves.
    pub blocks: Vec<u64>,
    /// Whether each of them ends in a trailer.
    pub has_trailers: bool,
}

/// Nothing was read yet.
pub fn start_whole(alloc: Global) -> WholeReading
    ensures { (bytes_of : DirBlock → List ℕ) → KeepsWhole bytes_of result [] }
{
    WholeReading {
        reading: start(alloc),
        blocks: Vec::new(alloc),
        has_trailers: true,
    }
}

/// Reads the entries of one more block, which has these bytes, and whether it ends in a trailer.
pub fn add_whole_block(
    alloc: Global,
    bytes: &[u8],
    place: u64,
    block: u64,
    whole: &mut WholeReading,
) -> Result<(), NoMemory>
    requires { length bytes.now ≤ 4096 }
    ensures { OnOk result ((bytes_of : DirBlock → List ℕ) (bs : List DirBlock) → KeepsWhole bytes_of whole.old bs
        → bytes_of (record { place = place; block = block; found = entries_in bytes.now }) ≡ bytes.now
        → KeepsWhole bytes_of whole.new (push bs (record { place = place; block = block; found = entries_in bytes.now }))) }
{
    add_block(alloc, bytes, place, block, &mut whole.reading)?;
    put(&mut whole.blocks, block)?;
    let has_trailer = ends_in_trailer(bytes);
    whole.has_trailers = whole.has_trailers && has_trailer;
    Ok(())
}
