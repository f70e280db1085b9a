// A directory as a whole, sound or not.
ghost use Rattle.std.specs.Prelude.{◌≡◌, ◌≤◌, ◌^◌, ℕ, length, IfOk};
ghost use Rattle.std.specs.Result.{IfErr};
ghost use Rattle.o2_model.specs.Directories.{dir_blocks};
ghost use Rattle.o2_model.specs.SoundIndexes.{dir_block_bytes};
ghost use Rattle.o2_model.specs.Volume.{Volume};
ghost use Rattle.o2_view.specs.Geos.{LiesIn};
ghost use Rattle.o2_view.specs.OwnChecks.{BlockFails};
ghost use Rattle.o2_view.specs.Views.{Shows, OnlyReads};
ghost use Rattle.o2_extent.specs.Readings.{Within};
ghost use Rattle.o2_dir.specs.Fails.{HoldsLeaves};
ghost use Rattle.o2_dir.specs.WholeDirectories.{IsWholeDirectory, KeepsWhole};

use crate::Entries;
use crate::directory_blocks::{read_inline, read_mapped};
use crate::whole_reading::WholeReading;
use o2_disk::Disk;
use o2_extent::{Leaf, is_inline};
use o2_model::Geo;
use o2_ondisk::read_dinode;
use o2_view::{Numbers, View, ViewFault};
use std::alloc::Global;

/// What was read of a directory's blocks, sound or not.
#[derive(Debug, Drop)]
pub struct WholeDirectory {
    /// Its live entries in their order.
    pub entries: Entries,
    /// Its blocks in their order, or the block of its dinode where its entries stand in there.
    pub blocks: Numbers,
    /// The blocks at which DIR_BLOCK fails.
    pub faults: Numbers,
    /// Whether each of its blocks ends in a trailer.
    pub has_trailers: bool,
}

/// What was read, as a caller keeps it.
fn directory_of(whole: WholeReading) -> WholeDirectory
    ensures { (v : Volume) (d : ℕ) → KeepsWhole (dir_block_bytes v d) whole (dir_blocks v d) → IsWholeDirectory v d result }
{
    let blocks = whole.blocks;
    let has_trailers = whole.has_trailers;
    let reading = whole.reading;
    WholeDirectory {
        entries: Entries::from(reading.entries),
        blocks: Numbers::from(blocks),
        faults: Numbers::from(reading.faults),
        has_trailers,
    }
}

/// Reads the directory at `inode`, whose dinode has these bytes and whose list these records, also where its list, its size or
/// its blocks are wrong. Each of its blocks is read once, and the dinode not again. NoMemory where memory runs out, DeviceFault
/// where a read fails.
pub fn whole_directory<D: Disk, const N: usize>(
    alloc: Global,
    view: &mut View<'_, D, N>,
    geo: &Geo,
    inode: u64,
    bytes: &[u8],
    leaves: &[Leaf],
) -> Result<WholeDirectory, ViewFault>
    requires geo { LiesIn geo.now view.old }
    requires size { length bytes.now ≡ 2 ^ geo.now.block_bits }
    requires long { 512 ≤ length bytes.now }
    requires within { Within geo.now leaves.now }
    ensures told { IfOk result (λ directory. (v : Volume) → Shows view.old geo.now v → HoldsLeaves v inode bytes.now leaves.now → IsWholeDirectory v inode directory) }
    ensures reads { OnlyReads view.old view.new }
    ensures fails { IfErr result (BlockFails view.old view.new) }
{
    let dinode = read_dinode(bytes);
    if is_inline(&dinode) {
        let whole = read_inline(alloc, inode, bytes)?;
        return Ok(directory_of(whole));
    }
    let whole = read_mapped(alloc, view, geo, dinode.size, leaves)?;
    Ok(directory_of(whole))
}

#[cfg(test)]
mod tests;
