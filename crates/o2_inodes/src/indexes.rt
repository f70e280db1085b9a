// What is read of the index of a directory.
ghost use Rattle.std.specs.Prelude.{◌≡◌, ◌≤◌, length, ℕ, List, IfOk, OnOk};
ghost use Rattle.std.specs.Result.{IfErr};
ghost use Rattle.o2_model.specs.Words.{push};
ghost use Rattle.o2_model.specs.Volume.{Volume};
ghost use Rattle.o2_view.specs.Geos.{LiesIn};
ghost use Rattle.o2_view.specs.OwnChecks.{BlockFails};
ghost use Rattle.o2_view.specs.Views.{Shows, OnlyReads};
ghost use Rattle.o2_inodes.specs.Directories.{TellsDirectory};
ghost use Rattle.o2_inodes.specs.Indexes.{AreIndexes, TellsIndex};

use o2_dir::WholeDirectory;
use o2_disk::{Disk, NoMemory};
use o2_indexes::{IndexedDirectory, read_index};
use o2_model::Geo;
use o2_ondisk::{DynFeatures, read_dinode};
use o2_tally::put;
use o2_tree::IndexRow;
use o2_view::{View, ViewFault};
use std::alloc::Global;

/// The index of the directory in block b, whose dinode has these bytes, and of which this was read. None where the inode is no
/// directory, or one without an index.
pub fn index_in<D: Disk, const N: usize>(
    alloc: Global,
    view: &mut View<'_, D, N>,
    geo: &Geo,
    b: u64,
    bytes: &[u8],
    directory: &Option<WholeDirectory>,
) -> Result<Option<IndexRow>, ViewFault>
    requires geo { LiesIn geo.now view.old }
    requires long { 512 ≤ length bytes.now }
    ensures told { IfOk result (λ found. (v : Volume) → Shows view.old geo.now v → bytes.now ≡ v.at b → TellsDirectory v b directory.now → TellsIndex v b found) }
    ensures reads { OnlyReads view.old view.new }
    ensures fails { IfErr result (BlockFails view.old view.new) }
{
    let Some(directory) = directory else {
        return Ok(None);
    };
    let dinode = read_dinode(bytes);
    if !dinode.dyn_features.has(DynFeatures::INDEXED_DIR) {
        return Ok(None);
    }
    let listed = IndexedDirectory {
        entries: directory.entries.as_slice(),
        blocks: directory.blocks.as_slice(),
        has_trailers: directory.has_trailers,
    };
    let row = read_index(alloc, view, geo, b, dinode.dx_root, &listed)?;
    Ok(Some(row))
}

/// Puts the row of the index at the end, where there is one.
pub fn put_index(index: Option<IndexRow>, rows: &mut Vec<IndexRow>) -> Result<(), NoMemory>
    ensures { OnOk result ((v : Volume) (b : ℕ) → TellsIndex v b index → (bs : List ℕ) → AreIndexes v bs rows.old.items → AreIndexes v (push bs b) rows.new.items) }
{
    let Some(index) = index else {
        return Ok(());
    };
    put(rows, index)
}
