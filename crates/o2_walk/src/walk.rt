// The walk of the tree.
ghost use Rattle.std.specs.Prelude.{◌≡◌, true, IfOk};
ghost use Rattle.o2_model.specs.Volume.{Volume};
ghost use Rattle.o2_model.specs.Words.{among};
ghost use Rattle.o2_tables.specs.Rows.{IsInodeTable};
ghost use Rattle.o2_tree.specs.TreeRows.{IsDirectoryTable, all_directories};
ghost use Rattle.o2_tree.specs.TreeWalks.{AreOwn};
ghost use Rattle.o2_walk.specs.TreeWalked.{IsWalk};

use crate::blocks::count_blocks;
use crate::levels::walk_levels;
use crate::links::count_links;
use crate::progress::Progress;
use o2_disk::NoMemory;
use o2_model::Geo;
use o2_tables::{InodeRow, TreeTable};
use o2_tree::{DirectoryRow, EnteredRow};
use std::alloc::Global;
use std::collections::BTreeSet;

/// The walk of the tree: the directories that it entered, what it met, and the blocks of later entries that name a directory.
#[derive(Drop)]
pub struct Walk {
    /// In the order in which they were entered, the root first.
    pub entered: Vec<EnteredRow>,
    pub tree: TreeTable,
    /// In the order in which the walk met them. A block comes once for each such entry.
    pub second_names: Vec<u64>,
}

/// Walks the tree from the root on, level by level, over the rows of inodes and of directories; `own` are the volume's own inodes.
/// The root has to be one of the directories. NoMemory where memory runs out, and where a directory that it enters has no row or
/// the number of blocks does not fit 64 bits, as on no volume.
pub fn walk_tree(
    alloc: Global,
    geo: &Geo,
    inodes: &[InodeRow],
    own: &BTreeSet<u64>,
    directories: &[DirectoryRow],
) -> Result<Walk, NoMemory>
    ensures { IfOk result (λ walk. (v : Volume) → v.geo ≡ geo.now → IsInodeTable v inodes.now → AreOwn v own.now
        → IsDirectoryTable v directories.now → among (all_directories v) v.geo.root ≡ true → IsWalk v walk) }
{
    let blocks = count_blocks(geo)?;
    let mut progress = Progress::at_root(alloc, geo.root)?;
    walk_levels(&mut progress, blocks, inodes, own, directories)?;
    let links = count_links(alloc, directories, progress.entered.as_slice())?;
    Ok(Walk {
        entered: progress.entered,
        tree: TreeTable {
            links,
            met: progress.met,
        },
        second_names: progress.second_names,
    })
}
