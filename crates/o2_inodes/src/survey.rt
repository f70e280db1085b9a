// All inodes of a volume.
ghost use Rattle.std.specs.Prelude.{◌≡◌, [], filter, IfOk};
ghost use Rattle.std.specs.List.{range_with_len};
ghost use Rattle.std.specs.Result.{IfErr};
ghost use Rattle.o2_model.specs.Groups.{has_inode_bit, inodes_of};
ghost use Rattle.o2_model.specs.Volume.{Volume, blocks as blocks_in};
ghost use Rattle.o2_view.specs.Geos.{LiesIn};
ghost use Rattle.o2_view.specs.OwnChecks.{BlockFails};
ghost use Rattle.o2_view.specs.Views.{Shows, OnlyReads};
ghost use Rattle.o2_tree.specs.TreeRows.{IsDirectoryTable, IsIndexTable};
ghost use Rattle.o2_tree.specs.TreeWalks.{AreOwn};
ghost use Rattle.o2_inodes.specs.InodeSurveys.{TellsInodes};

use crate::add::add_inode;
use o2_disk::Disk;
use o2_model::Geo;
use o2_tables::InodeRow;
use o2_tree::{DirectoryRow, IndexRow};
use o2_view::{View, ViewFault};
use std::alloc::Global;
use std::collections::BTreeSet;

/// What was read of inodes, in the order of their blocks, and where checks fail that are judged inode by inode.
#[derive(Debug, Drop)]
pub struct InodeSurvey {
    /// What is kept of each inode: numbers, and none of its bytes.
    pub rows: Vec<InodeRow>,
    /// The inodes at which INODE_KIND fails.
    pub kinds: Vec<u64>,
    /// The dinodes and extent blocks at which EXTENT fails.
    pub extents: Vec<u64>,
    /// The inodes at which INODE_SIZE fails.
    pub sizes: Vec<u64>,
    /// The extent blocks of inodes at which EB_NEXT fails.
    pub next_leaves: Vec<u64>,
    /// The inodes at which LAST_EB fails.
    pub last_leaves: Vec<u64>,
    /// What is kept of each inode that is a directory: its entries without their names.
    pub directories: Vec<DirectoryRow>,
    /// The blocks of directories at which DIR_BLOCK fails.
    pub dir_blocks: Vec<u64>,
    /// The blocks of directories at which DIRENT_NAME fails.
    pub names: Vec<u64>,
    /// The blocks of directories at which DIRENT_DUP fails.
    pub again: Vec<u64>,
    /// What is kept of the index of each directory that has one.
    pub indexes: Vec<IndexRow>,
    /// The inodes that have extended attributes.
    pub attributes: Vec<u64>,
}

/// No inode was read yet.
fn nothing_surveyed(alloc: Global) -> InodeSurvey
    ensures { (v : Volume) → TellsInodes v [] result }
{
    InodeSurvey {
        rows: Vec::new(alloc),
        kinds: Vec::new(alloc),
        extents: Vec::new(alloc),
        sizes: Vec::new(alloc),
        next_leaves: Vec::new(alloc),
        last_leaves: Vec::new(alloc),
        directories: Vec::new(alloc),
        dir_blocks: Vec::new(alloc),
        names: Vec::new(alloc),
        again: Vec::new(alloc),
        indexes: Vec::new(alloc),
        attributes: Vec::new(alloc),
    }
}

/// Reads the inodes among these blocks, which are those with a set bit of a group of inodes; `own` are the volume's own inodes.
/// Each block is read once, and so is each extent block of each list, each block of a directory and each of its index. NoMemory
/// where memory runs out, DeviceFault where a read fails.
pub fn inodes<D: Disk, const N: usize>(
    alloc: Global,
    view: &mut View<'_, D, N>,
    geo: &Geo,
    blocks: &[u64],
    own: &BTreeSet<u64>,
) -> Result<InodeSurvey, ViewFault>
    requires { LiesIn geo.now view.old }
    ensures told { IfOk result (λ survey. (v : Volume) → Shows view.old geo.now v → blocks.now ≡ filter (has_inode_bit v) (range_with_len 0 (blocks_in v))
        → AreOwn v own.now → TellsInodes v (inodes_of v) survey) }
    ensures directories { IfOk result (λ survey. (v : Volume) → Shows view.old geo.now v → blocks.now ≡ filter (has_inode_bit v) (range_with_len 0 (blocks_in v))
        → AreOwn v own.now → IsDirectoryTable v survey.directories.items) }
    ensures indexes { IfOk result (λ survey. (v : Volume) → Shows view.old geo.now v → blocks.now ≡ filter (has_inode_bit v) (range_with_len 0 (blocks_in v))
        → AreOwn v own.now → IsIndexTable v survey.indexes.items) }
    ensures reads { OnlyReads view.old view.new }
    ensures fails { IfErr result (BlockFails view.old view.new) }
{
    let mut survey = nothing_surveyed(alloc);
    for b in blocks {
        add_inode(alloc, view, geo, own, *b, &mut survey)?;
    }
    Ok(survey)
}
