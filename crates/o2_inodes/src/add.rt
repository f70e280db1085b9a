// One inode more.
ghost use Rattle.std.specs.Prelude.{◌≡◌, ℕ, List, OnOk, if◌then◌else◌};
ghost use Rattle.std.specs.Result.{IfErr};
ghost use Rattle.o2_model.specs.Words.{push};
ghost use Rattle.o2_model.specs.Volume.{Volume, is_valid};
ghost use Rattle.o2_view.specs.Geos.{HasSizes, LiesIn};
ghost use Rattle.o2_view.specs.OwnChecks.{BlockFails};
ghost use Rattle.o2_view.specs.Views.{Shows, OnlyReads};
ghost use Rattle.o2_tree.specs.TreeWalks.{AreOwn};
ghost use Rattle.o2_inodes.specs.InodeReads.{Fits, IsInodeRead};
ghost use Rattle.o2_inodes.specs.InodeSurveys.{TellsInodes};

use crate::InodeSurvey;
use crate::directories::{judge_again, judge_blocks, judge_names, put_row};
use crate::indexes::put_index;
use crate::inode_read::{InodeRead, read_at};
use crate::judged::{
    judge_extents, judge_kind, judge_last, judge_next, judge_size, put_attributes,
};
use crate::row::row_of;
use o2_disk::{Disk, NoMemory};
use o2_model::Geo;
use o2_ondisk::read_dinode;
use o2_tally::put;
use o2_view::{View, ViewFault};
use std::alloc::Global;
use std::collections::BTreeSet;

/// Puts what there is to keep and to judge of the inode.
fn put_inode(
    alloc: Global,
    geo: &Geo,
    own: &BTreeSet<u64>,
    inode: InodeRead,
    survey: &mut InodeSurvey,
) -> Result<(), NoMemory>
    requires sizes { HasSizes geo.now }
    requires fits { Fits geo.now inode }
    ensures { OnOk result ((v : Volume) → v.geo ≡ geo.now → IsInodeRead v inode → AreOwn v own.now
        → (bs : List ℕ) → TellsInodes v bs survey.old → TellsInodes v (push bs inode.number) survey.new) }
{
    let index = inode.index;
    let b = inode.number;
    let bytes = inode.block.as_slice();
    let leaves = &inode.reading.leaves;
    let blocks = &inode.reading.blocks;
    let dinode = read_dinode(bytes);
    let row = row_of(alloc, geo, b, &dinode, &inode.reading)?;
    put(&mut survey.rows, row)?;
    judge_kind(&dinode, b, &mut survey.kinds)?;
    judge_extents(b, &inode.reading, &mut survey.extents)?;
    judge_size(alloc, geo, own, b, bytes, leaves, &mut survey.sizes)?;
    judge_next(alloc, blocks, &mut survey.next_leaves)?;
    judge_last(&dinode, b, blocks, &mut survey.last_leaves)?;
    put_row(alloc, b, &inode.directory, &mut survey.directories)?;
    judge_blocks(&inode.directory, &mut survey.dir_blocks)?;
    judge_names(&inode.directory, &mut survey.names)?;
    judge_again(alloc, &inode.directory, &mut survey.again)?;
    put_index(index, &mut survey.indexes)?;
    put_attributes(&dinode, b, &mut survey.attributes)
}

/// Puts the inode in block b, where there is a valid dinode. Its block, its extent blocks, a directory's blocks and those of its
/// index are read once.
pub fn add_inode<D: Disk, const N: usize>(
    alloc: Global,
    view: &mut View<'_, D, N>,
    geo: &Geo,
    own: &BTreeSet<u64>,
    b: u64,
    survey: &mut InodeSurvey,
) -> Result<(), ViewFault>
    requires { LiesIn geo.now view.old }
    ensures told { OnOk result ((v : Volume) → Shows view.old geo.now v → AreOwn v own.now
        → (bs : List ℕ) → TellsInodes v bs survey.old → TellsInodes v (if is_valid v b then push bs b else bs) survey.new) }
    ensures reads { OnlyReads view.old view.new }
    ensures fails { IfErr result (BlockFails view.old view.new) }
{
    let Some(inode) = read_at(alloc, view, geo, b)? else {
        return Ok(());
    };
    put_inode(alloc, geo, own, inode, survey)?;
    Ok(())
}
