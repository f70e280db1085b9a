// The text of `ls` and of `stat`, line by line.
ghost use Rattle.std.specs.Prelude.{◌≡◌, ◌++◌, true, map, IfOk};
ghost use Rattle.std.specs.List.{concat};
ghost use Rattle.std.specs.Result.{IfErr};
ghost use Rattle.o2_view.specs.Views.{Shows, OnlyReads};
ghost use Rattle.o2_view.specs.Geos.{LiesIn};
ghost use Rattle.o2_view.specs.OwnChecks.{NoneFails};
ghost use Rattle.o2_model.specs.Volume.{Volume};
ghost use Rattle.o2_model.specs.Inodes.{is_directory};
ghost use Rattle.o2_dir.specs.Fails.{DirFails, directory_checks};
ghost use Rattle.o2_dir.specs.InodeReadings.{Fits, TellsSound};
ghost use Rattle.o2_debug.specs.Lines.{dinode_lines as lines_of_dinode, extent_line};
ghost use Rattle.o2_debug.specs.Texts.{ls_text, stat_text};

use crate::lines::{Lines, dinode_lines, entry_lines, extent_lines};
use o2_dir::{DirFault, InodeReading, entries_of};
use o2_disk::Disk;
use o2_extent::Leaf;
use o2_model::Geo;
use o2_ondisk::Dinode;
use o2_view::View;
use std::alloc::{AllocError, Global};

/// The lines of `ls` of a directory that was read before. Bad where DIR_BLOCK fails for it.
pub fn ls_lines<D: Disk, const N: usize>(
    alloc: Global,
    view: &mut View<'_, D, N>,
    geo: &Geo,
    reading: &InodeReading,
) -> Result<Lines, DirFault>
    requires geo { LiesIn geo.now view.old }
    requires fits { Fits geo.now reading.now }
    requires sound { (v : Volume) → Shows view.old geo.now v → TellsSound v reading.now.inode reading.now }
    requires directory { (v : Volume) → Shows view.old geo.now v → is_directory v reading.now.inode ≡ true }
    ensures told { IfOk result (λ lines. (v : Volume) → Shows view.old geo.now v
        → NoneFails (directory_checks reading.now.inode) v × (concat lines ≡ ls_text v reading.now.inode)) }
    ensures reads { OnlyReads view.old view.new }
    ensures fails { IfErr result (DirFails view.old view.new geo.now (directory_checks reading.now.inode) ⊥) }
{
    let found = entries_of(alloc, view, geo, reading)?;
    match entry_lines(alloc, found.as_slice()) {
        Ok(lines) => Ok(lines),
        Err(_) => Err(DirFault::NoMemory),
    }
}

/// Some lines, and then others.
pub fn joined(first: Lines, others: Lines) -> Result<Lines, AllocError>
    ensures { IfOk result (λ lines. lines ≡ first ++ others) }
{
    let mut lines = first.into_vec();
    let mut rest = others.into_vec();
    lines.append(&mut rest)?;
    Ok(Lines::from(lines))
}

/// The lines of `stat` of an inode that was read.
pub fn stat_lines(alloc: Global, reading: &InodeReading) -> Result<Lines, AllocError>
    ensures { IfOk result (λ lines. (v : Volume) → TellsSound v reading.now.inode reading.now → concat lines ≡ stat_text v reading.now.inode) }
{
    told_lines(
        alloc,
        reading.inode,
        &reading.dinode,
        reading.leaves.as_slice(),
    )
}

// What the dinode and the leaf records say.
fn told_lines(alloc: Global, inode: u64, d: &Dinode, leaves: &[Leaf]) -> Result<Lines, AllocError>
    ensures { IfOk result (λ lines. lines ≡ lines_of_dinode inode d.now ++ map extent_line leaves.now) }
{
    let first = dinode_lines(alloc, inode, d)?;
    let others = extent_lines(alloc, leaves)?;
    joined(first, others)
}
