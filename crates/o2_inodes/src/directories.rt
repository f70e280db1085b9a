// What is read and judged of an inode that is a directory.
ghost use Rattle.std.specs.Prelude.{◌≡◌, ◌++◌, ◌^◌, ◌≤◌, length, ℕ, List, IfOk, OnOk};
ghost use Rattle.std.specs.Result.{IfErr};
ghost use Rattle.o2_model.specs.Words.{push};
ghost use Rattle.o2_model.specs.Orders.{rising};
ghost use Rattle.o2_model.specs.Checks.DirBlock.{dir_block_faults};
ghost use Rattle.o2_model.specs.Checks.DirentName.{dirent_name_faults};
ghost use Rattle.o2_model.specs.Checks.DirentDup.{dirent_dup_faults};
ghost use Rattle.o2_model.specs.Volume.{Volume};
ghost use Rattle.o2_view.specs.Geos.{LiesIn};
ghost use Rattle.o2_view.specs.OwnChecks.{BlockFails};
ghost use Rattle.o2_view.specs.Views.{Shows, OnlyReads};
ghost use Rattle.o2_extent.specs.Readings.{Within};
ghost use Rattle.o2_dir.specs.Fails.{HoldsLeaves};
ghost use Rattle.o2_inodes.specs.Directories.{AreDirectories, TellsDirectory, of_directory};

use crate::judged::put_all;
use o2_dir::{WholeDirectory, is_of_directory, whole_directory};
use o2_directories::{directory_row, dirent_dup, dirent_name};
use o2_disk::{Disk, NoMemory};
use o2_extent::Leaf;
use o2_model::Geo;
use o2_ondisk::read_dinode;
use o2_tally::put;
use o2_tree::DirectoryRow;
use o2_view::{View, ViewFault};
use std::alloc::Global;

/// The directory in block b, whose dinode has these bytes and whose list these records. None where the inode is no directory.
pub fn directory_in<D: Disk, const N: usize>(
    alloc: Global,
    view: &mut View<'_, D, N>,
    geo: &Geo,
    b: u64,
    bytes: &[u8],
    leaves: &[Leaf],
) -> Result<Option<WholeDirectory>, ViewFault>
    requires geo { LiesIn geo.now view.old }
    requires size { length bytes.now ≡ 2 ^ geo.now.block_bits }
    requires long { 512 ≤ length bytes.now }
    requires within { Within geo.now leaves.now }
    ensures told { IfOk result (λ found. (v : Volume) → Shows view.old geo.now v → HoldsLeaves v b bytes.now leaves.now → TellsDirectory v b found) }
    ensures reads { OnlyReads view.old view.new }
    ensures fails { IfErr result (BlockFails view.old view.new) }
{
    if !is_of_directory(&read_dinode(bytes)) {
        return Ok(None);
    }
    let directory = whole_directory(alloc, view, geo, b, bytes, leaves)?;
    Ok(Some(directory))
}

/// Puts the row of the directory in block b at the end, where there is one.
pub fn put_row(
    alloc: Global,
    b: u64,
    directory: &Option<WholeDirectory>,
    rows: &mut Vec<DirectoryRow>,
) -> Result<(), NoMemory>
    ensures { OnOk result ((v : Volume) → TellsDirectory v b directory.now → (bs : List ℕ) → AreDirectories v bs rows.old.items → AreDirectories v (push bs b) rows.new.items) }
{
    let Some(directory) = directory else {
        return Ok(());
    };
    let row = directory_row(alloc, b, directory.entries.as_slice())?;
    put(rows, row)
}

/// DIR_BLOCK of the directory.
pub fn judge_blocks(
    directory: &Option<WholeDirectory>,
    found: &mut Vec<u64>,
) -> Result<(), NoMemory>
    ensures { OnOk result ((v : Volume) (b : ℕ) → TellsDirectory v b directory.now → found.new.items ≡ found.old.items ++ of_directory dir_block_faults v b) }
{
    let Some(directory) = directory else {
        return Ok(());
    };
    put_all(found, directory.faults.as_slice())
}

/// DIRENT_NAME of the directory.
pub fn judge_names(directory: &Option<WholeDirectory>, found: &mut Vec<u64>) -> Result<(), NoMemory>
    ensures { OnOk result ((v : Volume) (b : ℕ) → TellsDirectory v b directory.now → found.new.items ≡ found.old.items ++ of_directory dirent_name_faults v b) }
{
    let Some(directory) = directory else {
        return Ok(());
    };
    dirent_name(directory.entries.as_slice(), found)
}

/// DIRENT_DUP of the directory.
pub fn judge_again(
    alloc: Global,
    directory: &Option<WholeDirectory>,
    found: &mut Vec<u64>,
) -> Result<(), NoMemory>
    ensures { OnOk result ((v : Volume) (b : ℕ) → TellsDirectory v b directory.now
        → (ns : List ℕ) → rising found.old.items ≡ rising ns → rising found.new.items ≡ rising (ns ++ of_directory dirent_dup_faults v b)) }
{
    let Some(directory) = directory else {
        return Ok(());
    };
    let again = dirent_dup(alloc, directory.entries.as_slice())?;
    put_all(found, &again)
}
