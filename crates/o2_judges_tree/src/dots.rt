// DIR_DOTS: in the tree the first `.` names the directory, the first `..` its parent, and there are no further ones.
ghost use Rattle.std.specs.Prelude.{◌≡◌, List, ◌∷◌, ◌++◌, IfOk, OnOk};
ghost use Rattle.o2_model.specs.declared.check.Check.TheVariants as check;
ghost use Rattle.o2_model.specs.Orders.{rising};
ghost use Rattle.o2_model.specs.Volume.{Volume};
ghost use Rattle.o2_model.specs.Failing.{faults};
ghost use Rattle.o2_tree.specs.TreeRows.{IsDirectoryTable};
ghost use Rattle.o2_tree.specs.TreeWalks.{AreEntered};
ghost use Rattle.o2_judges_tree.specs.EntryFaults.{is_same_name, rows_named, not_once_of, not_once_left, dots_of};

use o2_disk::NoMemory;
use o2_tally::put;
use o2_tree::{DirectoryRow, EnteredRow, EntryName, EntryRow, find_directory};
use std::alloc::Global;

/// Whether the entry has this name.
fn has_name(entry: &EntryRow, name: EntryName) -> bool
    ensures { result ≡ is_same_name entry.now.name name }
{
    entry.name == name
}

/// Tells the entry's block, where it has this name and is not the first one or names another inode.
fn judge_entry(
    blocks: &mut Vec<u64>,
    is_met: &mut bool,
    entry: &EntryRow,
    name: EntryName,
    inode: u64,
) -> Result<(), NoMemory>
    ensures { OnOk result ((rest : List EntryRow) → blocks.new.items ++ not_once_left is_met.new inode (rows_named name rest)
        ≡ blocks.old.items ++ not_once_left is_met.old inode (rows_named name (entry.now ∷ rest))) }
{
    if !has_name(entry, name) {
        return Ok(());
    }
    let is_sound = !*is_met && entry.inode == inode;
    *is_met = true;
    if is_sound {
        return Ok(());
    }
    put(blocks, entry.block)
}

/// Tells the blocks of the entries of this name that are not the first one, or name another inode.
fn judge_name(
    blocks: &mut Vec<u64>,
    entries: &[EntryRow],
    name: EntryName,
    inode: u64,
) -> Result<(), NoMemory>
    ensures { OnOk result (blocks.new.items ≡ blocks.old.items ++ not_once_of inode (rows_named name entries.now)) }
{
    let mut is_met = false;
    for entry in entries {
        judge_entry(blocks, &mut is_met, entry, name, inode)?;
    }
    Ok(())
}

/// Judges the dots of one directory. NoMemory where there is no row of it, too.
fn judge_directory(
    blocks: &mut Vec<u64>,
    directories: &[DirectoryRow],
    directory: EnteredRow,
) -> Result<(), NoMemory>
    ensures { OnOk result ((v : Volume) → IsDirectoryTable v directories.now → blocks.new.items ≡ blocks.old.items ++ dots_of v directory) }
{
    let Some(row) = find_directory(directories, directory.inode) else {
        return Err(NoMemory);
    };
    let entries = row.entries.as_slice();
    judge_name(blocks, entries, EntryName::Itself, directory.inode)?;
    judge_name(blocks, entries, EntryName::Parent, directory.parent)
}

/// The blocks of dots at which DIR_DOTS fails, some of them more than once. NoMemory where memory runs out, and where an entered
/// directory has no row, as on no volume.
pub fn dir_dots(
    alloc: Global,
    directories: &[DirectoryRow],
    entered: &[EnteredRow],
) -> Result<Vec<u64>, NoMemory>
    ensures { IfOk result (λ blocks. (v : Volume) → IsDirectoryTable v directories.now → AreEntered v entered.now
        → rising blocks.items ≡ rising (faults v check.DirDots)) }
{
    let mut blocks = Vec::new(alloc);
    for directory in entered {
        judge_directory(&mut blocks, directories, *directory)?;
    }
    Ok(blocks)
}
