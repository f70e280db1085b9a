// DIRENT_INODE: in the tree live entries but the dots name inodes without `OCFS2_SYSTEM_FL` that are not the volume's own.
ghost use Rattle.std.specs.Prelude.{◌≡◌, List, map, flat_map, ◌++◌, IfOk, OnOk};
ghost use Rattle.o2_model.specs.declared.check.Check.TheVariants as check;
ghost use Rattle.o2_model.specs.declared.entry.Entry.{Entry};
ghost use Rattle.o2_model.specs.Orders.{rising};
ghost use Rattle.o2_model.specs.Volume.{Volume};
ghost use Rattle.o2_model.specs.Failing.{faults};
ghost use Rattle.o2_tables.specs.Rows.{IsInodeTable};
ghost use Rattle.o2_tree.specs.TreeRows.{IsDirectoryTable, row_of};
ghost use Rattle.o2_tree.specs.TreeWalks.{AreEntered, AreOwn};
ghost use Rattle.o2_judges_tree.specs.EntryFaults.{is_named_soundly, fault_of, faults_in};

use o2_disk::NoMemory;
use o2_tables::InodeRow;
use o2_tally::put;
use o2_tree::{DirectoryRow, EnteredRow, EntryRow, find_directory};
use o2_walk::{is_dot, names_user};
use std::alloc::Global;
use std::collections::BTreeSet;

/// Whether the entry is a dot, or names one of the users.
fn is_sound(inodes: &[InodeRow], own: &BTreeSet<u64>, entry: &EntryRow) -> bool
    ensures { (v : Volume) (e : Entry) → IsInodeTable v inodes.now → AreOwn v own.now → row_of e ≡ entry.now → result ≡ is_named_soundly v e }
{
    is_dot(entry) || names_user(inodes, own, entry.inode)
}

/// Tells the entry's block, where it names none of the users.
fn judge_entry(
    blocks: &mut Vec<u64>,
    inodes: &[InodeRow],
    own: &BTreeSet<u64>,
    entry: &EntryRow,
) -> Result<(), NoMemory>
    ensures { OnOk result ((v : Volume) (e : Entry) → IsInodeTable v inodes.now → AreOwn v own.now → row_of e ≡ entry.now
        → blocks.new.items ≡ blocks.old.items ++ fault_of (is_named_soundly v) e) }
{
    if is_sound(inodes, own, entry) {
        return Ok(());
    }
    put(blocks, entry.block)
}

/// Judges these entries, one by one.
fn judge_entries(
    blocks: &mut Vec<u64>,
    inodes: &[InodeRow],
    own: &BTreeSet<u64>,
    entries: &[EntryRow],
) -> Result<(), NoMemory>
    ensures { OnOk result ((v : Volume) (es : List Entry) → IsInodeTable v inodes.now → AreOwn v own.now → map row_of es ≡ entries.now
        → blocks.new.items ≡ blocks.old.items ++ flat_map (fault_of (is_named_soundly v)) es) }
{
    for entry in entries {
        judge_entry(blocks, inodes, own, entry)?;
    }
    Ok(())
}

/// Judges the entries of one directory. NoMemory where there is no row of it, too.
fn judge_directory(
    blocks: &mut Vec<u64>,
    inodes: &[InodeRow],
    own: &BTreeSet<u64>,
    directories: &[DirectoryRow],
    directory: u64,
) -> Result<(), NoMemory>
    ensures { OnOk result ((v : Volume) → IsInodeTable v inodes.now → AreOwn v own.now → IsDirectoryTable v directories.now
        → blocks.new.items ≡ blocks.old.items ++ faults_in v (is_named_soundly v) directory) }
{
    let Some(row) = find_directory(directories, directory) else {
        return Err(NoMemory);
    };
    judge_entries(blocks, inodes, own, row.entries.as_slice())
}

/// The blocks of entries at which DIRENT_INODE fails, once for each such entry; `own` are the volume's own inodes. NoMemory where
/// memory runs out, and where an entered directory has no row, as on no volume.
pub fn dirent_inode(
    alloc: Global,
    inodes: &[InodeRow],
    own: &BTreeSet<u64>,
    directories: &[DirectoryRow],
    entered: &[EnteredRow],
) -> Result<Vec<u64>, NoMemory>
    ensures { IfOk result (λ blocks. (v : Volume) → IsInodeTable v inodes.now → AreOwn v own.now → IsDirectoryTable v directories.now
        → AreEntered v entered.now → rising blocks.items ≡ rising (faults v check.DirentInode)) }
{
    let mut blocks = Vec::new(alloc);
    for directory in entered {
        judge_directory(&mut blocks, inodes, own, directories, directory.inode)?;
    }
    Ok(blocks)
}
