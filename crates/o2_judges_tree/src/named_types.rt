// DIRENT_TYPE: in the tree file_type of an entry that names an inode is that inode's kind.
ghost use Rattle.std.specs.Prelude.{◌≡◌, ◌==◌, List, false, map, flat_map, ◌++◌, IfOk, OnOk};
ghost use Rattle.std.specs.Option.{option_map_or};
ghost use Rattle.o2_ondisk.specs.Kinds.{type_of_kind};
ghost use Rattle.o2_model.specs.declared.check.Check.TheVariants as check;
ghost use Rattle.o2_model.specs.declared.entry.Entry.{Entry};
ghost use Rattle.o2_model.specs.Orders.{rising};
ghost use Rattle.o2_model.specs.Volume.{Volume};
ghost use Rattle.o2_model.specs.Failing.{faults};
ghost use Rattle.o2_tables.specs.Rows.{IsInodeTable};
ghost use Rattle.o2_tree.specs.TreeRows.{IsDirectoryTable, row_of};
ghost use Rattle.o2_tree.specs.TreeWalks.{AreEntered};
ghost use Rattle.o2_judges_tree.specs.EntryFaults.{is_typed_soundly, fault_of, faults_in};

use o2_disk::NoMemory;
use o2_ondisk::Kind;
use o2_tables::InodeRow;
use o2_tally::put;
use o2_tree::{DirectoryRow, EnteredRow, EntryRow, find_directory, find_inode};
use std::alloc::Global;

/// Whether the type is that of an inode of this kind. Of an inode whose kind is none of the seven, no type is.
fn is_type_of(kind: Option<Kind>, file_type: u8) -> bool
    ensures { result ≡ option_map_or (λ k. file_type == type_of_kind k) kind false }
{
    match kind {
        Some(kind) => file_type == kind.file_type(),
        None => false,
    }
}

/// Whether the entry names no inode, or has the type of its kind.
fn is_sound(inodes: &[InodeRow], entry: &EntryRow) -> bool
    ensures { (v : Volume) (e : Entry) → IsInodeTable v inodes.now → row_of e ≡ entry.now → result ≡ is_typed_soundly v e }
{
    match find_inode(inodes, entry.inode) {
        Some(row) => is_type_of(row.kind, entry.file_type),
        None => true,
    }
}

/// Tells the entry's block, where it has another type.
fn judge_entry(blocks: &mut Vec<u64>, inodes: &[InodeRow], entry: &EntryRow) -> Result<(), NoMemory>
    ensures { OnOk result ((v : Volume) (e : Entry) → IsInodeTable v inodes.now → row_of e ≡ entry.now
        → blocks.new.items ≡ blocks.old.items ++ fault_of (is_typed_soundly v) e) }
{
    if is_sound(inodes, entry) {
        return Ok(());
    }
    put(blocks, entry.block)
}

/// Judges these entries, one by one.
fn judge_entries(
    blocks: &mut Vec<u64>,
    inodes: &[InodeRow],
    entries: &[EntryRow],
) -> Result<(), NoMemory>
    ensures { OnOk result ((v : Volume) (es : List Entry) → IsInodeTable v inodes.now → map row_of es ≡ entries.now
        → blocks.new.items ≡ blocks.old.items ++ flat_map (fault_of (is_typed_soundly v)) es) }
{
    for entry in entries {
        judge_entry(blocks, inodes, entry)?;
    }
    Ok(())
}

/// Judges the entries of one directory. NoMemory where there is no row of it, too.
fn judge_directory(
    blocks: &mut Vec<u64>,
    inodes: &[InodeRow],
    directories: &[DirectoryRow],
    directory: u64,
) -> Result<(), NoMemory>
    ensures { OnOk result ((v : Volume) → IsInodeTable v inodes.now → IsDirectoryTable v directories.now
        → blocks.new.items ≡ blocks.old.items ++ faults_in v (is_typed_soundly v) directory) }
{
    let Some(row) = find_directory(directories, directory) else {
        return Err(NoMemory);
    };
    judge_entries(blocks, inodes, row.entries.as_slice())
}

/// The blocks of entries at which DIRENT_TYPE fails, once for each such entry. NoMemory where memory runs out, and where an entered
/// directory has no row, as on no volume.
pub fn dirent_type(
    alloc: Global,
    inodes: &[InodeRow],
    directories: &[DirectoryRow],
    entered: &[EnteredRow],
) -> Result<Vec<u64>, NoMemory>
    ensures { IfOk result (λ blocks. (v : Volume) → IsInodeTable v inodes.now → IsDirectoryTable v directories.now
        → AreEntered v entered.now → rising blocks.items ≡ rising (faults v check.DirentType)) }
{
    let mut blocks = Vec::new(alloc);
    for directory in entered {
        judge_directory(&mut blocks, inodes, directories, directory.inode)?;
    }
    Ok(blocks)
}
