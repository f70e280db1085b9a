// The entries of orphan directories.
ghost use Rattle.std.specs.Prelude.{◌≡◌, ◌++◌, ℕ, List, filter, flat_map, IfOk, OnOk};
ghost use Rattle.o2_model.specs.declared.system_file.SlotFile.TheVariants as slot_file;
ghost use Rattle.o2_model.specs.Volume.{Volume};
ghost use Rattle.o2_survey.specs.SystemNames.{inodes_of_slots};
ghost use Rattle.o2_tree.specs.TreeRows.{IsDirectoryTable};
ghost use Rattle.o2_tree.specs.TreeWalks.{AreOrphans};
ghost use Rattle.o2_check.specs.OrphanRows.{is_name, named_rows};

use o2_disk::NoMemory;
use o2_tally::put;
use o2_tree::{DirectoryRow, EntryName, EntryRow, find_directory};
use std::alloc::Global;

/// Whether the entry is neither `.` nor `..`.
fn is_named(entry: &EntryRow) -> bool
    ensures { result ≡ is_name entry.now }
{
    match entry.name {
        EntryName::Itself | EntryName::Parent => false,
        EntryName::Other => true,
    }
}

/// Puts the entries but the dots at the end.
fn add_entries(entries: &[EntryRow], found: &mut Vec<EntryRow>) -> Result<(), NoMemory>
    ensures { OnOk result (found.new.items ≡ found.old.items ++ filter is_name entries.now) }
{
    for entry in entries {
        if is_named(entry) {
            put(found, *entry)?;
        }
    }
    Ok(())
}

/// Puts those of the directory in block b at the end. NoMemory where memory runs out, and where there is no such directory.
fn add_directory(
    directories: &[DirectoryRow],
    b: u64,
    found: &mut Vec<EntryRow>,
) -> Result<(), NoMemory>
    ensures { OnOk result ((v : Volume) → IsDirectoryTable v directories.now → found.new.items ≡ found.old.items ++ named_rows v b) }
{
    let Some(row) = find_directory(directories, b) else {
        return Err(NoMemory);
    };
    add_entries(row.entries.as_slice(), found)
}

/// The entries of these orphan directories but the dots, directory by directory. NoMemory where memory runs out, and where one of
/// them is no directory, as on no volume whose skeleton holds.
pub fn orphan_entries(
    alloc: Global,
    directories: &[DirectoryRow],
    orphan_directories: &[u64],
) -> Result<Vec<EntryRow>, NoMemory>
    ensures { IfOk result (λ found. (v : Volume) → IsDirectoryTable v directories.now → orphan_directories.now ≡ inodes_of_slots v slot_file.OrphanDir → AreOrphans v found.items) }
{
    let mut found = Vec::new(alloc);
    for b in orphan_directories {
        add_directory(directories, *b, &mut found)?;
    }
    Ok(found)
}
