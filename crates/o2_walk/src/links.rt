// How many entries of the tree name each inode.
ghost use Rattle.std.specs.Prelude.{◌≡◌, ℕ, List, ◌++◌, map, flat_map, OnOk, IfOk};
ghost use Rattle.o2_model.specs.Volume.{Volume};
ghost use Rattle.o2_tally.specs.Gathered.{IsCount};
ghost use Rattle.o2_tree.specs.TreeRows.{IsDirectoryTable};
ghost use Rattle.o2_walk.specs.TreeWalked.{named_by};

use o2_disk::NoMemory;
use o2_tally::Counts;
use o2_tree::{DirectoryRow, EnteredRow, EntryRow, find_directory};
use std::alloc::Global;

/// Counts what these entries name.
fn add_entries(links: &mut Counts, entries: &[EntryRow]) -> Result<(), NoMemory>
    ensures { OnOk result ((ns : List ℕ) → IsCount ns links.old → IsCount (ns ++ map (λ e. e.inode) entries.now) links.new) }
{
    for entry in entries {
        links.add(entry.inode)?;
    }
    Ok(())
}

/// Counts what the entries of a directory name. NoMemory where there is no row of it.
fn add_directory(
    links: &mut Counts,
    directories: &[DirectoryRow],
    inode: u64,
) -> Result<(), NoMemory>
    ensures { OnOk result ((v : Volume) (ns : List ℕ) → IsDirectoryTable v directories.now → IsCount ns links.old
        → IsCount (ns ++ named_by v inode) links.new) }
{
    let Some(row) = find_directory(directories, inode) else {
        return Err(NoMemory);
    };
    add_entries(links, row.entries.as_slice())
}

/// How many live entries of these directories name each inode, the dots among them. NoMemory where memory runs out, or there is no
/// row of a directory.
pub fn count_links(
    alloc: Global,
    directories: &[DirectoryRow],
    entered: &[EnteredRow],
) -> Result<Counts, NoMemory>
    ensures { IfOk result (λ links. (v : Volume) → IsDirectoryTable v directories.now
        → IsCount (flat_map (λ d. named_by v d.inode) entered.now) links) }
{
    let mut links = Counts::new(alloc);
    for directory in entered {
        add_directory(&mut links, directories, directory.inode)?;
    }
    Ok(links)
}
