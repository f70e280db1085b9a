// ORPHAN_ENTRY: each entry of an orphan directory names an orphan that is not the volume's own, and no inode is named again.
ghost use Rattle.std.specs.Prelude.{◌≡◌, ◌++◌, [], ◌∷◌, map, IfOk, OnOk};
ghost use Rattle.o2_model.specs.declared.check.Check.TheVariants as check;
ghost use Rattle.o2_model.specs.Faults.{fails_at};
ghost use Rattle.o2_model.specs.Orders.{rising};
ghost use Rattle.o2_model.specs.Volume.{Volume};
ghost use Rattle.o2_model.specs.Failing.{faults};
ghost use Rattle.o2_tables.specs.Rows.{IsInodeTable};
ghost use Rattle.o2_tree.specs.TreeWalks.{AreOwn, AreOrphans};
ghost use Rattle.o2_judges_inodes.specs.OrphanRows.{names_orphan as is_orphan_named, numbered as numbered_row};

use crate::flags::is_orphaned;
use o2_disk::NoMemory;
use o2_tables::InodeRow;
use o2_tally::{Numbered, later_numbers, put};
use o2_tree::{EntryRow, find_inode};
use std::alloc::{AllocError, Global};
use std::collections::BTreeSet;

/// Whether the entry names an inode that is marked as an orphan and is not the volume's own.
fn names_orphan(inodes: &[InodeRow], own: &BTreeSet<u64>, entry: &EntryRow) -> bool
    ensures { (v : Volume) → IsInodeTable v inodes.now → AreOwn v own.now → result ≡ is_orphan_named v entry.now }
{
    match find_inode(inodes, entry.inode) {
        Some(row) => is_orphaned(row) && !own.contains(&entry.inode),
        None => false,
    }
}

/// Puts the block of the entry with those found, unless it names such an inode.
fn judge(
    found: &mut Vec<u64>,
    inodes: &[InodeRow],
    own: &BTreeSet<u64>,
    entry: &EntryRow,
) -> Result<(), NoMemory>
    ensures { OnOk result ((v : Volume) → IsInodeTable v inodes.now → AreOwn v own.now → found.new.items ≡ found.old.items ++ fails_at (λ e. e.block) (is_orphan_named v) (entry.now ∷ [])) }
{
    if !names_orphan(inodes, own, entry) {
        put(found, entry.block)?;
    }
    Ok(())
}

/// The blocks of the entries that name no such inode.
fn without_orphan(
    alloc: Global,
    inodes: &[InodeRow],
    own: &BTreeSet<u64>,
    orphans: &[EntryRow],
) -> Result<Vec<u64>, NoMemory>
    ensures { IfOk result (λ found. (v : Volume) → IsInodeTable v inodes.now → AreOwn v own.now → found.items ≡ fails_at (λ e. e.block) (is_orphan_named v) orphans.now) }
{
    let mut found = Vec::new(alloc);
    for entry in orphans {
        judge(&mut found, inodes, own, entry)?;
    }
    Ok(found)
}

/// The inodes that the entries name, each with the block of its entry.
fn numbered(alloc: Global, orphans: &[EntryRow]) -> Result<Vec<Numbered>, AllocError>
    ensures { IfOk result (λ items. items.items ≡ map numbered_row orphans.now) }
{
    orphans
        .iter()
        .map(|entry| Numbered {
            number: entry.inode,
            place: entry.block,
        })
        .collect(alloc)
}

/// The blocks of orphan directories at which ORPHAN_ENTRY fails. NoMemory where memory runs out.
pub fn orphan_entry(
    alloc: Global,
    inodes: &[InodeRow],
    own: &BTreeSet<u64>,
    orphans: &[EntryRow],
) -> Result<Vec<u64>, NoMemory>
    ensures { IfOk result (λ blocks. (v : Volume) → IsInodeTable v inodes.now → AreOwn v own.now → AreOrphans v orphans.now → rising blocks.items ≡ rising (faults v check.OrphanEntry)) }
{
    let mut found = without_orphan(alloc, inodes, own, orphans)?;
    let Ok(items) = numbered(alloc, orphans) else {
        return Err(NoMemory);
    };
    let again = later_numbers(alloc, items.as_slice())?;
    match found.extend_from_slice(again.as_slice()) {
        Ok(()) => Ok(found),
        Err(_) => Err(NoMemory),
    }
}
