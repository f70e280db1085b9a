// The inodes that entries name.
ghost use Rattle.std.specs.Prelude.{List, IfOk, OnOk};
ghost use Rattle.o2_model.specs.Words.{push};
ghost use Rattle.o2_tree.specs.declared.directories.EntryRow.{EntryRow};
ghost use Rattle.o2_judges_inodes.specs.OrphanRows.{AreNamed};

use o2_disk::NoMemory;
use o2_tally::add_number;
use o2_tree::EntryRow;
use std::alloc::Global;
use std::collections::BTreeSet;

/// Puts the inode that the entry names among them.
fn add_named(named: &mut BTreeSet<u64>, entry: &EntryRow) -> Result<(), NoMemory>
    ensures { OnOk result ((entries : List EntryRow) → AreNamed entries named.old → AreNamed (push entries entry.now) named.new) }
{
    add_number(named, entry.inode)?;
    Ok(())
}

/// The inodes that these entries name.
pub fn named_inodes(alloc: Global, entries: &[EntryRow]) -> Result<BTreeSet<u64>, NoMemory>
    ensures { IfOk result (λ named. AreNamed entries.now named) }
{
    let mut named = BTreeSet::new(alloc);
    for entry in entries {
        add_named(&mut named, entry)?;
    }
    Ok(named)
}
