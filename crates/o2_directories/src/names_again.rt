// DIRENT_DUP: the names of one directory that come again.
ghost use Rattle.std.specs.Prelude.{◌≡◌, ◌||◌, ◌∷◌, ◌++◌, ℕ, List, not, bytes_eq, IfOk, OnOk};
ghost use Rattle.o2_model.specs.Orders.{rising};
ghost use Rattle.o2_model.specs.Volume.{Volume};
ghost use Rattle.o2_model.specs.Directories.{directory_entries};
ghost use Rattle.o2_model.specs.Checks.DirentDup.{dirent_dup_faults};
ghost use Rattle.o2_directories.specs.MetNames.{has_name, repeats};

use o2_dir::is_dot_entry;
use o2_disk::NoMemory;
use o2_model::Entry;
use o2_tally::put;
use std::alloc::Global;
use std::collections::BTreeSet;

/// Puts a name among those that were met, and tells whether it is a new one.
fn add_name<'a>(names: &mut BTreeSet<&'a [u8]>, name: &'a [u8]) -> Result<bool, NoMemory>
    ensures new { IfOk result (λ is_new. is_new ≡ not (has_name names.old name.now)) }
    ensures put { OnOk result ((other : List ℕ) → has_name names.new other ≡ (bytes_eq other name.now || has_name names.old other)) }
{
    match names.insert(name) {
        Ok(is_new) => Ok(is_new),
        Err(_) => Err(NoMemory),
    }
}

/// Puts the block of the entry at the end, where its name was met.
fn judge_name<'a>(
    names: &mut BTreeSet<&'a [u8]>,
    again: &mut Vec<u64>,
    entry: &'a Entry,
) -> Result<(), NoMemory>
    ensures { OnOk result ((es : List Entry) → again.new.items ++ repeats (has_name names.new) es ≡ again.old.items ++ repeats (has_name names.old) (entry.now ∷ es)) }
{
    if is_dot_entry(entry) {
        return Ok(());
    }
    if add_name(names, entry.name.as_slice())? {
        return Ok(());
    }
    put(again, entry.block)
}

/// The blocks of the entries but the dots whose name an earlier entry has, in order: where DIRENT_DUP fails for a directory of
/// these entries. No name is copied. NoMemory where memory runs out.
pub fn dirent_dup(alloc: Global, entries: &[Entry]) -> Result<Vec<u64>, NoMemory>
    ensures { IfOk result (λ blocks. (v : Volume) (d : ℕ) → entries.now ≡ directory_entries v d → rising blocks.items ≡ rising (dirent_dup_faults v d)) }
{
    let mut names = BTreeSet::new(alloc);
    let mut again = Vec::new(alloc);
    for entry in entries {
        judge_name(&mut names, &mut again, entry)?;
    }
    Ok(again)
}
