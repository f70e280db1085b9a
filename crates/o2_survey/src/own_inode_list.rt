// The volume's own inodes.
ghost use Rattle.std.specs.Prelude.{◌≡◌, ℕ, IfOk};
ghost use Rattle.o2_model.specs.Words.{among};
ghost use Rattle.o2_model.specs.Volume.{Volume};
ghost use Rattle.o2_model.specs.Directories.{directory_entries, own_inodes as own};
ghost use Rattle.o2_tally.specs.Again.{has_number};

use o2_dir::is_dot_entry;
use o2_disk::NoMemory;
use o2_model::{Entry, Geo};
use o2_tally::add_number;
use std::alloc::Global;
use std::collections::BTreeSet;

/// The volume's own inodes: the system directory, and those that its live entries other than the dots name. NoMemory where
/// memory runs out.
pub fn own_inodes(alloc: Global, geo: &Geo, entries: &[Entry]) -> Result<BTreeSet<u64>, NoMemory>
    ensures { IfOk result (λ found. (v : Volume) → v.geo ≡ geo.now → entries.now ≡ directory_entries v v.geo.sysdir → (b : ℕ) → has_number found b ≡ among (own v) b) }
{
    let mut found = BTreeSet::new(alloc);
    add_number(&mut found, geo.sysdir)?;
    for entry in entries {
        if !is_dot_entry(entry) {
            add_number(&mut found, entry.inode)?;
        }
    }
    Ok(found)
}
