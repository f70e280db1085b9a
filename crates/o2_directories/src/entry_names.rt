// DIRENT_NAME: the names of one directory.
ghost use Rattle.std.specs.Prelude.{◌≡◌, ◌++◌, ℕ, OnOk};
ghost use Rattle.o2_model.specs.Volume.{Volume};
ghost use Rattle.o2_model.specs.Directories.{directory_entries};
ghost use Rattle.o2_model.specs.Faults.{fails_unless};
ghost use Rattle.o2_model.specs.Checks.DirentName.{dirent_name_faults, is_sound_name as is_name_of_entry};

use o2_disk::NoMemory;
use o2_model::Entry;
use o2_tally::put;

/// Whether these bytes can be a name: 1 to 255 of them, none a slash or NUL.
#[tactic(auto, unfolding(o2_model::specs::Checks::DirentName::is_sound_name))]
pub fn is_sound_name(name: &[u8]) -> bool
    ensures { result ≡ is_name_of_entry name.now }
{
    1 <= name.len() && name.len() <= 255 && !name.contains(&b'/') && !name.contains(&0)
}

/// Puts the block of the entry at the end, where its name is none.
fn judge_name(entry: &Entry, found: &mut Vec<u64>) -> Result<(), NoMemory>
    ensures { OnOk result (found.new.items ≡ found.old.items ++ fails_unless entry.now.block (is_name_of_entry entry.now.name)) }
{
    if is_sound_name(entry.name.as_slice()) {
        return Ok(());
    }
    put(found, entry.block)
}

/// Puts the blocks at the end where DIRENT_NAME fails for a directory of these entries. NoMemory where memory runs out, and
/// then some may have been put there.
pub fn dirent_name(entries: &[Entry], found: &mut Vec<u64>) -> Result<(), NoMemory>
    ensures { OnOk result ((v : Volume) (d : ℕ) → entries.now ≡ directory_entries v d → found.new.items ≡ found.old.items ++ dirent_name_faults v d) }
{
    for entry in entries {
        judge_name(entry, found)?;
    }
    Ok(())
}
