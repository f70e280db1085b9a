// The names of a directory's entries.
ghost use Rattle.std.specs.Prelude.{◌≡◌, ◌||◌, ◌&&◌, ℕ, List, not, filter, bytes_eq, IfOk, OnOk};
ghost use Rattle.o2_model.specs.Orders.{later_like, is_none_of};
ghost use Rattle.o2_model.specs.Faults.{those_not};
ghost use Rattle.o2_model.specs.Directories.{is_dot};
ghost use Rattle.o2_model.specs.Checks.DirentName.{is_sound_name as is_name_of_entry};
ghost use Rattle.o2_model.specs.Checks.DirentDup.{are_namesakes};
ghost use Rattle.o2_skeleton.specs.Names.{has_name};

use o2_dir::{Entry, is_dot_entry};
use o2_disk::NoMemory;
use std::alloc::Global;
use std::collections::BTreeSet;

/// Whether these bytes can be a name: 1 to 255 of them, none a slash or NUL.
#[tactic(auto, unfolding(o2_model::specs::Checks::DirentName::is_sound_name))]
fn is_sound_name(name: &[u8]) -> bool
    ensures { result ≡ is_name_of_entry name.now }
{
    1 <= name.len() && name.len() <= 255 && !name.contains(&b'/') && !name.contains(&0)
}

/// Whether the name of each entry is sound.
fn are_sound_names(entries: &[Entry]) -> bool
    ensures { result ≡ is_none_of (those_not (λ e. is_name_of_entry e.name) entries.now) }
{
    for entry in entries {
        if !is_sound_name(entry.name.as_slice()) {
            return false;
        }
    }
    true
}

/// Puts a name among those that were met, and tells whether it is a new one.
fn add_name<'a>(names: &mut BTreeSet<&'a [u8]>, name: &'a [u8]) -> Result<bool, NoMemory>
    ensures new { IfOk result (λ is_new. is_new ≡ not (has_name names.old name.now)) }
    ensures put { OnOk result ((other : List ℕ) → has_name names.new other ≡ (bytes_eq other name.now || has_name names.old other)) }
{
    match names.insert(name) {
        Ok(is_new) => Ok(is_new),
        Err(_) => Err(NoMemory),
    }
}

/// Whether no two of the entries but the dots have one name.
fn have_different_names(alloc: Global, entries: &[Entry]) -> Result<bool, NoMemory>
    ensures { IfOk result (λ differ. differ ≡ is_none_of (later_like are_namesakes (filter (λ e. not (is_dot e)) entries.now))) }
{
    let mut names = BTreeSet::new(alloc);
    for entry in entries {
        let is_dot = is_dot_entry(entry);
        if !is_dot && !add_name(&mut names, entry.name.as_slice())? {
            return Ok(false);
        }
    }
    Ok(true)
}

/// Whether the names of a directory's live entries are sound, and none but the dots comes again.
pub fn have_sound_names(alloc: Global, entries: &[Entry]) -> Result<bool, NoMemory>
    ensures { IfOk result (λ sound. sound ≡ (is_none_of (those_not (λ e. is_name_of_entry e.name) entries.now)
        && is_none_of (later_like are_namesakes (filter (λ e. not (is_dot e)) entries.now)))) }
{
    if !are_sound_names(entries) {
        return Ok(false);
    }
    have_different_names(alloc, entries)
}
