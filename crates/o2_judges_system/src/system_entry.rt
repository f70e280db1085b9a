// One entry of the system directory.
ghost use Rattle.std.specs.Prelude.{◌≡◌, false, MatchOption};
ghost use Rattle.o2_model.specs.Volume.{Volume, is_in_range};
ghost use Rattle.o2_model.specs.Groups.{has_inode_bit};
ghost use Rattle.o2_model.specs.Checks.Sysfile.{is_sound_system_entry};
ghost use Rattle.o2_survey.specs.SystemInodes.{IsSystemInode};

use crate::names::{is_name_beyond_slots, is_slot_name};
use crate::roles::{has_flags_of_name, has_kind_of_name};
use o2_model::{Entry, Geo};
use o2_survey::SystemInode;

/// Whether SYSFILE holds for the entry, whose inode has this row. None where the inode is out of range. `has_bit` tells whether
/// it stands on a set bit of a group of inodes.
#[tactic(auto, unfolding(o2_model::specs::Checks::Sysfile::is_sound_system_entry, o2_model::specs::Groups::is_inode, o2_model::specs::Volume::is_valid))]
pub fn is_sound_entry(geo: &Geo, entry: &Entry, row: Option<SystemInode>, has_bit: bool) -> bool
    ensures { (v : Volume) → v.geo ≡ geo.now → MatchOption row (is_in_range v entry.now.inode ≡ false) (IsSystemInode v entry.now.inode)
        → has_bit ≡ has_inode_bit v entry.now.inode → result ≡ is_sound_system_entry v entry.now }
{
    let Some(row) = row else {
        return false;
    };
    row.is_valid
        && has_bit
        && has_kind_of_name(entry, &row)
        && has_flags_of_name(entry, &row)
        && !is_name_beyond_slots(geo, entry)
        && !(is_slot_name(entry) && row.has_refcount)
        && entry.inode != geo.root
        && entry.inode != geo.sysdir
}
