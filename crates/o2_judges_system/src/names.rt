// What the name of an entry of the system directory tells.
ghost use Rattle.std.specs.Prelude.{◌≡◌, false, nat_le};
ghost use Rattle.std.specs.Option.{option_map_or};
ghost use Rattle.o2_model.specs.Volume.{Volume};
ghost use Rattle.o2_model.specs.SystemFiles.{slot_in_name as slot_told};
ghost use Rattle.o2_model.specs.Checks.Sysfile.{is_name_of_slot, is_slot_name as is_some_slot_name, is_name_beyond_slots as is_beyond, is_allocator_name as is_name_of_allocator};

use crate::slot_names::slot_in_name;
use o2_model::{Entry, Geo, SlotFile, SystemFile};
use o2_survey::name_of;

/// Whether the entry has the name of such a file of a slot, whatever its number.
pub fn is_of_slot(file: SlotFile, entry: &Entry) -> bool
    ensures { result ≡ is_name_of_slot file entry.now }
{
    let slot = slot_in_name(file, entry.name.as_slice());
    slot.is_some()
}

/// Whether the entry has a slot's name.
pub fn is_slot_name(entry: &Entry) -> bool
    ensures { result ≡ is_some_slot_name entry.now }
{
    is_of_slot(SlotFile::OrphanDir, entry)
        || is_of_slot(SlotFile::ExtentAlloc, entry)
        || is_of_slot(SlotFile::InodeAlloc, entry)
        || is_of_slot(SlotFile::Journal, entry)
        || is_of_slot(SlotFile::LocalAlloc, entry)
        || is_of_slot(SlotFile::TruncateLog, entry)
}

/// Whether the entry has the name of such a file of a slot that there is not, where there are so many.
fn is_beyond_slots(slots: u16, file: SlotFile, entry: &Entry) -> bool
    ensures { result ≡ option_map_or (nat_le slots) (slot_told file entry.now.name) false }
{
    match slot_in_name(file, entry.name.as_slice()) {
        Some(slot) => slots <= slot,
        None => false,
    }
}

/// Whether the entry has the name of a slot that the superblock does not count.
pub fn is_name_beyond_slots(geo: &Geo, entry: &Entry) -> bool
    ensures { (v : Volume) → v.geo ≡ geo.now → result ≡ is_beyond v entry.now }
{
    is_beyond_slots(geo.slots, SlotFile::OrphanDir, entry)
        || is_beyond_slots(geo.slots, SlotFile::ExtentAlloc, entry)
        || is_beyond_slots(geo.slots, SlotFile::InodeAlloc, entry)
        || is_beyond_slots(geo.slots, SlotFile::Journal, entry)
        || is_beyond_slots(geo.slots, SlotFile::LocalAlloc, entry)
        || is_beyond_slots(geo.slots, SlotFile::TruncateLog, entry)
}

/// Whether the entry has an allocator's name.
pub fn is_allocator_name(entry: &Entry) -> bool
    ensures { result ≡ is_name_of_allocator entry.now }
{
    let name = entry.name.as_slice();
    name == name_of(SystemFile::GlobalBitmap).as_slice()
        || name == name_of(SystemFile::GlobalInodeAlloc).as_slice()
        || is_of_slot(SlotFile::ExtentAlloc, entry)
        || is_of_slot(SlotFile::InodeAlloc, entry)
}
