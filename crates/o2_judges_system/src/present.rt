// The files that a volume needs, and the bits of its two directories.
ghost use Rattle.std.specs.Prelude.{◌≡◌, filter, flat_map};
ghost use Rattle.std.specs.List.{list_all, range_with_len};
ghost use Rattle.o2_model.specs.Volume.{Volume, blocks as blocks_of};
ghost use Rattle.o2_model.specs.Groups.{has_inode_bit};
ghost use Rattle.o2_model.specs.SystemFiles.{files_of_slot};
ghost use Rattle.o2_model.specs.Checks.Sysfile.{is_there as is_file_there, has_system_files as are_system_files};
ghost use Rattle.o2_survey.specs.SystemNames.{AreSystemNames};

use o2_model::{Geo, SlotFile, SystemFile};
use o2_survey::SystemNames;
use o2_tally::find_number;

/// Whether the block is one of these, which are on set bits of groups of inodes.
pub fn is_on_bit(blocks: &[u64], b: u64) -> bool
    ensures { (v : Volume) → blocks.now ≡ filter (has_inode_bit v) (range_with_len 0 (blocks_of v)) → result ≡ has_inode_bit v b }
{
    match find_number(blocks, b) {
        Some(_at) => true,
        None => false,
    }
}

/// Whether there is such a file.
fn is_there(names: &SystemNames, file: SystemFile) -> bool
    ensures { (v : Volume) → AreSystemNames v names.now → result ≡ is_file_there v file }
{
    match names.inode_of(file) {
        Some(_inode) => true,
        None => false,
    }
}

/// Whether the slot has its six files.
fn has_files_of_slot(names: &SystemNames, slot: u16) -> bool
    ensures { (v : Volume) → AreSystemNames v names.now → result ≡ list_all (is_file_there v) (files_of_slot slot) }
{
    is_there(names, SystemFile::OfSlot(SlotFile::OrphanDir, slot))
        && is_there(names, SystemFile::OfSlot(SlotFile::ExtentAlloc, slot))
        && is_there(names, SystemFile::OfSlot(SlotFile::InodeAlloc, slot))
        && is_there(names, SystemFile::OfSlot(SlotFile::Journal, slot))
        && is_there(names, SystemFile::OfSlot(SlotFile::LocalAlloc, slot))
        && is_there(names, SystemFile::OfSlot(SlotFile::TruncateLog, slot))
}

/// Whether each of so many slots has its files.
fn have_files_of_slots(names: &SystemNames, slots: u16) -> bool
    ensures { (v : Volume) → AreSystemNames v names.now → result ≡ list_all (is_file_there v) (flat_map files_of_slot (range_with_len 0 slots)) }
{
    for slot in 0..slots {
        if !has_files_of_slot(names, slot) {
            return false;
        }
    }
    true
}

/// Whether no file is missing, and the root and the system directory are on bits of groups of inodes, those of `blocks`.
#[tactic(auto, unfolding(o2_model::specs::Checks::Sysfile::has_system_files, o2_model::specs::SystemFiles::required_files))]
pub fn has_system_files(geo: &Geo, names: &SystemNames, blocks: &[u64]) -> bool
    ensures { (v : Volume) → v.geo ≡ geo.now → AreSystemNames v names.now
        → blocks.now ≡ filter (has_inode_bit v) (range_with_len 0 (blocks_of v)) → result ≡ are_system_files v }
{
    is_there(names, SystemFile::GlobalInodeAlloc)
        && is_there(names, SystemFile::SlotMap)
        && is_there(names, SystemFile::GlobalBitmap)
        && have_files_of_slots(names, geo.slots)
        && is_on_bit(blocks, geo.root)
        && is_on_bit(blocks, geo.sysdir)
}
