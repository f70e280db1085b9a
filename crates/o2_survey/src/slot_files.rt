// The files of all slots, one kind at a time.
ghost use Rattle.std.specs.Prelude.{◌≡◌, IfOk};
ghost use Rattle.o2_model.specs.declared.system_file.SlotFile.TheVariants as kind;
ghost use Rattle.o2_model.specs.Volume.{Volume};
ghost use Rattle.o2_model.specs.Journals.{journals as all_journals};
ghost use Rattle.o2_survey.specs.SystemNames.{AreSystemNames, inodes_of_slots};

use crate::SystemNames;
use o2_disk::NoMemory;
use o2_model::{Geo, SlotFile, SystemFile};
use o2_tally::put;
use std::alloc::Global;

/// The inodes of such files that the names tell, slot by slot.
fn inodes_by_slot(
    alloc: Global,
    geo: &Geo,
    names: &SystemNames,
    file: SlotFile,
) -> Result<Vec<u64>, NoMemory>
    ensures { IfOk result (λ found. (v : Volume) → v.geo ≡ geo.now → AreSystemNames v names.now → found.items ≡ inodes_of_slots v file) }
{
    let mut found = Vec::new(alloc);
    for slot in 0..geo.slots {
        let of_slot = SystemFile::OfSlot(file, slot);
        if let Some(inode) = names.inode_of(of_slot) {
            put(&mut found, inode)?;
        }
    }
    Ok(found)
}

/// The inodes of the journals that the names tell, slot by slot. NoMemory where memory runs out.
#[tactic(auto, unfolding(o2_model::specs::Journals::journals))]
pub fn journals(alloc: Global, geo: &Geo, names: &SystemNames) -> Result<Vec<u64>, NoMemory>
    ensures { IfOk result (λ found. (v : Volume) → v.geo ≡ geo.now → AreSystemNames v names.now → found.items ≡ all_journals v) }
{
    inodes_by_slot(alloc, geo, names, SlotFile::Journal)
}

/// The inodes of the orphan directories that the names tell, slot by slot. NoMemory where memory runs out.
pub fn orphan_directories(
    alloc: Global,
    geo: &Geo,
    names: &SystemNames,
) -> Result<Vec<u64>, NoMemory>
    ensures { IfOk result (λ found. (v : Volume) → v.geo ≡ geo.now → AreSystemNames v names.now → found.items ≡ inodes_of_slots v kind.OrphanDir) }
{
    inodes_by_slot(alloc, geo, names, SlotFile::OrphanDir)
}
