// The journals that are to be replayed.
ghost use Rattle.std.specs.Prelude.{◌≡◌, ◌++◌, ◌&&◌, ◌∷◌, [], ℕ, List, true, filter, if◌then◌else◌, IfOk, OnOk};
ghost use Rattle.std.specs.List.{list_all};
ghost use Rattle.o2_ondisk.specs.Bits.{has_bits, dirty_journal_flag};
ghost use Rattle.o2_model.specs.Orders.{rising};
ghost use Rattle.o2_model.specs.Words.{among};
ghost use Rattle.o2_model.specs.Volume.{Volume, is_in_range};
ghost use Rattle.o2_model.specs.Journals.{is_dirty, journals as all_journals};
ghost use Rattle.o2_model.specs.Checks.JournalDirty.{journal_dirty_faults};
ghost use Rattle.o2_survey.specs.SystemInodes.{AreSystemInodes};

use crate::{SystemInode, SystemInodes};
use o2_disk::NoMemory;
use o2_ondisk::JournalFlags;
use o2_tally::put;
use std::alloc::Global;

/// Whether the dinode of a journal says that it is dirty.
#[tactic(auto, using(crate::proofs::DirtyJournals::same_flag))]
fn says_dirty(row: &SystemInode) -> bool
    ensures { result ≡ has_bits row.now.role_data.0 dirty_journal_flag }
{
    row.role_data.journal_flags().has(JournalFlags::DIRTY)
}

/// Puts the journal at the end, where its block is in range and its dinode says that it is dirty.
fn add_dirty(inodes: &SystemInodes, inode: u64, found: &mut Vec<u64>) -> Result<(), NoMemory>
    ensures { OnOk result ((v : Volume) (named : List ℕ) → AreSystemInodes v named inodes.now → among named inode ≡ true
        → found.new.items ≡ found.old.items ++ (if is_in_range v inode && is_dirty v inode then inode ∷ [] else [])) }
{
    let Some(row) = inodes.row_of(inode) else {
        return Ok(());
    };
    if !says_dirty(&row) {
        return Ok(());
    }
    put(found, inode)
}

/// The journals at which JOURNAL_DIRTY fails, in order: those in range whose dinodes say that they are dirty, where entries of
/// the system directory name all of them. NoMemory where memory runs out.
pub fn dirty_journals(
    alloc: Global,
    inodes: &SystemInodes,
    journals: &[u64],
) -> Result<Vec<u64>, NoMemory>
    ensures told { IfOk result (λ found. (v : Volume) (named : List ℕ) → AreSystemInodes v named inodes.now → list_all (among named) journals.now ≡ true
        → journals.now ≡ all_journals v → found.items ≡ filter (is_in_range v) (journal_dirty_faults v)) }
    ensures whole { IfOk result (λ found. (v : Volume) (named : List ℕ) → AreSystemInodes v named inodes.now → list_all (among named) journals.now ≡ true
        → journals.now ≡ all_journals v → list_all (is_in_range v) journals.now ≡ true → rising found.items ≡ rising (journal_dirty_faults v)) }
{
    let mut found = Vec::new(alloc);
    for inode in journals {
        add_dirty(inodes, *inode, &mut found)?;
    }
    Ok(found)
}
