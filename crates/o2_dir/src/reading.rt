// What was read of a directory so far.
ghost use Rattle.std.specs.Prelude.{◌≡◌, ◌≤◌, ◌==◌, ◌||◌, not, ℕ, List, [], length, flat_map, OnOk, IfOk, Some, MatchOption};
ghost use Rattle.std.specs.Result.{IfErr};
ghost use Rattle.o2_model.specs.Words.{push, IsLeast};
ghost use Rattle.o2_model.specs.Directories.{DirBlock, NamedEntry, entries_in, entries_of_block};
ghost use Rattle.o2_model.specs.Checks.DirBlock.{begin_with_dots};
ghost use Rattle.o2_dir.specs.Blocks.{Keeps};

use crate::dots::begins_with_dots;
use crate::entries_in_block::add_entries;
use crate::places::put;
use crate::{DirFault, Entries, Entry};
use o2_disk::NoMemory;
use o2_extent::least;
use o2_model::Check;
use std::alloc::Global;

/// What was read of a directory's blocks so far, in order.
#[derive(Debug, Drop)]
pub struct Reading {
    /// The live entries.
    pub entries: Vec<Entry>,
    /// The blocks that are not sound.
    pub faults: Vec<u64>,
}

/// Nothing was read yet.
pub fn start(alloc: Global) -> Reading
    ensures { Keeps result [] }
{
    Reading {
        entries: Vec::new(alloc),
        faults: Vec::new(alloc),
    }
}

/// Whether the block at this place, which entries fill, begins as it has to.
fn begins_well(place: u64, bytes: &[u8]) -> bool
    ensures { (es : List NamedEntry) → entries_in bytes.now ≡ Some es → result ≡ (not (place == 0) || begin_with_dots es) }
{
    if place != 0 {
        return true;
    }
    begins_with_dots(bytes)
}

/// Reads the entries of one more block, which has these bytes.
pub fn add_block(
    alloc: Global,
    bytes: &[u8],
    place: u64,
    block: u64,
    reading: &mut Reading,
) -> Result<(), NoMemory>
    requires { length bytes.now ≤ 4096 }
    ensures { OnOk result ((bs : List DirBlock) → Keeps reading.old bs
        → Keeps reading.new (push bs (record { place = place; block = block; found = entries_in bytes.now }))) }
{
    if !add_entries(alloc, bytes, block, &mut reading.entries)? {
        return put(&mut reading.faults, block);
    }
    if !begins_well(place, bytes) {
        return put(&mut reading.faults, block);
    }
    Ok(())
}

/// The entries, where all blocks are sound.
pub fn settle(reading: Reading) -> Result<Entries, DirFault>
    ensures sound { IfOk result (λ entries. (bs : List DirBlock) → Keeps reading bs → entries ≡ flat_map entries_of_block bs) }
    ensures none { IfOk result (λ _. reading.faults.items ≡ []) }
    ensures bad { IfErr result (λ fault. (check : Check) (b : ℕ) → fault ≡ DirFault.Bad check b → (check ≡ Check.DirBlock) × IsLeast b reading.faults.items) }
    ensures device { IfErr result (λ fault. fault ≡ DirFault.DeviceFault → ⊥) }
    ensures present { IfErr result (λ fault. fault ≡ DirFault.Absent → ⊥) }
{
    let faults = reading.faults;
    let entries = reading.entries;
    if let Some(block) = least(faults.as_slice()) {
        return Err(DirFault::Bad {
            check: Check::DirBlock,
            block,
        });
    }
    Ok(Entries::from(entries))
}
