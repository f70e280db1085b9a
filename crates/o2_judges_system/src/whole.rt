// SYSFILE: the files of the system directory.
ghost use Rattle.std.specs.Prelude.{◌≡◌, ◌++◌, ◌==◌, ◌∷◌, ◌&&◌, [], ℕ, List, true, false, not, map, filter, if◌then◌else◌, IfOk, OnOk};
ghost use Rattle.std.specs.List.{range_with_len};
ghost use Rattle.o2_model.specs.declared.check.Check.TheVariants as check;
ghost use Rattle.o2_model.specs.Directories.{directory_entries, is_dot};
ghost use Rattle.o2_model.specs.Failing.{faults};
ghost use Rattle.o2_model.specs.Faults.{fails_at, fails_unless};
ghost use Rattle.o2_model.specs.Groups.{has_inode_bit};
ghost use Rattle.o2_model.specs.Orders.{rising, later_like};
ghost use Rattle.o2_model.specs.Volume.{Volume, blocks as blocks_of};
ghost use Rattle.o2_model.specs.Words.{among};
ghost use Rattle.o2_model.specs.Checks.Sysfile.{is_sound_system_entry, has_system_files as are_system_files};
ghost use Rattle.o2_survey.specs.SystemInodes.{AreSystemInodes, named_by};
ghost use Rattle.o2_survey.specs.SystemNames.{AreSystemNames};

use crate::present::{has_system_files, is_on_bit};
use crate::system_entry::is_sound_entry;
use o2_dir::is_dot_entry;
use o2_disk::NoMemory;
use o2_model::{Entry, Geo};
use o2_survey::{SystemInodes, SystemNames};
use o2_tally::{Numbered, later_numbers, put};
use std::alloc::Global;

/// Whether SYSFILE holds for the entry.
fn is_sound(geo: &Geo, entry: &Entry, inodes: &SystemInodes, blocks: &[u64]) -> bool
    ensures { (v : Volume) → v.geo ≡ geo.now → (named : List ℕ) → AreSystemInodes v named inodes.now → among named entry.now.inode ≡ true
        → blocks.now ≡ filter (has_inode_bit v) (range_with_len 0 (blocks_of v)) → result ≡ is_sound_system_entry v entry.now }
{
    let row = inodes.row_of(entry.inode);
    is_sound_entry(geo, entry, row, is_on_bit(blocks, entry.inode))
}

/// Puts the inode of the entry at the end, where it is no dot and SYSFILE fails for it.
fn add_bad_entry(
    geo: &Geo,
    entry: &Entry,
    inodes: &SystemInodes,
    blocks: &[u64],
    found: &mut Vec<u64>,
) -> Result<(), NoMemory>
    ensures { OnOk result ((v : Volume) → v.geo ≡ geo.now → (named : List ℕ) → AreSystemInodes v named inodes.now
        → (is_dot entry.now ≡ false → among named entry.now.inode ≡ true)
        → blocks.now ≡ filter (has_inode_bit v) (range_with_len 0 (blocks_of v))
        → found.new.items ≡ found.old.items ++ (if not (is_dot entry.now) && not (is_sound_system_entry v entry.now) then entry.now.inode ∷ [] else [])) }
{
    if is_dot_entry(entry) || is_sound(geo, entry, inodes, blocks) {
        return Ok(());
    }
    put(found, entry.inode)
}

/// The inodes of the entries but the dots for which SYSFILE fails, in order.
fn bad_entries(
    alloc: Global,
    geo: &Geo,
    entries: &[Entry],
    inodes: &SystemInodes,
    blocks: &[u64],
) -> Result<Vec<u64>, NoMemory>
    ensures { IfOk result (λ found. (v : Volume) → v.geo ≡ geo.now → AreSystemInodes v (named_by entries.now) inodes.now
        → blocks.now ≡ filter (has_inode_bit v) (range_with_len 0 (blocks_of v))
        → found.items ≡ fails_at (λ e. e.inode) (is_sound_system_entry v) (filter (λ e. not (is_dot e)) entries.now)) }
{
    let mut found = Vec::new(alloc);
    for entry in entries {
        add_bad_entry(geo, entry, inodes, blocks, &mut found)?;
    }
    Ok(found)
}

/// Puts the inode of the entry at the end, where it is no dot.
fn add_named(entry: &Entry, named: &mut Vec<Numbered>) -> Result<(), NoMemory>
    ensures { OnOk result (named.new.items ≡ named.old.items ++ (if not (is_dot entry.now) then record { number = entry.now.inode; place = entry.now.inode } ∷ [] else [])) }
{
    if is_dot_entry(entry) {
        return Ok(());
    }
    let item = Numbered {
        number: entry.inode,
        place: entry.inode,
    };
    put(named, item)
}

/// The inodes of the entries but the dots, in order.
fn inodes_named(alloc: Global, entries: &[Entry]) -> Result<Vec<Numbered>, NoMemory>
    ensures { IfOk result (λ named. named.items ≡ map (λ e. record { number = e.inode; place = e.inode }) (filter (λ e. not (is_dot e)) entries.now)) }
{
    let mut named = Vec::new(alloc);
    for entry in entries {
        add_named(entry, &mut named)?;
    }
    Ok(named)
}

/// The inodes that an earlier entry names too.
fn named_again(alloc: Global, entries: &[Entry]) -> Result<Vec<u64>, NoMemory>
    ensures { IfOk result (λ again. rising again.items ≡ rising (map (λ e. e.inode) (later_like (λ e f. e.inode == f.inode) (filter (λ e. not (is_dot e)) entries.now)))) }
{
    let named = inodes_named(alloc, entries)?;
    later_numbers(alloc, named.as_slice())
}

/// The system directory, where a file is missing, or the root or the directory itself is on no set bit.
fn where_files_miss(
    alloc: Global,
    geo: &Geo,
    names: &SystemNames,
    blocks: &[u64],
) -> Result<Vec<u64>, NoMemory>
    ensures { IfOk result (λ found. (v : Volume) → v.geo ≡ geo.now → AreSystemNames v names.now
        → blocks.now ≡ filter (has_inode_bit v) (range_with_len 0 (blocks_of v)) → found.items ≡ fails_unless v.geo.sysdir (are_system_files v)) }
{
    let mut found = Vec::new(alloc);
    if has_system_files(geo, names, blocks) {
        return Ok(found);
    }
    put(&mut found, geo.sysdir)?;
    Ok(found)
}

/// Adds the blocks.
fn add_all(found: &mut Vec<u64>, more: &[u64]) -> Result<(), NoMemory>
    ensures { OnOk result (found.new.items ≡ found.old.items ++ more.now) }
{
    match found.extend_from_slice(more) {
        Ok(()) => Ok(()),
        Err(_) => Err(NoMemory),
    }
}

/// The blocks at which SYSFILE fails: the system directory where a file is missing, or the root or the directory itself is on no
/// set bit, and the inodes of bad entries. `entries` are those of the system directory, `inodes` tells what their dinodes say, and
/// `blocks` are those on set bits of groups of inodes. NoMemory where memory runs out.
pub fn sysfile(
    alloc: Global,
    geo: &Geo,
    names: &SystemNames,
    entries: &[Entry],
    inodes: &SystemInodes,
    blocks: &[u64],
) -> Result<Vec<u64>, NoMemory>
    ensures { IfOk result (λ found. (v : Volume) → v.geo ≡ geo.now → entries.now ≡ directory_entries v v.geo.sysdir → AreSystemNames v names.now
        → AreSystemInodes v (named_by entries.now) inodes.now → blocks.now ≡ filter (has_inode_bit v) (range_with_len 0 (blocks_of v))
        → rising found.items ≡ rising (faults v check.Sysfile)) }
{
    let mut found = where_files_miss(alloc, geo, names, blocks)?;
    let bad = bad_entries(alloc, geo, entries, inodes, blocks)?;
    let again = named_again(alloc, entries)?;
    add_all(&mut found, bad.as_slice())?;
    add_all(&mut found, again.as_slice())?;
    Ok(found)
}
