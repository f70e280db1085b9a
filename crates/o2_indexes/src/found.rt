// Names that an index has to find.
ghost use Rattle.std.specs.Prelude.{◌≡◌, ℕ, map, filter, nat_le, IfOk};
ghost use Rattle.std.specs.List.{list_all};
ghost use Rattle.o2_ondisk.specs.NameHashes.{is_ascii_name};
ghost use Rattle.o2_model.specs.Directories.{directory_entries};
ghost use Rattle.o2_model.specs.Indexes.{index_entries};
ghost use Rattle.o2_model.specs.SoundIndexes.{is_found_in_index as finds_each};
ghost use Rattle.o2_model.specs.Volume.{Volume};
ghost use Rattle.o2_indexes.specs.Places.{place_of_name, place_in_index, times_at};

use crate::places::{HashedPlace, PlaceCounts, count_places};
use o2_disk::NoMemory;
use o2_model::{Entry, Geo};
use o2_ondisk::{DxEntry, DxSeed, name_hash};
use std::alloc::Global;

/// Whether hashes are compared for the name.
#[tactic(auto, unfolding(o2_ondisk::specs::NameHashes::is_ascii_name))]
fn is_ascii(name: &[u8]) -> bool
    ensures { result ≡ is_ascii_name name.now }
{
    name.iter().all(|byte| *byte < 0x80)
}

/// The hash of the entry's name, in the entry's block.
fn place_of(seed: &DxSeed, entry: &Entry) -> HashedPlace
    ensures { result ≡ place_of_name seed.now entry.now }
{
    let (major, minor) = name_hash(seed, entry.name.as_slice());
    HashedPlace {
        block: entry.block,
        major,
        minor,
    }
}

/// The hashes of the names of ASCII bytes, with the blocks of their entries.
fn named_places(
    alloc: Global,
    seed: &DxSeed,
    entries: &[Entry],
) -> Result<Vec<HashedPlace>, NoMemory>
    ensures { IfOk result (λ places. places.items ≡ map (place_of_name seed.now) (filter (λ e. is_ascii_name e.name) entries.now)) }
{
    let places = entries
        .iter()
        .filter(|entry| is_ascii(entry.name.as_slice()))
        .map(|entry| place_of(seed, entry))
        .collect(alloc);
    match places {
        Ok(places) => Ok(places),
        Err(_) => Err(NoMemory),
    }
}

/// The hash of an index entry, in the block that it names.
fn indexed_place(entry: &DxEntry) -> HashedPlace
    ensures { result ≡ place_in_index entry.now }
{
    HashedPlace {
        block: entry.dirent_blk,
        major: entry.major_hash,
        minor: entry.minor_hash,
    }
}

/// The hashes of these index entries, with the blocks that they name.
fn indexed_places(alloc: Global, index: &[DxEntry]) -> Result<Vec<HashedPlace>, NoMemory>
    ensures { IfOk result (λ places. places.items ≡ map place_in_index index.now) }
{
    match index
        .iter()
        .map(|entry| indexed_place(entry))
        .collect(alloc)
    {
        Ok(places) => Ok(places),
        Err(_) => Err(NoMemory),
    }
}

/// Whether each of these came at least as often in the index as among the names.
fn are_found(places: &[HashedPlace], named: &PlaceCounts, indexed: &PlaceCounts) -> bool
    ensures { result ≡ list_all (λ p. nat_le (times_at named.now p) (times_at indexed.now p)) places.now }
{
    places
        .iter()
        .all(|place| named.count(*place) <= indexed.count(*place))
}

/// Whether the index of a directory, which has these index entries, finds each of the directory's entries whose name is of ASCII
/// bytes: for each hash and block it has at least as many index entries as there are names. NoMemory where memory runs out.
pub fn is_found_in_index(
    alloc: Global,
    geo: &Geo,
    entries: &[Entry],
    index: &[DxEntry],
) -> Result<bool, NoMemory>
    ensures { IfOk result (λ found. (v : Volume) (d : ℕ) → v.geo ≡ geo.now → entries.now ≡ directory_entries v d → index.now ≡ index_entries v d
        → found ≡ finds_each v d) }
{
    let named = named_places(alloc, &geo.seed, entries)?;
    let indexed = indexed_places(alloc, index)?;
    let names = count_places(alloc, &named)?;
    let counts = count_places(alloc, &indexed)?;
    Ok(are_found(&named, &names, &counts))
}
