// How many entries stand in each block, and how many index entries name it.
ghost use Rattle.std.specs.Prelude.{◌≡◌, ◌==◌, ◌&&◌, ℕ, map, length, IfOk};
ghost use Rattle.std.specs.List.{list_all};
ghost use Rattle.o2_model.specs.Directories.{directory_entries, dir_blocks};
ghost use Rattle.o2_model.specs.Indexes.{index_root, dx_root, index_entries};
ghost use Rattle.o2_model.specs.SoundIndexes.{has_sound_index_counts};
ghost use Rattle.o2_model.specs.Volume.{Volume};
ghost use Rattle.o2_tally.specs.Gathered.{count_of, IsCount};

use o2_disk::NoMemory;
use o2_model::Entry;
use o2_ondisk::DxEntry;
use o2_tally::Counts;
use std::alloc::Global;

/// How often each block is named in the index.
fn count_indexed(alloc: Global, index: &[DxEntry]) -> Result<Counts, NoMemory>
    ensures { IfOk result (λ counts. IsCount (map (λ x. x.dirent_blk) index.now) counts) }
{
    let mut counts = Counts::new(alloc);
    for entry in index {
        counts.add(entry.dirent_blk)?;
    }
    Ok(counts)
}

/// How many entries stand in each block.
fn count_listed(alloc: Global, entries: &[Entry]) -> Result<Counts, NoMemory>
    ensures { IfOk result (λ counts. IsCount (map (λ e. e.block) entries.now) counts) }
{
    let mut counts = Counts::new(alloc);
    for entry in entries {
        counts.add(entry.block)?;
    }
    Ok(counts)
}

/// Whether each of these blocks came equally often in both.
fn are_as_many(blocks: &[u64], indexed: &Counts, listed: &Counts) -> bool
    ensures { result ≡ list_all (λ b. count_of indexed.now b == count_of listed.now b) blocks.now }
{
    blocks
        .iter()
        .all(|block| indexed.count(*block) == listed.count(*block))
}

/// Whether the directory has so many entries, and its index as many.
fn has_lengths(num_entries: u32, entries: &[Entry], index: &[DxEntry]) -> bool
    ensures { result ≡ (num_entries == length entries.now && length index.now == length entries.now) }
{
    num_entries as usize == entries.len() && index.len() == entries.len()
}

/// Whether the index has as many entries as the directory, as many as its root says, and for each block of the directory as many
/// as stand there. NoMemory where memory runs out.
pub fn has_index_counts(
    alloc: Global,
    num_entries: u32,
    entries: &[Entry],
    blocks: &[u64],
    index: &[DxEntry],
) -> Result<bool, NoMemory>
    ensures { IfOk result (λ sound. (v : Volume) (d : ℕ) → num_entries ≡ (dx_root v (index_root v d)).num_entries → entries.now ≡ directory_entries v d
        → blocks.now ≡ map (λ b. b.block) (dir_blocks v d) → index.now ≡ index_entries v d → sound ≡ has_sound_index_counts v d) }
{
    if !has_lengths(num_entries, entries, index) {
        return Ok(false);
    }
    let indexed = count_indexed(alloc, index)?;
    let listed = count_listed(alloc, entries)?;
    Ok(are_as_many(blocks, &indexed, &listed))
}
