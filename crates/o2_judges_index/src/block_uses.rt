// The uses of metadata blocks, by inodes, refcount trees and indexes.
ghost use Rattle.std.specs.Prelude.{◌≡◌, ◌<◌, ◌++◌, Bool, false, map, flat_map, IfOk, OnOk};
ghost use Rattle.std.specs.Option.{option_map_or};
ghost use Rattle.o2_model.specs.declared.allocator.BitUse.{BitUse};
ghost use Rattle.o2_model.specs.Volume.{Volume};
ghost use Rattle.o2_model.specs.Metadata.{group_with_bit, has_slot_and_bit};
ghost use Rattle.o2_model.specs.SoundIndexes.{is_own_block};
ghost use Rattle.o2_tables.specs.Rows.{IsGroupTable, IsInodeTable, IsRefcountTreeTable};
ghost use Rattle.o2_tally.specs.Gathered.{IsCount};
ghost use Rattle.o2_tree.specs.TreeRows.{IsIndexTable};
ghost use Rattle.o2_judges_alloc.specs.MetadataRows.{uses_of};
ghost use Rattle.o2_judges_origin.specs.Placed.{AreOfVolume};
ghost use Rattle.o2_judges_index.specs.IndexRows.{is_placed_in, blocks_of_row, AreBlockUses};

use o2_disk::NoMemory;
use o2_judges_alloc::metadata_uses;
use o2_judges_origin::{GroupPlace, PlacedGroups, placed_groups};
use o2_model::{BitUse, Origin};
use o2_tables::{ExtentBlockRow, GroupRow, InodeRow, RefcountTreeRow};
use o2_tally::{Counts, put};
use o2_tree::IndexRow;
use std::alloc::Global;

/// The groups of metadata, and how often each block of one is used.
#[derive(Drop)]
pub struct BlockUses {
    placed: PlacedGroups,
    counts: Counts,
}

/// Puts these extent blocks behind the blocks.
pub fn add_extent_blocks(blocks: &mut Vec<u64>, rows: &[ExtentBlockRow]) -> Result<(), NoMemory>
    ensures { OnOk result (blocks.new.items ≡ blocks.old.items ++ map (λ r. r.block) rows.now) }
{
    for row in rows {
        put(blocks, row.block)?;
    }
    Ok(())
}

/// Puts the root of an index and the extent blocks of its list behind the blocks.
pub fn add_index_blocks(blocks: &mut Vec<u64>, row: &IndexRow) -> Result<(), NoMemory>
    ensures { OnOk result (blocks.new.items ≡ blocks.old.items ++ blocks_of_row row.now) }
{
    put(blocks, row.root.block)?;
    add_extent_blocks(blocks, row.extent_blocks.as_slice())
}

/// Puts the blocks of all indexes behind the blocks.
fn add_all_index_blocks(blocks: &mut Vec<u64>, indexes: &[IndexRow]) -> Result<(), NoMemory>
    ensures { OnOk result (blocks.new.items ≡ blocks.old.items ++ flat_map blocks_of_row indexes.now) }
{
    for row in indexes {
        add_index_blocks(blocks, row)?;
    }
    Ok(())
}

/// How often each of the numbers comes.
fn counts_of(alloc: Global, numbers: &[u64]) -> Result<Counts, NoMemory>
    ensures { IfOk result (λ counts. IsCount numbers.now counts) }
{
    let mut counts = Counts::new(alloc);
    for number in numbers {
        counts.add(*number)?;
    }
    Ok(counts)
}

/// How often each metadata block is used.
fn counts_of_uses(
    alloc: Global,
    inodes: &[InodeRow],
    trees: &[RefcountTreeRow],
    indexes: &[IndexRow],
) -> Result<Counts, NoMemory>
    ensures { IfOk result (λ counts. IsCount (uses_of inodes.now trees.now ++ flat_map blocks_of_row indexes.now) counts) }
{
    let mut uses = metadata_uses(alloc, inodes, trees)?;
    add_all_index_blocks(&mut uses, indexes)?;
    counts_of(alloc, uses.as_slice())
}

/// Whether the slot and the bit are those of the block in the group.
fn is_placed(place: &GroupPlace, origin: &Origin, block: u64) -> bool
    requires { place.now.block < block }
    ensures { result ≡ is_placed_in origin.now block place.now }
{
    origin.slot == place.slot && u64::from(origin.bit) == block - place.block
}

/// Whether one of the groups has the block on a bit above 0, and the slot and the bit are those of the block there.
fn has_place(placed: &PlacedGroups, origin: &Origin, block: u64) -> bool
    ensures { (v : Volume) (is_use : BitUse → Bool) → AreOfVolume v is_use placed.now → result ≡ option_map_or (has_slot_and_bit v origin.now block) (group_with_bit v is_use block) false }
{
    match placed.group_of(block) {
        Some(place) => is_placed(&place, origin, block),
        None => false,
    }
}

impl BlockUses {
    /// The uses that these rows tell.
    pub fn new(
        alloc: Global,
        groups: &[GroupRow],
        inodes: &[InodeRow],
        trees: &[RefcountTreeRow],
        indexes: &[IndexRow],
    ) -> Result<BlockUses, NoMemory>
        ensures { IfOk result (λ uses. (v : Volume) → IsGroupTable v groups.now → IsInodeTable v inodes.now → IsRefcountTreeTable v trees.now → IsIndexTable v indexes.now → AreBlockUses v uses) }
    {
        let placed = placed_groups(alloc, groups, BitUse::Metadata)?;
        let counts = counts_of_uses(alloc, inodes, trees, indexes)?;
        Ok(BlockUses { placed, counts })
    }

    /// Whether the block is from a group of metadata, as it says, and is used once.
    #[tactic(auto, unfolding(o2_model::specs::SoundIndexes::is_own_block))]
    pub fn is_own(&self, origin: &Origin, block: u64) -> bool
        ensures { (v : Volume) → AreBlockUses v self.now → result ≡ is_own_block v origin.now block }
    {
        has_place(&self.placed, origin, block) && self.counts.count(block) == 1
    }
}
