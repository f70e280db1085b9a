// Groups found by the blocks that they have.
ghost use Rattle.std.specs.Prelude.{◌≡◌, ◌+◌, ◌<◌, ◌≤◌, ℕ, Bool, List, Some, OnOk, IfOk, IfSome, IfNone};
ghost use Rattle.std.specs.Option.{option_map};
ghost use Rattle.std.specs.Ordering.{nat_cmp};
ghost use Rattle.std.specs.BTreeMap.{get};
ghost use Rattle.o2_model.specs.declared.allocator.Group.{Group};
ghost use Rattle.o2_model.specs.Words.{push};
ghost use Rattle.o2_model.specs.Volume.{Volume};
ghost use Rattle.o2_model.specs.Metadata.{group_with_bit};
ghost use Rattle.o2_tables.specs.Rows.{IsGroupTable};
ghost use Rattle.o2_judges_origin.specs.Placed.{is_block_use, place_of, ArePlaced, AreOfVolume};

use o2_disk::NoMemory;
use o2_model::BitUse;
use o2_tables::GroupRow;
use std::alloc::Global;
use std::collections::BTreeMap;

/// Where a group is, and its allocator's slot.
#[derive(Clone, Copy, Debug, PartialEq, Eq)]
pub struct GroupPlace {
    /// The block of its descriptor, which is that of its bit 0.
    pub block: u64,
    /// How many bits it has.
    pub bits: u16,
    /// The slot of its allocator, 65535 where it is of no slot.
    pub slot: u16,
}

/// What is kept of a group beside its block.
#[derive(Clone, Copy, Debug, PartialEq, Eq)]
struct GroupBits {
    bits: u16,
    slot: u16,
}

/// The groups of blocks with one use, by their blocks.
#[derive(Drop)]
pub struct PlacedGroups {
    places: BTreeMap<u64, GroupBits>,
}

/// The last group whose block is below b.
fn last_below(places: &BTreeMap<u64, GroupBits>, b: u64) -> Option<GroupPlace>
    ensures found { IfSome result (λ place. (place.block < b) × (get nat_cmp places.now place.block ≡ Some (record { bits = place.bits; slot = place.slot }))) }
    ensures last { IfSome result (λ place. (s : ℕ) (kept : GroupBits) → get nat_cmp places.now s ≡ Some kept → s < b → s ≤ place.block) }
    ensures none { IfNone result ((s : ℕ) (kept : GroupBits) → get nat_cmp places.now s ≡ Some kept → b ≤ s) }
{
    match places.range(..b).next_back() {
        Some((block, kept)) => Some(GroupPlace {
            block: *block,
            bits: kept.bits,
            slot: kept.slot,
        }),
        None => None,
    }
}

/// Whether it is a group of blocks with this use. None is of clusters.
fn has_use(row: &GroupRow, bit_use: BitUse) -> bool
    ensures { result ≡ is_block_use bit_use row.now.group.of.bit_use }
{
    match (bit_use, row.group.of.bit_use) {
        (BitUse::Inodes, BitUse::Inodes) => true,
        (BitUse::Metadata, BitUse::Metadata) => true,
        _ => false,
    }
}

/// Places a group, if it has this use.
fn add_place(
    places: &mut BTreeMap<u64, GroupBits>,
    row: &GroupRow,
    bit_use: BitUse,
) -> Result<(), NoMemory>
    ensures { OnOk result ((groups : List Group) → ArePlaced (is_block_use bit_use) groups (get nat_cmp places.old) → ArePlaced (is_block_use bit_use) (push groups row.now.group) (get nat_cmp places.new)) }
{
    if !has_use(row, bit_use) {
        return Ok(());
    }
    let kept = GroupBits {
        bits: row.group.bits,
        slot: row.group.of.slot,
    };
    match places.insert(row.group.block, kept) {
        Ok(_) => Ok(()),
        Err(_) => Err(NoMemory),
    }
}

/// The groups with this use; none where it is clusters, since such groups are none of blocks. NoMemory where memory runs out.
pub fn placed_groups(
    alloc: Global,
    groups: &[GroupRow],
    bit_use: BitUse,
) -> Result<PlacedGroups, NoMemory>
    ensures { IfOk result (λ placed. (v : Volume) → IsGroupTable v groups.now → AreOfVolume v (is_block_use bit_use) placed) }
{
    let mut places = BTreeMap::new(alloc);
    for row in groups {
        add_place(&mut places, row, bit_use)?;
    }
    Ok(PlacedGroups { places })
}

impl PlacedGroups {
    /// The group that has the block on a bit above 0. It takes the time of one look-up in a map.
    pub fn group_of(&self, b: u64) -> Option<GroupPlace>
        ensures told { (v : Volume) (is_use : BitUse → Bool) → AreOfVolume v is_use self.now → result ≡ option_map place_of (group_with_bit v is_use b) }
        ensures within { IfSome result (λ place. (place.block < b) × (b < place.block + place.bits)) }
    {
        let place = last_below(&self.places, b)?;
        if b - place.block < u64::from(place.bits) {
            Some(place)
        } else {
            None
        }
    }
}
