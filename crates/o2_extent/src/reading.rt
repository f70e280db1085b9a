// What was read of a tree so far.
ghost use Rattle.std.specs.Prelude.{◌≡◌, ◌≤◌, [], length, OnOk, is_ok, if◌then◌else◌};
ghost use Rattle.o2_model.specs.Words.{among, push};
ghost use Rattle.o2_model.specs.Extents.{Extents, leaf_of, is_sound_leaf, with_leaf, with_block, with_seen, with_fault, nothing_read};
ghost use Rattle.o2_model.specs.Volume.{Volume};
ghost use Rattle.o2_view.specs.Geos.{HasSizes};
ghost use Rattle.o2_extent.specs.Readings.{Keeps};

use crate::Leaf;
use crate::geometry::are_whole_clusters_in_range;
use crate::leaf::leaf_of_record;
use crate::list::{header_at, put};
use crate::list_block::ListBlock;
use crate::seen::SeenBlocks;
use o2_disk::NoMemory;
use o2_model::Geo;
use o2_ondisk::{ExtentRec, read_extent_block};
use std::alloc::Global;

/// What was read of a tree so far, in order.
#[derive(Debug, Drop)]
pub struct Reading {
    /// The leaf records with clusters.
    pub leaves: Vec<Leaf>,
    /// The cluster of the inode behind the last of them.
    pub end: u64,
    /// The extent blocks.
    pub blocks: Vec<ListBlock>,
    /// The blocks that were looked at as extent blocks.
    pub seen: SeenBlocks,
    /// The blocks whose lists are not well formed.
    pub faults: Vec<u64>,
}

/// Nothing was read yet.
pub fn start(alloc: Global) -> Reading
    ensures keeps { (v : Volume) → Keeps v result nothing_read }
    ensures seen { result.seen ≡ [] }
    ensures leaves { result.leaves.items ≡ [] }
{
    Reading {
        leaves: Vec::new(alloc),
        end: 0,
        blocks: Vec::new(alloc),
        seen: SeenBlocks::new(alloc),
        faults: Vec::new(alloc),
    }
}

/// Adds a leaf record.
pub fn add_leaf(reading: &mut Reading, r: &ExtentRec) -> Result<(), NoMemory>
    ensures added { OnOk result ((v : Volume) (t : Extents) → Keeps v reading.old t → Keeps v reading.new (with_leaf t (leaf_of r.now))) }
    ensures seen { reading.new.seen ≡ reading.old.seen }
    ensures leaves { reading.new.leaves.items ≡ (if is_ok result then push reading.old.leaves.items (leaf_of r.now) else reading.old.leaves.items) }
{
    put(&mut reading.leaves, leaf_of_record(r))?;
    reading.end = u64::from(r.cpos) + u64::from(r.size.leaf_clusters());
    Ok(())
}

/// Adds extent block b, which has these bytes.
pub fn add_block(reading: &mut Reading, b: u64, bytes: &[u8]) -> Result<(), NoMemory>
    requires { 512 ≤ length bytes.now }
    ensures added { OnOk result ((v : Volume) → bytes.now ≡ v.at b → (t : Extents) → Keeps v reading.old t → Keeps v reading.new (with_block t b)) }
    ensures seen { reading.new.seen ≡ reading.old.seen }
    ensures leaves { reading.new.leaves ≡ reading.old.leaves }
{
    let row = ListBlock {
        block: b,
        fields: read_extent_block(bytes),
        depth: header_at(bytes, 0x30).tree_depth,
    };
    put(&mut reading.blocks, row)
}

/// Adds a block whose list is not well formed.
pub fn add_fault(reading: &mut Reading, b: u64) -> Result<(), NoMemory>
    ensures added { OnOk result ((v : Volume) (t : Extents) → Keeps v reading.old t → Keeps v reading.new (with_fault t b)) }
    ensures seen { reading.new.seen ≡ reading.old.seen }
    ensures leaves { reading.new.leaves ≡ reading.old.leaves }
{
    put(&mut reading.faults, b)
}

/// Adds a block that is looked at.
pub fn add_seen(reading: &mut Reading, b: u64) -> Result<(), NoMemory>
    ensures added { OnOk result ((v : Volume) (t : Extents) → Keeps v reading.old t → Keeps v reading.new (with_seen t b)) }
    ensures seen { reading.new.seen ≡ (if is_ok result then push reading.old.seen b else reading.old.seen) }
    ensures leaves { reading.new.leaves ≡ reading.old.leaves }
{
    reading.seen.push(b)
}

/// Whether the block was looked at.
pub fn has_seen(reading: &Reading, b: u64) -> bool
    ensures { result ≡ among reading.now.seen b }
{
    reading.seen.has(b)
}

/// Whether a record of a leaf list may follow those that end at cluster `low`.
#[tactic(auto, unfolding(o2_model::specs::Extents::is_sound_leaf))]
pub fn is_sound_record(geo: &Geo, most_flags: u8, low: u64, r: &ExtentRec) -> bool
    requires { HasSizes geo.now }
    ensures { (v : Volume) → v.geo ≡ geo.now → result ≡ is_sound_leaf v most_flags low (leaf_of r.now) }
{
    let cpos = u64::from(r.cpos);
    let clusters = u64::from(r.size.leaf_clusters());
    let flags = r.size.flags().0;
    let fits = are_whole_clusters_in_range(geo, r.blkno, clusters);
    low <= cpos && cpos + clusters < 0x1_0000_0000 && fits && flags <= most_flags
}
