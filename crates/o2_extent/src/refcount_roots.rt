// Refcount roots, and the blocks that their lists name as leaves.
ghost use Rattle.std.specs.Prelude.{◌≡◌, ◌^◌, ◌&&◌, length, IfOk};
ghost use Rattle.std.specs.Result.{IfErr};
ghost use Rattle.o2_model.specs.Checks.RefTree.{is_sound_root_block};
ghost use Rattle.o2_model.specs.RefcountTrees.{refcount_block, is_refcount_block, has_leaf_blocks as has_leaves, leaf_list};
ghost use Rattle.o2_model.specs.Volume.{Volume};
ghost use Rattle.o2_view.specs.Counted.{CallsBut};
ghost use Rattle.o2_view.specs.Geos.{HasSizes, LiesIn};
ghost use Rattle.o2_view.specs.OwnChecks.{BlockFails};
ghost use Rattle.o2_view.specs.Views.{view_state, view_blocks, ShowsBytes, OnlyReads};
ghost use Rattle.o2_extent.specs.Readings.{AreListBlocks};

use crate::Leaves;
use crate::block_list::read_block_list;
use crate::geometry::is_block_in_range;
use crate::list_block::ListBlock;
use crate::rule::LeafRule;
use o2_disk::Disk;
use o2_model::{Geo, Items};
use o2_ondisk::{RefcountBlock, Signature, read_refcount_block};
use o2_view::{View, ViewFault};
use std::alloc::Global;

/// `OCFS2_REFCOUNT_TREE_FL` of `rf_flags`: the root has a list of leaf blocks.
const LEAF_BLOCKS: u32 = 0x2;

/// What was read of a refcount root.
#[derive(Debug, Drop)]
pub struct RefcountRoot {
    /// It is a refcount block, and its list of leaf blocks, where it has one, is well formed.
    pub is_sound: bool,
    /// The leaf blocks that its list names, up to where that is at fault, each in the record that names it. None where it has no
    /// such list.
    pub leaves: Leaves,
    /// The extent blocks of this list, in order.
    pub extent_blocks: Items<ListBlock>,
}

/// Whether block b is a refcount block of the volume, which has these fields.
#[tactic(auto, unfolding(o2_model::specs::RefcountTrees::is_refcount_block))]
pub fn is_refcount_block_at(geo: &Geo, b: u64, block: &RefcountBlock) -> bool
    requires { HasSizes geo.now }
    ensures { (v : Volume) → v.geo ≡ geo.now → block.now ≡ refcount_block v b → result ≡ is_refcount_block v b }
{
    is_block_in_range(geo, b)
        && block.signature.0 == Signature::REFCNT1.0
        && block.blkno == b
        && block.fs_generation == geo.generation
}

/// Whether block b is a refcount root of the volume, which has these fields, with a list of leaf blocks.
pub fn has_leaf_blocks(geo: &Geo, b: u64, block: &RefcountBlock) -> bool
    requires { HasSizes geo.now }
    ensures { (v : Volume) → v.geo ≡ geo.now → block.now ≡ refcount_block v b → result ≡ has_leaves v b }
{
    is_refcount_block_at(geo, b, block) && block.flags & LEAF_BLOCKS != 0
}

/// Reads the list of leaf blocks of the refcount root in block b, where these are its bytes.
#[tactic(auto, using(crate::proofs::Sizes::some_bytes))]
pub fn refcount_root<D: Disk, const N: usize>(
    alloc: Global,
    view: &mut View<'_, D, N>,
    geo: &Geo,
    b: u64,
    bytes: &[u8],
) -> Result<RefcountRoot, ViewFault>
    requires geo { LiesIn geo.now view.old }
    requires size { length bytes.now ≡ 2 ^ geo.now.block_bits }
    ensures sound { IfOk result (λ root. (v : Volume) → ShowsBytes view.old geo.now b bytes.now v → root.is_sound ≡ is_sound_root_block v b) }
    ensures leaves { IfOk result (λ root. (v : Volume) → ShowsBytes view.old geo.now b bytes.now v → root.leaves ≡ (leaf_list v b).leaves) }
    ensures blocks { IfOk result (λ root. (v : Volume) → ShowsBytes view.old geo.now b bytes.now v → AreListBlocks v (leaf_list v b).blocks root.extent_blocks) }
    // The disk is called for the extent blocks alone.
    ensures count { CallsBut 1 (view_blocks view.old) (view_state view.old) (view_state view.new) }
    ensures reads { OnlyReads view.old view.new }
    ensures fails { IfErr result (BlockFails view.old view.new) }
{
    let block = read_refcount_block(bytes);
    if !has_leaf_blocks(geo, b, &block) {
        return Ok(RefcountRoot {
            is_sound: is_refcount_block_at(geo, b, &block),
            leaves: Leaves::from(Vec::new(alloc)),
            extent_blocks: Items::from(Vec::new(alloc)),
        });
    }
    let reading = read_block_list(alloc, view, geo, LeafRule::ToBlocks, b, 0x80, bytes)?;
    Ok(RefcountRoot {
        is_sound: reading.faults.is_empty(),
        leaves: Leaves::from(reading.leaves),
        extent_blocks: Items::from(reading.blocks),
    })
}
