// The list in an index root, sound or not.
ghost use Rattle.std.specs.Prelude.{◌≡◌, ◌&&◌, ◌^◌, not, length, IfOk};
ghost use Rattle.std.specs.Result.{IfErr};
ghost use Rattle.o2_model.specs.Indexes.{dx_root, is_inline_index};
ghost use Rattle.o2_model.specs.Volume.{Volume};
ghost use Rattle.o2_view.specs.Counted.{CallsBut};
ghost use Rattle.o2_view.specs.Geos.{HasSizes, LiesIn};
ghost use Rattle.o2_view.specs.OwnChecks.{BlockFails};
ghost use Rattle.o2_view.specs.Views.{view_state, view_blocks, ShowsBytes, OnlyReads};
ghost use Rattle.o2_extent.specs.Owners.{is_some_index_root, index_list as list_in_root};
ghost use Rattle.o2_extent.specs.Readings.{Keeps, Within};

use crate::block_list::read_block_list;
use crate::reading::{Reading, start};
use crate::roots::{holds_index_entries, is_index_root_at};
use crate::rule::LeafRule;
use o2_disk::Disk;
use o2_model::Geo;
use o2_ondisk::{DxRoot, read_dx_root};
use o2_view::{View, ViewFault};
use std::alloc::Global;

/// Whether block b is an index root of the volume, which has these fields, with a list of leaves.
fn has_leaves(geo: &Geo, b: u64, root: &DxRoot) -> bool
    requires { HasSizes geo.now }
    ensures { (v : Volume) → v.geo ≡ geo.now → root.now ≡ dx_root v b → result ≡ (is_some_index_root v b && not (is_inline_index v b)) }
{
    is_index_root_at(geo, b, root) && !holds_index_entries(root)
}

/// Reads the list of leaves of the index root in block b, where these are its bytes. Nothing is read where the block is no index
/// root, or the index entries stand in it.
#[tactic(auto, using(crate::proofs::Sizes::some_bytes), unfolding(crate::specs::Owners::index_list))]
pub fn index_list<D: Disk, const N: usize>(
    alloc: Global,
    view: &mut View<'_, D, N>,
    geo: &Geo,
    b: u64,
    bytes: &[u8],
) -> Result<Reading, ViewFault>
    requires geo { LiesIn geo.now view.old }
    requires size { length bytes.now ≡ 2 ^ geo.now.block_bits }
    ensures read { IfOk result (λ reading. (v : Volume) → ShowsBytes view.old geo.now b bytes.now v → Keeps v reading (list_in_root v b)) }
    ensures within { IfOk result (λ reading. Within geo.now reading.leaves.items) }
    // The disk is called for the extent blocks alone.
    ensures count { CallsBut 1 (view_blocks view.old) (view_state view.old) (view_state view.new) }
    ensures reads { OnlyReads view.old view.new }
    ensures fails { IfErr result (BlockFails view.old view.new) }
{
    let root = read_dx_root(bytes);
    if !has_leaves(geo, b, &root) {
        return Ok(start(alloc));
    }
    let rule = LeafRule::ToClusters { most_flags: 3 };
    read_block_list(alloc, view, geo, rule, b, 0xc0, bytes)
}
