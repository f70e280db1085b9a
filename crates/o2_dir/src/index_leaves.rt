// The leaves of an index under the records of its list.
ghost use Rattle.std.specs.Prelude.{◌≡◌, All, IfOk, flat_map};
ghost use Rattle.std.specs.Result.{IfErr};
ghost use Rattle.o2_model.specs.Volume.{Volume};
ghost use Rattle.o2_model.specs.LeafRecords.{blocks_under};
ghost use Rattle.o2_view.specs.Geos.{LiesIn};
ghost use Rattle.o2_view.specs.OwnChecks.{BlockFails};
ghost use Rattle.o2_view.specs.Views.{Shows, OnlyReads};
ghost use Rattle.o2_extent.specs.Readings.{IsWithin, Within};
ghost use Rattle.o2_dir.specs.IndexForms.{AddsLeaves};

use crate::index_leaf::add_leaf;
use o2_disk::Disk;
use o2_extent::{Leaf, blocks_per_cluster};
use o2_model::Geo;
use o2_ondisk::DxEntry;
use o2_view::{View, ViewFault};

/// Puts the entries of the leaves under a record at the end, a leaf in each block. False where one is no leaf of an index.
fn add_leaves_under<D: Disk, const N: usize>(
    view: &mut View<'_, D, N>,
    geo: &Geo,
    leaf: &Leaf,
    entries: &mut Vec<DxEntry>,
) -> Result<bool, ViewFault>
    requires geo { LiesIn geo.now view.old }
    requires within { IsWithin geo.now leaf.now }
    ensures added { IfOk result (λ sound. (v : Volume) → Shows view.old geo.now v → AddsLeaves v (blocks_under v leaf.now) sound entries.old.items entries.new.items) }
    ensures reads { OnlyReads view.old view.new }
    ensures fails { IfErr result (BlockFails view.old view.new) }
{
    let count = u64::from(leaf.clusters) * blocks_per_cluster(geo);
    for k in 0..count {
        if !add_leaf(view, geo, leaf.block + k, entries)? {
            return Ok(false);
        }
    }
    Ok(true)
}

/// Puts the entries of the leaves under these records at the end. False where one is no leaf of an index.
pub fn add_leaves<D: Disk, const N: usize>(
    view: &mut View<'_, D, N>,
    geo: &Geo,
    leaves: &[Leaf],
    entries: &mut Vec<DxEntry>,
) -> Result<bool, ViewFault>
    requires geo { LiesIn geo.now view.old }
    requires within { Within geo.now leaves.now }
    ensures added { IfOk result (λ sound. (v : Volume) → Shows view.old geo.now v → AddsLeaves v (flat_map (blocks_under v) leaves.now) sound entries.old.items entries.new.items) }
    ensures reads { OnlyReads view.old view.new }
    ensures fails { IfErr result (BlockFails view.old view.new) }
{
    for leaf in leaves {
        if !add_leaves_under(view, geo, leaf, entries)? {
            return Ok(false);
        }
    }
    Ok(true)
}
