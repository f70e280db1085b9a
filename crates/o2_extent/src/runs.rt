// Few records, without a vector on the heap.
ghost use Rattle.std.specs.Prelude.{◌≡◌, ◌≤◌, ◌-◌, ◌^◌, All, length};
ghost use Rattle.o2_view.specs.Geos.{HasSizes};
ghost use Rattle.o2_extent.specs.Maps.{IsRun, leaves_of};

use crate::Leaf;
use crate::geometry::blocks_per_cluster;
use arrayvec::ArrayVec;
use o2_model::Geo;
use o2_view::Run;
use std::marker::Model;

/// The leaf records of a new inode, at most as many as fit the smallest dinode.
#[derive(Debug, Drop)]
pub struct ExtentList {
    leaves: ArrayVec<Leaf, 19>,
}

impl Model for ExtentList {
    ghost use Rattle.std.specs.Prelude.{List};
    ghost use Rattle.o2_model.specs.declared.leaf.Leaf.{Leaf as LeafRecord};

    ghost Value = { List LeafRecord };

    ghost view = { λ list. list.leaves.items };
}

impl ExtentList {
    pub fn as_slice(&self) -> &[Leaf]
        ensures { result.now ≡ self.now }
    {
        self.leaves.as_slice()
    }
}

/// The leaf records of an inode whose clusters are these runs, one after the other.
pub fn list_of_runs(geo: &Geo, runs: &[Run]) -> ExtentList
    requires sizes { HasSizes geo.now }
    requires some { 1 ≤ length runs.now }
    requires few { length runs.now ≤ 19 }
    requires within { All (λ run. IsRun geo.now.clusters run) runs.now }
    ensures { result ≡ leaves_of (2 ^ (geo.now.cluster_bits - geo.now.block_bits)) 0 runs.now }
{
    let per_cluster = blocks_per_cluster(geo);
    let mut leaves = ArrayVec::new();
    let mut cpos = 0;
    for run in runs {
        leaves.push(Leaf {
            cpos,
            clusters: run.clusters,
            block: u64::from(run.start) * per_cluster,
            flags: 0,
        });
        cpos += run.clusters;
    }
    ExtentList { leaves }
}
