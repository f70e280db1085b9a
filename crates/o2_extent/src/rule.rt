// What is asked of the leaf records of a list.
ghost use Rattle.std.specs.Prelude.{◌≡◌, List, true};
ghost use Rattle.o2_model.specs.Extents.{end_of, leaf_of, may_follow};
ghost use Rattle.o2_model.specs.Volume.{Volume};
ghost use Rattle.o2_model.specs.declared.leaf.Leaf.{Leaf};
ghost use Rattle.o2_view.specs.Geos.{HasSizes};
ghost use Rattle.o2_extent.specs.Readings.{IsWithin};
ghost use Rattle.o2_extent.specs.Rules.{rule_of, tells_clusters};

use crate::reading::is_sound_record;
use o2_model::Geo;
use o2_ondisk::ExtentRec;

/// What is asked of the leaf records of a list.
#[derive(Clone, Copy, Debug, PartialEq, Eq)]
pub enum LeafRule {
    /// They tell clusters, with at most these flags.
    ToClusters { most_flags: u8 },
    /// They name blocks, and no more is asked of them.
    ToBlocks,
}

impl LeafRule {
    /// Whether the leaf record may follow those that end at cluster `low`.
    pub fn allows(self, geo: &Geo, low: u64, r: &ExtentRec) -> bool
        requires { HasSizes geo.now }
        ensures follows { (v : Volume) → v.geo ≡ geo.now → (leaves : List Leaf) → low ≡ end_of leaves → result ≡ may_follow v (rule_of self) leaves (leaf_of r.now) }
        ensures within { result ≡ true → tells_clusters self ≡ true → IsWithin geo.now (leaf_of r.now) }
    {
        match self {
            LeafRule::ToClusters { most_flags } => is_sound_record(geo, most_flags, low, r),
            LeafRule::ToBlocks => true,
        }
    }
}
