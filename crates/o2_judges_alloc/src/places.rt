// Where the groups of the global bitmap are to stand.
ghost use Rattle.std.specs.Prelude.{◌≡◌, ◌^◌, ◌<◌, ◌≤◌};
ghost use Rattle.o2_model.specs.ClusterGroups as cluster_groups;
ghost use Rattle.o2_view.specs.Geos.{HasSizes, bare};

use o2_extent::{block_bytes, blocks_per_cluster};
use o2_model::Geo;

/// The clusters of one group of the global bitmap.
pub fn group_size(geo: &Geo) -> u64
    requires { HasSizes geo.now }
    ensures size { result ≡ cluster_groups.group_size (bare geo.now) }
    ensures some { 3584 ≤ result }
    ensures few { result ≤ 32256 }
{
    8 * (block_bytes(geo) - 64)
}

/// How many groups the clusters need.
pub fn group_count(geo: &Geo) -> u64
    requires { HasSizes geo.now }
    ensures count { result ≡ cluster_groups.group_count (bare geo.now) }
    ensures few { result ≤ 2 ^ 32 }
{
    let size = group_size(geo);
    (u64::from(geo.clusters) + size - 1) / size
}

/// The block of group i: the first at s_first_cluster_group, each other in the first block of its first cluster.
pub fn group_place(geo: &Geo, i: u64) -> u64
    requires sizes { HasSizes geo.now }
    requires few { i < 2 ^ 32 }
    ensures { result ≡ cluster_groups.group_place (bare geo.now) i }
{
    if i == 0 {
        geo.first_group
    } else {
        i * group_size(geo) * blocks_per_cluster(geo)
    }
}
