// Sizes and ranges by the numbers of a volume.
ghost use Rattle.std.specs.Prelude.{◌≡◌, ◌-◌, ◌*◌, ◌^◌, ◌<◌, ◌≤◌, nat_lt, ◌&&◌};
ghost use Rattle.o2_model.specs.Clusters.{are_clusters_in_range};
ghost use Rattle.o2_model.specs.Volume.{Volume};
ghost use Rattle.o2_view.specs.Geos.{HasSizes, blocks_of};

use o2_model::Geo;

/// The blocks of a cluster.
pub fn blocks_per_cluster(geo: &Geo) -> u64
    requires { HasSizes geo.now }
    ensures blocks { result ≡ 2 ^ (geo.now.cluster_bits - geo.now.block_bits) }
    ensures some { 1 ≤ result }
    ensures few { result ≤ 2048 }
{
    1u64 << (geo.cluster_bits - geo.block_bits)
}

/// The bytes of a block.
pub fn block_bytes(geo: &Geo) -> u64
    requires { HasSizes geo.now }
    ensures bytes { result ≡ 2 ^ geo.now.block_bits }
    ensures some { 512 ≤ result }
    ensures few { result ≤ 4096 }
{
    1u64 << geo.block_bits
}

/// How many blocks the volume has.
pub fn volume_blocks(geo: &Geo) -> u64
    requires { HasSizes geo.now }
    ensures blocks { result ≡ blocks_of geo.now }
    ensures fits { result < 2 ^ 64 }
{
    let _clusters = geo.clusters;
    u64::from(geo.clusters) * blocks_per_cluster(geo)
}

/// Whether a structure can be in the block.
pub fn is_block_in_range(geo: &Geo, b: u64) -> bool
    requires { HasSizes geo.now }
    ensures { result ≡ (nat_lt 0 b && nat_lt b (blocks_of geo.now)) }
{
    let blocks = volume_blocks(geo);
    0 < b && b < blocks
}

/// Whether so many clusters that begin with this block lie within the volume, and not in its cluster 0.
#[tactic(auto, unfolding(o2_model::specs::Clusters::are_clusters_in_range))]
pub fn are_whole_clusters_in_range(geo: &Geo, b: u64, count: u64) -> bool
    requires { HasSizes geo.now }
    ensures { (v : Volume) → v.geo ≡ geo.now → result ≡ are_clusters_in_range v b count }
{
    let per_cluster = blocks_per_cluster(geo);
    let clusters = u64::from(geo.clusters);
    let first = b / per_cluster;
    b % per_cluster == 0 && 0 < first && first <= clusters && count <= clusters - first
}
