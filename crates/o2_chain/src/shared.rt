// What a run of clusters has of a group.
ghost use Rattle.std.specs.Prelude.{◌≡◌, ◌≤◌, ◌<◌, ◌-◌, ◌*◌, ◌^◌, ◌&&◌, ℕ, true, false, nat_le, nat_lt};
ghost use Rattle.o2_model.specs.declared.allocator.Allocator.{Allocator};
ghost use Rattle.o2_model.specs.Checks.ClusterAllocBit.{cluster_of_bit};
ghost use Rattle.o2_model.specs.Volume.{Volume};
ghost use Rattle.o2_view.specs.Geos.{HasSizes, blocks_of};
ghost use Rattle.o2_chain.specs.Edits.{shared_bits};
ghost use Rattle.o2_view.specs.FreeRuns.{is_of_run};
ghost use Rattle.o2_chain.specs.Met.{IsMet};
ghost use Rattle.o2_chain.specs.Walks.{group_in};

use crate::Group;
use crate::bits::BitRange;
use crate::places::group_size;
use o2_extent::{blocks_per_cluster, volume_blocks};
use o2_model::Geo;
use o2_view::Run;

/// The bits of the group that stand for clusters of the run.
pub fn bits_of_run(geo: &Geo, group: &Group, run: Run) -> BitRange
    requires { HasSizes geo.now }
    ensures order { result.first ≤ result.end }
    ensures within { result.end ≤ group.now.bits }
    ensures each { (v : Volume) → v.geo ≡ geo.now → (a : Allocator) → (k : ℕ)
        → (nat_lt k group.now.bits && is_of_run (cluster_of_bit v (group_in a group.now) k) run) ≡ (nat_le result.first k && nat_lt k result.end) }
    ensures count { (v : Volume) → v.geo ≡ geo.now → (a : Allocator) → shared_bits v run (group_in a group.now) ≡ result.end - result.first }
{
    let size = group_size(geo);
    let cluster = group.block / blocks_per_cluster(geo);
    let first = cluster / size * size;
    let start = u64::from(run.start);
    let end = start + u64::from(run.clusters);
    let bits = u64::from(group.bits);
    BitRange {
        first: start.saturating_sub(first).min(bits) as u32,
        end: end.saturating_sub(first).min(bits) as u32,
    }
}

/// Whether the group's block is one of the volume, with room for its bits behind the descriptor. Where the content is told, each
/// group that a walk meets is such.
pub fn has_place(geo: &Geo, group: &Group) -> bool
    requires { HasSizes geo.now }
    ensures inside { result ≡ true → group.now.block < blocks_of geo.now }
    ensures room { result ≡ true → group.now.bits ≤ 8 * (2 ^ geo.now.block_bits - 64) }
    ensures met { result ≡ false → (v : Volume) → v.geo ≡ geo.now → (a : Allocator) → IsMet v a group.now → ⊥ }
{
    let blocks = volume_blocks(geo);
    let most_bits = group_size(geo);
    group.block < blocks && u64::from(group.bits) <= most_bits
}
