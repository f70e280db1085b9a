// Whether a block is a good group of an allocator.
ghost use Rattle.std.specs.Prelude.{◌≡◌, ◌+◌, ◌-◌, ◌*◌, ◌/◌, ◌^◌, ◌<◌, ◌≤◌, ℕ, List, map, true, false};
ghost use Rattle.std.specs.List.{list_any};
ghost use Rattle.o2_model.specs.declared.allocator.Allocator.{Allocator as Judged};
ghost use Rattle.o2_model.specs.declared.allocator.Group.{Group as Met};
ghost use Rattle.o2_model.specs.Words.{among};
ghost use Rattle.o2_model.specs.Volume.{Volume, blocks, is_in_range};
ghost use Rattle.o2_model.specs.Allocators.{are_clusters};
ghost use Rattle.o2_model.specs.Groups.{GroupWalk, group_desc, holds_cluster, is_block_group, is_good_group};
ghost use Rattle.o2_view.specs.Geos.{HasSizes, blocks_of};
ghost use Rattle.o2_view.specs.Plans.{is_in_runs};
ghost use Rattle.o2_view.specs.declared.run.Run.{Run as Clusters};
ghost use Rattle.o2_chain.specs.Readings.{Keeps, is_descriptor};

use crate::chain_list::is_bitmap;
use crate::places::{has_fixed, is_bitmap_place};
use crate::walked::Walked;
use o2_extent::{block_bytes, blocks_per_cluster, volume_blocks};
use o2_model::{Allocator, Geo};
use o2_ondisk::{GroupDesc, Signature};
use o2_view::RunSet;

/// Whether the descriptor in block b is one of the allocator, with a bitmap that has its bits and fits the block.
fn has_descriptor(geo: &Geo, a: &Allocator, b: u64, desc: &GroupDesc) -> bool
    requires { HasSizes geo.now }
    ensures { (v : Volume) → v.geo ≡ geo.now → desc.now ≡ group_desc v b → result ≡ is_descriptor v a.now b }
{
    let size = u64::from(desc.size);
    let bits = u64::from(desc.bits);
    desc.signature.0 == Signature::GROUP01.0
        && desc.blkno == b
        && desc.generation == geo.generation
        && desc.parent_dinode == a.block
        && 0x40 + size <= block_bytes(geo)
        && bits <= 8 * size
}

/// Whether a group of blocks with so many bits may stand at block b of the volume: it has whole clusters of its own.
fn is_block_place(geo: &Geo, b: u64, bits: u64, taken: &RunSet) -> bool
    requires sizes { HasSizes geo.now }
    requires inside { b < blocks_of geo.now }
    requires few { bits < 2 ^ 16 }
    ensures told { (v : Volume) → v.geo ≡ geo.now → (group_desc v b).bits ≡ bits
        → (walked : List Met) → ((c : ℕ) → is_in_runs taken.now c ≡ list_any (holds_cluster v c) walked) → result ≡ is_block_group v walked b }
    ensures near { result ≡ true → b + bits < 2 ^ 64 }
{
    let per_cluster = blocks_per_cluster(geo);
    if b % per_cluster != 0 || bits % per_cluster != 0 || bits < 2 {
        return false;
    }
    if volume_blocks(geo) - b < bits {
        return false;
    }
    let first = b / per_cluster;
    let count = bits / per_cluster;
    !has_fixed(geo, first, count) && !taken.meets(first, count)
}

/// Whether the block may still be a good group: it is in range, was not looked at, and is none of a group that counts as walked.
pub fn may_look(geo: &Geo, b: u64, walked: &Walked) -> bool
    requires { HasSizes geo.now }
    ensures above { result ≡ true → 0 < b }
    ensures below { result ≡ true → b < blocks_of geo.now }
    ensures unseen { result ≡ true → is_in_runs walked.now.seen b ≡ false }
    ensures apart { result ≡ true → is_in_runs walked.now.starts b ≡ false }
    ensures bad { result ≡ false → (v : Volume) → v.geo ≡ geo.now → (a : Judged) (before : List Clusters) (w : GroupWalk)
        → Keeps v a before walked.now w → is_good_group v a w.groups b ≡ false }
{
    if b == 0 || volume_blocks(geo) <= b {
        return false;
    }
    if walked.seen.has(b) {
        return false;
    }
    !walked.starts.has(b)
}

/// Whether block b of the volume, which has this descriptor and was not walked, is a good group, where these clusters are taken.
pub fn is_good(geo: &Geo, a: &Allocator, b: u64, desc: &GroupDesc, taken: &RunSet) -> bool
    requires sizes { HasSizes geo.now }
    requires above { 0 < b }
    requires below { b < blocks_of geo.now }
    ensures told { (v : Volume) → v.geo ≡ geo.now → desc.now ≡ group_desc v b → (walked : List Met)
        → ((c : ℕ) → is_in_runs taken.now c ≡ list_any (holds_cluster v c) walked) → among (map (λ g. g.block) walked) b ≡ false
        → result ≡ is_good_group v a.now walked b }
    ensures near { result ≡ true → are_clusters a.now.bit_use ≡ false → b + desc.now.bits < 2 ^ 64 }
{
    if !has_descriptor(geo, a, b, desc) {
        return false;
    }
    let bits = u64::from(desc.bits);
    if is_bitmap(a) {
        is_bitmap_place(geo, b, bits)
    } else {
        is_block_place(geo, b, bits, taken)
    }
}
