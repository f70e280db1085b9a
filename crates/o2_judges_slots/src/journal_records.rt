// The records of a journal, and the blocks under them.
ghost use Rattle.std.specs.Prelude.{◌≡◌, ◌^◌, ◌<◌, ◌&&◌, false, true, length, flat_map, find, slice_get, [], IfOk, MatchOption};
ghost use Rattle.std.specs.Option.{IfSome};
ghost use Rattle.std.specs.Result.{IfErr};
ghost use Rattle.o2_model.specs.Checks.Extent.{extent_faults};
ghost use Rattle.o2_model.specs.Inodes.{leaf_records};
ghost use Rattle.o2_model.specs.LeafRecords.{are_without_gap, have_no_flags, blocks_under};
ghost use Rattle.o2_model.specs.Orders.{is_none_of};
ghost use Rattle.o2_model.specs.Volume.{Volume};
ghost use Rattle.o2_model.specs.declared.geo.Geo.{Geo as Numbers};
ghost use Rattle.o2_view.specs.Geos.{HasSizes, LiesIn, blocks_of};
ghost use Rattle.o2_view.specs.OwnChecks.{BlockFails};
ghost use Rattle.o2_view.specs.Views.{ShowsBytes, OnlyReads};
ghost use Rattle.o2_extent.specs.Readings.{Within};
ghost use Rattle.o2_judges_slots.specs.Records.{has_clusters};

use o2_disk::Disk;
use o2_extent::{Leaf, Leaves, blocks_per_cluster, records_in};
use o2_model::Geo;
use o2_slots::{clusters_without_gap, have_no_flags};
use o2_view::{ReadFault, View, ViewFault};
use std::alloc::Global;

/// The leaf records of the dinode at `inode`, where these are its bytes. None where EXTENT fails for it.
pub fn sound_records<D: Disk, const N: usize>(
    alloc: Global,
    view: &mut View<'_, D, N>,
    geo: &Geo,
    inode: u64,
    bytes: &[u8],
) -> Result<Option<Leaves>, ViewFault>
    requires geo { LiesIn geo.now view.old }
    requires size { length bytes.now ≡ 2 ^ geo.now.block_bits }
    ensures told { IfOk result (λ found. (v : Volume) → ShowsBytes view.old geo.now inode bytes.now v
        → MatchOption found (is_none_of (extent_faults v inode) ≡ false) (λ leaves. (extent_faults v inode ≡ []) × (leaves ≡ leaf_records v inode))) }
    ensures within { IfOk result (λ found. IfSome found (Within geo.now)) }
    ensures reads { OnlyReads view.old view.new }
    ensures fails { IfErr result (BlockFails view.old view.new) }
{
    match records_in(alloc, view, geo, inode, bytes) {
        Ok(leaves) => Ok(Some(leaves)),
        Err(ReadFault::Bad { .. }) => Ok(None),
        Err(ReadFault::NoMemory) => Err(ViewFault::NoMemory),
        Err(ReadFault::DeviceFault) => Err(ViewFault::DeviceFault),
    }
}

/// How many blocks are under records that follow one another without a gap from cluster 0 on and have no flags. None where
/// there is a gap or a flag.
pub fn blocks_without_gap(geo: &Geo, leaves: &[Leaf]) -> Option<u64>
    requires { HasSizes geo.now }
    ensures found { MatchOption result ((are_without_gap leaves.now && have_no_flags leaves.now) ≡ false) (λ blocks. (are_without_gap leaves.now && have_no_flags leaves.now) ≡ true) }
    ensures blocks { IfSome result (λ blocks. (v : Volume) → v.geo ≡ geo.now → blocks ≡ length (flat_map (blocks_under v) leaves.now)) }
{
    let clusters = clusters_without_gap(leaves)?;
    if !have_no_flags(leaves) {
        return None;
    }
    Some(clusters * blocks_per_cluster(geo))
}

/// The first record that has clusters.
fn first_record(leaves: &[Leaf]) -> Option<Leaf>
    ensures { result ≡ find has_clusters leaves.now }
{
    leaves.iter().copied().find(|leaf| leaf.clusters != 0)
}

/// The first block under these records, none where no record has clusters.
#[tactic(auto, using(crate::proofs::BlocksUnder::first_under, crate::proofs::BlocksUnder::none_under, crate::proofs::BlocksUnder::first_inside))]
pub fn first_block(leaves: &[Leaf]) -> Option<u64>
    ensures first { (v : Volume) → result ≡ slice_get (flat_map (blocks_under v) leaves.now) 0 }
    ensures inside { (numbers : Numbers) → Within numbers leaves.now → IfSome result (λ b. b < blocks_of numbers) }
{
    let first = first_record(leaves)?;
    Some(first.block)
}
