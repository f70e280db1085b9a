// An inode with its extents.
ghost use Rattle.std.specs.Prelude.{◌≡◌, ◌+◌, ◌^◌, ◌≤◌, length, Some, IfOk};
ghost use Rattle.std.specs.Result.{IfErr};
ghost use Rattle.o2_view.specs.OwnChecks.{BlockFails};
ghost use Rattle.o2_view.specs.Counted.{CallsAtMost, CallsBut};
ghost use Rattle.o2_view.specs.Views.{view_state, view_blocks, Shows, ShowsBytes, OnlyReads};
ghost use Rattle.o2_model.specs.Inodes.{extents};
ghost use Rattle.o2_model.specs.Volume.{Volume};
ghost use Rattle.o2_view.specs.Geos.{LiesIn, Reaches};
ghost use Rattle.o2_extent.specs.Readings.{Keeps, Within};

use crate::block_list::read_block_list;
use crate::dinode::{flags_allowed, has_list};
use crate::reading::{Reading, start};
use crate::rule::LeafRule;
use crate::tree::look;
use o2_disk::Disk;
use o2_model::Geo;
use o2_ondisk::read_dinode;
use o2_view::{Block, View, ViewFault};
use std::alloc::Global;

/// The block of a dinode, and what is read of the dinode's own list.
#[derive(Debug, Drop)]
pub struct Inode {
    pub block: Block,
    pub reading: Reading,
}

/// Reads the list of a dinode of these bytes, where it has one.
#[tactic(auto, using(crate::proofs::Sizes::some_bytes), unfolding(o2_model::specs::Inodes::extents, o2_model::specs::Inodes::is_directory))]
pub fn read_own_list<D: Disk, const N: usize>(
    alloc: Global,
    view: &mut View<'_, D, N>,
    geo: &Geo,
    owner: u64,
    bytes: &[u8],
) -> Result<Reading, ViewFault>
    requires geo { LiesIn geo.now view.old }
    requires size { length bytes.now ≡ 2 ^ geo.now.block_bits }
    ensures read { IfOk result (λ reading. (v : Volume) → ShowsBytes view.old geo.now owner bytes.now v → Keeps v reading (extents v owner)) }
    ensures within { IfOk result (λ reading. Within geo.now reading.leaves.items) }
    ensures count { CallsBut 1 (view_blocks view.old) (view_state view.old) (view_state view.new) }
    ensures reads { OnlyReads view.old view.new }
    ensures fails { IfErr result (BlockFails view.old view.new) }
{
    let dinode = read_dinode(bytes);
    if !has_list(&dinode) {
        return Ok(start(alloc));
    }
    let rule = LeafRule::ToClusters {
        most_flags: flags_allowed(&dinode),
    };
    read_block_list(alloc, view, geo, rule, owner, 0xc0, bytes)
}

/// Reads a dinode and its own list.
pub fn read_inode<D: Disk, const N: usize>(
    alloc: Global,
    view: &mut View<'_, D, N>,
    geo: &Geo,
    owner: u64,
) -> Result<Inode, ViewFault>
    requires { Reaches geo.now view.old owner }
    ensures block { IfOk result (λ inode. (v : Volume) → Shows view.old geo.now v → inode.block ≡ v.at owner) }
    ensures size { IfOk result (λ inode. length inode.block ≡ 2 ^ geo.now.block_bits) }
    ensures long { IfOk result (λ inode. 512 ≤ length inode.block) }
    ensures read { IfOk result (λ inode. (v : Volume) → Shows view.old geo.now v → Keeps v inode.reading (extents v owner)) }
    ensures within { IfOk result (λ inode. Within geo.now inode.reading.leaves.items) }
    ensures count { CallsAtMost (view_blocks view.old) (view_state view.old) (view_state view.new) }
    ensures reads { OnlyReads view.old view.new }
    ensures fails { IfErr result (BlockFails view.old view.new) }
{
    let block = look(view, geo, owner)?;
    let reading = read_own_list(alloc, view, geo, owner, block.as_slice())?;
    Ok(Inode { block, reading })
}
