// The leaf records of an inode.
ghost use Rattle.std.specs.Prelude.{◌≡◌, ◌+◌, ◌^◌, ◌≤◌, [], length, Some, IfOk, MatchOption};
ghost use Rattle.std.specs.Result.{IfErr};
ghost use Rattle.o2_view.specs.OwnChecks.{NoneFails, ReadFailsOf};
ghost use Rattle.o2_view.specs.Counted.{CallsBut};
ghost use Rattle.o2_view.specs.Views.{view_state, view_blocks, ShowsBytes, OnlyReads};
ghost use Rattle.o2_model.specs.Words.{IsLeast};
ghost use Rattle.o2_model.specs.Inodes.{leaf_records};
ghost use Rattle.o2_model.specs.Volume.{Volume};
ghost use Rattle.o2_view.specs.Geos.{LiesIn};
ghost use Rattle.o2_extent.specs.Readings.{Within, extent_checks};

use crate::Leaves;
use crate::inode::read_own_list;
use o2_disk::Disk;
use o2_model::{Check, Geo};
use o2_view::{ReadFault, View};
use std::alloc::Global;

/// The least of some blocks.
pub fn least(blocks: &[u64]) -> Option<u64>
    ensures { MatchOption result (blocks.now ≡ []) (λ least. IsLeast least blocks.now) }
{
    blocks.iter().copied().min()
}

/// The leaf records of the dinode at `owner`, where these are its bytes, without those of 0 clusters. Bad where EXTENT fails for it.
pub fn records_in<D: Disk, const N: usize>(
    alloc: Global,
    view: &mut View<'_, D, N>,
    geo: &Geo,
    owner: u64,
    bytes: &[u8],
) -> Result<Leaves, ReadFault>
    requires geo { LiesIn geo.now view.old }
    requires size { length bytes.now ≡ 2 ^ geo.now.block_bits }
    ensures told { IfOk result (λ leaves. (v : Volume) → ShowsBytes view.old geo.now owner bytes.now v
        → NoneFails (extent_checks owner) v × (leaves ≡ leaf_records v owner)) }
    ensures within { IfOk result (Within geo.now) }
    ensures fails { IfErr result (ReadFailsOf (ShowsBytes view.old geo.now owner bytes.now) view.old view.new (extent_checks owner)) }
    // The disk is called for the extent blocks alone.
    ensures count { CallsBut 1 (view_blocks view.old) (view_state view.old) (view_state view.new) }
    ensures reads { OnlyReads view.old view.new }
{
    let reading = read_own_list(alloc, view, geo, owner, bytes)?;
    let faults = reading.faults;
    let leaves = reading.leaves;
    if let Some(block) = least(faults.as_slice()) {
        return Err(ReadFault::Bad {
            check: Check::Extent,
            block,
        });
    }
    Ok(Leaves::from(leaves))
}
