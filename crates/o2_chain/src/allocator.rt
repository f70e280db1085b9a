// The groups of an allocator.
ghost use Rattle.std.specs.Prelude.{◌≡◌, List, [], IfOk};
ghost use Rattle.std.specs.Result.{IfErr};
ghost use Rattle.o2_model.specs.declared.allocator.Allocator.{Allocator as Judged};
ghost use Rattle.o2_model.specs.Volume.{Volume};
ghost use Rattle.o2_view.specs.Counted.{CallsAtMost};
ghost use Rattle.o2_view.specs.Geos.{Reaches};
ghost use Rattle.o2_view.specs.OwnChecks.{NoneFails, ReadFails};
ghost use Rattle.o2_view.specs.Views.{view_state, view_blocks, Shows, OnlyReads};
ghost use Rattle.o2_chain.specs.Faults.{ChainFails};
ghost use Rattle.o2_chain.specs.Walks.{AreSoundGroups, chain_checks, checks_of, judged_as};

use crate::chain_list::chains_in;
use crate::chains::walk_chains;
use crate::walked::start;
use crate::{ChainFault, Groups};
use o2_disk::Disk;
use o2_extent::{least, look};
use o2_model::{Allocator, BitUse, Check, Geo};
use o2_view::{ReadFault, Run, Runs, View};
use std::alloc::Global;

/// What an allocator is that belongs to no slot.
const NO_SLOT: u16 = 0xffff;

/// The allocator whose dinode is in the block, judged as the global bitmap or as a suballocator.
pub fn judged(block: u64, bitmap: bool) -> Allocator
    ensures { result ≡ judged_as bitmap block }
{
    let bit_use = if bitmap {
        BitUse::Clusters
    } else {
        BitUse::Metadata
    };
    Allocator {
        bit_use,
        slot: NO_SLOT,
        block,
    }
}

/// The groups of the allocator, where the clusters of these runs count as walked.
fn groups_of<D: Disk, const N: usize>(
    alloc: Global,
    view: &mut View<'_, D, N>,
    geo: &Geo,
    a: &Allocator,
    before: &[Run],
) -> Result<Groups, ReadFault>
    requires { Reaches geo.now view.old a.now.block }
    ensures told { IfOk result (λ groups. (v : Volume) → Shows view.old geo.now v → NoneFails (checks_of a.now before.now) v × AreSoundGroups v a.now before.now groups) }
    ensures fails { IfErr result (ReadFails view.old view.new geo.now (checks_of a.now before.now)) }
    ensures count { CallsAtMost (view_blocks view.old) (view_state view.old) (view_state view.new) }
    ensures reads { OnlyReads view.old view.new }
{
    let block = look(view, geo, a.block)?;
    let Some(records) = chains_in(alloc, geo, a, block.as_slice())? else {
        return Err(ReadFault::Bad {
            check: Check::ChainHeader,
            block: a.block,
        });
    };
    let mut walked = start(alloc, geo, before)?;
    walk_chains(view, geo, a, records.as_slice(), &mut walked)?;
    if let Some(block) = least(walked.faults.as_slice()) {
        return Err(ReadFault::Bad {
            check: Check::ChainLink,
            block,
        });
    }
    Ok(Groups::from(walked.groups))
}

/// The groups of the allocator whose dinode is in block `allocator`, chain by chain. It is judged as the global bitmap or as a
/// suballocator, and the clusters of `before` count as those of groups that were walked. Bad where CHAIN_HEADER or CHAIN_LINK
/// fails for it. Each group descriptor is read once.
pub fn walk<D: Disk, const N: usize>(
    alloc: Global,
    view: &mut View<'_, D, N>,
    geo: &Geo,
    allocator: u64,
    bitmap: bool,
    before: &Runs,
) -> Result<Groups, ChainFault>
    requires { Reaches geo.now view.old allocator }
    ensures told { IfOk result (λ groups. (v : Volume) → Shows view.old geo.now v
        → NoneFails (chain_checks bitmap allocator before.now) v × AreSoundGroups v (judged_as bitmap allocator) before.now groups) }
    ensures fails { IfErr result (ChainFails view.old view.new geo.now (chain_checks bitmap allocator before.now)) }
    // The disk is called at most as often as the view has blocks.
    ensures count { CallsAtMost (view_blocks view.old) (view_state view.old) (view_state view.new) }
    ensures reads { OnlyReads view.old view.new }
{
    let a = judged(allocator, bitmap);
    let groups = groups_of(alloc, view, geo, &a, before.as_slice())?;
    Ok(groups)
}
