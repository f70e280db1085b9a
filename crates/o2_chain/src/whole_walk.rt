// The walk over the chains of all allocators of a volume.
ghost use Rattle.std.specs.Prelude.{◌≡◌, ◌*◌, ◌++◌, ◌∷◌, [], List, length, OnOk, IfOk};
ghost use Rattle.std.specs.Result.{IfErr};
ghost use Rattle.o2_model.specs.Volume.{Volume};
ghost use Rattle.o2_model.specs.Allocators.{allocators as allocators_of, chain_heads};
ghost use Rattle.o2_model.specs.declared.allocator.Allocator.{Allocator as Walks};
ghost use Rattle.o2_view.specs.Counted.{CallsAtMost};
ghost use Rattle.o2_view.specs.Geos.{LiesIn};
ghost use Rattle.o2_view.specs.OwnChecks.{BlockFails};
ghost use Rattle.o2_view.specs.Views.{view_state, view_blocks, Shows, OnlyReads};
ghost use Rattle.o2_tables.specs.Rows.{IsAllocatorRow, IsAllocatorTable};
ghost use Rattle.o2_chain.specs.Readings.{Keeps, heads_of};
ghost use Rattle.o2_chain.specs.Walks.{allocator_walk};
ghost use Rattle.o2_chain.specs.Whole.{HasGathered, IsVolumeWalk};

use crate::allocator::judged;
use crate::chain_list::is_bitmap;
use crate::chains::walk_chains;
use crate::gathered::{Gathered, add_walk, nothing};
use crate::walked::{Walked, start};
use o2_disk::Disk;
use o2_model::{Allocator, Geo, Group, Items};
use o2_ondisk::ChainRec;
use o2_tables::AllocatorRow;
use o2_view::{Numbers, Run, View, ViewFault};
use std::alloc::Global;

/// What the walk over the chains of all allocators meets.
#[derive(Debug, Drop)]
pub struct VolumeWalk {
    /// The groups in the order of the walk: allocator by allocator, and chain by chain.
    pub groups: Items<Group>,
    /// The blocks whose link is bad, in the same order: the dinode of a chain, or the group whose link it is.
    pub faults: Numbers,
}

/// What the walk over these chains of the allocator meets, where the clusters of these runs count as walked. A chain ends where
/// its link is bad.
fn walk_next<D: Disk, const N: usize>(
    alloc: Global,
    view: &mut View<'_, D, N>,
    geo: &Geo,
    a: &Allocator,
    chains: &[ChainRec],
    before: &[Run],
) -> Result<Walked, ViewFault>
    requires { LiesIn geo.now view.old }
    ensures told { IfOk result (λ walked. (v : Volume) → Shows view.old geo.now v → heads_of chains.now ≡ chain_heads v a.now
        → Keeps v a.now before.now walked (allocator_walk v a.now before.now)) }
    ensures count { CallsAtMost (view_blocks view.old) (view_state view.old) (view_state view.new) }
    ensures reads { OnlyReads view.old view.new }
    ensures fails { IfErr result (BlockFails view.old view.new) }
{
    // No dinode has room for so many chains.
    if chains.len() >= 0x10000 {
        return Err(ViewFault::NoMemory);
    }
    let mut walked = start(alloc, geo, before)?;
    walk_chains(view, geo, a, chains, &mut walked)?;
    Ok(walked)
}

/// Walks the chains of the next allocator, and adds what it meets. Where the header of its chain list is not sound, it has none.
fn gather<D: Disk, const N: usize>(
    alloc: Global,
    view: &mut View<'_, D, N>,
    geo: &Geo,
    row: &AllocatorRow,
    gathered: &mut Gathered,
) -> Result<(), ViewFault>
    requires { LiesIn geo.now view.old }
    ensures told { OnOk result ((v : Volume) → Shows view.old geo.now v → IsAllocatorRow v row.now
        → (earlier later : List Walks) → allocators_of v ≡ earlier ++ row.now.allocator ∷ later
        → HasGathered v earlier gathered.old → HasGathered v (earlier ++ row.now.allocator ∷ []) gathered.new) }
    ensures count { CallsAtMost (view_blocks view.old) (view_state view.old) (view_state view.new) }
    ensures reads { OnlyReads view.old view.new }
    ensures fails { IfErr result (BlockFails view.old view.new) }
{
    let a = &row.allocator;
    let by_use = judged(a.block, is_bitmap(a));
    let chains = row.chains.as_slice();
    let walked = walk_next(alloc, view, geo, &by_use, chains, gathered.runs.as_slice())?;
    add_walk(geo, a, &walked, gathered)?;
    Ok(())
}

/// Walks the chains of the allocators in their order, by their rows; no dinode of them is read again. It goes on with the next
/// chain where a link is bad. A group of blocks whose clusters one before it has is no good group, so the link to it is bad.
pub fn walk_all<D: Disk, const N: usize>(
    alloc: Global,
    view: &mut View<'_, D, N>,
    geo: &Geo,
    rows: &[AllocatorRow],
) -> Result<VolumeWalk, ViewFault>
    requires geo { LiesIn geo.now view.old }
    ensures told { IfOk result (λ walk. (v : Volume) → Shows view.old geo.now v → IsAllocatorTable v rows.now → IsVolumeWalk v walk) }
    // The disk is called at most as often as the view has blocks, for each of the allocators.
    ensures count { CallsAtMost (length rows.now * view_blocks view.old) (view_state view.old) (view_state view.new) }
    ensures reads { OnlyReads view.old view.new }
    ensures fails { IfErr result (BlockFails view.old view.new) }
{
    let mut gathered = nothing(alloc);
    for row in rows {
        gather(alloc, view, geo, row, &mut gathered)?;
    }
    Ok(VolumeWalk {
        groups: Items::from(gathered.groups),
        faults: Numbers::from(gathered.faults),
    })
}
