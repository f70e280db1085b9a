// The walk over the chains of an allocator.
ghost use Rattle.std.specs.Prelude.{◌≡◌, ◌+◌, ◌-◌, ◌^◌, ◌<◌, ◌≤◌, ℕ, List, [], length, drop, map, true, false, OnOk, IfOk, if◌then◌else◌};
ghost use Rattle.std.specs.Option.{IfNone, IfSome};
ghost use Rattle.std.specs.Result.{IfErr};
ghost use Rattle.o2_ondisk.specs.declared.chain_rec.ChainRec.{ChainRec as Record};
ghost use Rattle.o2_model.specs.Volume.{Volume, blocks};
ghost use Rattle.o2_model.specs.Groups.{GroupWalk, group_desc, is_good_group, with_group, walk_chain as chain_walk, walk_chains as chains_walk};
ghost use Rattle.o2_view.specs.Counted.{CallsAtMost};
ghost use Rattle.o2_view.specs.Geos.{HasSizes, LiesIn, Reaches, blocks_of};
ghost use Rattle.o2_view.specs.OwnChecks.{BlockFails, NoneFails};
ghost use Rattle.o2_view.specs.Views.{view_state, view_blocks, Shows, OnlyReads};
ghost use Rattle.o2_view.specs.declared.run.Run.{Run as Clusters};
ghost use Rattle.o2_extent.specs.Readings.{LooksAtMost};
ghost use Rattle.o2_chain.specs.Readings.{Keeps, HasLooked, heads_of, looked_at};

use crate::Group;
use crate::good::{is_good, may_look};
use crate::walked::{Walked, add_fault, add_group, add_seen};
use o2_disk::Disk;
use o2_extent::look;
use o2_model::{Allocator, Geo};
use o2_ondisk::{ChainRec, read_group_desc};
use o2_view::{View, ViewFault};

/// Looks at the block that a link leads to, and gives the link of the group in it. None where it is no good group.
fn visit<D: Disk, const N: usize>(
    view: &mut View<'_, D, N>,
    geo: &Geo,
    a: &Allocator,
    chain: u32,
    link: u64,
    walked: &mut Walked,
) -> Result<Option<u64>, ViewFault>
    requires geo { LiesIn geo.now view.old }
    requires apart { HasLooked (blocks_of geo.now) walked.old }
    ensures bad { IfOk result (λ found. IfNone found ((v : Volume) → Shows view.old geo.now v → (before : List Clusters) (w : GroupWalk) → Keeps v a.now before walked.old w
        → (is_good_group v a.now w.groups link ≡ false) × Keeps v a.now before walked.new w)) }
    ensures good { IfOk result (λ found. IfSome found (λ next. (v : Volume) → Shows view.old geo.now v → (before : List Clusters) (w : GroupWalk) → Keeps v a.now before walked.old w
        → (is_good_group v a.now w.groups link ≡ true) × (next ≡ (group_desc v link).next_group) × Keeps v a.now before walked.new (with_group w a.now chain link (group_desc v link).bits))) }
    ensures still_apart { HasLooked (blocks_of geo.now) walked.new }
    ensures count { LooksAtMost (looked_at walked.old) (looked_at walked.new) view.old view.new }
    ensures longer { IfOk result (λ found. IfSome found (λ next. length (looked_at walked.old) < length (looked_at walked.new))) }
    ensures reads { OnlyReads view.old view.new }
    ensures fails { IfErr result (BlockFails view.old view.new) }
{
    if !may_look(geo, link, walked) {
        return Ok(None);
    }
    add_seen(walked, link)?;
    let block = look(view, geo, link)?;
    let desc = read_group_desc(block.as_slice());
    if !is_good(geo, a, link, &desc, &walked.clusters) {
        return Ok(None);
    }
    let group = Group {
        chain,
        block: link,
        bits: u32::from(desc.bits),
    };
    add_group(geo, a, group, walked)?;
    Ok(Some(desc.next_group))
}

/// Walks a chain from its head on.
fn walk_chain<D: Disk, const N: usize>(
    view: &mut View<'_, D, N>,
    geo: &Geo,
    a: &Allocator,
    chain: u32,
    head: u64,
    walked: &mut Walked,
) -> Result<(), ViewFault>
    requires geo { LiesIn geo.now view.old }
    requires apart { HasLooked (blocks_of geo.now) walked.old }
    ensures walks { OnOk result ((v : Volume) → Shows view.old geo.now v → (before : List Clusters) (w : GroupWalk) → Keeps v a.now before walked.old w
        → Keeps v a.now before walked.new (chain_walk v a.now chain (blocks v) a.now.block head w)) }
    ensures still_apart { HasLooked (blocks_of geo.now) walked.new }
    ensures count { LooksAtMost (looked_at walked.old) (looked_at walked.new) view.old view.new }
    ensures reads { OnlyReads view.old view.new }
    ensures fails { IfErr result (BlockFails view.old view.new) }
{
    let mut holder = a.block;
    let mut link = head;
    while link != 0 {
        let Some(next) = visit(view, geo, a, chain, link, walked)? else {
            add_fault(walked, holder)?;
            return Ok(());
        };
        holder = link;
        link = next;
    }
    Ok(())
}

/// Walks these chains, one after the other.
pub fn walk_chains<D: Disk, const N: usize>(
    view: &mut View<'_, D, N>,
    geo: &Geo,
    a: &Allocator,
    records: &[ChainRec],
    walked: &mut Walked,
) -> Result<(), ViewFault>
    requires geo { LiesIn geo.now view.old }
    requires apart { HasLooked (blocks_of geo.now) walked.old }
    requires few { length records.now < 2 ^ 16 }
    ensures walks { OnOk result ((v : Volume) → Shows view.old geo.now v → (before : List Clusters) (w : GroupWalk) → Keeps v a.now before walked.old w
        → Keeps v a.now before walked.new (chains_walk v a.now 0 (heads_of records.now) w)) }
    ensures still_apart { HasLooked (blocks_of geo.now) walked.new }
    ensures count { LooksAtMost (looked_at walked.old) (looked_at walked.new) view.old view.new }
    ensures reads { OnlyReads view.old view.new }
    ensures fails { IfErr result (BlockFails view.old view.new) }
{
    let mut chain = 0u32;
    for record in records {
        walk_chain(view, geo, a, chain, record.blkno, walked)?;
        chain += 1;
    }
    Ok(())
}
