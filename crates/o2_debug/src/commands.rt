// The answer to a query, for a volume of which nothing is known but the size of its blocks.
ghost use Rattle.std.specs.Prelude.{◌≡◌, ◌⊎◌, ◌≤◌, OnOk, IsErrOf};
ghost use Rattle.std.specs.Result.{IfErr};
ghost use Rattle.o2_view.specs.Views.{view_state, view_bits, view_blocks, Shows, OnlyReads};
ghost use Rattle.o2_view.specs.Geos.{LiesIn};
ghost use Rattle.o2_model.specs.Volume.{Volume};
ghost use Rattle.o2_skeleton.specs.Skeleton.{HasSkeleton};
ghost use Rattle.o2_skeleton.specs.SkeletonTables.{IsSkeleton};
ghost use Rattle.o2_debug.specs.Queries.{NamesPath, AnswersAt, AnswersSomeAt, BeginsAnswerAt};
ghost use Rattle.o2_debug.specs.Fails.{AnswerFailsAt, QueryFails};

use crate::at_path::answer_at_path;
use crate::volume::{put_slot_map, put_stats};
use crate::{DebugFault, Query};
use o2_disk::{Disk, Sink};
use o2_model::Geo;
use o2_skeleton::{Skeleton, judge_skeleton};
use o2_view::View;
use std::alloc::Global;

/// Answers a query for a volume whose skeleton is sound, and has these tables.
fn answer_query<D: Disk, K: Sink, const N: usize>(
    alloc: Global,
    view: &mut View<'_, D, N>,
    geo: &Geo,
    skeleton: &Skeleton,
    query: &Query,
    out: &mut K,
) -> Result<(), DebugFault>
    requires geo { LiesIn geo.now view.old }
    requires sound { (v : Volume) → Shows view.old geo.now v → HasSkeleton v }
    requires tables { (v : Volume) → Shows view.old geo.now v → IsSkeleton v skeleton.now }
    requires path { NamesPath query.now }
    ensures told { OnOk result ((v : Volume) → Shows view.old geo.now v → AnswersAt query.now v (K.state out.old) (K.state out.new)) }
    ensures some { (v : Volume) → Shows view.old geo.now v → BeginsAnswerAt query.now v (K.state out.old) (K.state out.new) }
    ensures reads { OnlyReads view.old view.new }
    ensures fails { IfErr result (AnswerFailsAt (Shows view.old geo.now) (view_state view.old) (view_state view.new) query.now (K.state out.old) (K.state out.new)
        (out.new ≡ out.old)) }
    ensures quiet { (IsErrOf result DebugFault.OutputFault → ⊥) → (K.state out.new).faults ≡ (K.state out.old).faults }
{
    match query {
        Query::Stats => put_stats(alloc, view, geo, skeleton, out),
        Query::SlotMap => put_slot_map(alloc, view, geo, skeleton, out),
        Query::At(query) => answer_at_path(alloc, view, geo, query, out),
    }
}

/// Answers a query. `geo` is what the superblock tells, and the view has all whole blocks of the device. Bad where a check of the
/// skeleton fails (the first seven), then Absent, WrongKind and Bad in the order of the path, and of the inode at its end.
/// Nothing is put before one of these.
pub fn command<D: Disk, K: Sink, const N: usize>(
    alloc: Global,
    view: &mut View<'_, D, N>,
    geo: &Geo,
    query: &Query,
    out: &mut K,
) -> Result<(), DebugFault>
    requires bits { geo.now.block_bits ≡ view_bits view.old }
    requires least { 9 ≤ geo.now.block_bits }
    requires most { geo.now.block_bits ≤ 12 }
    requires device { (v : Volume) → Shows view.old geo.now v → view_blocks view.old ≡ v.on_device }
    requires path { NamesPath query.now }
    ensures told { OnOk result ((v : Volume) → Shows view.old geo.now v → HasSkeleton v × AnswersAt query.now v (K.state out.old) (K.state out.new)) }
    ensures some { (v : Volume) → Shows view.old geo.now v
        → (K.state out.new ≡ K.state out.old) ⊎ (HasSkeleton v × AnswersSomeAt query.now v (K.state out.old) (K.state out.new)) }
    ensures reads { OnlyReads view.old view.new }
    ensures fails { IfErr result (QueryFails (Shows view.old geo.now) (view_state view.old) (view_state view.new) query.now (K.state out.old) (K.state out.new)
        (out.new ≡ out.old)) }
    ensures quiet { (IsErrOf result DebugFault.OutputFault → ⊥) → (K.state out.new).faults ≡ (K.state out.old).faults }
{
    let skeleton = judge_skeleton(alloc, view, geo)?;
    answer_query(alloc, view, geo, &skeleton, query, out)
}
