// The text of a query about a volume as a whole, put on a sink.
ghost use Rattle.std.specs.Prelude.{◌≡◌, [], ◌∷◌, map, OnOk, IfOk, IsErrOf};
ghost use Rattle.std.specs.List.{concat};
ghost use Rattle.std.specs.Result.{IfErr};
ghost use Rattle.o2_model.specs.AfterReplay.{journal_length};
ghost use Rattle.o2_model.specs.SystemFiles.{slots};
ghost use Rattle.o2_model.specs.Volume.{Volume};
ghost use Rattle.o2_cause.specs.Taken.{Takes, TakesSome};
ghost use Rattle.o2_skeleton.specs.Skeleton.{slot_map_check};
ghost use Rattle.o2_skeleton.specs.SkeletonTables.{IsSkeleton};
ghost use Rattle.o2_view.specs.Geos.{LiesIn};
ghost use Rattle.o2_view.specs.OwnChecks.{BlockFails, ReadFails};
ghost use Rattle.o2_view.specs.Views.{Shows, OnlyReads};
ghost use Rattle.o2_debug.specs.Fails.{AnswerFails};
ghost use Rattle.o2_debug.specs.Texts.{stats_text, slot_map_text};
ghost use Rattle.o2_debug.specs.VolumeLines.{journal_line as line_of_journal};

use crate::DebugFault;
use crate::lines::Lines;
use crate::own_files::{journal_clusters, own_inode, superblock, used_clusters};
use crate::put::put_all;
use crate::text::joined;
use crate::volume_lines::{journal_line, slot_lines, volume_lines};
use o2_disk::{Disk, Sink};
use o2_extent::put;
use o2_model::{Geo, SystemFile};
use o2_skeleton::Skeleton;
use o2_slots::slot_map;
use o2_view::{ReadFault, View, ViewFault};
use std::alloc::Global;

/// A line for the journal of each slot.
fn journal_lines<D: Disk, const N: usize>(
    alloc: Global,
    view: &mut View<'_, D, N>,
    geo: &Geo,
    skeleton: &Skeleton,
) -> Result<Lines, ViewFault>
    requires { LiesIn geo.now view.old }
    ensures told { IfOk result (λ lines. (v : Volume) → Shows view.old geo.now v → IsSkeleton v skeleton.now
        → lines ≡ map (λ slot. line_of_journal slot (journal_length v slot)) (slots v)) }
    ensures reads { OnlyReads view.old view.new }
    ensures fails { IfErr result (BlockFails view.old view.new) }
{
    let mut lines = Vec::new(alloc);
    for slot in 0..geo.slots {
        let clusters = journal_clusters(alloc, view, geo, skeleton, slot)?;
        put(&mut lines, journal_line(alloc, slot, clusters)?)?;
    }
    Ok(Lines::from(lines))
}

/// The lines of `stats`.
fn stats_lines<D: Disk, const N: usize>(
    alloc: Global,
    view: &mut View<'_, D, N>,
    geo: &Geo,
    skeleton: &Skeleton,
) -> Result<Lines, ViewFault>
    requires { LiesIn geo.now view.old }
    ensures told { IfOk result (λ lines. (v : Volume) → Shows view.old geo.now v → IsSkeleton v skeleton.now → concat lines ≡ stats_text v) }
    ensures reads { OnlyReads view.old view.new }
    ensures fails { IfErr result (BlockFails view.old view.new) }
{
    let part = superblock(view, geo)?;
    let used = used_clusters(alloc, view, geo, skeleton)?;
    let first = volume_lines(alloc, geo, &part, used)?;
    let others = journal_lines(alloc, view, geo, skeleton)?;
    Ok(joined(first, others)?)
}

/// Answers `stats` by the tables of a volume's skeleton.
pub fn put_stats<D: Disk, K: Sink, const N: usize>(
    alloc: Global,
    view: &mut View<'_, D, N>,
    geo: &Geo,
    skeleton: &Skeleton,
    out: &mut K,
) -> Result<(), DebugFault>
    requires geo { LiesIn geo.now view.old }
    requires tables { (v : Volume) → Shows view.old geo.now v → IsSkeleton v skeleton.now }
    ensures told { OnOk result ((v : Volume) → Shows view.old geo.now v → Takes (K.state out.old) (K.state out.new) (stats_text v)) }
    ensures some { (v : Volume) → Shows view.old geo.now v → TakesSome (K.state out.old) (K.state out.new) (stats_text v) }
    ensures reads { OnlyReads view.old view.new }
    ensures fails { IfErr result (AnswerFails view.old view.new geo.now [] (K.state out.old) (K.state out.new) (out.new ≡ out.old)
        (λ v. TakesSome (K.state out.old) (K.state out.new) (stats_text v)) ⊥) }
    ensures quiet { (IsErrOf result DebugFault.OutputFault → ⊥) → (K.state out.new).faults ≡ (K.state out.old).faults }
{
    let lines = stats_lines(alloc, view, geo, skeleton)?;
    put_all(out, &lines)
}

/// The lines of `slotmap`. Bad where SLOT_MAP fails.
fn map_lines<D: Disk, const N: usize>(
    alloc: Global,
    view: &mut View<'_, D, N>,
    geo: &Geo,
    skeleton: &Skeleton,
) -> Result<Lines, ReadFault>
    requires geo { LiesIn geo.now view.old }
    requires tables { (v : Volume) → Shows view.old geo.now v → IsSkeleton v skeleton.now }
    ensures told { IfOk result (λ lines. (v : Volume) → Shows view.old geo.now v → concat lines ≡ slot_map_text v) }
    ensures reads { OnlyReads view.old view.new }
    ensures fails { IfErr result (ReadFails view.old view.new geo.now (slot_map_check ∷ [])) }
{
    let inode = own_inode(geo, &skeleton.names, SystemFile::SlotMap)?;
    let map = slot_map(alloc, view, geo, inode)?;
    Ok(slot_lines(alloc, &map)?)
}

/// Answers `slotmap` by the tables of a volume's skeleton. Bad where SLOT_MAP fails.
pub fn put_slot_map<D: Disk, K: Sink, const N: usize>(
    alloc: Global,
    view: &mut View<'_, D, N>,
    geo: &Geo,
    skeleton: &Skeleton,
    out: &mut K,
) -> Result<(), DebugFault>
    requires geo { LiesIn geo.now view.old }
    requires tables { (v : Volume) → Shows view.old geo.now v → IsSkeleton v skeleton.now }
    ensures told { OnOk result ((v : Volume) → Shows view.old geo.now v → Takes (K.state out.old) (K.state out.new) (slot_map_text v)) }
    ensures some { (v : Volume) → Shows view.old geo.now v → TakesSome (K.state out.old) (K.state out.new) (slot_map_text v) }
    ensures reads { OnlyReads view.old view.new }
    ensures fails { IfErr result (AnswerFails view.old view.new geo.now (slot_map_check ∷ []) (K.state out.old) (K.state out.new) (out.new ≡ out.old)
        (λ v. TakesSome (K.state out.old) (K.state out.new) (slot_map_text v)) ⊥) }
    ensures quiet { (IsErrOf result DebugFault.OutputFault → ⊥) → (K.state out.new).faults ≡ (K.state out.old).faults }
{
    let lines = map_lines(alloc, view, geo, skeleton)?;
    put_all(out, &lines)
}
