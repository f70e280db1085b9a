// The text of `ls`, of `stat` and of `refcount`, put on a sink.
ghost use Rattle.std.specs.Prelude.{◌≡◌, ◌⊎◌, true, OnOk, OnErr, IfOk, IsErrOf};
ghost use Rattle.std.specs.List.{concat};
ghost use Rattle.std.specs.Result.{IfErr};
ghost use Rattle.o2_view.specs.Views.{Shows, OnlyReads};
ghost use Rattle.o2_view.specs.Geos.{LiesIn};
ghost use Rattle.o2_view.specs.OwnChecks.{NoneFails, ReadFails};
ghost use Rattle.o2_model.specs.Volume.{Volume};
ghost use Rattle.o2_model.specs.Inodes.{is_directory};
ghost use Rattle.o2_model.specs.RefcountTrees.{has_refcount};
ghost use Rattle.o2_dir.specs.Fails.{directory_checks};
ghost use Rattle.o2_dir.specs.InodeReadings.{Fits, TellsSound};
ghost use Rattle.o2_cause.specs.Taken.{Takes, TakesSome};
ghost use Rattle.o2_debug.specs.Fails.{LinesFail, AnswerFails};
ghost use Rattle.o2_debug.specs.Texts.{ls_text, stat_text, refcount_text};
ghost use Rattle.o2_debug.specs.Objects.{tree_checks};

use crate::DebugFault;
use crate::lines::{Lines, refcount_lines};
use crate::text::{ls_lines, stat_lines};
use crate::trees::tree_records;
use o2_cause::put_lines;
use o2_dir::InodeReading;
use o2_disk::{Disk, Sink};
use o2_model::Geo;
use o2_view::{ReadFault, View};
use std::alloc::Global;

/// Puts lines on the sink.
pub fn put_all<K: Sink>(out: &mut K, lines: &Lines) -> Result<(), DebugFault>
    ensures told { OnOk result (Takes (K.state out.old) (K.state out.new) (concat lines.now)) }
    ensures some { TakesSome (K.state out.old) (K.state out.new) (concat lines.now) }
    ensures cause { OnErr result (IsErrOf result DebugFault.OutputFault) }
    ensures fails { IfErr result (LinesFail (K.state out.old) (K.state out.new)) }
    ensures quiet { (IsErrOf result DebugFault.OutputFault → ⊥) → (K.state out.new).faults ≡ (K.state out.old).faults }
{
    match put_lines(out, lines.as_slice()) {
        Ok(()) => Ok(()),
        Err(_) => Err(DebugFault::OutputFault),
    }
}

/// Answers `ls` of a directory that was read before. Bad where DIR_BLOCK fails for it.
pub fn put_ls<D: Disk, K: Sink, const N: usize>(
    alloc: Global,
    view: &mut View<'_, D, N>,
    geo: &Geo,
    reading: &InodeReading,
    out: &mut K,
) -> Result<(), DebugFault>
    requires geo { LiesIn geo.now view.old }
    requires fits { Fits geo.now reading.now }
    requires sound { (v : Volume) → Shows view.old geo.now v → TellsSound v reading.now.inode reading.now }
    requires directory { (v : Volume) → Shows view.old geo.now v → is_directory v reading.now.inode ≡ true }
    ensures told { OnOk result ((v : Volume) → Shows view.old geo.now v
        → NoneFails (directory_checks reading.now.inode) v × Takes (K.state out.old) (K.state out.new) (ls_text v reading.now.inode)) }
    ensures some { (v : Volume) → Shows view.old geo.now v → (K.state out.new ≡ K.state out.old)
        ⊎ (NoneFails (directory_checks reading.now.inode) v × TakesSome (K.state out.old) (K.state out.new) (ls_text v reading.now.inode)) }
    ensures reads { OnlyReads view.old view.new }
    ensures fails { IfErr result (AnswerFails view.old view.new geo.now (directory_checks reading.now.inode) (K.state out.old) (K.state out.new) (out.new ≡ out.old)
        (λ v. NoneFails (directory_checks reading.now.inode) v × TakesSome (K.state out.old) (K.state out.new) (ls_text v reading.now.inode)) ⊥) }
    ensures quiet { (IsErrOf result DebugFault.OutputFault → ⊥) → (K.state out.new).faults ≡ (K.state out.old).faults }
{
    let lines = ls_lines(alloc, view, geo, reading)?;
    put_all(out, &lines)
}

/// The lines of `refcount` of a file with HAS_REFCOUNT that was read before. Bad where REF_TREE fails for it or its tree.
fn tree_lines<D: Disk, const N: usize>(
    alloc: Global,
    view: &mut View<'_, D, N>,
    geo: &Geo,
    reading: &InodeReading,
) -> Result<Lines, ReadFault>
    requires geo { LiesIn geo.now view.old }
    requires sound { (v : Volume) → Shows view.old geo.now v → TellsSound v reading.now.inode reading.now }
    requires shares { (v : Volume) → Shows view.old geo.now v → has_refcount v reading.now.inode ≡ true }
    ensures told { IfOk result (λ lines. (v : Volume) → Shows view.old geo.now v
        → NoneFails (tree_checks reading.now.inode) v × (concat lines ≡ refcount_text v reading.now.inode)) }
    ensures reads { OnlyReads view.old view.new }
    ensures fails { IfErr result (ReadFails view.old view.new geo.now (tree_checks reading.now.inode)) }
{
    let records = tree_records(alloc, view, geo, reading)?;
    Ok(refcount_lines(alloc, records.as_slice())?)
}

/// Answers `refcount` of a file with HAS_REFCOUNT that was read before. Bad where REF_TREE fails for it or its tree.
pub fn put_refcount<D: Disk, K: Sink, const N: usize>(
    alloc: Global,
    view: &mut View<'_, D, N>,
    geo: &Geo,
    reading: &InodeReading,
    out: &mut K,
) -> Result<(), DebugFault>
    requires geo { LiesIn geo.now view.old }
    requires sound { (v : Volume) → Shows view.old geo.now v → TellsSound v reading.now.inode reading.now }
    requires shares { (v : Volume) → Shows view.old geo.now v → has_refcount v reading.now.inode ≡ true }
    ensures told { OnOk result ((v : Volume) → Shows view.old geo.now v
        → NoneFails (tree_checks reading.now.inode) v × Takes (K.state out.old) (K.state out.new) (refcount_text v reading.now.inode)) }
    ensures some { (v : Volume) → Shows view.old geo.now v → (K.state out.new ≡ K.state out.old)
        ⊎ (NoneFails (tree_checks reading.now.inode) v × TakesSome (K.state out.old) (K.state out.new) (refcount_text v reading.now.inode)) }
    ensures reads { OnlyReads view.old view.new }
    ensures fails { IfErr result (AnswerFails view.old view.new geo.now (tree_checks reading.now.inode) (K.state out.old) (K.state out.new) (out.new ≡ out.old)
        (λ v. NoneFails (tree_checks reading.now.inode) v × TakesSome (K.state out.old) (K.state out.new) (refcount_text v reading.now.inode)) ⊥) }
    ensures quiet { (IsErrOf result DebugFault.OutputFault → ⊥) → (K.state out.new).faults ≡ (K.state out.old).faults }
{
    let lines = tree_lines(alloc, view, geo, reading)?;
    put_all(out, &lines)
}

/// Answers `stat` of an inode that was read.
pub fn put_stat<K: Sink>(
    alloc: Global,
    reading: &InodeReading,
    out: &mut K,
) -> Result<(), DebugFault>
    ensures told { OnOk result ((v : Volume) → TellsSound v reading.now.inode reading.now → Takes (K.state out.old) (K.state out.new) (stat_text v reading.now.inode)) }
    ensures some { (v : Volume) → TellsSound v reading.now.inode reading.now → TakesSome (K.state out.old) (K.state out.new) (stat_text v reading.now.inode) }
    ensures fails { IfErr result (LinesFail (K.state out.old) (K.state out.new)) }
    ensures quiet { (IsErrOf result DebugFault.OutputFault → ⊥) → (K.state out.new).faults ≡ (K.state out.old).faults }
{
    let lines = stat_lines(alloc, reading)?;
    put_all(out, &lines)
}
