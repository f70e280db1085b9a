// The bytes of a file, put piece by piece.
ghost use Rattle.std.specs.Prelude.{◌≡◌, [], OnOk, IsErrOf};
ghost use Rattle.std.specs.Result.{IfErr};
ghost use Rattle.o2_view.specs.Views.{Shows, OnlyReads};
ghost use Rattle.o2_view.specs.Geos.{LiesIn};
ghost use Rattle.o2_model.specs.Volume.{Volume};
ghost use Rattle.o2_dir.specs.InodeReadings.{Fits, TellsSound};
ghost use Rattle.o2_debug.specs.Fails.{AnswerFails};
ghost use Rattle.o2_debug.specs.Texts.{cat_text};
ghost use Rattle.o2_cause.specs.Taken.{Takes, TakesSome};

use crate::DebugFault;
use o2_cause::put_text;
use o2_dir::{InodeReading, part_of_file};
use o2_disk::{Disk, Sink};
use o2_model::Geo;
use o2_view::View;
use std::alloc::Global;

// How many bytes are read before they are put.
const PIECE: u64 = 0x1_0000;

/// Puts the bytes of a file that was read before, a piece at a time: only its bytes are read.
pub fn put_file<D: Disk, K: Sink, const N: usize>(
    alloc: Global,
    view: &mut View<'_, D, N>,
    geo: &Geo,
    reading: &InodeReading,
    out: &mut K,
) -> Result<(), DebugFault>
    requires geo { LiesIn geo.now view.old }
    requires fits { Fits geo.now reading.now }
    requires sound { (v : Volume) → Shows view.old geo.now v → TellsSound v reading.now.inode reading.now }
    ensures told { OnOk result ((v : Volume) → Shows view.old geo.now v → Takes (K.state out.old) (K.state out.new) (cat_text v reading.now.inode)) }
    ensures some { (v : Volume) → Shows view.old geo.now v → TakesSome (K.state out.old) (K.state out.new) (cat_text v reading.now.inode) }
    ensures reads { OnlyReads view.old view.new }
    ensures fails { IfErr result (AnswerFails view.old view.new geo.now [] (K.state out.old) (K.state out.new) (out.new ≡ out.old)
        (λ v. TakesSome (K.state out.old) (K.state out.new) (cat_text v reading.now.inode)) ⊥) }
    ensures quiet { (IsErrOf result DebugFault.OutputFault → ⊥) → (K.state out.new).faults ≡ (K.state out.old).faults }
{
    let size = reading.dinode.size;
    let mut at = 0;
    while at < size {
        let count = PIECE.min(size - at);
        let piece = part_of_file(alloc, view, geo, reading, at, count as u32)?;
        let Ok(()) = put_text(out, piece.as_slice()) else {
            return Err(DebugFault::OutputFault);
        };
        at += count;
    }
    Ok(())
}
