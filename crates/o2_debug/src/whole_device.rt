// The answer to a query, on a volume of which only its numbers are known.
ghost use Rattle.std.specs.Prelude.{◌≡◌, ◌⊎◌, ◌≤◌, Some, OnOk, IsErrOf};
ghost use Rattle.std.specs.Result.{IfErr};
ghost use Rattle.o2_disk.specs.Device.{ReadsOnly, SameDevice};
ghost use Rattle.o2_disk.specs.Image.{Image};
ghost use Rattle.o2_skeleton.specs.Skeleton.{HasSkeleton};
ghost use Rattle.o2_debug.specs.Queries.{NamesPath, AnswersAt, AnswersSomeAt};
ghost use Rattle.o2_open.specs.Devices.{volume_on, IsOn};
ghost use Rattle.o2_debug.specs.Fails.{QueryFails};

use crate::{DebugFault, Query, command};
use o2_disk::{Disk, Sink};
use o2_model::Geo;
use o2_open::whole_view;
use std::alloc::Global;

/// Answers a query on the volume of these numbers, over all whole blocks of the device, of which N may be kept. The errors are
/// those of `command`.
pub fn ask<D: Disk, K: Sink, const N: usize>(
    alloc: Global,
    device: &mut D,
    geo: &Geo,
    query: &Query,
    out: &mut K,
) -> Result<(), DebugFault>
    requires least { 9 ≤ geo.now.block_bits }
    requires most { geo.now.block_bits ≤ 12 }
    requires path { NamesPath query.now }
    requires kept { 1 ≤ N }
    ensures told { OnOk result ((I : Image) → (D.state device.old).content ≡ Some I
        → HasSkeleton (volume_on geo.now I) × AnswersAt query.now (volume_on geo.now I) (K.state out.old) (K.state out.new)) }
    ensures some { (I : Image) → (D.state device.old).content ≡ Some I
        → (K.state out.new ≡ K.state out.old) ⊎ (HasSkeleton (volume_on geo.now I) × AnswersSomeAt query.now (volume_on geo.now I) (K.state out.old) (K.state out.new)) }
    ensures reads { ReadsOnly (D.state device.old) (D.state device.new) }
    ensures device { SameDevice (D.state device.old) (D.state device.new) }
    ensures fails { IfErr result (QueryFails (IsOn (D.state device.old) geo.now) (D.state device.old) (D.state device.new) query.now (K.state out.old) (K.state out.new)
        (out.new ≡ out.old)) }
    ensures quiet { (IsErrOf result DebugFault.OutputFault → ⊥) → (K.state out.new).faults ≡ (K.state out.old).faults }
{
    let Ok(mut view) = whole_view::<D, N>(alloc, device, geo) else {
        return Err(DebugFault::NoMemory);
    };
    let answer = command(alloc, &mut view, geo, query, out);
    let _device = view.into_disk();
    answer
}
