// What fails on the volume of a device.
ghost use Rattle.std.specs.Prelude.{◌≡◌, ◌≤◌, Some, IfOk, IfErr, IsErrOf};
ghost use Rattle.o2_disk.specs.Device.{ReadsOnly, SameDevice, Rose, IsAttachedOnce, IsAttachedAtMostOnce, IsWritable};
ghost use Rattle.o2_model.specs.Image.{Image};
ghost use Rattle.o2_model.specs.Volume.{Volume};
ghost use Rattle.o2_cause.specs.Causes.{IsDone};
ghost use Rattle.o2_check.specs.Reports.{IsReport};
ghost use Rattle.o2_open.specs.Devices.{IsOn};
ghost use Rattle.o2_open.specs.Openings.{IsOfOpening};
ghost use Rattle.o2_fsck.specs.Judged.{DeviceCheckFails, cause_of_check};
ghost use Rattle.o2_fsck.specs.Verdicts.{ComesFor, AreFailing};

use o2_cause::Cause;
use o2_check::{CheckFault, Report, check};
use o2_disk::{Disk, How};
use o2_model::Geo;
use o2_open::{open_for_reading, whole_view};
use o2_view::Pairs;
use std::alloc::Global;

// How many blocks the reader may keep.
const KEPT_BLOCKS: usize = 1024;

/// What fails on the volume of the device of that name, which is only read. NotOcfs2 where there is no volume, Unsupported where it
/// has something outside the profile.
pub fn judge_volume<D: Disk>(alloc: Global, device: &mut D, name: &str) -> Result<Pairs, Cause>
    ensures told { IfOk result (λ pairs. (I : Image) → (D.state device.old).content ≡ Some I → AreFailing I pairs) }
    ensures refused { IfErr result (λ cause. (I : Image) → (D.state device.old).content ≡ Some I → ComesFor I cause) }
    ensures causes { IfErr result IsOfOpening }
    ensures not_done { IfErr result (λ cause. IsDone cause → ⊥) }
    ensures named { (IsErrOf result Cause.NoMemory → ⊥) → IsAttachedOnce name.now How.ReadOnly (D.state device.old) (D.state device.new) }
    ensures at_most { IsAttachedAtMostOnce name.now How.ReadOnly (D.state device.old) (D.state device.new) }
    ensures not_writable { IsWritable (D.state device.new).attached → ⊥ }
    ensures fault { IsErrOf result Cause.DeviceFault → Rose (D.state device.old).faults (D.state device.new).faults }
    ensures reads { ReadsOnly (D.state device.old) (D.state device.new) }
{
    let geo = open_for_reading(alloc, device, name)?;
    match check_device::<D, KEPT_BLOCKS>(alloc, device, &geo) {
        Ok(report) => Ok(report.into_pairs()),
        Err(fault) => Err(cause_for(fault)),
    }
}

/// Checks the volume of these numbers, over all whole blocks of the device, of which N may be kept. The errors are those of `check`.
fn check_device<D: Disk, const N: usize>(
    alloc: Global,
    device: &mut D,
    geo: &Geo,
) -> Result<Report, CheckFault>
    requires least { 9 ≤ geo.now.block_bits }
    requires most { geo.now.block_bits ≤ 12 }
    requires kept { 1 ≤ N }
    ensures told { IfOk result (λ report. (v : Volume) → IsOn (D.state device.old) geo.now v → IsReport v report) }
    ensures reads { ReadsOnly (D.state device.old) (D.state device.new) }
    ensures device { SameDevice (D.state device.old) (D.state device.new) }
    ensures fails { IfErr result (DeviceCheckFails (D.state device.old) (D.state device.new) geo.now) }
{
    let mut view = whole_view::<D, N>(alloc, device, geo)?;
    let report = check(alloc, &mut view, geo);
    let _device = view.into_disk();
    report
}

// The cause of this fault.
fn cause_for(fault: CheckFault) -> Cause
    ensures { result ≡ cause_of_check fault }
{
    match fault {
        CheckFault::NoMemory => Cause::NoMemory,
        CheckFault::DeviceFault => Cause::DeviceFault,
        CheckFault::Unsupported { what, block } => Cause::Unsupported { what, block },
    }
}
