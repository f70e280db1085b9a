// A device, attached for a tool.
ghost use Rattle.std.specs.Prelude.{◌≡◌, ◌⊎◌, Some, None, OnOk, OnErr, IfErr, IsErrOf};
ghost use Rattle.o2_disk.specs.Device.{IsAttachedOnce, IsAttachedAtMostOnce, Keeps, StaysPending, Elapses, Rose};

use crate::cause::Cause;
use o2_disk::{Disk, How};
use std::alloc::Global;

/// Attaches the device under this name, and in this way.
pub fn attach<D: Disk>(alloc: Global, device: &mut D, name: &str, how: How) -> Result<(), Cause>
    ensures named { (IsErrOf result Cause.NoMemory → ⊥) → IsAttachedOnce name.now how (D.state device.old) (D.state device.new) }
    ensures at_most { IsAttachedAtMostOnce name.now how (D.state device.old) (D.state device.new) }
    ensures attached { OnOk result ((D.state device.new).attached ≡ Some how) }
    ensures refused { OnErr result ((D.state device.new).attached ≡ None) }
    ensures causes { IfErr result (λ cause. (cause ≡ Cause.DeviceFault) ⊎ (cause ≡ Cause.NoMemory)) }
    ensures same { Keeps (D.state device.old) (D.state device.new) }
    ensures pending { StaysPending (D.state device.old) (D.state device.new) }
    ensures time { Elapses (D.state device.old) (D.state device.new) }
    ensures fault { IsErrOf result Cause.DeviceFault → Rose (D.state device.old).faults (D.state device.new).faults }
    ensures faults { OnOk result ((D.state device.new).faults ≡ (D.state device.old).faults) }
{
    device.attach(alloc, name, how)?;
    Ok(())
}
