// The answer to a query, by the name of its device.
ghost use Rattle.std.specs.Prelude.{◌≡◌, ◌≢◌, Some, OnOk, IfErr, IsErrOf};
ghost use Rattle.o2_disk.specs.Device.{ReadsOnly, Rose, IsAttachedOnce, IsAttachedAtMostOnce, IsWritable};
ghost use Rattle.o2_disk.specs.Output.{FailsLast};
ghost use Rattle.o2_model.specs.Image.{Image};
ghost use Rattle.o2_debug.specs.Queries.{NamesPath};
ghost use Rattle.o2_cause.specs.Causes.{IsDone, IsRefusal};
ghost use Rattle.o2_debugfs.specs.QueryRun.{IsOfQuery};
ghost use Rattle.o2_debugfs.specs.Replies.{ComesFor, TakesReport, TakesSomeOfReport, BeginsReport, cause_of_query};

use o2_cause::Cause;
use o2_debug::{DebugFault, Query, ask};
use o2_disk::{Disk, How, Sink};
use o2_open::open_for_reading;
use std::alloc::Global;

// How many blocks the reader may keep.
const KEPT_BLOCKS: usize = 1024;

/// Puts the answer to a query on `out`. The device of that name is only read.
pub fn tell<D: Disk, K: Sink>(
    alloc: Global,
    device: &mut D,
    name: &str,
    query: Query,
    out: &mut K,
) -> Result<(), Cause>
    requires path { NamesPath query }
    ensures report { OnOk result ((I : Image) → (D.state device.old).content ≡ Some I → TakesReport query I (K.state out.old) (K.state out.new)) }
    ensures told { IfErr result (λ cause. (I : Image) → (D.state device.old).content ≡ Some I → ComesFor query I cause) }
    ensures cut { IfErr result (λ cause. IsDone cause → (I : Image) → (D.state device.old).content ≡ Some I → TakesSomeOfReport query I (K.state out.old) (K.state out.new)) }
    ensures causes { IfErr result IsOfQuery }
    ensures not_fine { IfErr result (λ cause. cause ≢ Cause.Fine) }
    ensures silent { IfErr result (λ cause. IsRefusal cause → out.new ≡ out.old) }
    ensures some { (I : Image) → (D.state device.old).content ≡ Some I → BeginsReport query I (K.state out.old) (K.state out.new) }
    ensures reads { ReadsOnly (D.state device.old) (D.state device.new) }
    ensures not_writable { IsWritable (D.state device.new).attached → ⊥ }
    ensures named { (IsErrOf result Cause.NoMemory → ⊥) → IsAttachedOnce name.now How.ReadOnly (D.state device.old) (D.state device.new) }
    ensures at_most { IsAttachedAtMostOnce name.now How.ReadOnly (D.state device.old) (D.state device.new) }
    ensures fault { IsErrOf result Cause.DeviceFault → Rose (D.state device.old).faults (D.state device.new).faults }
    ensures output { IfErr result (λ cause. IsDone cause → FailsLast (K.state out.old) (K.state out.new)) }
    ensures quiet { IfErr result (λ cause. (IsDone cause → ⊥) → (K.state out.new).faults ≡ (K.state out.old).faults) }
    ensures calm { OnOk result ((K.state out.new).faults ≡ (K.state out.old).faults) }
{
    let geo = open_for_reading(alloc, device, name)?;
    match ask::<D, K, KEPT_BLOCKS>(alloc, device, &geo, &query, out) {
        Ok(()) => Ok(()),
        Err(fault) => Err(cause_for(fault, query)),
    }
}

// The cause of this fault.
fn cause_for(fault: DebugFault, query: Query) -> Cause
    ensures is { result ≡ cause_of_query query fault }
    ensures causes { IsOfQuery result }
    ensures not_fine { result ≢ Cause.Fine }
{
    match fault {
        DebugFault::NoMemory => Cause::NoMemory,
        DebugFault::DeviceFault => Cause::DeviceFault,
        DebugFault::OutputFault => Cause::OutputFault,
        DebugFault::Absent => match query.into_path() {
            Some(path) => Cause::Absent { path },
            None => Cause::NoMemory,
        },
        DebugFault::WrongKind => match query.into_path() {
            Some(path) => Cause::WrongKind { path },
            None => Cause::NoMemory,
        },
        DebugFault::Bad { check, block } => Cause::Bad { check, block },
    }
}
