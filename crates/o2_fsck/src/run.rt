// A run of fsck.
ghost use Rattle.std.specs.Prelude.{◌≡◌};
ghost use Rattle.o2_fsck.specs.CheckRun.{CheckRun};
ghost use Rattle.o2_fsck.specs.Ends.{verdict_of, unheard_verdict_of, EndsReport};

use crate::judge::judge_volume;
use crate::report::{ReportFault, put_report};
use o2_cause::{Cause, put_line};
use o2_disk::{Disk, Sink};
use o2_model::Check;
use std::alloc::Global;

/// Checks the volume on the device of that name as it stands, and puts what fails on `out`, or why it was not checked. The device is
/// only read. What it ends by comes from the order of `fsck -n`: the device, the volume, its skeleton, what is outside the profile,
/// and the checks.
pub fn run_check<D: Disk, K: Sink>(alloc: Global, device: &mut D, name: &str, out: &mut K) -> Cause
    ensures { CheckRun name.now (D.state device.old) (D.state device.new) (K.state out.old) (K.state out.new) result }
{
    match judge_volume(alloc, device, name) {
        Ok(pairs) => tell(alloc, pairs.as_slice(), out),
        Err(cause) => put_line(alloc, "fsck", cause, out),
    }
}

// Puts the report of these pairs.
fn tell<K: Sink>(alloc: Global, pairs: &[(Check, u64)], out: &mut K) -> Cause
    ensures { EndsReport pairs.now (K.state out.old) (K.state out.new) result }
{
    match put_report(alloc, pairs, out) {
        Ok(()) => verdict(pairs),
        Err(ReportFault::NoMemory) => Cause::NoMemory,
        Err(ReportFault::OutputFault) => unheard_verdict(pairs),
    }
}

// What the volume is, by what fails on it.
fn verdict(pairs: &[(Check, u64)]) -> Cause
    ensures { result ≡ verdict_of pairs.now }
{
    match pairs {
        [] => Cause::Fine,
        [(check, block), ..] => Cause::Uncorrected {
            check: *check,
            block: *block,
        },
    }
}

// The same, where the output failed.
fn unheard_verdict(pairs: &[(Check, u64)]) -> Cause
    ensures { result ≡ unheard_verdict_of pairs.now }
{
    if pairs.is_empty() {
        return Cause::OutputFault;
    }
    verdict(pairs)
}
