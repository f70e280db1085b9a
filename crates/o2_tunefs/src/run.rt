// A run of tunefs.
ghost use Rattle.o2_tunefs.specs.LabelRun.{LabelRun};

use crate::label::set_label;
use o2_cause::{Cause, put_line, put_text};
use o2_disk::{Disk, Sink};
use std::alloc::Global;

/// Gives the volume on the device of that name another label, of at most 64 bytes, and says on `out` that it is done, or why
/// it is not. What it ends by comes from the order of `tunefs`: the device, the volume, then the label's length.
pub fn run_label<D: Disk, K: Sink>(
    alloc: Global,
    device: &mut D,
    name: &str,
    label: &[u8],
    out: &mut K,
) -> Cause
    ensures { LabelRun label.now name.now (D.state device.old) (D.state device.new) (K.state out.old) (K.state out.new) result }
{
    match set_label(alloc, device, name, label) {
        Err(cause) => put_line(alloc, "tunefs", cause, out),
        Ok(()) => match put_text(out, "tunefs: done\n".as_bytes()) {
            Ok(()) => Cause::Fine,
            Err(_) => Cause::OutputFault,
        },
    }
}
