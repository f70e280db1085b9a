// The line of a cause, put at the end of a run.
ghost use Rattle.std.specs.Prelude.{◌≡◌, []};
ghost use Rattle.o2_disk.specs.Device.{Rose};
ghost use Rattle.o2_disk.specs.Output.{StopsAtFault};
ghost use Rattle.o2_cause.specs.Causes.{cause_line, IsDone, EndsBy};
ghost use Rattle.o2_cause.specs.Taken.{Takes, TakesSome};

use crate::output::put_text;
use crate::{Cause, Class};
use o2_disk::Sink;
use std::alloc::Global;

/// Ends a run by this cause, and puts its line where the first word is this tool, or some of it where the sink fails, which
/// changes no cause. NoMemory, with nothing put, where there is no memory for the line.
pub fn put_line<K: Sink>(alloc: Global, tool: &str, cause: Cause, out: &mut K) -> Cause
    ensures ends { EndsBy cause result }
    ensures still { IsDone cause → out.new ≡ out.old }
    ensures silent { cause_line tool.now result ≡ [] → out.new ≡ out.old }
    ensures all { (Rose (K.state out.old).faults (K.state out.new).faults → ⊥) → Takes (K.state out.old) (K.state out.new) (cause_line tool.now result) }
    ensures some { TakesSome (K.state out.old) (K.state out.new) (cause_line tool.now result) }
    ensures stops { StopsAtFault (K.state out.old) (K.state out.new) }
{
    if cause.class() == Class::Done {
        return cause;
    }
    let Ok(line) = cause.line(alloc, tool) else {
        return Cause::NoMemory;
    };
    if !line.as_bytes().is_empty() {
        put_or_fail(out, line.as_bytes());
    }
    cause
}

// Puts a text, or some of it where the sink fails.
fn put_or_fail<K: Sink>(out: &mut K, text: &[u8])
    ensures all { (Rose (K.state out.old).faults (K.state out.new).faults → ⊥) → Takes (K.state out.old) (K.state out.new) text.now }
    ensures some { TakesSome (K.state out.old) (K.state out.new) text.now }
    ensures stops { StopsAtFault (K.state out.old) (K.state out.new) }
{
    match put_text(out, text) {
        Ok(()) => (),
        Err(_) => (),
    }
}
