// A run of debugfs.
ghost use Rattle.o2_debug.specs.Queries.{NamesPath};
ghost use Rattle.o2_debugfs.specs.QueryRun.{QueryRun};

use crate::tell::tell;
use o2_cause::{Cause, put_line};
use o2_debug::Query;
use o2_disk::{Disk, Sink};
use std::alloc::Global;

/// Puts the answer to a query on `out`, or why there is none. The device of that name is only read. What it ends by comes from
/// the order of `debugfs`: the device, the volume, its skeleton, the path, and the inode at its end.
pub fn run_query<D: Disk, K: Sink>(
    alloc: Global,
    device: &mut D,
    name: &str,
    query: Query,
    out: &mut K,
) -> Cause
    requires { NamesPath query }
    ensures { QueryRun query name.now (D.state device.old) (D.state device.new) (K.state out.old) (K.state out.new) result }
{
    match tell(alloc, device, name, query, out) {
        Ok(()) => Cause::Fine,
        Err(cause) => put_line(alloc, "debugfs", cause, out),
    }
}
