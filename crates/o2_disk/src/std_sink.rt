// The trusted edge of output: the standard output, whose bytes no contract tells.
ghost use Rattle.std.specs.Prelude.{◌≡◌, ◌≢◌, ◌≤◌, ◌<◌, [], length, None, IfOk};

use crate::{Failed, Sink};
use std::io::{ErrorKind, Print};
use std::time::Duration;
use std::{io, thread};

// How many milliseconds it waits before it tries a full pipe again.
const PAUSE: u64 = 5;

/// The standard output.
///
/// A piece goes straight to the system, in one write: nothing is kept back that the end of the program could lose. A
/// write that a signal interrupts before it took a byte is made again, and so is one for which the reader of a pipe that
/// does not block has left no room, a moment later. Each other error is a fault.
#[derive(Drop)]
pub struct StdSink {
    rt: HostRuntime,
    faults: u64,
    failed_last: bool,
}

// Writes some of the bytes, at least one where there is one.
fn write_some(rt: HostRuntime, bytes: &[u8]) -> Result<usize, Failed>
    ensures most { IfOk result (λ n. n ≤ length bytes.now) }
    ensures some { bytes.now ≢ [] → IfOk result (λ n. 0 < n) }
{
    for _ in 0..u64::MAX {
        match rt.write_some(bytes) {
            Ok(taken) if taken > 0 || bytes.is_empty() => return Ok(taken),
            Ok(_) => return Err(Failed),
            Err(error) => pause_after(rt, &error)?,
        }
    }
    Err(Failed)
}

// Waits where the write is worth another try.
fn pause_after(rt: HostRuntime, error: &io::Error) -> Result<(), Failed> {
    match error.kind() {
        ErrorKind::Interrupted => Ok(()),
        ErrorKind::WouldBlock => {
            thread::sleep(&rt, Duration::from_millis(PAUSE));
            Ok(())
        }
        _ => Err(Failed),
    }
}

impl StdSink {
    ghost use Rattle.o2_disk.specs.StdSinkState.{std_sink_state};

    /// Writes nothing.
    pub fn new(rt: HostRuntime) -> StdSink
        ensures not_told { (std_sink_state result).taken ≡ None }
        ensures no_faults { (std_sink_state result).faults ≡ 0 }
    {
        StdSink {
            rt,
            faults: 0,
            failed_last: false,
        }
    }
}

impl Sink for StdSink {
    ghost use Rattle.o2_disk.specs.StdSinkState.{std_sink_state};

    ghost state = { std_sink_state };

    fn put(&mut self, bytes: &[u8]) -> Result<usize, Failed> {
        let answer = write_some(self.rt, bytes);
        self.failed_last = answer.is_err();
        if answer.is_err() {
            self.faults = self.faults.saturating_add(1);
        }
        answer
    }
}

#[cfg(test)]
mod tests {
    use super::*;

    #[test]
    fn puts_text(rt: HostRuntime) {
        let mut sink = StdSink::new(rt);
        assert_eq!(rt; sink.put(b"some text\n"), Ok(10));
        assert_eq!(rt; sink.put(b""), Ok(0));
        assert_eq!(rt; sink.faults, 0);
    }
}
