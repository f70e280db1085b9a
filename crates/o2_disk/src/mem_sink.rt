// A sink in memory.
ghost use Rattle.std.specs.Prelude.{◌≡◌};

use crate::failing::FailingCalls;
use crate::kept::raise;
use crate::{Failed, Sink};
use std::alloc::Global;

/// A sink that keeps what it is given, and can let any put fail.
#[derive(Drop)]
pub struct MemSink {
    output: Vec<u8>,
    puts: u64,
    failing: FailingCalls,
    faults: u64,
    failed_last: bool,
    starved: u64,
}

impl MemSink {
    ghost use Rattle.std.specs.Prelude.{◌≡◌, ◌+◌, ◌<◌, ◌≤◌, [], ◌∷◌, ◌++◌, length};
    ghost use Rattle.std.specs.List.{Contains};
    ghost use Rattle.o2_disk.specs.MemoryOutput.{output, failing_puts, starved_puts, IsFreshSink, SameSink};

    /// An empty sink. It takes no memory.
    pub fn new(alloc: Global) -> MemSink
        ensures { IsFreshSink result }
    {
        MemSink {
            output: Vec::new(alloc),
            puts: 0,
            failing: FailingCalls::new(),
            faults: 0,
            failed_last: false,
            starved: 0,
        }
    }

    /// Lets the put of that number fail, counted from 0.
    pub fn fail_at(&mut self, put: u64)
        requires { length (failing_puts self.old) < 64 }
        ensures there { Contains (failing_puts self.old) put → failing_puts self.new ≡ failing_puts self.old }
        ensures added { (Contains (failing_puts self.old) put → ⊥) → failing_puts self.new ≡ failing_puts self.old ++ put ∷ [] }
        ensures count { length (failing_puts self.new) ≤ length (failing_puts self.old) + 1 }
        ensures sink { SameSink self.old self.new }
    {
        self.failing.add(put);
    }

    /// How many puts found no memory.
    pub fn starved(&self) -> u64
        ensures { result ≡ starved_puts self.now }
    {
        self.starved
    }

    /// What it took.
    pub fn bytes(&self) -> &[u8]
        ensures { result.now ≡ output self.now }
    {
        self.output.as_slice()
    }
}

impl Sink for MemSink {
    ghost use Rattle.std.specs.Prelude.{◌≡◌, ◌≢◌, ◌≤◌, ◌<◌, ◌++◌, [], List, ℕ, length, take, false, IfOk, OnOk, OnErr, Some};
    ghost use Rattle.o2_disk.specs.Device.{HasCause};
    ghost use Rattle.o2_disk.specs.Output.{FailsLast};
    ghost use Rattle.o2_disk.specs.MemoryOutput.{sink_state, PutNumbered};

    ghost state = { λ m. record { taken = Some m.output.items; faults = m.faults; failed_last = m.failed_last } };

    /// Takes all bytes, or none.
    fn put(&mut self, bytes: &[u8]) -> Result<usize, Failed>
        ensures most { IfOk result (λ n. n ≤ length bytes.now) }
        ensures some { bytes.now ≢ [] → IfOk result (λ n. 0 < n) }
        ensures taken { IfOk result (λ n. (T : List ℕ) → (sink_state self.old).taken ≡ Some T → (sink_state self.new).taken ≡ Some (T ++ take n bytes.now)) }
        ensures same { OnErr result ((sink_state self.new).taken ≡ (sink_state self.old).taken) }
        ensures cause { HasCause (sink_state self.old).faults (sink_state self.new).faults result }
        ensures went { OnOk result ((sink_state self.new).failed_last ≡ false) }
        ensures failed { OnErr result (FailsLast (sink_state self.old) (sink_state self.new)) }
        ensures all { IfOk result (λ n. n ≡ length bytes.now) }
        ensures numbered { PutNumbered self.old self.new result }
    {
        if self.failing.has(self.puts) {
            raise(&mut self.puts);
            raise(&mut self.faults);
            self.failed_last = true;
            return Err(Failed);
        }
        let Ok(()) = self.output.extend_from_slice(bytes) else {
            raise(&mut self.faults);
            raise(&mut self.starved);
            self.failed_last = true;
            return Err(Failed);
        };
        raise(&mut self.puts);
        self.failed_last = false;
        Ok(bytes.len())
    }
}

#[cfg(test)]
mod tests {
    use super::*;
    use std::test::Fail;

    #[test]
    fn takes_and_fails(rt: HostRuntime) -> Result<(), Fail> {
        let mut sink = MemSink::new(rt.alloc());
        sink.fail_at(1);
        assert_eq!(rt; sink.put(b"ab")?, 2);
        assert_eq!(rt; sink.put(b"cd"), Err(Failed));
        assert_eq!(rt; sink.put(b"e")?, 1);
        assert_eq!(rt; sink.bytes(), b"abe".as_slice());
        assert_eq!(rt; sink.starved(), 0);
        Ok(())
    }
}
