// A sink: where a program's output goes.
ghost use Rattle.std.specs.Prelude.{◌≡◌, ◌≢◌, ◌≤◌, ◌<◌, ◌++◌, [], ℕ, List, length, take, false, IfOk, OnOk, OnErr, Some};
ghost use Rattle.o2_disk.specs.Device.{HasCause};

use crate::Failed;

/// Takes bytes in order.
pub trait Sink {
    ghost use Rattle.o2_disk.specs.Output.{SinkState, FailsLast};

    /// What a contract knows of the sink.
    ghost state: { Self → SinkState };

    /// Takes some of the first bytes, at least one where there is one, and answers how many.
    fn put(&mut self, bytes: &[u8]) -> Result<usize, Failed>
        ensures most { IfOk result (λ n. n ≤ length bytes.now) }
        ensures some { bytes.now ≢ [] → IfOk result (λ n. 0 < n) }
        ensures taken { IfOk result (λ n. (T : List ℕ) → (state self.old).taken ≡ Some T → (state self.new).taken ≡ Some (T ++ take n bytes.now)) }
        ensures same { OnErr result ((state self.new).taken ≡ (state self.old).taken) }
        ensures cause { HasCause (state self.old).faults (state self.new).faults result }
        ensures went { OnOk result ((state self.new).failed_last ≡ false) }
        ensures failed { OnErr result (FailsLast (state self.old) (state self.new)) };
}
