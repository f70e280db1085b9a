// Which calls are to fail.
ghost use Rattle.std.specs.Prelude.{◌≡◌, ◌+◌, ◌<◌, ◌≤◌, ◌↔◌, [], ◌∷◌, ◌++◌, length, IsTrue};
ghost use Rattle.std.specs.List.{Contains};

use arrayvec::ArrayVec;

/// Up to 64 numbers of calls.
#[derive(Drop)]
pub struct FailingCalls {
    numbers: ArrayVec<u64, 64>,
}

impl FailingCalls {
    pub fn new() -> FailingCalls
        ensures { result.numbers.items ≡ [] }
    {
        FailingCalls {
            numbers: ArrayVec::new(),
        }
    }

    pub fn has(&self, call: u64) -> bool
        ensures { IsTrue result ↔ Contains self.now.numbers.items call }
    {
        self.numbers.as_slice().contains(&call)
    }

    /// Adds a call, unless it is there already.
    pub fn add(&mut self, call: u64)
        requires { length self.old.numbers.items < 64 }
        ensures there { Contains self.old.numbers.items call → self.new.numbers.items ≡ self.old.numbers.items }
        ensures added { (Contains self.old.numbers.items call → ⊥) → self.new.numbers.items ≡ self.old.numbers.items ++ call ∷ [] }
        ensures count { length self.new.numbers.items ≤ length self.old.numbers.items + 1 }
    {
        if !self.has(call) {
            self.numbers.push(call);
        }
    }
}
