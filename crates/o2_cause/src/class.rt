// What kind of end a cause is.

/// What kind of end a cause is.
#[derive(Clone, Copy, Debug, PartialEq, Eq)]
pub enum Class {
    /// All was done, maybe but for the output. A check that fails does not change that.
    Done,
    /// The run gave nothing up and met no fault: it was asked what can't be done.
    Refusal,
    /// The device failed, or memory ran out.
    Fault,
}
