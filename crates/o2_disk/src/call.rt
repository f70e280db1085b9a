// What a disk in memory records of a call.

/// A call, and what it wrote.
#[derive(Debug, Drop)]
pub enum Call {
    /// A read, whether it failed or not.
    Read,
    /// A write, whether it failed or not.
    Write { at: u64, bytes: Vec<u8> },
    /// A write of nothing but zeros, into as many sectors.
    Zeros { at: u64, sectors: u64 },
    /// A sync that did not fail.
    Sync,
    FailedSync,
}
