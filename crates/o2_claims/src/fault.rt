// Why a claim was not taken.
use o2_model::Owner;
use thiserror::Error;

/// Why a cluster did not get the owner that asked for it.
#[derive(Clone, Copy, Debug, PartialEq, Eq, Error)]
pub enum ClaimFault {
    /// There is no memory for what was asked.
    #[error("NoMemory")]
    NoMemory,
    /// The cluster has an owner, `first`, and `second` asked for it too.
    #[error("Twice")]
    Twice {
        cluster: u32,
        first: Owner,
        second: Owner,
    },
}
