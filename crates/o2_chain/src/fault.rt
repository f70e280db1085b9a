// Why a call on chains gave nothing.
use o2_disk::NoMemory;
use o2_model::Check;
use o2_view::{ReadFault, ViewFault};
use std::alloc::AllocError;
use thiserror::Error;

/// Why the chains of an allocator were not read or changed.
#[derive(Clone, Copy, Debug, PartialEq, Eq, Error)]
pub enum ChainFault {
    /// There is no memory for what was asked.
    #[error("NoMemory")]
    NoMemory,
    /// A call of the device failed.
    #[error("DeviceFault")]
    DeviceFault,
    /// The allocator fails this check at this block, the first that it fails.
    #[error("Bad")]
    Bad { check: Check, block: u64 },
    /// A piece of so many clusters finds no place: the longest free run has `longest`, 0 where there is none.
    #[error("NoSpace")]
    NoSpace { needed: u64, longest: u64 },
}

impl From<AllocError> for ChainFault {
    ghost use Rattle.std.specs.Prelude.{◌≡◌};
    ghost use Rattle.o2_chain.specs.declared.fault.ChainFault.TheVariants.{NoMemory};

    ghost from_gives = { λ _ fault. fault ≡ NoMemory };

    fn from(_: AllocError) -> Self {
        ChainFault::NoMemory
    }
}

impl From<NoMemory> for ChainFault {
    ghost use Rattle.std.specs.Prelude.{◌≡◌};
    ghost use Rattle.o2_chain.specs.declared.fault.ChainFault.TheVariants.{NoMemory};

    ghost from_gives = { λ _ fault. fault ≡ NoMemory };

    fn from(_: NoMemory) -> Self {
        ChainFault::NoMemory
    }
}

impl From<ViewFault> for ChainFault {
    ghost use Rattle.o2_chain.specs.Faults.{IsFaultOfView};

    ghost from_gives = { IsFaultOfView };

    fn from(fault: ViewFault) -> Self {
        match fault {
            ViewFault::NoMemory => ChainFault::NoMemory,
            ViewFault::DeviceFault => ChainFault::DeviceFault,
        }
    }
}

impl From<ReadFault> for ChainFault {
    ghost use Rattle.o2_chain.specs.Faults.{IsChainFault};

    ghost from_gives = { IsChainFault };

    fn from(fault: ReadFault) -> Self {
        match fault {
            ReadFault::NoMemory => ChainFault::NoMemory,
            ReadFault::DeviceFault => ChainFault::DeviceFault,
            ReadFault::Bad { check, block } => ChainFault::Bad { check, block },
        }
    }
}
