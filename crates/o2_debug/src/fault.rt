// Why a query was not answered.
use o2_dir::{DirFault, PathFault};
use o2_disk::Failed;
use o2_model::Check;
use o2_view::{ReadFault, ViewFault};
use std::alloc::AllocError;
use thiserror::Error;

/// Why a query was not answered, or not to its end.
#[derive(Clone, Copy, Debug, PartialEq, Eq, Error)]
pub enum DebugFault {
    /// There is no memory for what was asked.
    #[error("NoMemory")]
    NoMemory,
    /// A call of the device failed.
    #[error("DeviceFault")]
    DeviceFault,
    /// A call of the sink failed.
    #[error("OutputFault")]
    OutputFault,
    /// A name of the path has no live entry.
    #[error("Absent")]
    Absent,
    /// A name in the middle of the path is no directory, or what stands at its end is of another kind than is asked for.
    #[error("WrongKind")]
    WrongKind,
    /// What the path leads through, or what stands at its end, fails this check at this block, the first that it fails.
    #[error("Bad")]
    Bad { check: Check, block: u64 },
}

impl From<AllocError> for DebugFault {
    ghost use Rattle.std.specs.Prelude.{◌≡◌};
    ghost use Rattle.o2_debug.specs.declared.fault.DebugFault.TheVariants.{NoMemory};

    ghost from_gives = { λ _ fault. fault ≡ NoMemory };

    fn from(_: AllocError) -> Self {
        DebugFault::NoMemory
    }
}

/// A sink's call that failed.
impl From<Failed> for DebugFault {
    ghost use Rattle.std.specs.Prelude.{◌≡◌};
    ghost use Rattle.o2_debug.specs.declared.fault.DebugFault.TheVariants.{OutputFault};

    ghost from_gives = { λ _ fault. fault ≡ OutputFault };

    fn from(_: Failed) -> Self {
        DebugFault::OutputFault
    }
}

impl From<ViewFault> for DebugFault {
    ghost use Rattle.o2_debug.specs.Faults.{IsOfView};

    ghost from_gives = { IsOfView };

    fn from(fault: ViewFault) -> Self {
        match fault {
            ViewFault::NoMemory => DebugFault::NoMemory,
            ViewFault::DeviceFault => DebugFault::DeviceFault,
        }
    }
}

impl From<ReadFault> for DebugFault {
    ghost use Rattle.o2_debug.specs.Faults.{IsOfRead};

    ghost from_gives = { IsOfRead };

    fn from(fault: ReadFault) -> Self {
        match fault {
            ReadFault::NoMemory => DebugFault::NoMemory,
            ReadFault::DeviceFault => DebugFault::DeviceFault,
            ReadFault::Bad { check, block } => DebugFault::Bad { check, block },
        }
    }
}

impl From<DirFault> for DebugFault {
    ghost use Rattle.o2_debug.specs.Faults.{IsOfDir};

    ghost from_gives = { IsOfDir };

    fn from(fault: DirFault) -> Self {
        match fault {
            DirFault::NoMemory => DebugFault::NoMemory,
            DirFault::DeviceFault => DebugFault::DeviceFault,
            DirFault::Bad { check, block } => DebugFault::Bad { check, block },
            DirFault::Absent => DebugFault::Absent,
        }
    }
}

impl From<PathFault> for DebugFault {
    ghost use Rattle.o2_debug.specs.Faults.{IsOfPath};

    ghost from_gives = { IsOfPath };

    fn from(fault: PathFault) -> Self {
        match fault {
            PathFault::NoMemory => DebugFault::NoMemory,
            PathFault::DeviceFault => DebugFault::DeviceFault,
            PathFault::Bad { check, block } => DebugFault::Bad { check, block },
            PathFault::Absent => DebugFault::Absent,
            PathFault::WrongKind => DebugFault::WrongKind,
        }
    }
}
