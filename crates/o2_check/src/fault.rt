// Why a volume was not checked.
use o2_disk::NoMemory;
use o2_model::Oddity;
use o2_view::ViewFault;
use thiserror::Error;

/// Why a volume was not checked.
#[derive(Clone, Copy, Debug, PartialEq, Eq, Error)]
pub enum CheckFault {
    /// There is no memory for what was asked.
    #[error("NoMemory")]
    NoMemory,
    /// A call of the device failed.
    #[error("DeviceFault")]
    DeviceFault,
    /// The skeleton holds, and this stands on the volume, which is outside the profile; the block is that of the group or inode.
    #[error("Unsupported")]
    Unsupported { what: Oddity, block: u64 },
}

impl From<NoMemory> for CheckFault {
    ghost use Rattle.std.specs.Prelude.{◌≡◌};
    ghost use Rattle.o2_check.specs.declared.fault.CheckFault.TheVariants.{NoMemory};

    ghost from_gives = { λ _ fault. fault ≡ NoMemory };

    fn from(_: NoMemory) -> Self {
        CheckFault::NoMemory
    }
}

impl From<ViewFault> for CheckFault {
    ghost use Rattle.o2_check.specs.Faults.{IsOfView};

    ghost from_gives = { IsOfView };

    fn from(fault: ViewFault) -> Self {
        match fault {
            ViewFault::NoMemory => CheckFault::NoMemory,
            ViewFault::DeviceFault => CheckFault::DeviceFault,
        }
    }
}
