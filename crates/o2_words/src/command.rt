// A command line, read.
use o2_debug::Query;
use o2_view::Bytes;
use std::alloc::AllocError;

/// What a command line asks for. `device` is the place of the word that names the device, counted from 0.
#[derive(Drop)]
pub enum Command {
    /// Another label for a volume.
    Label { label: Bytes, device: u32 },
    /// Something of a volume, told.
    Debug { query: Query, device: u32 },
    /// The checks of a volume told, and nothing written.
    Check { device: u32 },
}

/// Why words are not served.
#[derive(Clone, Copy, Debug, PartialEq, Eq)]
pub enum WordFault {
    /// There is no memory for what they say.
    NoMemory,
    /// The words are no command line. They are in order up to the word of this place, counted from 0.
    Usage { place: u32 },
    /// A later version serves them.
    Later,
}

impl From<AllocError> for WordFault {
    ghost use Rattle.std.specs.Prelude.{◌≡◌};
    ghost use Rattle.o2_words.specs.declared.command.WordFault.TheVariants.{NoMemory};

    ghost from_gives = { λ _ fault. fault ≡ NoMemory };

    fn from(_: AllocError) -> Self {
        WordFault::NoMemory
    }
}
