// Why the program ends before a tool begins.
ghost use Rattle.std.specs.Prelude.{◌≡◌};
ghost use Rattle.o2tools.specs.Ending.{status_before};

use std::io;

/// Why the program ends before a tool begins.
#[derive(Clone, Copy, Debug, PartialEq, Eq)]
pub enum Ending {
    /// A word of the command line is not UTF-8.
    NotText,
    /// There is no memory for the words.
    NoMemory,
    /// The system gives no random bytes.
    NoRandom,
    /// A standard descriptor is closed, and the null device can't be opened in its place.
    NoNull,
}

impl Ending {
    /// The status that the program ends with.
    pub fn status(self) -> u8
        ensures { result ≡ status_before self }
    {
        match self {
            Ending::NoNull => 8,
            Ending::NotText => 16,
            Ending::NoMemory => 64,
            Ending::NoRandom => 66,
        }
    }
}

impl From<io::Error> for Ending {
    fn from(error: io::Error) -> Ending {
        match error.kind() {
            io::ErrorKind::InvalidData => Ending::NotText,
            _ => Ending::NoMemory,
        }
    }
}
