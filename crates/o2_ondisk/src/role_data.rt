// The bytes of a dinode that are read by what the inode is for.
ghost use Rattle.std.specs.Prelude.{◌≡◌, ◌%◌, ◌/◌, ◌^◌};

use crate::JournalFlags;

/// The 8 bytes `id1` of a dinode: a device's number, or an allocator's use, or a journal's state.
#[derive(Clone, Copy, Debug, PartialEq, Eq)]
pub struct RoleData(pub u64);

impl RoleData {
    /// The number of a device of characters or of blocks, `i_rdev`.
    pub fn device(self) -> u64
        ensures { result ≡ self.0 }
    {
        self.0
    }

    /// How many bits of an allocator are set, `i_used`.
    pub fn used(self) -> u32
        ensures { result ≡ self.0 % 2 ^ 32 }
    {
        (self.0 % 0x1_0000_0000) as u32
    }

    /// How many bits an allocator has, `i_total`.
    pub fn total(self) -> u32
        ensures { result ≡ self.0 / 2 ^ 32 }
    {
        (self.0 >> 32) as u32
    }

    /// How a journal was left, `ij_flags`.
    pub fn journal_flags(self) -> JournalFlags
        ensures { result.0 ≡ self.0 % 2 ^ 32 }
    {
        JournalFlags(self.used())
    }

    /// How often a journal was recovered, `ij_recovery_generation`.
    pub fn recovery_generation(self) -> u32
        ensures { result ≡ self.0 / 2 ^ 32 }
    {
        self.total()
    }
}
