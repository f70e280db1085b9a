// Live entries of a directory.
use crate::{Bytes, Items};

/// A live entry of a directory, and where it stands.
#[derive(Debug, Drop)]
pub struct Entry {
    /// The block of the dinode that it names.
    pub inode: u64,
    /// The number of the kind of what it names.
    pub file_type: u8,
    pub name: Bytes,
    /// Its block, or the directory's dinode.
    pub block: u64,
    /// Its byte in the block or among the inline bytes.
    pub at: u32,
}

/// Live entries in their order.
pub type Entries = Items<Entry>;
