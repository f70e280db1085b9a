// Allocators, and the groups that their chains reach.

/// What the bits of an allocator's groups stand for.
#[derive(Clone, Copy, Debug, PartialEq, Eq)]
pub enum BitUse {
    Clusters,
    Inodes,
    /// Extent blocks, refcount blocks and the blocks of indexes.
    Metadata,
}

/// An allocator: an inode of the system directory with chains of groups.
#[derive(Clone, Copy, Debug, PartialEq, Eq)]
pub struct Allocator {
    pub bit_use: BitUse,
    /// Its slot, 65535 where it is of no slot.
    pub slot: u16,
    /// The block of its dinode.
    pub block: u64,
}

/// A group of an allocator.
#[derive(Clone, Copy, Debug, PartialEq, Eq)]
pub struct Group {
    pub of: Allocator,
    /// The number of the chain that reaches it.
    pub chain: u16,
    /// The block of its descriptor.
    pub block: u64,
    /// How many bits it has.
    pub bits: u16,
}
