// Who needs which cluster.

/// What claims a cluster, in the order in which claims count.
#[derive(Clone, Copy, Debug, PartialEq, Eq)]
pub enum Owner {
    /// What stands up to the first group descriptor of the global bitmap.
    Super,
    /// A further group descriptor of the global bitmap.
    GlobalGroup,
    /// A backup of the superblock.
    Backup,
    /// A group of the allocator whose dinode has this block.
    Suballocator(u64),
    /// The inode whose dinode has this block.
    Inode(u64),
    /// The index of the directory whose dinode has this block.
    Index(u64),
    /// The window of this slot's local alloc.
    LocalAlloc(u16),
    /// A record of this slot's truncate log.
    TruncateLog(u16),
}

/// One cluster with one that claims it.
#[derive(Clone, Copy, Debug, PartialEq, Eq)]
pub struct Claim {
    pub owner: Owner,
    pub cluster: u64,
}
