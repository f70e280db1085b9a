// The files of the system directory.

/// What a file of a slot is for.
#[derive(Clone, Copy, Debug, PartialEq, Eq)]
pub enum SlotFile {
    /// Names inodes that are to be deleted.
    OrphanDir,
    /// Gives out blocks for extent blocks and other metadata.
    ExtentAlloc,
    /// Gives out blocks for inodes.
    InodeAlloc,
    /// The log of the node that has the slot.
    Journal,
    /// A window of clusters that the slot gives out by itself.
    LocalAlloc,
    /// Clusters that are to be freed.
    TruncateLog,
}

/// A file of the system directory that has a name of its own.
#[derive(Clone, Copy, Debug, PartialEq, Eq)]
pub enum SystemFile {
    BadBlocks,
    /// Gives out blocks for the inodes of the volume itself.
    GlobalInodeAlloc,
    /// Which node has which slot.
    SlotMap,
    Heartbeat,
    /// Gives out clusters.
    GlobalBitmap,
    /// A file of the slot of this number.
    OfSlot(SlotFile, u16),
}
