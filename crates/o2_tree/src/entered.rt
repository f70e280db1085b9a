// Directories that the walk of the tree enters.

/// A directory that the walk of the tree enters.
#[derive(Clone, Copy, Debug, PartialEq, Eq)]
pub struct EnteredRow {
    /// The block of its dinode.
    pub inode: u64,
    /// The directory whose entry it was entered by, the root itself for the root.
    pub parent: u64,
}
