// Inodes, with their clusters and extent blocks.
use o2_model::{Items, Origin};
use o2_ondisk::{InodeFlags, Kind};

/// Clusters under a leaf record.
#[derive(Clone, Copy, Debug, PartialEq, Eq)]
pub struct ClusterRun {
    pub start: u32,
    pub clusters: u32,
    /// Whether the record is marked as refcounted.
    pub is_shared: bool,
}

/// An extent block of a list.
#[derive(Clone, Copy, Debug, PartialEq, Eq)]
pub struct ExtentBlockRow {
    pub block: u64,
    pub origin: Origin,
}

/// An inode, and what its dinode and its lists say.
#[derive(Debug, Drop)]
pub struct InodeRow {
    /// The block of its dinode.
    pub block: u64,
    /// None where its mode is none of the seven kinds.
    pub kind: Option<Kind>,
    pub flags: InodeFlags,
    pub links: u32,
    /// `i_clusters`.
    pub clusters: u32,
    pub origin: Origin,
    /// The root of a refcount tree that it names, in range or not.
    pub named_tree: Option<u64>,
    /// The same where it is in range.
    pub tree: Option<u64>,
    pub runs: Items<ClusterRun>,
    pub extent_blocks: Items<ExtentBlockRow>,
}

/// The inodes, rising.
pub type InodeTable = Items<InodeRow>;
