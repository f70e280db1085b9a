// Refcount trees, with their blocks and records.
use crate::ExtentBlockRow;
use o2_model::{Items, Origin, RefRecords};

/// A root or a leaf of a refcount tree.
#[derive(Clone, Copy, Debug, PartialEq, Eq)]
pub struct RefcountBlockRow {
    pub block: u64,
    /// Whether it is a refcount block of this volume and of its own number. Where not, its origin says nothing.
    pub is_refcount_block: bool,
    pub origin: Origin,
}

/// A refcount tree that inodes name.
#[derive(Debug, Drop)]
pub struct RefcountTreeRow {
    pub root: RefcountBlockRow,
    /// `rf_count`: how many inodes it says that it has, where its root is a refcount block.
    pub users: u32,
    /// The extent blocks of the list in the root.
    pub extent_blocks: Items<ExtentBlockRow>,
    /// The blocks that this list names, once for each record.
    pub leaves: Items<RefcountBlockRow>,
    pub records: RefRecords,
}

/// The trees, their roots rising.
pub type RefcountTreeTable = Items<RefcountTreeRow>;
