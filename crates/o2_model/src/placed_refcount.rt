// Records of refcount trees.
use crate::Items;
use o2_ondisk::RefcountRec;

/// A record of a refcount tree, and the block that it stands in.
#[derive(Clone, Copy, Debug, PartialEq, Eq)]
pub struct PlacedRefcount {
    /// The refcount block that holds it.
    pub block: u64,
    /// What it says.
    pub fields: RefcountRec,
}

/// Records of a refcount tree in their order.
pub type RefRecords = Items<PlacedRefcount>;
