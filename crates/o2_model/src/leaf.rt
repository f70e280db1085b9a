// Leaf records of an extent list, their fields apart.
use crate::Items;

/// Clusters of an inode that follow one another on the device.
#[derive(Clone, Copy, Debug, Default, PartialEq, Eq)]
pub struct Leaf {
    /// The first of these clusters of the inode.
    pub cpos: u32,
    /// How many clusters there are.
    pub clusters: u32,
    /// The first block of the first cluster.
    pub block: u64,
    /// How they are kept, as `e_flags`.
    pub flags: u8,
}

/// The leaf records of a tree.
pub type Leaves = Items<Leaf>;
