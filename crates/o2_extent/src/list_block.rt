// Extent blocks of a list.
use o2_ondisk::ExtentBlock;

/// An extent block that a list names, and what it says.
#[derive(Clone, Copy, Debug, PartialEq, Eq)]
pub struct ListBlock {
    pub block: u64,
    pub fields: ExtentBlock,
    /// The depth of its list, 0 where it is a leaf.
    pub depth: u16,
}
