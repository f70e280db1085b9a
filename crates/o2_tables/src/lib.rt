//! What a check of a volume reads once and keeps: allocators, groups with their bits, inodes with their clusters, refcount trees
//! with their records, and what the walk of the tree met. What each row means stands in `specs/Rows`.
#![tactic(auto)]

mod allocators;
mod bits;
mod groups;
mod inodes;
mod refcounts;
mod tree;

pub use allocators::{AllocatorRow, AllocatorTable};
pub use bits::has_bit;
pub use groups::{GroupRow, GroupTable};
pub use inodes::{ClusterRun, ExtentBlockRow, InodeRow, InodeTable};
pub use refcounts::{RefcountBlockRow, RefcountTreeRow, RefcountTreeTable};
pub use tree::TreeTable;

#[cfg(test)]
mod tests;
