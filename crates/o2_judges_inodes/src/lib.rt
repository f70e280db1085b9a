//! Judges of inodes by tables: whether something names each as it is to be, and how many links and clusters it has.
#![tactic(auto)]

mod allocator_totals;
mod clusters;
mod connected;
mod flags;
mod group_clusters;
mod links;
mod named;
mod orphans;

pub use clusters::inode_clusters;
pub use connected::not_connected;
pub use flags::orphan_flag;
pub use links::inode_count;
pub use orphans::orphan_entry;

#[cfg(test)]
mod tests;
