//! Judges of refcount trees by tables: each tells where one check fails. What the inodes refer to is counted once for three of
//! them.
#![tactic(auto)]

mod covers;
mod even;
mod gathering;
mod missing;
mod record_counts;
mod root_covers;
mod root_users;
mod sharing;
mod tree_times;
mod trees;

pub use gathering::references;
pub use record_counts::ref_count;
pub use root_covers::ref_cover;
pub use root_users::ref_users;
pub use sharing::References;
pub use trees::ref_tree;

#[cfg(test)]
mod tests;
