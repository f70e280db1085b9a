//! Judges of where blocks are from: an inode's or a metadata block's slot, bit and group are those of the group that it stands in.
#![tactic(auto)]

mod extent_blocks;
mod inodes;
mod metadata;
mod origins;
mod placed;
mod refcount_blocks;

pub use inodes::inode_suballoc;
pub use metadata::meta_suballoc;
pub use origins::is_right;
pub use placed::{GroupPlace, PlacedGroups, placed_groups};

#[cfg(test)]
mod tests;
