// What the definitions accept and what they refuse, each case the contract of a function that does nothing.
pub mod allocator_checks;
pub mod extent_trees;
pub mod inode_checks;
pub mod skeleton_checks;
