//! What a check of a volume reads once, as tables: the inodes of the volume's own files, its allocators and its journals.
#![tactic(auto)]

mod allocator_rows;
mod allocator_table;
mod dirty;
mod discontiguous;
mod file_names;
mod group_rows;
mod group_table;
mod inode_list;
mod named_inodes;
mod own_inode_list;
mod roles;
mod slot_files;
mod system_inode;
mod system_names;

pub use allocator_table::allocators;
pub use dirty::dirty_journals;
pub use file_names::{FileName, name_of};
pub use group_table::{GroupSurvey, groups};
pub use inode_list::inode_blocks;
pub use named_inodes::{SystemInodes, block_of, system_inodes};
pub use own_inode_list::own_inodes;
pub use slot_files::{journals, orphan_directories};
pub use system_inode::SystemInode;
pub use system_names::SystemNames;

#[cfg(test)]
mod group_tests;
#[cfg(test)]
mod testing;
#[cfg(test)]
mod tests;
