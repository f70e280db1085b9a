//! Judges of the entries of the tree: the dots of its directories, which inodes its names name, and of which kind these are.
#![tactic(auto)]

mod dots;
mod named_inodes;
mod named_types;

pub use dots::dir_dots;
pub use named_inodes::dirent_inode;
pub use named_types::dirent_type;

#[cfg(test)]
mod tests;
