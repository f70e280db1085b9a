//! The walk of the tree over rows that are kept: which directories it enters and from where, which inodes it meets, and how many
//! entries name each. What its answer tells stands in `specs/TreeWalked`.
#![tactic(auto)]

mod blocks;
mod dots;
mod levels;
mod links;
mod progress;
mod users;
mod walk;

pub use dots::is_dot;
pub use users::names_user;
pub use walk::{Walk, walk_tree};

#[cfg(test)]
mod tests;
