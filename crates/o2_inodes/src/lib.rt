//! The inodes of a volume, each read once: what a check keeps of them, and what it judges on the way.
#![tactic(auto)]

mod add;
mod directories;
mod indexes;
mod inode_read;
mod judged;
mod row;
mod survey;

pub use survey::{InodeSurvey, inodes};

#[cfg(test)]
mod testing;
#[cfg(test)]
mod tests;
