//! The claims of structures and inodes, in their order, and the judge of clusters that more than one needs.
#![tactic(auto)]

mod duplicates;
mod inodes;
mod once;
mod sharers;
mod structures;
mod uses;

pub use duplicates::dup_clusters;
pub use inodes::add_inode_claims;
pub use once::{claim_once, claim_run, claim_runs, is_free};
pub use structures::structure_claims;

#[cfg(test)]
mod tests;
