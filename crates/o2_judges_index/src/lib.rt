//! The judge of indexes by their table: whether each has its blocks and clusters for itself, and the claims of those that hold.
#![tactic(auto)]

mod block_uses;
mod judge;
mod own_blocks;
mod own_clusters;

pub use judge::{IndexJudgement, dx};

#[cfg(test)]
mod tests;
