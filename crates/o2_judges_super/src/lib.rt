//! The judge of the superblock's backups: each tells what block 2 tells.
#![tactic(auto)]

mod clusters;
mod compare;
mod judge;

pub use clusters::backup_clusters;
pub use judge::backup_super;

#[cfg(test)]
mod tests;
