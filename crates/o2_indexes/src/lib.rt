//! The indexes of directories, each block read once: what a check keeps of an index, and whether it is sound by itself.
#![tactic(auto)]

mod block_counts;
mod directory;
mod entries;
mod found;
mod places;
mod read;
mod rows;

pub use directory::IndexedDirectory;
pub use read::read_index;
pub use rows::{origin_rows, runs_of};

#[cfg(test)]
mod testing;
#[cfg(test)]
mod tests;
