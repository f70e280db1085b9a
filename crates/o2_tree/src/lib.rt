//! Directories, their entries and their indexes, as a check keeps them, and a search among rows. What each row means stands in
//! `specs/TreeRows`.
#![tactic(auto)]

mod directories;
mod entered;
mod indexes;
mod search;

pub use directories::{DirectoryRow, DirectoryTable, EntryName, EntryRow, entry_row};
pub use entered::EnteredRow;
pub use indexes::{IndexRow, IndexTable};
pub use search::{find_directory, find_inode};

#[cfg(test)]
mod tests;
