//! What is judged of a directory while its entries are in hand, and what a check keeps of it.
#![tactic(auto)]

mod entry_names;
mod names_again;
mod row;

pub use entry_names::dirent_name;
pub use names_again::dirent_dup;
pub use row::directory_row;

#[cfg(test)]
mod tests;
