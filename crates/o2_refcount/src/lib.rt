//! Refcount trees: how often the clusters that files share are referred to, and what the blocks of each tree say.
#![tactic(auto)]

mod block_edit;
mod block_records;
mod block_row;
mod edit;
mod list_rows;
mod reading;
mod roots;
mod tree;
mod tree_records;
mod tree_row;
mod trees;

pub use edit::set_counts;
pub use o2_model::{PlacedRefcount, RefRecords};
pub use roots::roots_named;
pub use tree_records::counts;
pub use tree_row::{TreeReading, read_tree_row};
pub use trees::{TreeSurvey, refcount_trees};

#[cfg(test)]
mod survey_tests;
#[cfg(test)]
mod testing;
#[cfg(test)]
mod tests;
