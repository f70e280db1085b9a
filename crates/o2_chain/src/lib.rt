//! The chains of the allocators: their groups, and the bits of these.
#![tactic(auto)]

mod allocator;
mod allocator_edit;
mod bits;
mod chain_list;
mod chains;
mod clear_bits;
mod edit;
mod fault;
mod free_clusters;
mod gathered;
mod good;
mod group;
mod group_edit;
mod places;
mod shared;
mod walk_law;
mod walked;
mod whole_walk;

pub use allocator::walk;
pub use chain_list::chains_in;
pub use edit::{give, take};
pub use fault::ChainFault;
pub use free_clusters::free_runs;
pub use group::{Group, Groups};
pub use walk_law::walks_are_of_the_volume;
pub use whole_walk::{VolumeWalk, walk_all};

#[cfg(test)]
mod tests;
#[cfg(test)]
mod whole_walk_tests;
