//! The check of a whole volume: what fails, by number and then by block, with the claims and the names that later steps need.
#![tactic(auto)]

mod claims;
mod cluster_owners;
mod fault;
mod findings;
mod found;
mod given;
mod join;
mod lists;
mod oddities;
mod orphans;
mod pairs;
mod report;
mod tables;
mod whole;

pub use cluster_owners::{Owners, owners};
pub use fault::CheckFault;
pub use report::Report;
pub use whole::check;

#[cfg(test)]
mod tests;
