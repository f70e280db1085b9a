//! Judges of the extent blocks of a list, while what they say is in hand.
#![tactic(auto)]

mod chained;
mod leaves;

pub use chained::{eb_next, last_leaf};

#[cfg(test)]
mod tests;
