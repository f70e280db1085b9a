//! Who owns each cluster of a volume: the first that claims it.
#![tactic(auto)]

mod claims;
mod fault;

pub use claims::Claims;
pub use fault::ClaimFault;

#[cfg(test)]
mod tests;
