//! Judges of the windows and of the truncate logs of all slots, each behind the claims before it. What holds claims its clusters.
#![tactic(auto)]

mod claiming;
mod local_allocs;
mod truncations;

pub use local_allocs::local_alloc;
pub use truncations::truncate_log;

#[cfg(test)]
mod tests;
