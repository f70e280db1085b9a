//! What `fsck` does: what fails on a volume, told, and nothing written.
#![tactic(auto)]

mod judge;
mod report;
mod run;
#[cfg(test)]
mod tests;

pub use run::run_check;
