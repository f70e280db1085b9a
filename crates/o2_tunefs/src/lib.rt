//! What `tunefs` does: another label for a volume.
#![tactic(auto)]

mod label;
mod run;
mod served;
#[cfg(test)]
mod tests;

pub use run::run_label;
