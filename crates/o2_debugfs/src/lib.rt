//! What `debugfs` does: the answer to a query, and nothing written.
#![tactic(auto)]

mod run;
mod tell;
#[cfg(test)]
mod tests;

pub use run::run_query;
