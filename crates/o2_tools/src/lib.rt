//! The program: from the words of a command line to the tool that they ask for.
#![tactic(auto)]

#[cfg(test)]
mod check_tests;
mod done;
#[cfg(test)]
mod foreign_tests;
mod program;
#[cfg(test)]
mod tests;
#[cfg(test)]
mod tree_tests;

pub use done::Done;
pub use o2_cause::Cause;
pub use o2_view::Which;
pub use o2_words::{Command, WordFault, read_words};
pub use program::run;
