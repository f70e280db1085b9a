//! Why a run ends, with which status, and what it prints; and the text that all tools put in one way.
#![tactic(auto)]

mod cause;
mod class;
mod device;
mod line;
mod output;
#[cfg(test)]
mod tests;

pub use cause::Cause;
pub use class::Class;
pub use device::attach;
pub use line::put_line;
pub use output::{put_lines, put_text};
