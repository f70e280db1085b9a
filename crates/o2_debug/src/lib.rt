//! What `debugfs` prints of a volume.
#![tactic(auto)]

mod at_path;
mod cat;
mod commands;
mod fault;
mod last_object;
mod lines;
mod object;
mod own_files;
mod put;
mod query;
#[cfg(test)]
mod tests;
mod text;
mod trees;
mod volume;
mod volume_lines;
mod whole_device;

pub use commands::command;
pub use fault::DebugFault;
pub use query::{PathQuery, Query};
pub use whole_device::ask;
