//! A device, opened: its volume found and judged by its superblock, and a view of all its blocks.
#![tactic(auto)]

mod open;
#[cfg(test)]
mod tests;
mod whole;

pub use open::open_for_reading;
pub use whole::whole_view;
