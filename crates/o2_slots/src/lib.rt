//! The parts of a volume that a slot has: its entry in the slot map, its window of clusters, and its truncate log.
#![tactic(auto)]

mod empty_bytes;
mod emptying;
mod entries;
mod gapless;
mod map_records;
mod nodes;
mod truncation;
mod window;

pub use emptying::empty_map;
pub use gapless::{clusters_without_gap, have_no_flags};
pub use map_records::map_records_in;
pub use nodes::{SlotMap, occupied, slot_map};
pub use truncation::{TruncateRecords, truncate_log};
pub use window::{Window, local_alloc};

#[cfg(test)]
mod tests;
