//! The windows and the truncate logs of all slots, read once as tables. What each row means stands in `specs/SlotRows`.
#![tactic(auto)]

mod log_rows;
mod window_clusters;
mod window_reading;
mod window_rows;

pub use log_rows::{TruncateLogRow, truncate_logs};
pub use window_rows::{WindowRow, windows};

#[cfg(test)]
mod tests;
