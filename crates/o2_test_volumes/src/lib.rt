//! Volumes for the tests of other crates: a small one with one file, on which few checks hold, and a whole one, on which every check
//! holds.
#![tactic(auto)]

mod dinodes;
mod entries;
mod groups;
mod own_files;
mod small;
mod user_files;
mod whole;

pub use small::put_small_volume;
pub use whole::put_whole_volume;
