//! The checks of a volume. So far those of its skeleton, which each tool needs before it follows a path: the first seven.
#![tactic(auto)]

mod directories;
mod entry_names;
mod files;
mod journals;
mod skeleton;
mod slot_map;
mod steps;
mod super_block;
mod super_numbers;
mod tables;

pub use skeleton::judge_skeleton;
pub use tables::Skeleton;

#[cfg(test)]
mod slot_tests;
