//! Judges of the volume's own files by what their dinodes say.
#![tactic(auto)]

mod names;
mod present;
mod roles;
mod slot_names;
mod system_entry;
mod whole;

pub use whole::sysfile;

#[cfg(test)]
mod tests;
