//! Judges of slot maps and of journals, each where the bytes of its dinode are in hand.
#![tactic(auto)]

mod journal;
mod journal_records;
mod journal_super;
mod slot_map;

pub use journal::is_sound_journal;
pub use slot_map::is_sound_slot_map;

#[cfg(test)]
mod tests;
