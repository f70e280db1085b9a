//! Items told by numbers: numbers in order, where one stands among them, how often each comes, and which items come again.
#![tactic(auto)]

mod again;
mod counts;
mod list;
mod met;
mod sorted;

pub use again::{Numbered, later_numbers};
pub use counts::Counts;
pub use list::put;
pub use met::add_number;
pub use sorted::{find_number, in_order};

#[cfg(test)]
mod tests;
