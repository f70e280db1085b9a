// What the definitions accept and what they refuse, each case the contract of a function that does nothing.
pub mod allowed_writes;
pub mod blocks_of_images;
pub mod replays;
