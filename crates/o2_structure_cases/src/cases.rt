// What the definitions accept and what they refuse, each case the contract of a function that does nothing.
pub mod entries;
pub mod extents;
pub mod groups;
pub mod hand_made_tree;
pub mod logs;
pub mod slot_parts;
pub mod superblocks;
pub mod words;
