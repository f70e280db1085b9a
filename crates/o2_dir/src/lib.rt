//! Directories: their entries, names and paths. And the bytes of files, whose size is judged by the system directory's entries.
#![tactic(auto)]

mod blocks;
mod data_inode;
mod directory;
mod directory_blocks;
mod directory_whole;
mod dots;
mod entries_in_block;
mod fault;
mod file_bytes;
mod file_size;
mod index;
mod index_leaf;
mod index_leaves;
mod inline_directory;
mod inode_reading;
mod kinds;
mod mapped_directory;
mod names;
mod own_inodes;
mod packing;
mod parts;
mod path_step;
mod path_text;
mod piece;
mod places;
mod reading;
mod route;
#[cfg(test)]
mod testing;
mod trailer;
mod void_plan;
mod whole_reading;

pub use data_inode::{has_bytes, is_of_file_or_link, is_valid_dinode};
pub use directory::{entries, entries_in, entries_of};
pub use directory_whole::{WholeDirectory, whole_directory};
pub use fault::{DirFault, PathFault};
pub use file_bytes::{part_of_file, read_bytes};
pub use file_size::{ends_in_numbered, has_size_of_kind};
pub use index::{IndexEntries, entries_in_root, index_entries};
pub use inode_reading::{InodeReading, sound_inode_in};
pub use kinds::{is_of_directory, is_of_file};
pub use names::{look_up, system_file};
pub use o2_model::{Entries, Entry};
pub use own_inodes::is_dot_entry;
pub use packing::build_directory;
pub use path_step::is_directory_at;
pub use path_text::{PathText, is_path};
pub use route::path;
pub use void_plan::void_entry;
