//! The leaf records of inodes, of indexes and of refcount trees, and the bytes of a file.
#![tactic(auto)]

mod block_list;
mod dinode;
mod geometry;
mod index_roots;
mod inode;
mod inode_records;
mod leaf;
mod list;
mod list_block;
mod maps;
mod ordered;
mod owner_records;
mod pieces;
mod place;
mod reading;
mod refcount_roots;
mod roots;
mod rule;
mod runs;
mod seen;
mod tree;

pub use dinode::{has_list, is_fast_link, is_inline};
pub use geometry::{block_bytes, blocks_per_cluster, is_block_in_range, volume_blocks};
pub use index_roots::index_list;
pub use inode::{Inode, read_inode, read_own_list};
pub use inode_records::{least, records_in};
pub use list::put;
pub use list_block::ListBlock;
pub use maps::map_cluster;
pub use o2_model::{Leaf, Leaves};
pub use ordered::OrderedLeaves;
pub use owner_records::records;
pub use pieces::add_bytes;
pub use reading::Reading;
pub use refcount_roots::{RefcountRoot, has_leaf_blocks, is_refcount_block_at, refcount_root};
pub use roots::{
    has_sound_index_list, holds_index_entries, index_header_at, index_root_records,
    is_index_root_at,
};
pub use runs::{ExtentList, list_of_runs};
pub use tree::look;

#[cfg(test)]
mod tests;
