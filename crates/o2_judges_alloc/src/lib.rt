//! Judges of allocators and groups by their tables: each tells where one check fails.
#![tactic(auto)]

mod bit_use;
mod block_bits;
mod block_uses;
mod chain_headers;
mod chain_numbers;
mod chain_sums;
mod cluster_bits;
mod free_bits;
mod given_blocks;
mod inode_bits;
mod metadata_blocks;
mod missing;
mod places;
mod sums;
mod totals;

pub use block_bits::block_alloc_bit;
pub use block_uses::metadata_uses;
pub use chain_headers::chain_header;
pub use chain_numbers::group_chain;
pub use chain_sums::chain_bits;
pub use cluster_bits::cluster_alloc_bit;
pub use free_bits::group_free_bits;
pub use inode_bits::inode_alloc_bit;
pub use metadata_blocks::meta_block;
pub use missing::group_missing;
pub use places::{group_count, group_size};
pub use totals::alloc_totals;

#[cfg(test)]
mod tests;
