//! The laws of a volume: what depends on which blocks, that the walks end, and what the blocks that carry meaning tell. No reader stands on them.
#![tactic(auto)]

mod alike_laws;
mod check_laws;
mod entry_laws;
mod extent_laws;
mod frame_laws;
mod intact_laws;
mod log_laws;
mod name_laws;
mod order_laws;
mod owned_laws;
mod superblock_laws;
mod walk_laws;

pub use alike_laws::{
    images_alike_are_consistent, images_alike_beside_journals_are_consistent,
    owned_blocks_tell_checks, owned_blocks_tell_claims, owned_blocks_tell_contents,
};
pub use check_laws::each_check_holds;
pub use entry_laws::entries_fill_their_bytes;
pub use extent_laws::{
    few_blocks_are_looked_at, leaf_records_are_those_below, other_blocks_keep_extents,
};
pub use frame_laws::{
    blocks_tell_tables, other_blocks_keep_contents, other_blocks_keep_entries,
    other_blocks_keep_groups, other_blocks_keep_system_files, superblock_tells_volume,
    tables_tell_inodes_and_tree,
};
pub use intact_laws::intact_paths_are_kept_by_steps;
pub use log_laws::log_is_what_its_blocks_spell;
pub use name_laws::slot_names_tell_slots;
pub use order_laws::{bits_and_blocks_agree, rising_numbers_are_the_list_in_order};
pub use owned_laws::{
    blocks_of_groups_are_owned, claimed_blocks_are_owned, data_blocks_are_owned,
    dinodes_and_extent_blocks_are_owned, first_blocks_are_owned, own_files_are_inodes,
    owned_blocks_tell_images, owned_blocks_tell_inodes, owned_blocks_tell_tables,
    owned_blocks_tell_tree,
};
pub use superblock_laws::{geometry_tells_block_bits, label_alone_changes};
pub use walk_laws::{
    chains_end, no_directory_is_entered_twice, no_group_is_walked_twice, tree_walk_ends,
    walk_tells_tree_and_files,
};
