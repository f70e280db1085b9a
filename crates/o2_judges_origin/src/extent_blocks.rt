// Where extent blocks say that they are from.
ghost use Rattle.std.specs.Prelude.{flat_map, OnOk};
ghost use Rattle.o2_judges_origin.specs.OriginRows.{Adds, extent_block_faults, list_faults, tree_list_faults};

use crate::PlacedGroups;
use crate::origins::judge;
use o2_disk::NoMemory;
use o2_tables::{ExtentBlockRow, InodeRow, RefcountTreeRow};

/// Puts the extent blocks that are not right with those found.
fn judge_extent_blocks(
    found: &mut Vec<u64>,
    placed: &PlacedGroups,
    blocks: &[ExtentBlockRow],
) -> Result<(), NoMemory>
    ensures { OnOk result (Adds placed.now found.old.items found.new.items (λ v is_use. flat_map (extent_block_faults v is_use) blocks.now)) }
{
    for row in blocks {
        judge(found, placed, &row.origin, row.block)?;
    }
    Ok(())
}

/// Puts those of the inodes' lists with those found.
pub fn judge_lists(
    found: &mut Vec<u64>,
    placed: &PlacedGroups,
    inodes: &[InodeRow],
) -> Result<(), NoMemory>
    ensures { OnOk result (Adds placed.now found.old.items found.new.items (λ v is_use. flat_map (list_faults v is_use) inodes.now)) }
{
    for row in inodes {
        judge_extent_blocks(found, placed, row.extent_blocks.as_slice())?;
    }
    Ok(())
}

/// Puts those of the trees' lists with those found.
pub fn judge_tree_lists(
    found: &mut Vec<u64>,
    placed: &PlacedGroups,
    trees: &[RefcountTreeRow],
) -> Result<(), NoMemory>
    ensures { OnOk result (Adds placed.now found.old.items found.new.items (λ v is_use. flat_map (tree_list_faults v is_use) trees.now)) }
{
    for tree in trees {
        judge_extent_blocks(found, placed, tree.extent_blocks.as_slice())?;
    }
    Ok(())
}
