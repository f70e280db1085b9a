// Where roots and leaves of refcount trees say that they are from.
ghost use Rattle.std.specs.Prelude.{flat_map, OnOk};
ghost use Rattle.o2_judges_origin.specs.OriginRows.{Adds, refcount_block_faults, root_faults, leaf_faults};

use crate::PlacedGroups;
use crate::origins::judge;
use o2_disk::NoMemory;
use o2_tables::{RefcountBlockRow, RefcountTreeRow};

/// Puts the block with those found, if it is a refcount block and not right.
fn judge_refcount_block(
    found: &mut Vec<u64>,
    placed: &PlacedGroups,
    row: &RefcountBlockRow,
) -> Result<(), NoMemory>
    ensures { OnOk result (Adds placed.now found.old.items found.new.items (λ v is_use. refcount_block_faults v is_use row.now)) }
{
    if row.is_refcount_block {
        judge(found, placed, &row.origin, row.block)?;
    }
    Ok(())
}

fn judge_refcount_blocks(
    found: &mut Vec<u64>,
    placed: &PlacedGroups,
    blocks: &[RefcountBlockRow],
) -> Result<(), NoMemory>
    ensures { OnOk result (Adds placed.now found.old.items found.new.items (λ v is_use. flat_map (refcount_block_faults v is_use) blocks.now)) }
{
    for row in blocks {
        judge_refcount_block(found, placed, row)?;
    }
    Ok(())
}

/// Puts the roots that are refcount blocks and not right with those found.
pub fn judge_roots(
    found: &mut Vec<u64>,
    placed: &PlacedGroups,
    trees: &[RefcountTreeRow],
) -> Result<(), NoMemory>
    ensures { OnOk result (Adds placed.now found.old.items found.new.items (λ v is_use. flat_map (root_faults v is_use) trees.now)) }
{
    for tree in trees {
        judge_refcount_block(found, placed, &tree.root)?;
    }
    Ok(())
}

/// Puts the leaves that are refcount blocks and not right with those found.
pub fn judge_leaves(
    found: &mut Vec<u64>,
    placed: &PlacedGroups,
    trees: &[RefcountTreeRow],
) -> Result<(), NoMemory>
    ensures { OnOk result (Adds placed.now found.old.items found.new.items (λ v is_use. flat_map (leaf_faults v is_use) trees.now)) }
{
    for tree in trees {
        judge_refcount_blocks(found, placed, tree.leaves.as_slice())?;
    }
    Ok(())
}
