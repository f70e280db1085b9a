// The uses of extent blocks and refcount blocks, as rows tell them.
ghost use Rattle.std.specs.Prelude.{◌≡◌, ◌++◌, map, flat_map, IfOk, OnOk};
ghost use Rattle.o2_judges_alloc.specs.MetadataRows.{blocks_of_lists, blocks_of_tree, uses_of};

use o2_disk::NoMemory;
use o2_tables::{ExtentBlockRow, InodeRow, RefcountBlockRow, RefcountTreeRow};
use o2_tally::put;
use std::alloc::Global;

/// Puts these extent blocks with the uses.
fn add_extent_blocks(uses: &mut Vec<u64>, rows: &[ExtentBlockRow]) -> Result<(), NoMemory>
    ensures { OnOk result (uses.new.items ≡ uses.old.items ++ map (λ r. r.block) rows.now) }
{
    for row in rows {
        put(uses, row.block)?;
    }
    Ok(())
}

/// Puts these refcount blocks with the uses.
fn add_refcount_blocks(uses: &mut Vec<u64>, rows: &[RefcountBlockRow]) -> Result<(), NoMemory>
    ensures { OnOk result (uses.new.items ≡ uses.old.items ++ map (λ r. r.block) rows.now) }
{
    for row in rows {
        put(uses, row.block)?;
    }
    Ok(())
}

/// Puts the blocks of a refcount tree with the uses.
fn add_tree(uses: &mut Vec<u64>, tree: &RefcountTreeRow) -> Result<(), NoMemory>
    ensures { OnOk result (uses.new.items ≡ uses.old.items ++ blocks_of_tree tree.now) }
{
    put(uses, tree.root.block)?;
    add_extent_blocks(uses, tree.extent_blocks.as_slice())?;
    add_refcount_blocks(uses, tree.leaves.as_slice())
}

/// Puts the extent blocks of the inodes' lists with the uses.
fn add_lists(uses: &mut Vec<u64>, inodes: &[InodeRow]) -> Result<(), NoMemory>
    ensures { OnOk result (uses.new.items ≡ uses.old.items ++ flat_map blocks_of_lists inodes.now) }
{
    for row in inodes {
        add_extent_blocks(uses, row.extent_blocks.as_slice())?;
    }
    Ok(())
}

/// Puts the blocks of the trees with the uses.
fn add_trees(uses: &mut Vec<u64>, trees: &[RefcountTreeRow]) -> Result<(), NoMemory>
    ensures { OnOk result (uses.new.items ≡ uses.old.items ++ flat_map blocks_of_tree trees.now) }
{
    for tree in trees {
        add_tree(uses, tree)?;
    }
    Ok(())
}

/// The extent blocks and refcount blocks, once for each use.
pub fn metadata_uses(
    alloc: Global,
    inodes: &[InodeRow],
    trees: &[RefcountTreeRow],
) -> Result<Vec<u64>, NoMemory>
    ensures { IfOk result (λ uses. uses.items ≡ uses_of inodes.now trees.now) }
{
    let mut uses = Vec::new(alloc);
    add_lists(&mut uses, inodes)?;
    add_trees(&mut uses, trees)?;
    Ok(uses)
}
