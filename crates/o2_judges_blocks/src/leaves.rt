// The leaves among the extent blocks of a list.
ghost use Rattle.std.specs.Prelude.{◌≡◌, IfOk};
ghost use Rattle.o2_judges_blocks.specs.LeafRows.{is_leaf as is_row_of_leaf, leaf_rows};

use o2_disk::NoMemory;
use o2_extent::ListBlock;
use std::alloc::Global;

/// Whether the block is a leaf.
pub fn is_leaf(row: &ListBlock) -> bool
    ensures { result ≡ is_row_of_leaf row.now }
{
    row.depth == 0
}

/// The leaves, in order.
pub fn leaves_of(alloc: Global, blocks: &[ListBlock]) -> Result<Vec<ListBlock>, NoMemory>
    ensures { IfOk result (λ leaves. leaves.items ≡ leaf_rows blocks.now) }
{
    match blocks
        .iter()
        .filter(|row| is_leaf(row))
        .copied()
        .collect(alloc)
    {
        Ok(leaves) => Ok(leaves),
        Err(_) => Err(NoMemory),
    }
}
