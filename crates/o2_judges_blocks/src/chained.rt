// EB_NEXT and LAST_EB: each leaf of a list names the next one, and the list's owner the last.
ghost use Rattle.std.specs.Prelude.{◌≡◌, ◌++◌, ◌∷◌, IfOk, OnOk, if◌then◌else◌};
ghost use Rattle.o2_model.specs.Checks.EbNext.{leaf_blocks, next_faults};
ghost use Rattle.o2_model.specs.Checks.LastEb.{last_leaf as last_leaf_of};
ghost use Rattle.o2_model.specs.Extents.{Extents};
ghost use Rattle.o2_model.specs.Volume.{Volume};
ghost use Rattle.o2_extent.specs.Readings.{AreListBlocks};
ghost use Rattle.o2_judges_blocks.specs.LeafRows.{is_leaf as is_row_of_leaf, next_of, faults_of_leaves};

use crate::leaves::{is_leaf, leaves_of};
use o2_disk::NoMemory;
use o2_extent::{ListBlock, put};
use std::alloc::Global;

/// The block of the first of these leaves, 0 where there is none.
fn first_block(leaves: &[ListBlock]) -> u64
    ensures { result ≡ next_of leaves.now }
{
    match leaves.first() {
        Some(leaf) => leaf.block,
        None => 0,
    }
}

/// Puts the block of a leaf at the end, unless it names the first of those behind it.
fn judge_leaf(leaf: &ListBlock, behind: &[ListBlock], found: &mut Vec<u64>) -> Result<(), NoMemory>
    ensures { OnOk result (found.new.items ++ faults_of_leaves behind.now ≡ found.old.items ++ faults_of_leaves (leaf.now ∷ behind.now)) }
{
    if leaf.fields.next_leaf_blk != first_block(behind) {
        put(found, leaf.block)?;
    }
    Ok(())
}

/// The blocks of those of the leaves that name another block than the one behind them.
fn with_other_next(alloc: Global, leaves: &[ListBlock]) -> Result<Vec<u64>, NoMemory>
    ensures { IfOk result (λ found. found.items ≡ faults_of_leaves leaves.now) }
{
    let mut found = Vec::new(alloc);
    for k in 0..leaves.len() {
        judge_leaf(&leaves[k], &leaves[k + 1..], &mut found)?;
    }
    Ok(found)
}

/// The leaves of a list at which EB_NEXT fails: those that name another block than the next leaf, or than 0 behind the last.
/// `blocks` are the extent blocks of the list, in the order in which they were read. NoMemory where memory runs out.
pub fn eb_next(alloc: Global, blocks: &[ListBlock]) -> Result<Vec<u64>, NoMemory>
    ensures { IfOk result (λ found. (v : Volume) (t : Extents) → AreListBlocks v t.blocks blocks.now → found.items ≡ next_faults v (leaf_blocks v t)) }
{
    let leaves = leaves_of(alloc, blocks)?;
    with_other_next(alloc, leaves.as_slice())
}

/// The block itself where it is a leaf, else the leaf before it.
fn leaf_or(row: &ListBlock, before: u64) -> u64
    ensures { result ≡ (if is_row_of_leaf row.now then row.now.block else before) }
{
    if is_leaf(row) { row.block } else { before }
}

/// The last leaf among the extent blocks of a list, 0 where it has none: what the list's owner has to name.
pub fn last_leaf(blocks: &[ListBlock]) -> u64
    ensures { (v : Volume) (t : Extents) → AreListBlocks v t.blocks blocks.now → result ≡ last_leaf_of v t }
{
    let mut last = 0;
    for row in blocks {
        last = leaf_or(row, last);
    }
    last
}
