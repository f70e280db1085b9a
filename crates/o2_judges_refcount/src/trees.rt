// REF_TREE: an inode with refcounted records has a tree, and the trees are well formed.
ghost use Rattle.std.specs.Prelude.{◌≡◌, ◌++◌, flat_map, IfOk, OnOk};
ghost use Rattle.o2_model.specs.declared.check.Check.TheVariants as check;
ghost use Rattle.o2_model.specs.Orders.{rising};
ghost use Rattle.o2_model.specs.Volume.{Volume};
ghost use Rattle.o2_model.specs.RefcountTrees.{refcount_roots};
ghost use Rattle.o2_model.specs.Checks.RefTree.{ref_tree_faults_of};
ghost use Rattle.o2_model.specs.Failing.{faults};
ghost use Rattle.o2_tables.specs.Rows.{IsInodeTable};
ghost use Rattle.o2_judges_refcount.specs.TreeRows.{shares as shares_clusters, inode_faults};

use o2_disk::NoMemory;
use o2_tables::InodeRow;
use o2_tally::put;
use std::alloc::Global;

/// Whether one of its runs is shared.
#[tactic(auto, unfolding(crate::specs::TreeRows::shares))]
fn shares(row: &InodeRow) -> bool
    ensures { result ≡ shares_clusters row.now }
{
    row.runs.as_slice().iter().any(|run| run.is_shared)
}

/// Puts the inode with those found, if it shares clusters and has no tree in range.
#[tactic(auto, unfolding(crate::specs::TreeRows::inode_faults))]
fn judge_inode(found: &mut Vec<u64>, row: &InodeRow) -> Result<(), NoMemory>
    ensures { OnOk result (found.new.items ≡ found.old.items ++ inode_faults row.now) }
{
    if shares(row) && row.tree.is_none() {
        put(found, row.block)?;
    }
    Ok(())
}

/// The inodes that share clusters and have no tree in range.
fn without_tree(alloc: Global, inodes: &[InodeRow]) -> Result<Vec<u64>, NoMemory>
    ensures { IfOk result (λ blocks. blocks.items ≡ flat_map inode_faults inodes.now) }
{
    let mut found = Vec::new(alloc);
    for row in inodes {
        judge_inode(&mut found, row)?;
    }
    Ok(found)
}

/// Puts these blocks behind the others.
fn add_blocks(blocks: &mut Vec<u64>, more: &[u64]) -> Result<(), NoMemory>
    ensures { OnOk result (blocks.new.items ≡ blocks.old.items ++ more.now) }
{
    match blocks.extend_from_slice(more) {
        Ok(()) => Ok(()),
        Err(_) => Err(NoMemory),
    }
}

/// Those inodes, and then these blocks.
fn with_found(alloc: Global, inodes: &[InodeRow], found: &[u64]) -> Result<Vec<u64>, NoMemory>
    ensures { IfOk result (λ blocks. blocks.items ≡ flat_map inode_faults inodes.now ++ found.now) }
{
    let mut blocks = without_tree(alloc, inodes)?;
    add_blocks(&mut blocks, found)?;
    Ok(blocks)
}

/// The inodes and refcount blocks at which REF_TREE fails, where it was found to fail at these blocks for trees. NoMemory where
/// memory runs out.
pub fn ref_tree(alloc: Global, inodes: &[InodeRow], found: &[u64]) -> Result<Vec<u64>, NoMemory>
    ensures { IfOk result (λ blocks. (v : Volume) → IsInodeTable v inodes.now → found.now ≡ flat_map (ref_tree_faults_of v) (refcount_roots v) → rising blocks.items ≡ rising (faults v check.RefTree)) }
{
    with_found(alloc, inodes, found)
}
