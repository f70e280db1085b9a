// REF_COVER: the records of a tree have just the clusters that its inodes share, and those of one record are shared equally.
ghost use Rattle.std.specs.Prelude.{◌≡◌, ◌++◌, flat_map, IfOk, OnOk};
ghost use Rattle.std.specs.List.{list_all};
ghost use Rattle.o2_model.specs.declared.check.Check.TheVariants as check;
ghost use Rattle.o2_model.specs.Orders.{rising};
ghost use Rattle.o2_model.specs.Volume.{Volume};
ghost use Rattle.o2_model.specs.Failing.{faults};
ghost use Rattle.o2_tables.specs.Rows.{IsInodeTable, IsRefcountTreeTable};
ghost use Rattle.o2_judges_refcount.specs.References.{AreReferences};
ghost use Rattle.o2_judges_refcount.specs.TreeRows.{is_shared};
ghost use Rattle.o2_judges_refcount.specs.CoverRows.{is_covering as tree_is_covering, cover_faults};

use crate::References;
use crate::covers::covers_of_trees;
use crate::even::is_shared_evenly;
use crate::missing::missing_trees;
use o2_disk::NoMemory;
use o2_model::PlacedRefcount;
use o2_tables::{InodeRow, RefcountTreeRow};
use o2_tally::put;
use std::alloc::Global;
use std::collections::BTreeSet;

/// Whether the clusters of each record are referred to equally often, and at least once.
fn are_shared_evenly(
    references: &References,
    root: u64,
    records: &[PlacedRefcount],
) -> Result<bool, NoMemory>
    ensures { IfOk result (λ are. are ≡ list_all (λ p. is_shared references.now root p.fields) records.now) }
{
    for placed in records {
        if !is_shared_evenly(references, root, &placed.fields)? {
            return Ok(false);
        }
    }
    Ok(true)
}

/// Whether they are, and the tree is not one of those that miss a cluster.
fn is_covering(
    references: &References,
    missing: &BTreeSet<u64>,
    tree: &RefcountTreeRow,
) -> Result<bool, NoMemory>
    ensures { IfOk result (λ is. is ≡ tree_is_covering references.now missing.now tree.now) }
{
    let root = tree.root.block;
    let are_even = are_shared_evenly(references, root, tree.records.as_slice())?;
    Ok(are_even && !missing.contains(&root))
}

/// Puts the root with those found, if it is a refcount block and the tree is not so.
fn judge_tree(
    found: &mut Vec<u64>,
    references: &References,
    missing: &BTreeSet<u64>,
    tree: &RefcountTreeRow,
) -> Result<(), NoMemory>
    ensures { OnOk result (found.new.items ≡ found.old.items ++ cover_faults references.now missing.now tree.now) }
{
    if tree.root.is_refcount_block && !is_covering(references, missing, tree)? {
        put(found, tree.root.block)?;
    }
    Ok(())
}

/// The roots of the trees that are not so.
fn not_covering(
    alloc: Global,
    references: &References,
    missing: &BTreeSet<u64>,
    trees: &[RefcountTreeRow],
) -> Result<Vec<u64>, NoMemory>
    ensures { IfOk result (λ found. found.items ≡ flat_map (cover_faults references.now missing.now) trees.now) }
{
    let mut found = Vec::new(alloc);
    for tree in trees {
        judge_tree(&mut found, references, missing, tree)?;
    }
    Ok(found)
}

/// The roots at which REF_COVER fails, where these are the references of the volume. NoMemory where memory runs out.
pub fn ref_cover(
    alloc: Global,
    references: &References,
    inodes: &[InodeRow],
    trees: &[RefcountTreeRow],
) -> Result<Vec<u64>, NoMemory>
    ensures { IfOk result (λ blocks. (v : Volume) → IsInodeTable v inodes.now → AreReferences v references.now → IsRefcountTreeTable v trees.now → rising blocks.items ≡ rising (faults v check.RefCover)) }
{
    let covers = covers_of_trees(alloc, trees)?;
    let missing = missing_trees(alloc, &covers, inodes)?;
    not_covering(alloc, references, &missing, trees)
}
