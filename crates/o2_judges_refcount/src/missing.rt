// The trees that miss a cluster which their inodes refer to.
ghost use Rattle.std.specs.Prelude.{◌≡◌, ◌||◌, not, List, IfOk, OnOk};
ghost use Rattle.o2_model.specs.Words.{push};
ghost use Rattle.o2_tables.specs.declared.inodes.InodeRow.{InodeRow};
ghost use Rattle.o2_judges_refcount.specs.CoverRows.{has_run as run_is_had, has_shared as shared_are_had, AreMissing};

use crate::covers::Covers;
use o2_disk::NoMemory;
use o2_tables::{ClusterRun, InodeRow};
use o2_tally::add_number;
use std::alloc::Global;
use std::collections::BTreeSet;

/// Whether records of the tree have all clusters under the run.
fn has_run(covers: &Covers, root: u64, run: ClusterRun) -> bool
    ensures { result ≡ run_is_had covers.now root run }
{
    let start = u64::from(run.start);
    for k in 0..run.clusters {
        let cluster = start + u64::from(k);
        if !covers.has_cluster(root, cluster) {
            return false;
        }
    }
    true
}

/// Whether they have all clusters under the inode's shared runs.
fn has_shared(covers: &Covers, root: u64, row: &InodeRow) -> bool
    ensures { result ≡ shared_are_had covers.now root row.now }
{
    row.runs
        .as_slice()
        .iter()
        .all(|run| !run.is_shared || has_run(covers, root, *run))
}

/// Puts the root of the inode's tree with those found, if the tree misses a cluster that the inode refers to.
fn add_missing(roots: &mut BTreeSet<u64>, covers: &Covers, row: &InodeRow) -> Result<(), NoMemory>
    ensures { OnOk result ((rows : List InodeRow) → AreMissing covers.now rows roots.old → AreMissing covers.now (push rows row.now) roots.new) }
{
    if let Some(root) = row.named_tree {
        if !has_shared(covers, root, row) {
            add_number(roots, root)?;
        }
    }
    Ok(())
}

/// The roots of the trees that miss a cluster which one of these inodes refers to.
pub fn missing_trees(
    alloc: Global,
    covers: &Covers,
    inodes: &[InodeRow],
) -> Result<BTreeSet<u64>, NoMemory>
    ensures { IfOk result (λ roots. AreMissing covers.now inodes.now roots) }
{
    let mut roots = BTreeSet::new(alloc);
    for row in inodes {
        add_missing(&mut roots, covers, row)?;
    }
    Ok(roots)
}
