// DUP_CLUSTERS: no structure has a cluster of an inode's records, and no other record but one that may share it.
ghost use Rattle.std.specs.Prelude.{◌≡◌, ◌+◌, IfOk};
ghost use Rattle.o2_model.specs.declared.check.Check.TheVariants as check;
ghost use Rattle.o2_model.specs.Faults.{fails_at};
ghost use Rattle.o2_model.specs.Orders.{rising};
ghost use Rattle.o2_model.specs.Volume.{Volume};
ghost use Rattle.o2_model.specs.Claims.{structure_claims};
ghost use Rattle.o2_model.specs.Failing.{faults};
ghost use Rattle.o2_tables.specs.Rows.{IsInodeTable};
ghost use Rattle.o2_claims.specs.Owners.{clusters_of, AreOwners};
ghost use Rattle.o2_judges_claims.specs.Uses.{is_free_and_good, are_good_in_run as are_good_in, are_good_in_row as are_good_by};

use crate::once::is_free;
use crate::uses::{Uses, uses_by_inodes};
use o2_claims::Claims;
use o2_disk::NoMemory;
use o2_tables::{ClusterRun, InodeRow};
use std::alloc::{AllocError, Global};

/// Whether no structure has the k-th cluster of the run, and its uses may stand together.
fn is_good_at(structures: &Claims, uses: &Uses, run: ClusterRun, k: u32) -> bool
    ensures { result ≡ is_free_and_good structures.now uses.now (run.start + k) }
{
    let cluster = u64::from(run.start) + u64::from(k);
    is_free(structures, cluster) && uses.is_good(cluster)
}

/// The same for all clusters of the run.
fn are_good_in_run(structures: &Claims, uses: &Uses, run: ClusterRun) -> bool
    ensures { result ≡ are_good_in structures.now uses.now run }
{
    for k in 0..run.clusters {
        if !is_good_at(structures, uses, run, k) {
            return false;
        }
    }
    true
}

/// The same for all runs of an inode.
fn are_good_in_row(structures: &Claims, uses: &Uses, row: &InodeRow) -> bool
    ensures { result ≡ are_good_by structures.now uses.now row.now }
{
    row.runs
        .as_slice()
        .iter()
        .all(|run| are_good_in_run(structures, uses, *run))
}

/// The inodes for which it is not so.
fn with_bad_uses(
    alloc: Global,
    structures: &Claims,
    uses: &Uses,
    inodes: &[InodeRow],
) -> Result<Vec<u64>, AllocError>
    ensures { IfOk result (λ blocks. blocks.items ≡ fails_at (λ r. r.block) (are_good_by structures.now uses.now) inodes.now) }
{
    inodes
        .iter()
        .filter(|row| !are_good_in_row(structures, uses, row))
        .map(|row| row.block)
        .collect(alloc)
}

/// The inodes at which DUP_CLUSTERS fails, where these are the claims of structures. NoMemory where memory runs out.
pub fn dup_clusters(
    alloc: Global,
    structures: &Claims,
    inodes: &[InodeRow],
) -> Result<Vec<u64>, NoMemory>
    ensures { IfOk result (λ blocks. (v : Volume) → clusters_of structures.now ≡ v.geo.clusters → AreOwners (structure_claims v) structures.now → IsInodeTable v inodes.now → rising blocks.items ≡ rising (faults v check.DupClusters)) }
{
    let uses = uses_by_inodes(alloc, inodes)?;
    match with_bad_uses(alloc, structures, &uses, inodes) {
        Ok(blocks) => Ok(blocks),
        Err(_) => Err(NoMemory),
    }
}
