// Whether the clusters of a record are referred to equally often.
ghost use Rattle.std.specs.Prelude.{◌≡◌, ◌==◌, ◌+◌, ◌<◌, ◌^◌, IfOk};
ghost use Rattle.o2_judges_refcount.specs.References.{times_of};
ghost use Rattle.o2_judges_refcount.specs.TreeRows.{is_even as are_even, is_shared};

use crate::References;
use o2_disk::NoMemory;
use o2_ondisk::RefcountRec;

/// Whether the cluster is referred to so often.
fn has_times(references: &References, root: u64, cluster: u64, times: u64) -> bool
    ensures { result ≡ (times_of references.now root cluster == times) }
{
    references.times(root, cluster) == times
}

/// Whether all clusters of the record are referred to so often as its first. It ends at the first that is not, so where the
/// first is referred to, no more clusters are looked at than are referred to, but for one.
fn is_even(references: &References, root: u64, refcount: &RefcountRec) -> bool
    requires { refcount.now.cpos + refcount.now.clusters < 2 ^ 64 }
    ensures { result ≡ are_even references.now root refcount.now }
{
    let times = references.times(root, refcount.cpos);
    for k in 0..refcount.clusters {
        let cluster = refcount.cpos + u64::from(k);
        if !has_times(references, root, cluster, times) {
            return false;
        }
    }
    true
}

/// Whether they are, and at least once, by inodes of the tree with this root. NoMemory where the record ends past 2^64, as none
/// of a volume does.
pub fn is_shared_evenly(
    references: &References,
    root: u64,
    refcount: &RefcountRec,
) -> Result<bool, NoMemory>
    ensures { IfOk result (λ is. is ≡ is_shared references.now root refcount.now) }
{
    if refcount.cpos > u64::MAX - u64::from(refcount.clusters) {
        return Err(NoMemory);
    }
    Ok(references.times(root, refcount.cpos) > 0 && is_even(references, root, refcount))
}
