// Whether an index has its clusters for itself.
ghost use Rattle.std.specs.Prelude.{◌≡◌, ◌+◌, ◌++◌, List, ℕ, IfOk, OnOk};
ghost use Rattle.std.specs.List.{list_all, range_with_len};
ghost use Rattle.o2_tally.specs.Gathered.{IsCount};
ghost use Rattle.o2_judges_index.specs.IndexRows.{clusters_of_run, clusters_of_runs, is_new_once, are_new_once};

use o2_claims::Claims;
use o2_disk::NoMemory;
use o2_judges_claims::is_free;
use o2_tables::ClusterRun;
use o2_tally::Counts;
use std::alloc::Global;

/// Counts the clusters of a run.
fn count_run(counts: &mut Counts, run: ClusterRun) -> Result<(), NoMemory>
    ensures { OnOk result ((ns : List ℕ) → IsCount ns counts.old → IsCount (ns ++ clusters_of_run run) counts.new) }
{
    for k in 0..run.clusters {
        counts.add(u64::from(run.start) + u64::from(k))?;
    }
    Ok(())
}

/// How often each cluster stands in these runs.
fn counts_of_runs(alloc: Global, runs: &[ClusterRun]) -> Result<Counts, NoMemory>
    ensures { IfOk result (λ counts. IsCount (clusters_of_runs runs.now) counts) }
{
    let mut counts = Counts::new(alloc);
    for run in runs {
        count_run(&mut counts, *run)?;
    }
    Ok(counts)
}

/// Whether the k-th cluster of the run stands there once, and has no owner.
fn is_own_at(claims: &Claims, counts: &Counts, run: ClusterRun, k: u32) -> bool
    ensures { result ≡ is_new_once claims.now counts.now (run.start + k) }
{
    let cluster = u64::from(run.start) + u64::from(k);
    counts.count(cluster) == 1 && is_free(claims, cluster)
}

/// The same for all clusters of the run.
fn are_own_in_run(claims: &Claims, counts: &Counts, run: ClusterRun) -> bool
    ensures { result ≡ list_all (λ k. is_new_once claims.now counts.now (run.start + k)) (range_with_len 0 run.clusters) }
{
    for k in 0..run.clusters {
        if !is_own_at(claims, counts, run, k) {
            return false;
        }
    }
    true
}

/// The same for all runs.
fn are_own_in_runs(claims: &Claims, counts: &Counts, runs: &[ClusterRun]) -> bool
    ensures { result ≡ list_all (λ run. list_all (λ k. is_new_once claims.now counts.now (run.start + k)) (range_with_len 0 run.clusters)) runs.now }
{
    runs.iter().all(|run| are_own_in_run(claims, counts, *run))
}

/// Whether no cluster stands in these runs twice, and none has an owner. NoMemory where memory runs out.
pub fn has_own_clusters(
    alloc: Global,
    claims: &Claims,
    runs: &[ClusterRun],
) -> Result<bool, NoMemory>
    ensures { IfOk result (λ own. own ≡ are_new_once claims.now (clusters_of_runs runs.now)) }
{
    let counts = counts_of_runs(alloc, runs)?;
    Ok(are_own_in_runs(claims, &counts, runs))
}
