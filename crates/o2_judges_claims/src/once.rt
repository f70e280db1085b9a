// Clusters that may have an owner already: whether they are free, and claims of them.
ghost use Rattle.std.specs.Prelude.{◌≡◌, not, List, [], ◌∷◌, OnOk};
ghost use Rattle.std.specs.List.{range_with_len};
ghost use Rattle.o2_model.specs.declared.claim.Claim.{Claim};
ghost use Rattle.o2_model.specs.Words.{push};
ghost use Rattle.o2_model.specs.Claims.{claims_by};
ghost use Rattle.o2_claims.specs.Owners.{clusters_of, has_owner, AreOwners};
ghost use Rattle.o2_judges_claims.specs.Adding.{AddsClaims};
ghost use Rattle.o2_judges_claims.specs.ClaimRows.{runs_claims};

use o2_claims::{ClaimFault, Claims};
use o2_disk::NoMemory;
use o2_model::Owner;
use o2_tables::ClusterRun;

/// Whether the cluster has no owner, as one that the volume does not have.
#[tactic(auto, using(o2_claims::proofs::FirstOwners::none_past))]
pub fn is_free(claims: &Claims, cluster: u64) -> bool
    ensures { result ≡ not (has_owner claims.now cluster) }
{
    if cluster < u64::from(claims.clusters()) {
        claims.owner(cluster as u32).is_none()
    } else {
        true
    }
}

/// Gives the cluster of this number to the owner, unless it has one.
#[tactic(auto, using(crate::proofs::Addings::adds_past))]
pub fn claim_number(claims: &mut Claims, cluster: u64, owner: Owner) -> Result<(), NoMemory>
    ensures clusters { clusters_of claims.new ≡ clusters_of claims.old }
    ensures owners { OnOk result (AddsClaims (record { owner = owner; cluster = cluster } ∷ []) claims.old claims.new) }
{
    if cluster >= u64::from(claims.clusters()) {
        return Ok(());
    }
    match claims.claim(cluster as u32, owner) {
        Ok(()) | Err(ClaimFault::Twice { .. }) => Ok(()),
        Err(ClaimFault::NoMemory) => Err(NoMemory),
    }
}

/// Gives the cluster to the owner, unless it has one. Of a cluster that the volume does not have nothing is kept. NoMemory
/// where memory runs out.
pub fn claim_once(claims: &mut Claims, cluster: u32, owner: Owner) -> Result<(), NoMemory>
    ensures clusters { clusters_of claims.new ≡ clusters_of claims.old }
    ensures owners { OnOk result ((before : List Claim) → AreOwners before claims.old → AreOwners (push before (record { owner = owner; cluster = cluster })) claims.new) }
{
    claim_number(claims, u64::from(cluster), owner)
}

/// The same for `count` clusters from `start` on, one behind the other. Some of them may have got the owner where it fails.
pub fn claim_run(claims: &mut Claims, start: u32, count: u32, owner: Owner) -> Result<(), NoMemory>
    ensures clusters { clusters_of claims.new ≡ clusters_of claims.old }
    ensures owners { OnOk result (AddsClaims (claims_by owner (range_with_len start count)) claims.old claims.new) }
{
    for k in 0..count {
        claim_number(claims, u64::from(start) + u64::from(k), owner)?;
    }
    Ok(())
}

/// The same for the clusters of these runs.
pub fn claim_runs(claims: &mut Claims, runs: &[ClusterRun], owner: Owner) -> Result<(), NoMemory>
    ensures clusters { clusters_of claims.new ≡ clusters_of claims.old }
    ensures owners { OnOk result (AddsClaims (runs_claims owner runs.now) claims.old claims.new) }
{
    for run in runs {
        claim_run(claims, run.start, run.clusters, owner)?;
    }
    Ok(())
}
