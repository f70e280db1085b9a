// Clusters that are claimed where they have no owner yet.
ghost use Rattle.std.specs.Prelude.{◌≡◌, ◌++◌, ◌-◌, List, OnOk};
ghost use Rattle.std.specs.List.{list_any, range_with_len};
ghost use Rattle.o2_model.specs.declared.claim.Claim.{Claim};
ghost use Rattle.o2_model.specs.Words.{push};
ghost use Rattle.o2_model.specs.Claims.{claims_by};
ghost use Rattle.o2_claims.specs.Owners.{clusters_of, has_owner, AreOwners};

use o2_claims::{ClaimFault, Claims};
use o2_disk::NoMemory;
use o2_model::Owner;

/// Whether one of these clusters has an owner.
pub fn is_any_owned(claims: &Claims, clusters: &[u32]) -> bool
    ensures { result ≡ list_any (has_owner claims.now) clusters.now }
{
    clusters
        .iter()
        .any(|cluster| claims.owner(*cluster).is_some())
}

/// Claims the cluster. One that has an owner keeps it, and one beyond the volume is none.
pub fn claim_once(claims: &mut Claims, cluster: u32, owner: Owner) -> Result<(), NoMemory>
    ensures clusters { clusters_of claims.new ≡ clusters_of claims.old }
    ensures owners { OnOk result ((before : List Claim) → AreOwners before claims.old → AreOwners (push before (record { owner = owner; cluster = cluster })) claims.new) }
{
    if claims.clusters() <= cluster {
        return Ok(());
    }
    match claims.claim(cluster, owner) {
        Ok(()) => Ok(()),
        Err(ClaimFault::Twice { .. }) => Ok(()),
        Err(ClaimFault::NoMemory) => Err(NoMemory),
    }
}

/// Claims these clusters, one after the other.
pub fn claim_all(claims: &mut Claims, clusters: &[u32], owner: Owner) -> Result<(), NoMemory>
    ensures clusters { clusters_of claims.new ≡ clusters_of claims.old }
    ensures owners { OnOk result ((before : List Claim) → AreOwners before claims.old → AreOwners (before ++ claims_by owner clusters.now) claims.new) }
{
    for cluster in clusters {
        claim_once(claims, *cluster, owner)?;
    }
    Ok(())
}

/// Claims the clusters from `start` on and below `end`, one after the other.
pub fn claim_below(claims: &mut Claims, start: u32, end: u32, owner: Owner) -> Result<(), NoMemory>
    ensures clusters { clusters_of claims.new ≡ clusters_of claims.old }
    ensures owners { OnOk result ((before : List Claim) → AreOwners before claims.old → AreOwners (before ++ claims_by owner (range_with_len start (end - start))) claims.new) }
{
    for cluster in start..end {
        claim_once(claims, cluster, owner)?;
    }
    Ok(())
}
