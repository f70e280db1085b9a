// What is asked of the claims.
ghost use Rattle.std.specs.Prelude.{◌≡◌, ◌<◌, ◌≤◌, List, None, count_by};
ghost use Rattle.std.specs.List.{range_with_len};
ghost use Rattle.o2_model.specs.declared.claim.Claim.{Claim};
ghost use Rattle.o2_model.specs.Claims.{owner_in};
ghost use Rattle.o2_claims.specs.Owners.{clusters_of, owner_of, has_owner, AreOwners};

use crate::Claims;
use o2_model::Owner;

impl Claims {
    /// How many clusters the volume has.
    #[tactic(auto, unfolding(crate::specs::Owners::clusters_of))]
    pub fn clusters(&self) -> u32
        ensures { result ≡ clusters_of self.now }
    {
        self.clusters
    }

    /// The owner of the cluster. None from the number of clusters on too.
    #[tactic(auto, unfolding(crate::specs::Owners::clusters_of, crate::specs::Owners::owner_of))]
    pub fn owner(&self, cluster: u32) -> Option<Owner>
        ensures owner { result ≡ owner_of self.now cluster }
        ensures past { clusters_of self.now ≤ cluster → result ≡ None }
        ensures first { (claims : List Claim) → AreOwners claims self.now → cluster < clusters_of self.now → result ≡ owner_in claims cluster }
    {
        self.first.get(&cluster).copied()
    }

    /// How many clusters have an owner.
    pub fn count(&self) -> u32
        ensures { result ≡ count_by (has_owner self.now) (range_with_len 0 (clusters_of self.now)) }
    {
        self.first.len() as u32
    }
}
