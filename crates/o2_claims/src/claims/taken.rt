// Claims that are taken.
ghost use Rattle.std.specs.Prelude.{◌≡◌, ◌≢◌, ◌<◌, ℕ, List, [], None, Some, OnOk, OnErr, IfOk, IsErrOf, IsOkUnless};
ghost use Rattle.std.specs.Option.{IfNone, IfSome};
ghost use Rattle.o2_model.specs.declared.claim.Claim.{Claim};
ghost use Rattle.o2_model.specs.Words.{push};
ghost use Rattle.o2_claims.specs.Faults.{UnlessNoMemory};
ghost use Rattle.o2_claims.specs.Owners.{clusters_of, owner_of, AreOwners};
ghost use Rattle.o2_claims.specs.declared.fault.ClaimFault.TheVariants as fault;

use crate::{ClaimFault, Claims};
use o2_disk::NoMemory;
use o2_model::Owner;
use std::alloc::Global;
use std::collections::BTreeMap;

impl Claims {
    /// Of a volume of so many clusters, none of which is claimed yet.
    #[tactic(auto, unfolding(crate::specs::Owners::clusters_of, crate::specs::Owners::owner_of))]
    pub fn new(alloc: Global, clusters: u32) -> Result<Claims, NoMemory>
        ensures clusters { IfOk result (λ claims. clusters_of claims ≡ clusters) }
        ensures none { IfOk result (λ claims. (c : ℕ) → owner_of claims c ≡ None) }
        ensures owners { IfOk result (λ claims. AreOwners [] claims) }
    {
        Ok(Claims {
            clusters,
            first: BTreeMap::new(alloc),
        })
    }

    /// Gives the cluster to an owner. Twice where it has one, which it keeps. NoMemory may come at any time. Where it
    /// fails, nothing changes.
    #[tactic(auto, unfolding(crate::specs::Owners::clusters_of, crate::specs::Owners::owner_of))]
    pub fn claim(&mut self, cluster: u32, owner: Owner) -> Result<(), ClaimFault>
        requires within { cluster < clusters_of self.old }
        ensures clusters { clusters_of self.new ≡ clusters_of self.old }
        ensures had { IfSome (owner_of self.old cluster) (λ first. IsErrOf result (fault.Twice cluster first owner)) }
        ensures none { IfNone (owner_of self.old cluster) (IsOkUnless result fault.NoMemory) }
        ensures has { OnOk result (owner_of self.new cluster ≡ Some owner) }
        ensures others { (c : ℕ) → c ≢ cluster → owner_of self.new c ≡ owner_of self.old c }
        ensures fails { OnErr result ((c : ℕ) → owner_of self.new c ≡ owner_of self.old c) }
        ensures owners { UnlessNoMemory result ((claims : List Claim) → AreOwners claims self.old → AreOwners (push claims (record { owner = owner; cluster = cluster })) self.new) }
    {
        if let Some(first) = self.first.get(&cluster).copied() {
            return Err(ClaimFault::Twice {
                cluster,
                first,
                second: owner,
            });
        }
        match self.first.insert(cluster, owner) {
            Ok(_) => Ok(()),
            Err(_) => Err(ClaimFault::NoMemory),
        }
    }
}
