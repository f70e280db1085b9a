// Whether clusters that follow one another have an owner.
ghost use Rattle.std.specs.Prelude.{◌≡◌, ◌-◌, ◌<◌, ◌≤◌, ℕ, true, false, is_some};
ghost use Rattle.std.specs.BTreeMap.{get};
ghost use Rattle.std.specs.List.{list_any, range_with_len};
ghost use Rattle.std.specs.Option.{IfNone, IfSome};
ghost use Rattle.std.specs.Ordering.{nat_cmp};
ghost use Rattle.o2_claims.specs.Owners.{has_owner};

use crate::Claims;
use o2_model::Owner;
use std::collections::BTreeMap;

/// The first of the clusters from `start` on and below `end` that has an owner.
fn first_between(first: &BTreeMap<u32, Owner>, start: u32, end: u32) -> Option<u32>
    requires { start ≤ end }
    ensures found { IfSome result (λ c. (start ≤ c) × (c < end) × (is_some (get nat_cmp first.now c) ≡ true)) }
    ensures none { IfNone result ((c : ℕ) → start ≤ c → c < end → is_some (get nat_cmp first.now c) ≡ false) }
{
    match first.range(start..end).next() {
        Some((cluster, _)) => Some(*cluster),
        None => None,
    }
}

impl Claims {
    /// Whether one of the clusters from `start` on and below `end` has an owner. However many they are, it takes the time of one
    /// look-up in a map.
    #[tactic(auto, unfolding(crate::specs::Owners::owner_of))]
    pub fn has_owner_between(&self, start: u32, end: u32) -> bool
        ensures { result ≡ list_any (has_owner self.now) (range_with_len start (end - start)) }
    {
        start < end && first_between(&self.first, start, end).is_some()
    }
}
