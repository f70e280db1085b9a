// The clusters that have no owner.
ghost use Rattle.std.specs.Prelude.{◌≤◌, ◌-◌, true, OnOk, IfOk};
ghost use Rattle.o2_view.specs.FreeRuns.{AreFreeRuns};
ghost use Rattle.o2_view.specs.RunLists.{end_of_runs, Gains};
ghost use Rattle.o2_claims.specs.Owners.{is_free};

use crate::Claims;
use o2_disk::NoMemory;
use o2_view::{RunList, Runs};
use std::alloc::Global;

/// Adds the clusters from `first` on that are below `end`, if there are some.
#[tactic(auto, using(o2_view::proofs::Gains::gains_none))]
fn add_up_to(runs: &mut RunList, first: u32, end: u32) -> Result<(), NoMemory>
    requires order { first ≤ end }
    requires behind { end_of_runs runs.old ≤ first }
    ensures { OnOk result (Gains (λ k. true) first (end - first) runs.old runs.new) }
{
    if first == end {
        return Ok(());
    }
    runs.add(first, end - first)
}

impl Claims {
    /// The longest runs of clusters without an owner, rising.
    pub fn free_runs(&self, alloc: Global) -> Result<Runs, NoMemory>
        ensures { IfOk result (λ runs. AreFreeRuns (is_free self.now) runs) }
    {
        let mut runs = RunList::new(alloc);
        let mut next = 0;
        for cluster in self.first.keys() {
            add_up_to(&mut runs, next, *cluster)?;
            next = *cluster + 1;
        }
        add_up_to(&mut runs, next, self.clusters)?;
        Ok(runs.into_runs())
    }
}
