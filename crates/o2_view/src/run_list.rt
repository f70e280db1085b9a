// Runs of clusters, of which the last may grow.
ghost use Rattle.std.specs.Prelude.{◌≡◌, ◌+◌, ◌<◌, ◌≤◌, ◌≢◌, ◌^◌, [], true, false, length, OnOk};
ghost use Rattle.o2_view.specs.FreeRuns.{RiseApartFrom};
ghost use Rattle.o2_view.specs.RunLists.{end_of_runs, Gains};

use crate::{Run, Runs};
use o2_disk::NoMemory;
use std::alloc::Global;
use std::marker::Model;

/// Runs of clusters, rising. Clusters lie between one and the next.
#[derive(Drop)]
pub struct RunList {
    runs: Vec<Run>,
}

impl Model for RunList {
    ghost use Rattle.std.specs.Prelude.{List};
    ghost use Rattle.o2_view.specs.declared.run.Run.{Run as Clusters};
    ghost use Rattle.o2_view.specs.FreeRuns.{RiseApartFrom};

    ghost Value = { List Clusters };

    ghost view = { λ list. list.runs.items };

    ghost invariant = { λ list. RiseApartFrom 0 list.runs.items };
}

/// Whether there is a last run and it ends just before this cluster.
fn ends_at(runs: &[Run], first: u32) -> bool
    ensures some { result ≡ true → 0 < length runs.now }
    ensures meets { result ≡ true → end_of_runs runs.now ≡ first }
    ensures apart { result ≡ false → 0 < length runs.now → end_of_runs runs.now ≢ first }
{
    match runs.last() {
        Some(last) => last.start <= first && first - last.start == last.clusters,
        None => false,
    }
}

impl RunList {
    /// No runs.
    pub fn new(alloc: Global) -> Self
        ensures { result ≡ [] }
    {
        RunList {
            runs: Vec::new(alloc),
        }
    }

    /// Adds `count` clusters from `first` on, which lie behind all others.
    pub fn add(&mut self, first: u32, count: u32) -> Result<(), NoMemory>
        requires some { 0 < count }
        requires fits { first + count < 2 ^ 32 }
        requires behind { end_of_runs self.old ≤ first }
        ensures { OnOk result (Gains (λ k. true) first count self.old self.new) }
    {
        if !ends_at(&self.runs, first) {
            let run = Run {
                start: first,
                clusters: count,
            };
            let Ok(()) = self.runs.push(run) else {
                return Err(NoMemory);
            };
            return Ok(());
        }
        if let Some(last) = self.runs.last_mut() {
            last.clusters += count;
        }
        Ok(())
    }

    /// The runs.
    pub fn into_runs(self) -> Runs
        ensures same { result ≡ self }
        ensures apart { RiseApartFrom 0 result }
    {
        Runs::from(self.runs)
    }
}
