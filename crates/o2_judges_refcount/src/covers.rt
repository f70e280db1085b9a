// The clusters that the records of each tree have.
ghost use Rattle.std.specs.Prelude.{◌≡◌, List, [], map, IfOk, OnOk};
ghost use Rattle.o2_model.specs.Words.{push};
ghost use Rattle.o2_tables.specs.declared.refcounts.RefcountTreeRow.{RefcountTreeRow};
ghost use Rattle.o2_judges_refcount.specs.CoverRows.{run_of, has_cluster as tree_has_cluster, AreCovers};

use o2_disk::NoMemory;
use o2_model::PlacedRefcount;
use o2_tables::RefcountTreeRow;
use o2_view::RunSet;
use std::alloc::Global;
use std::collections::BTreeMap;

/// The clusters that the records of each tree have.
#[derive(Drop)]
pub struct Covers {
    // For each root those of its tree.
    runs: BTreeMap<u64, RunSet>,
}

/// Puts the clusters of a record with the others. NoMemory where it ends past 2^64 too, as none of a volume does.
fn add_record(runs: &mut RunSet, placed: &PlacedRefcount) -> Result<(), NoMemory>
    ensures { OnOk result (runs.new ≡ push runs.old (run_of placed.now)) }
{
    let first = placed.fields.cpos;
    let count = u64::from(placed.fields.clusters);
    if first > u64::MAX - count {
        return Err(NoMemory);
    }
    runs.push(first, count)
}

/// The clusters of these records.
fn runs_of_records(alloc: Global, records: &[PlacedRefcount]) -> Result<RunSet, NoMemory>
    ensures { IfOk result (λ runs. runs ≡ map run_of records.now) }
{
    let mut runs = RunSet::new(alloc);
    for placed in records {
        add_record(&mut runs, placed)?;
    }
    Ok(runs)
}

impl Covers {
    /// There is no tree yet.
    pub fn new(alloc: Global) -> Self
        ensures { AreCovers [] result }
    {
        Covers {
            runs: BTreeMap::new(alloc),
        }
    }

    /// A tree more.
    pub fn add_tree(&mut self, alloc: Global, tree: &RefcountTreeRow) -> Result<(), NoMemory>
        ensures { OnOk result ((trees : List RefcountTreeRow) → AreCovers trees self.old → AreCovers (push trees tree.now) self.new) }
    {
        let runs = runs_of_records(alloc, tree.records.as_slice())?;
        match self.runs.insert(tree.root.block, runs) {
            Ok(_) => Ok(()),
            Err(_) => Err(NoMemory),
        }
    }

    /// Whether a record of the tree with this root has the cluster.
    pub fn has_cluster(&self, root: u64, cluster: u64) -> bool
        ensures { result ≡ tree_has_cluster self.now root cluster }
    {
        match self.runs.get(&root) {
            Some(runs) => runs.has(cluster),
            None => false,
        }
    }
}

/// The clusters of all trees.
pub fn covers_of_trees(alloc: Global, trees: &[RefcountTreeRow]) -> Result<Covers, NoMemory>
    ensures { IfOk result (λ covers. AreCovers trees.now covers) }
{
    let mut covers = Covers::new(alloc);
    for tree in trees {
        covers.add_tree(alloc, tree)?;
    }
    Ok(covers)
}
