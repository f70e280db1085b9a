// What inodes refer to by their shared runs.
ghost use Rattle.std.specs.Prelude.{◌≡◌, ◌++◌, List, [], map, flat_map, OnOk};
ghost use Rattle.o2_model.specs.Words.{push};
ghost use Rattle.o2_tables.specs.declared.inodes.InodeRow.{InodeRow};
ghost use Rattle.o2_judges_refcount.specs.declared.tree_times.TreeCluster.{TreeCluster};
ghost use Rattle.o2_judges_refcount.specs.References.{clusters_in, in_tree, references_in_run, users_of, times_of, AreTimes, AreOfRows};

use crate::tree_times::{TreeCluster, TreeTimes};
use o2_disk::NoMemory;
use o2_tables::{ClusterRun, InodeRow};
use o2_tally::Counts;
use std::alloc::Global;

/// How many inodes each refcount tree has, and how often each cluster is referred to by the shared records of these.
#[derive(Drop)]
pub struct References {
    // Of each root that an inode names.
    users: Counts,
    times: TreeTimes,
}

impl References {
    /// There is no inode yet.
    pub fn new(alloc: Global) -> Self
        ensures { AreOfRows [] result }
    {
        References {
            users: Counts::new(alloc),
            times: TreeTimes::new(alloc),
        }
    }

    /// An inode more, where it is of a tree. NoMemory where memory runs out.
    pub fn add_inode(&mut self, row: &InodeRow) -> Result<(), NoMemory>
        ensures { OnOk result ((rows : List InodeRow) → AreOfRows rows self.old → AreOfRows (push rows row.now) self.new) }
    {
        if let Some(root) = row.named_tree {
            self.users.add(root)?;
            add_runs(&mut self.times, root, row.runs.as_slice())?;
        }
        Ok(())
    }

    /// How many inodes the tree with this root has.
    pub fn users(&self, root: u64) -> u64
        ensures { result ≡ users_of self.now root }
    {
        self.users.count(root)
    }

    /// How often the inodes of the tree with this root refer to the cluster.
    pub fn times(&self, root: u64, cluster: u64) -> u64
        ensures { result ≡ times_of self.now root cluster }
    {
        self.times.times(TreeCluster { root, cluster })
    }
}

/// The references to the clusters under a run.
fn add_clusters(times: &mut TreeTimes, root: u64, run: ClusterRun) -> Result<(), NoMemory>
    ensures { OnOk result ((all : List TreeCluster) → AreTimes all times.old → AreTimes (all ++ map (in_tree root) (clusters_in run)) times.new) }
{
    let start = u64::from(run.start);
    for k in 0..run.clusters {
        let cluster = start + u64::from(k);
        times.add(TreeCluster { root, cluster })?;
    }
    Ok(())
}

/// The references by a run: none, unless it is shared.
fn add_run(times: &mut TreeTimes, root: u64, run: ClusterRun) -> Result<(), NoMemory>
    ensures { OnOk result ((all : List TreeCluster) → AreTimes all times.old → AreTimes (all ++ references_in_run root run) times.new) }
{
    if run.is_shared {
        add_clusters(times, root, run)?;
    }
    Ok(())
}

/// The references by these runs.
fn add_runs(times: &mut TreeTimes, root: u64, runs: &[ClusterRun]) -> Result<(), NoMemory>
    ensures { OnOk result ((all : List TreeCluster) → AreTimes all times.old → AreTimes (all ++ flat_map (references_in_run root) runs.now) times.new) }
{
    for run in runs {
        add_run(times, root, *run)?;
    }
    Ok(())
}
