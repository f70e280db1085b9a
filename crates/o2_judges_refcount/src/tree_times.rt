// How often inodes of each tree refer to each cluster.
ghost use Rattle.std.specs.Prelude.{◌≡◌, List, [], OnOk};
ghost use Rattle.o2_model.specs.Words.{push};
ghost use Rattle.o2_judges_refcount.specs.declared.tree_times.TreeCluster.{TreeCluster};
ghost use Rattle.o2_judges_refcount.specs.References.{times_at, AreTimes};

use o2_disk::NoMemory;
use std::alloc::Global;
use std::collections::BTreeMap;

/// A cluster that inodes of a tree refer to.
#[derive(Clone, Copy, Debug, PartialEq, Eq, PartialOrd, Ord)]
pub struct TreeCluster {
    /// The root of the tree.
    pub root: u64,
    pub cluster: u64,
}

/// How often the inodes of each tree refer to each cluster.
#[derive(Drop)]
pub struct TreeTimes {
    // Of each cluster that is referred to.
    times: BTreeMap<TreeCluster, u64>,
}

impl TreeTimes {
    /// There is no reference yet.
    pub fn new(alloc: Global) -> Self
        ensures { AreTimes [] result }
    {
        TreeTimes {
            times: BTreeMap::new(alloc),
        }
    }

    /// One reference more. NoMemory where memory runs out, or there are as many as can be counted: 2^64 - 1.
    pub fn add(&mut self, one: TreeCluster) -> Result<(), NoMemory>
        ensures { OnOk result ((all : List TreeCluster) → AreTimes all self.old → AreTimes (push all one) self.new) }
    {
        let Some(now) = self.times(one).checked_add(1) else {
            return Err(NoMemory);
        };
        match self.times.insert(one, now) {
            Ok(_) => Ok(()),
            Err(_) => Err(NoMemory),
        }
    }

    /// How often it is referred to.
    pub fn times(&self, of: TreeCluster) -> u64
        ensures { result ≡ times_at self.now of }
    {
        match self.times.get(&of) {
            Some(times) => *times,
            None => 0,
        }
    }
}
