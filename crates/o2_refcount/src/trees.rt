// The refcount trees of a volume.
ghost use Rattle.std.specs.Prelude.{◌≡◌, ℕ, List, [], ◌++◌, OnOk, IfOk};
ghost use Rattle.std.specs.Result.{IfErr};
ghost use Rattle.o2_model.specs.RefcountTrees.{refcount_roots};
ghost use Rattle.o2_model.specs.Volume.{Volume};
ghost use Rattle.o2_model.specs.Words.{push};
ghost use Rattle.o2_view.specs.Geos.{LiesIn};
ghost use Rattle.o2_view.specs.OwnChecks.{BlockFails};
ghost use Rattle.o2_view.specs.Views.{Shows, OnlyReads};
ghost use Rattle.o2_refcount.specs.TreeReadings.{AreTreesRead, IsTreeReading, IsTreeSurvey};

use crate::tree_row::{TreeReading, read_whole};
use o2_disk::{Disk, NoMemory};
use o2_extent::put;
use o2_model::Geo;
use o2_tables::RefcountTreeRow;
use o2_view::{View, ViewFault};
use std::alloc::Global;

/// The refcount trees of a volume, and where checks that are judged tree by tree fail.
#[derive(Debug, Drop)]
pub struct TreeSurvey {
    /// The trees, their roots rising.
    pub rows: Vec<RefcountTreeRow>,
    /// The blocks at which REF_TREE fails for a tree, some of them more than once.
    pub trees: Vec<u64>,
    /// The leaves of the trees' lists at which EB_NEXT fails.
    pub next_leaves: Vec<u64>,
    /// The roots at which LAST_EB fails.
    pub last_leaves: Vec<u64>,
}

/// No tree was read yet.
fn start_survey(alloc: Global) -> TreeSurvey
    ensures { (v : Volume) → AreTreesRead v [] result }
{
    TreeSurvey {
        rows: Vec::new(alloc),
        trees: Vec::new(alloc),
        next_leaves: Vec::new(alloc),
        last_leaves: Vec::new(alloc),
    }
}

/// Adds blocks at the end.
fn add_blocks(blocks: &mut Vec<u64>, more: &[u64]) -> Result<(), NoMemory>
    ensures { OnOk result (blocks.new.items ≡ blocks.old.items ++ more.now) }
{
    let Ok(()) = blocks.extend_from_slice(more) else {
        return Err(NoMemory);
    };
    Ok(())
}

/// Adds what was read of one tree more.
fn add_tree(survey: &mut TreeSurvey, tree: TreeReading) -> Result<(), NoMemory>
    ensures { OnOk result ((v : Volume) (roots : List ℕ) (root : ℕ) → AreTreesRead v roots survey.old → IsTreeReading v root tree
        → AreTreesRead v (push roots root) survey.new) }
{
    add_blocks(&mut survey.trees, tree.faults.as_slice())?;
    add_blocks(&mut survey.next_leaves, tree.next_leaves.as_slice())?;
    add_blocks(&mut survey.last_leaves, tree.last_leaves.as_slice())?;
    put(&mut survey.rows, tree.row)
}

/// Reads the tree with this root, and adds it.
fn add_root<D: Disk, const N: usize>(
    alloc: Global,
    view: &mut View<'_, D, N>,
    geo: &Geo,
    root: u64,
    survey: &mut TreeSurvey,
) -> Result<(), ViewFault>
    requires { LiesIn geo.now view.old }
    ensures added { OnOk result ((v : Volume) → Shows view.old geo.now v → (roots : List ℕ) → AreTreesRead v roots survey.old
        → AreTreesRead v (push roots root) survey.new) }
    ensures reads { OnlyReads view.old view.new }
    ensures fails { IfErr result (BlockFails view.old view.new) }
{
    let tree = read_whole(alloc, view, geo, root)?;
    add_tree(survey, tree)?;
    Ok(())
}

/// Reads the trees with these roots, one after the other.
#[tactic(auto, using(o2_extent::proofs::Views::still_in, o2_extent::proofs::Views::only_both))]
fn read_trees<D: Disk, const N: usize>(
    alloc: Global,
    view: &mut View<'_, D, N>,
    geo: &Geo,
    roots: &[u64],
) -> Result<TreeSurvey, ViewFault>
    requires { LiesIn geo.now view.old }
    ensures read { IfOk result (λ survey. (v : Volume) → Shows view.old geo.now v → AreTreesRead v roots.now survey) }
    ensures reads { OnlyReads view.old view.new }
    ensures fails { IfErr result (BlockFails view.old view.new) }
{
    let mut survey = start_survey(alloc);
    for root in roots {
        add_root(alloc, view, geo, *root, &mut survey)?;
    }
    Ok(survey)
}

/// The refcount trees with these roots, as a table, and where REF_TREE, EB_NEXT and LAST_EB fail for them. Each root and each leaf
/// is looked at once, and those out of range are not. NoMemory where memory runs out, DeviceFault where a read fails.
pub fn refcount_trees<D: Disk, const N: usize>(
    alloc: Global,
    view: &mut View<'_, D, N>,
    geo: &Geo,
    roots: &[u64],
) -> Result<TreeSurvey, ViewFault>
    requires { LiesIn geo.now view.old }
    ensures told { IfOk result (λ survey. (v : Volume) → Shows view.old geo.now v → roots.now ≡ refcount_roots v → IsTreeSurvey v survey) }
    ensures reads { OnlyReads view.old view.new }
    ensures fails { IfErr result (BlockFails view.old view.new) }
{
    read_trees(alloc, view, geo, roots)
}
