// The records of a refcount tree.
ghost use Rattle.std.specs.Prelude.{◌≡◌, IfOk};
ghost use Rattle.std.specs.Result.{IfErr};
ghost use Rattle.o2_model.specs.RefcountTrees.{refcounts, record_blocks};
ghost use Rattle.o2_model.specs.Volume.{Volume};
ghost use Rattle.o2_view.specs.Geos.{Reaches};
ghost use Rattle.o2_view.specs.OwnChecks.{NoneFails, ReadFails};
ghost use Rattle.o2_view.specs.Views.{Shows, OnlyReads};
ghost use Rattle.o2_refcount.specs.Readings.{ref_tree_checks};

use crate::tree::{Tree, read_tree};
use o2_disk::Disk;
use o2_extent::least;
use o2_model::{Check, Geo, RefRecords};
use o2_view::{ReadFault, View};
use std::alloc::Global;

/// Reads the tree with this root. Bad where REF_TREE fails for it.
pub fn sound_tree<D: Disk, const N: usize>(
    alloc: Global,
    view: &mut View<'_, D, N>,
    geo: &Geo,
    root: u64,
) -> Result<Tree, ReadFault>
    requires { Reaches geo.now view.old root }
    ensures sound { IfOk result (λ tree. (v : Volume) → Shows view.old geo.now v → NoneFails (ref_tree_checks root) v) }
    ensures records { IfOk result (λ tree. (v : Volume) → Shows view.old geo.now v → tree.reading.records.items ≡ (refcounts v root).records) }
    ensures blocks { IfOk result (λ tree. (v : Volume) → Shows view.old geo.now v → tree.blocks.items ≡ record_blocks v root) }
    ensures fails { IfErr result (ReadFails view.old view.new geo.now (ref_tree_checks root)) }
    ensures reads { OnlyReads view.old view.new }
{
    let tree = read_tree(alloc, view, geo, root)?;
    if let Some(block) = least(tree.reading.faults.as_slice()) {
        return Err(ReadFault::Bad {
            check: Check::RefTree,
            block,
        });
    }
    Ok(tree)
}

/// The records of the refcount tree with this root, block by block, each with the block that it stands in. Bad where REF_TREE
/// fails for this tree, with the least block at which it does: all of its blocks are judged.
pub fn counts<D: Disk, const N: usize>(
    alloc: Global,
    view: &mut View<'_, D, N>,
    geo: &Geo,
    root: u64,
) -> Result<RefRecords, ReadFault>
    requires { Reaches geo.now view.old root }
    ensures told { IfOk result (λ records. (v : Volume) → Shows view.old geo.now v
        → NoneFails (ref_tree_checks root) v × (records ≡ (refcounts v root).records)) }
    ensures fails { IfErr result (ReadFails view.old view.new geo.now (ref_tree_checks root)) }
    ensures reads { OnlyReads view.old view.new }
{
    let tree = sound_tree(alloc, view, geo, root)?;
    let reading = tree.reading;
    Ok(RefRecords::from(reading.records))
}
