// The refcount tree of a file, and what is wrong with it.
ghost use Rattle.std.specs.Prelude.{◌≡◌, ◌++◌, true, IfOk, OnOk};
ghost use Rattle.std.specs.List.{list_any};
ghost use Rattle.std.specs.Result.{IfErr};
ghost use Rattle.o2_model.specs.Faults.{fails_unless};
ghost use Rattle.o2_model.specs.LeafRecords.{is_refcounted as is_marked};
ghost use Rattle.o2_model.specs.RefcountTrees.{has_refcount, refcounts};
ghost use Rattle.o2_model.specs.Volume.{dinode, Volume};
ghost use Rattle.o2_view.specs.Geos.{HasSizes, LiesIn};
ghost use Rattle.o2_view.specs.OwnChecks.{NoneFails, ReadFails};
ghost use Rattle.o2_view.specs.Views.{Shows, OnlyReads};
ghost use Rattle.o2_dir.specs.InodeReadings.{TellsSound};
ghost use Rattle.o2_debug.specs.Objects.{has_tree_for_records, tree_checks};

use o2_dir::InodeReading;
use o2_disk::{Disk, NoMemory};
use o2_extent::{Leaf, is_block_in_range, least, put};
use o2_model::{Check, Geo};
use o2_ondisk::ExtentFlags;
use o2_refcount::{RefRecords, read_tree_row};
use o2_view::{ReadFault, View};
use std::alloc::Global;

/// Whether one of the records is marked as shared.
fn has_refcounted(leaves: &[Leaf]) -> bool
    ensures { result ≡ list_any is_marked leaves.now }
{
    leaves.iter().any(|leaf| ExtentFlags(leaf.flags).has(ExtentFlags::REFCOUNTED))
}

/// Whether a sound inode with HAS_REFCOUNT has a tree, where it has records that are marked as shared.
#[tactic(auto, using(crate::proofs::TreeLemmas::marked_records))]
fn has_tree(geo: &Geo, reading: &InodeReading) -> bool
    requires { HasSizes geo.now }
    ensures { (v : Volume) → v.geo ≡ geo.now → TellsSound v reading.now.inode reading.now → has_refcount v reading.now.inode ≡ true
        → result ≡ has_tree_for_records v reading.now.inode }
{
    !has_refcounted(reading.leaves.as_slice())
        || is_block_in_range(geo, reading.dinode.refcount_loc)
}

/// Adds the inode to the blocks at which REF_TREE fails, where it fails for the inode itself.
fn add_own(geo: &Geo, reading: &InodeReading, faults: &mut Vec<u64>) -> Result<(), NoMemory>
    requires { HasSizes geo.now }
    ensures { OnOk result ((v : Volume) → v.geo ≡ geo.now → TellsSound v reading.now.inode reading.now → has_refcount v reading.now.inode ≡ true
        → faults.new.items ≡ faults.old.items ++ fails_unless reading.now.inode (has_tree_for_records v reading.now.inode)) }
{
    if !has_tree(geo, reading) {
        put(faults, reading.inode)?;
    }
    Ok(())
}

/// The records of the refcount tree of a sound file that was read before and has HAS_REFCOUNT, block by block. Bad where REF_TREE
/// fails for the tree or the file, with the least block at which it does.
pub fn tree_records<D: Disk, const N: usize>(
    alloc: Global,
    view: &mut View<'_, D, N>,
    geo: &Geo,
    reading: &InodeReading,
) -> Result<RefRecords, ReadFault>
    requires geo { LiesIn geo.now view.old }
    requires sound { (v : Volume) → Shows view.old geo.now v → TellsSound v reading.now.inode reading.now }
    requires shares { (v : Volume) → Shows view.old geo.now v → has_refcount v reading.now.inode ≡ true }
    ensures told { IfOk result (λ records. (v : Volume) → Shows view.old geo.now v
        → NoneFails (tree_checks reading.now.inode) v × (records ≡ (refcounts v (dinode v reading.now.inode).refcount_loc).records)) }
    ensures reads { OnlyReads view.old view.new }
    ensures fails { IfErr result (ReadFails view.old view.new geo.now (tree_checks reading.now.inode)) }
{
    let tree = read_tree_row(alloc, view, geo, reading.dinode.refcount_loc)?;
    let mut faults = tree.faults;
    add_own(geo, reading, &mut faults)?;
    if let Some(block) = least(faults.as_slice()) {
        return Err(ReadFault::Bad {
            check: Check::RefTree,
            block,
        });
    }
    let row = tree.row;
    Ok(row.records)
}
