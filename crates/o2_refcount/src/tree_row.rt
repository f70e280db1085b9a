// A refcount tree, read once.
ghost use Rattle.std.specs.Prelude.{◌≡◌, ◌^◌, ℕ, List, false, ◌≤◌, length, OnOk, IfOk};
ghost use Rattle.std.specs.Result.{IfErr};
ghost use Rattle.o2_model.specs.Checks.EbNext.{leaf_blocks, next_faults};
ghost use Rattle.o2_model.specs.Checks.RefTree.{ref_tree_faults_of};
ghost use Rattle.o2_model.specs.RefcountTrees.{refcounts, refcount_leaves, leaf_list};
ghost use Rattle.o2_model.specs.Volume.{Volume, is_in_range};
ghost use Rattle.o2_tables.specs.Rows.{IsRefcountTreeRow};
ghost use Rattle.o2_view.specs.Geos.{LiesIn};
ghost use Rattle.o2_view.specs.OwnChecks.{BlockFails};
ghost use Rattle.o2_view.specs.Views.{Shows, ShowsBytes, OnlyReads};
ghost use Rattle.o2_refcount.specs.Readings.{Keeps, nothing_read};
ghost use Rattle.o2_refcount.specs.TreeReadings.{AreRefcountBlockRows, IsTreeReading, last_faults_of};

use crate::block_records::read_bytes;
use crate::block_row::{row_of, row_out_of_range};
use crate::list_rows::{extent_rows, other_last_leaf};
use crate::reading::{Reading, add_fault};
use crate::tree::{named_blocks, read_blocks, start_at};
use o2_disk::{Disk, NoMemory};
use o2_extent::{has_leaf_blocks, is_block_in_range, look, refcount_root};
use o2_judges_blocks::eb_next;
use o2_model::{Geo, Items, Leaf, RefRecords};
use o2_ondisk::read_refcount_block;
use o2_tables::{RefcountBlockRow, RefcountTreeRow};
use o2_view::{View, ViewFault};
use std::alloc::Global;

/// What was read of a refcount tree.
#[derive(Debug, Drop)]
pub struct TreeReading {
    pub row: RefcountTreeRow,
    /// The blocks at which REF_TREE fails for this tree: first the root for itself and its list, then those whose records are at
    /// fault, in order. So the root can come twice.
    pub faults: Vec<u64>,
    /// The leaves of its list at which EB_NEXT fails.
    pub next_leaves: Vec<u64>,
    /// The root, where LAST_EB fails at it, or nothing.
    pub last_leaves: Vec<u64>,
}

/// Reads the records of the tree with this root, where these are the root's bytes and its list names these leaves. Answers the
/// rows of its leaves.
fn read_leaves<D: Disk, const N: usize>(
    alloc: Global,
    view: &mut View<'_, D, N>,
    geo: &Geo,
    root: u64,
    bytes: &[u8],
    leaves: &[Leaf],
    reading: &mut Reading,
) -> Result<Vec<RefcountBlockRow>, ViewFault>
    requires geo { LiesIn geo.now view.old }
    requires size { length bytes.now ≡ 2 ^ geo.now.block_bits }
    requires long { 512 ≤ length bytes.now }
    ensures rows { IfOk result (λ rows. (v : Volume) → ShowsBytes view.old geo.now root bytes.now v → leaves.now ≡ (leaf_list v root).leaves
        → AreRefcountBlockRows v (refcount_leaves v root) rows.items) }
    ensures read { OnOk result ((v : Volume) → ShowsBytes view.old geo.now root bytes.now v → leaves.now ≡ (leaf_list v root).leaves
        → (before : List ℕ) → Keeps before reading.old nothing_read → Keeps before reading.new (refcounts v root)) }
    ensures reads { OnlyReads view.old view.new }
    ensures fails { IfErr result (BlockFails view.old view.new) }
{
    if !has_leaf_blocks(geo, root, &read_refcount_block(bytes)) {
        read_bytes(geo, root, bytes, reading)?;
        return Ok(Vec::new(alloc));
    }
    let blocks = named_blocks(alloc, leaves)?;
    read_blocks(alloc, view, geo, blocks.as_slice(), reading)
}

/// Reads the tree with this root, where these are the root's bytes.
#[tactic(auto, using(o2_extent::proofs::Sizes::some_bytes, o2_extent::proofs::Views::still_in, o2_extent::proofs::Views::only_both))]
fn read_in<D: Disk, const N: usize>(
    alloc: Global,
    view: &mut View<'_, D, N>,
    geo: &Geo,
    root: u64,
    bytes: &[u8],
) -> Result<TreeReading, ViewFault>
    requires geo { LiesIn geo.now view.old }
    requires size { length bytes.now ≡ 2 ^ geo.now.block_bits }
    ensures told { IfOk result (λ tree. (v : Volume) → ShowsBytes view.old geo.now root bytes.now v → IsTreeReading v root tree) }
    ensures reads { OnlyReads view.old view.new }
    ensures fails { IfErr result (BlockFails view.old view.new) }
{
    let fields = read_refcount_block(bytes);
    let list = refcount_root(alloc, view, geo, root, bytes)?;
    let mut reading = start_at(alloc, root, list.is_sound)?;
    let named = list.leaves.as_slice();
    let leaves = read_leaves(alloc, view, geo, root, bytes, named, &mut reading)?;
    let blocks = list.extent_blocks.as_slice();
    let extent_blocks = extent_rows(alloc, blocks)?;
    let next_leaves = eb_next(alloc, blocks)?;
    let last_leaves = other_last_leaf(alloc, geo, root, &fields, blocks)?;
    Ok(TreeReading {
        row: RefcountTreeRow {
            root: row_of(geo, root, &fields),
            users: fields.count,
            extent_blocks: Items::from(extent_blocks),
            leaves: Items::from(leaves),
            records: RefRecords::from(reading.records),
        },
        faults: reading.faults,
        next_leaves,
        last_leaves,
    })
}

/// What is told of a root in which no structure can be: it is at fault for itself, and for its records.
fn not_read(alloc: Global, root: u64) -> Result<TreeReading, NoMemory>
    ensures { IfOk result (λ tree. (v : Volume) → is_in_range v root ≡ false → IsTreeReading v root tree) }
{
    let mut reading = start_at(alloc, root, false)?;
    add_fault(&mut reading, root)?;
    Ok(TreeReading {
        row: RefcountTreeRow {
            root: row_out_of_range(root),
            users: 0,
            extent_blocks: Items::from(Vec::new(alloc)),
            leaves: Items::from(Vec::new(alloc)),
            records: RefRecords::from(reading.records),
        },
        faults: reading.faults,
        next_leaves: Vec::new(alloc),
        last_leaves: Vec::new(alloc),
    })
}

/// The tree with this root, or what can be told where it is none.
pub fn read_whole<D: Disk, const N: usize>(
    alloc: Global,
    view: &mut View<'_, D, N>,
    geo: &Geo,
    root: u64,
) -> Result<TreeReading, ViewFault>
    requires { LiesIn geo.now view.old }
    ensures told { IfOk result (λ tree. (v : Volume) → Shows view.old geo.now v → IsTreeReading v root tree) }
    ensures reads { OnlyReads view.old view.new }
    ensures fails { IfErr result (BlockFails view.old view.new) }
{
    if !is_block_in_range(geo, root) {
        return Ok(not_read(alloc, root)?);
    }
    let block = look(view, geo, root)?;
    read_in(alloc, view, geo, root, block.as_slice())
}

/// The row of the refcount tree with this root, sound or not, and where the checks fail that are judged tree by tree. The root
/// and each leaf are looked at once, and those out of range are not. NoMemory where memory runs out, DeviceFault where a read
/// fails.
pub fn read_tree_row<D: Disk, const N: usize>(
    alloc: Global,
    view: &mut View<'_, D, N>,
    geo: &Geo,
    root: u64,
) -> Result<TreeReading, ViewFault>
    requires { LiesIn geo.now view.old }
    ensures row { IfOk result (λ tree. (v : Volume) → Shows view.old geo.now v → IsRefcountTreeRow v tree.row × (tree.row.root.block ≡ root)) }
    ensures faults { IfOk result (λ tree. (v : Volume) → Shows view.old geo.now v → tree.faults.items ≡ ref_tree_faults_of v root) }
    ensures next { IfOk result (λ tree. (v : Volume) → Shows view.old geo.now v → tree.next_leaves.items ≡ next_faults v (leaf_blocks v (leaf_list v root))) }
    // The root where it has leaf blocks and does not name the last leaf of its list.
    ensures last { IfOk result (λ tree. (v : Volume) → Shows view.old geo.now v → tree.last_leaves.items ≡ last_faults_of v root) }
    ensures reads { OnlyReads view.old view.new }
    ensures fails { IfErr result (BlockFails view.old view.new) }
{
    read_whole(alloc, view, geo, root)
}
