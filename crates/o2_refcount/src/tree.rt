// A refcount tree as it is read, block by block.
ghost use Rattle.std.specs.Prelude.{◌≡◌, ℕ, ◌≤◌, List, length, map, OnOk, IfOk};
ghost use Rattle.std.specs.Result.{IfErr};
ghost use Rattle.o2_model.specs.Checks.RefTree.{is_sound_root_block};
ghost use Rattle.o2_model.specs.Faults.{fails_unless};
ghost use Rattle.o2_model.specs.RefcountTrees.{Refcounts, refcounts, leaf_list, read_refcount_block, record_blocks as blocks_of_tree};
ghost use Rattle.o2_model.specs.Volume.{Volume};
ghost use Rattle.o2_model.specs.Words.{push};
ghost use Rattle.o2_view.specs.Geos.{HasSizes, LiesIn, Reaches};
ghost use Rattle.o2_view.specs.OwnChecks.{BlockFails};
ghost use Rattle.o2_view.specs.Views.{Shows, OnlyReads};
ghost use Rattle.o2_refcount.specs.Readings.{Keeps, nothing_read, with_blocks};
ghost use Rattle.o2_refcount.specs.TreeReadings.{AreRefcountBlockRows};

use crate::block_records::read_block;
use crate::reading::{Reading, add_fault, start};
use o2_disk::{Disk, NoMemory};
use o2_extent::{has_leaf_blocks, look, put, refcount_root};
use o2_model::{Geo, Leaf};
use o2_ondisk::read_refcount_block;
use o2_tables::RefcountBlockRow;
use o2_view::{View, ViewFault};
use std::alloc::{AllocError, Global};

/// A refcount tree as it is read.
#[derive(Debug, Drop)]
pub struct Tree {
    /// The blocks that hold its records, in order.
    pub blocks: Vec<u64>,
    /// What was read of them.
    pub reading: Reading,
}

/// Reads the records of block b, and puts its row at the end.
fn add_block<D: Disk, const N: usize>(
    view: &mut View<'_, D, N>,
    geo: &Geo,
    b: u64,
    reading: &mut Reading,
    rows: &mut Vec<RefcountBlockRow>,
) -> Result<(), ViewFault>
    requires { LiesIn geo.now view.old }
    ensures rows { OnOk result ((v : Volume) → Shows view.old geo.now v → (blocks : List ℕ)
        → AreRefcountBlockRows v blocks rows.old.items → AreRefcountBlockRows v (push blocks b) rows.new.items) }
    ensures read { OnOk result ((v : Volume) → Shows view.old geo.now v → (before : List ℕ) (t : Refcounts) → Keeps before reading.old t
        → Keeps before reading.new (read_refcount_block v t b)) }
    ensures reads { OnlyReads view.old view.new }
    ensures fails { IfErr result (BlockFails view.old view.new) }
{
    let row = read_block(view, geo, b, reading)?;
    put(rows, row)?;
    Ok(())
}

/// Reads the records of these blocks, one after the other, and answers their rows.
#[tactic(auto, using(o2_extent::proofs::Views::still_in, o2_extent::proofs::Views::only_both))]
pub fn read_blocks<D: Disk, const N: usize>(
    alloc: Global,
    view: &mut View<'_, D, N>,
    geo: &Geo,
    blocks: &[u64],
    reading: &mut Reading,
) -> Result<Vec<RefcountBlockRow>, ViewFault>
    requires { LiesIn geo.now view.old }
    ensures rows { IfOk result (λ rows. (v : Volume) → Shows view.old geo.now v → AreRefcountBlockRows v blocks.now rows.items) }
    ensures read { OnOk result ((v : Volume) → Shows view.old geo.now v → (before : List ℕ) (t : Refcounts) → Keeps before reading.old t
        → Keeps before reading.new (with_blocks v t blocks.now)) }
    ensures reads { OnlyReads view.old view.new }
    ensures fails { IfErr result (BlockFails view.old view.new) }
{
    let mut rows = Vec::new(alloc);
    for b in blocks {
        add_block(view, geo, *b, reading, &mut rows)?;
    }
    Ok(rows)
}

/// The blocks that these records name.
pub fn named_blocks(alloc: Global, leaves: &[Leaf]) -> Result<Vec<u64>, AllocError>
    ensures { IfOk result (λ blocks. blocks.items ≡ map (λ leaf. leaf.block) leaves.now) }
{
    leaves.iter().map(|leaf| leaf.block).collect(alloc)
}

/// The blocks that hold the records of the tree with this root, where these are the root's bytes and its list names these leaves.
fn record_blocks(
    alloc: Global,
    geo: &Geo,
    root: u64,
    bytes: &[u8],
    leaves: &[Leaf],
) -> Result<Vec<u64>, AllocError>
    requires sizes { HasSizes geo.now }
    requires long { 512 ≤ length bytes.now }
    ensures { IfOk result (λ blocks. (v : Volume) → v.geo ≡ geo.now → bytes.now ≡ v.at root → leaves.now ≡ (leaf_list v root).leaves
        → blocks.items ≡ blocks_of_tree v root) }
{
    if has_leaf_blocks(geo, root, &read_refcount_block(bytes)) {
        return named_blocks(alloc, leaves);
    }
    [root].to_vec(alloc)
}

/// Nothing was read but the root itself, which is at fault unless it is sound.
pub fn start_at(alloc: Global, root: u64, is_sound: bool) -> Result<Reading, NoMemory>
    ensures { IfOk result (λ reading. Keeps (fails_unless root is_sound) reading nothing_read) }
{
    let mut reading = start(alloc);
    if !is_sound {
        add_fault(&mut reading, root)?;
    }
    Ok(reading)
}

/// Reads the tree with this root: its list, and the records of each block.
#[tactic(auto, using(o2_extent::proofs::Views::still_in, o2_extent::proofs::Views::only_both))]
pub fn read_tree<D: Disk, const N: usize>(
    alloc: Global,
    view: &mut View<'_, D, N>,
    geo: &Geo,
    root: u64,
) -> Result<Tree, ViewFault>
    requires { Reaches geo.now view.old root }
    ensures blocks { IfOk result (λ tree. (v : Volume) → Shows view.old geo.now v → tree.blocks.items ≡ blocks_of_tree v root) }
    ensures read { IfOk result (λ tree. (v : Volume) → Shows view.old geo.now v
        → Keeps (fails_unless root (is_sound_root_block v root)) tree.reading (refcounts v root)) }
    ensures reads { OnlyReads view.old view.new }
    ensures fails { IfErr result (BlockFails view.old view.new) }
{
    let block = look(view, geo, root)?;
    let bytes = block.as_slice();
    let list = refcount_root(alloc, view, geo, root, bytes)?;
    let mut reading = start_at(alloc, root, list.is_sound)?;
    let blocks = record_blocks(alloc, geo, root, bytes, list.leaves.as_slice())?;
    read_blocks(alloc, view, geo, blocks.as_slice(), &mut reading)?;
    Ok(Tree { blocks, reading })
}
