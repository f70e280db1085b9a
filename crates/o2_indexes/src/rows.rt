// What the table keeps of an index.
ghost use Rattle.std.specs.Prelude.{◌≡◌, ◌&&◌, ℕ, false, map, IfOk};
ghost use Rattle.o2_model.specs.Indexes.{index_root, dx_root, is_index_root, index_extents};
ghost use Rattle.o2_model.specs.Volume.{Volume};
ghost use Rattle.o2_view.specs.Geos.{HasSizes};
ghost use Rattle.o2_extent.specs.Readings.{Keeps};
ghost use Rattle.o2_tables.specs.Rows.{run_of as run_told};
ghost use Rattle.o2_tree.specs.TreeRows.{is_sound_index_alone, IsIndexRow};
ghost use Rattle.o2_indexes.specs.Readings.{origin_row as row_told};

use o2_disk::NoMemory;
use o2_extent::{Leaf, ListBlock, Reading, blocks_per_cluster};
use o2_model::{Geo, Items, Origin};
use o2_ondisk::{DxRoot, ExtentFlags};
use o2_tables::{ClusterRun, ExtentBlockRow};
use o2_tally::put;
use o2_tree::IndexRow;
use std::alloc::Global;

/// The clusters under the record. A record of the volume begins in a cluster whose number has 32 bits, so that none is refused.
fn run_of(geo: &Geo, leaf: &Leaf) -> Result<ClusterRun, NoMemory>
    requires { HasSizes geo.now }
    ensures { IfOk result (λ run. (v : Volume) → v.geo ≡ geo.now → run ≡ run_told v leaf.now) }
{
    let per_cluster = blocks_per_cluster(geo);
    let Ok(start) = u32::try_from(leaf.block / per_cluster) else {
        return Err(NoMemory);
    };
    Ok(ClusterRun {
        start,
        clusters: leaf.clusters,
        is_shared: ExtentFlags(leaf.flags).has(ExtentFlags::REFCOUNTED),
    })
}

/// The clusters under the records, in order.
pub fn runs_of(alloc: Global, geo: &Geo, leaves: &[Leaf]) -> Result<Vec<ClusterRun>, NoMemory>
    requires { HasSizes geo.now }
    ensures { IfOk result (λ runs. (v : Volume) → v.geo ≡ geo.now → runs.items ≡ map (run_told v) leaves.now) }
{
    let mut runs = Vec::new(alloc);
    for leaf in leaves {
        put(&mut runs, run_of(geo, leaf)?)?;
    }
    Ok(runs)
}

/// The row of an extent block.
fn origin_row(block: &ListBlock) -> ExtentBlockRow
    ensures { result ≡ row_told block.now }
{
    ExtentBlockRow {
        block: block.block,
        origin: Origin {
            slot: block.fields.suballoc_slot,
            bit: block.fields.suballoc_bit,
            loc: block.fields.suballoc_loc,
        },
    }
}

/// The rows of the extent blocks, in order.
pub fn origin_rows(alloc: Global, blocks: &[ListBlock]) -> Result<Vec<ExtentBlockRow>, NoMemory>
    ensures { IfOk result (λ rows. rows.items ≡ map row_told blocks.now) }
{
    match blocks.iter().map(|block| origin_row(block)).collect(alloc) {
        Ok(rows) => Ok(rows),
        Err(_) => Err(NoMemory),
    }
}

/// The row of an index whose root is none of this directory: there is nothing to tell but where it should be.
pub fn row_without_root(alloc: Global, directory: u64, root: u64) -> IndexRow
    ensures of { result.directory ≡ directory }
    ensures told { (v : Volume) → index_root v directory ≡ root → is_index_root v directory root ≡ false → IsIndexRow v result }
{
    IndexRow {
        directory,
        root: ExtentBlockRow {
            block: root,
            origin: Origin {
                slot: 0,
                bit: 0,
                loc: 0,
            },
        },
        extent_blocks: Items::from(Vec::new(alloc)),
        runs: Items::from(Vec::new(alloc)),
        is_sound_alone: false,
    }
}

/// The row of an index whose root has these fields and this list. NoMemory where memory runs out.
pub fn row_of(
    alloc: Global,
    geo: &Geo,
    directory: u64,
    root: u64,
    fields: &DxRoot,
    reading: &Reading,
    is_sound_alone: bool,
) -> Result<IndexRow, NoMemory>
    requires { HasSizes geo.now }
    ensures of { IfOk result (λ row. row.directory ≡ directory) }
    ensures told { IfOk result (λ row. (v : Volume) → v.geo ≡ geo.now → index_root v directory ≡ root → fields.now ≡ dx_root v root
        → Keeps v reading.now (index_extents v directory) → is_sound_alone ≡ is_sound_index_alone v directory → IsIndexRow v row) }
{
    let runs = runs_of(alloc, geo, &reading.leaves)?;
    let extent_blocks = origin_rows(alloc, &reading.blocks)?;
    Ok(IndexRow {
        directory,
        root: ExtentBlockRow {
            block: root,
            origin: Origin {
                slot: fields.suballoc_slot,
                bit: fields.suballoc_bit,
                loc: fields.suballoc_loc,
            },
        },
        extent_blocks: Items::from(extent_blocks),
        runs: Items::from(runs),
        is_sound_alone,
    })
}
