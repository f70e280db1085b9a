// What the extent blocks of a tree's list tell.
ghost use Rattle.std.specs.Prelude.{◌≡◌, ℕ, List, map, IfOk};
ghost use Rattle.o2_model.specs.RefcountTrees.{refcount_block, leaf_list};
ghost use Rattle.o2_model.specs.Volume.{Volume};
ghost use Rattle.o2_extent.specs.Readings.{AreListBlocks};
ghost use Rattle.o2_tables.specs.Rows.{AreExtentBlockRows};
ghost use Rattle.o2_view.specs.Geos.{HasSizes};
ghost use Rattle.o2_refcount.specs.TreeReadings.{extent_row, last_faults_of};

use o2_disk::NoMemory;
use o2_extent::{ListBlock, has_leaf_blocks, put};
use o2_judges_blocks::last_leaf;
use o2_model::{Geo, Origin};
use o2_ondisk::RefcountBlock;
use o2_tables::ExtentBlockRow;
use std::alloc::{AllocError, Global};

/// The row of an extent block.
fn row_of_block(row: &ListBlock) -> ExtentBlockRow
    ensures { result ≡ extent_row row.now }
{
    ExtentBlockRow {
        block: row.block,
        origin: Origin {
            slot: row.fields.suballoc_slot,
            bit: row.fields.suballoc_bit,
            loc: row.fields.suballoc_loc,
        },
    }
}

/// The rows of these extent blocks, in order.
fn rows_of_blocks(alloc: Global, blocks: &[ListBlock]) -> Result<Vec<ExtentBlockRow>, AllocError>
    ensures { IfOk result (λ rows. rows.items ≡ map extent_row blocks.now) }
{
    blocks.iter().map(|row| row_of_block(row)).collect(alloc)
}

/// The rows of the extent blocks of a list, in order.
pub fn extent_rows(alloc: Global, blocks: &[ListBlock]) -> Result<Vec<ExtentBlockRow>, AllocError>
    ensures { IfOk result (λ rows. (v : Volume) (listed : List ℕ) → AreListBlocks v listed blocks.now → AreExtentBlockRows v listed rows.items) }
{
    rows_of_blocks(alloc, blocks)
}

/// The root, where it has leaf blocks and names another last leaf than that of its list, which has these extent blocks.
pub fn other_last_leaf(
    alloc: Global,
    geo: &Geo,
    root: u64,
    fields: &RefcountBlock,
    blocks: &[ListBlock],
) -> Result<Vec<u64>, NoMemory>
    requires { HasSizes geo.now }
    ensures { IfOk result (λ found. (v : Volume) → v.geo ≡ geo.now → fields.now ≡ refcount_block v root → AreListBlocks v (leaf_list v root).blocks blocks.now
        → found.items ≡ last_faults_of v root) }
{
    let mut found = Vec::new(alloc);
    if has_leaf_blocks(geo, root, fields) && fields.last_eb_blk != last_leaf(blocks) {
        put(&mut found, root)?;
    }
    Ok(found)
}
