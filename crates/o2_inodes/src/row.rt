// What the table keeps of an inode.
ghost use Rattle.std.specs.Prelude.{◌≡◌, ℕ, IfOk};
ghost use Rattle.o2_model.specs.Inodes.{extents};
ghost use Rattle.o2_model.specs.Volume.{Volume, dinode as dinode_in};
ghost use Rattle.o2_view.specs.Geos.{HasSizes};
ghost use Rattle.o2_extent.specs.Readings.{Keeps};
ghost use Rattle.o2_tables.specs.Rows.{IsInodeRow, tree_named, tree_of};

use o2_disk::NoMemory;
use o2_extent::{Reading, is_block_in_range};
use o2_indexes::{origin_rows, runs_of};
use o2_model::{Geo, Items, Origin};
use o2_ondisk::{Dinode, DynFeatures};
use o2_tables::InodeRow;
use std::alloc::Global;

/// The root that the dinode names with HAS_REFCOUNT, in range or not.
fn named_tree(dinode: &Dinode) -> Option<u64>
    ensures { (v : Volume) (b : ℕ) → dinode.now ≡ dinode_in v b → result ≡ tree_named v b }
{
    if dinode.dyn_features.has(DynFeatures::HAS_REFCOUNT) {
        return Some(dinode.refcount_loc);
    }
    None
}

/// The same where it is in range.
fn tree(geo: &Geo, dinode: &Dinode) -> Option<u64>
    requires { HasSizes geo.now }
    ensures { (v : Volume) (b : ℕ) → v.geo ≡ geo.now → dinode.now ≡ dinode_in v b → result ≡ tree_of v b }
{
    let has_refcount = dinode.dyn_features.has(DynFeatures::HAS_REFCOUNT);
    if has_refcount && is_block_in_range(geo, dinode.refcount_loc) {
        return Some(dinode.refcount_loc);
    }
    None
}

/// The row of the inode with this dinode in block b, and with this list. NoMemory where memory runs out.
pub fn row_of(
    alloc: Global,
    geo: &Geo,
    b: u64,
    dinode: &Dinode,
    reading: &Reading,
) -> Result<InodeRow, NoMemory>
    requires { HasSizes geo.now }
    ensures of { IfOk result (λ row. row.block ≡ b) }
    ensures told { IfOk result (λ row. (v : Volume) → v.geo ≡ geo.now → dinode.now ≡ dinode_in v b → Keeps v reading.now (extents v b) → IsInodeRow v row) }
{
    let runs = runs_of(alloc, geo, &reading.leaves)?;
    let extent_blocks = origin_rows(alloc, &reading.blocks)?;
    Ok(InodeRow {
        block: b,
        kind: dinode.kind(),
        flags: dinode.flags,
        links: dinode.links(),
        clusters: dinode.clusters,
        origin: Origin {
            slot: dinode.suballoc_slot,
            bit: dinode.suballoc_bit,
            loc: dinode.suballoc_loc,
        },
        named_tree: named_tree(dinode),
        tree: tree(geo, dinode),
        runs: Items::from(runs),
        extent_blocks: Items::from(extent_blocks),
    })
}
