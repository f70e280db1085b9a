// The index of a directory, and its entries.
ghost use Rattle.std.specs.Prelude.{◌≡◌, ◌≤◌, true, ℕ, length, IfOk};
ghost use Rattle.std.specs.Result.{IfErr};
ghost use Rattle.o2_model.specs.Inodes.{is_directory};
ghost use Rattle.o2_model.specs.Volume.{Volume};
ghost use Rattle.o2_model.specs.Indexes.{index_root};
ghost use Rattle.o2_view.specs.Geos.{LiesIn, Reaches};
ghost use Rattle.o2_view.specs.OwnChecks.{BlockFails, NoneFails};
ghost use Rattle.o2_view.specs.Views.{Shows, OnlyReads};
ghost use Rattle.o2_extent.specs.Readings.{Within};
ghost use Rattle.o2_extent.specs.Owners.{HasRoomForEntries};
ghost use Rattle.o2_dir.specs.Fails.{DirFails};
ghost use Rattle.o2_dir.specs.IndexForms.{found_in_root, index_found, index_checks, entries_of_index};

use crate::DirFault;
use crate::index_leaf::add_index_entries;
use crate::index_leaves::add_leaves;
use o2_disk::Disk;
use o2_extent::{
    Leaf, holds_index_entries, index_header_at, index_root_records, is_block_in_range, look,
};
use o2_model::{Check, Geo, Items};
use o2_ondisk::{DxEntry, DynFeatures, read_dinode, read_dx_root};
use o2_view::{View, ViewFault};
use std::alloc::Global;

/// Index entries in their order.
pub type IndexEntries = Items<DxEntry>;

/// Where the list of entries, or of leaves, begins in the root of an index.
const ROOT_LIST: usize = 0xc0;

/// The index entries in the root of an index that has these bytes, or those of its leaves, which lie under these records. None
/// where one is no leaf of an index, or its list is not well formed.
pub fn entries_in_root<D: Disk, const N: usize>(
    alloc: Global,
    view: &mut View<'_, D, N>,
    geo: &Geo,
    bytes: &[u8],
    leaves: &[Leaf],
) -> Result<Option<IndexEntries>, ViewFault>
    requires geo { LiesIn geo.now view.old }
    requires long { 512 ≤ length bytes.now }
    requires room { HasRoomForEntries bytes.now }
    requires within { Within geo.now leaves.now }
    ensures told { IfOk result (λ found. (v : Volume) → Shows view.old geo.now v → (b : ℕ) → bytes.now ≡ v.at b → found ≡ found_in_root v b leaves.now) }
    ensures reads { OnlyReads view.old view.new }
    ensures fails { IfErr result (BlockFails view.old view.new) }
{
    let mut entries = Vec::new(alloc);
    if holds_index_entries(&read_dx_root(bytes)) {
        let used = index_header_at(bytes, ROOT_LIST).num_used;
        add_index_entries(bytes, ROOT_LIST, used, &mut entries)?;
        return Ok(Some(IndexEntries::from(entries)));
    }
    if !add_leaves(view, geo, leaves, &mut entries)? {
        return Ok(None);
    }
    Ok(Some(IndexEntries::from(entries)))
}

/// The index entries of the directory at `inode`, whose index has its root in this block. None where the root, its list or a leaf
/// is not well formed.
fn entries_under<D: Disk, const N: usize>(
    alloc: Global,
    view: &mut View<'_, D, N>,
    geo: &Geo,
    inode: u64,
    root: u64,
) -> Result<Option<IndexEntries>, ViewFault>
    requires geo { LiesIn geo.now view.old }
    ensures told { IfOk result (λ found. (v : Volume) → Shows view.old geo.now v → index_root v inode ≡ root → found ≡ index_found v inode) }
    ensures reads { OnlyReads view.old view.new }
    ensures fails { IfErr result (BlockFails view.old view.new) }
{
    if !is_block_in_range(geo, root) {
        return Ok(None);
    }
    let block = look(view, geo, root)?;
    let bytes = block.as_slice();
    if read_dx_root(bytes).dir_blkno != inode {
        return Ok(None);
    }
    let Some(leaves) = index_root_records(alloc, view, geo, root, bytes)? else {
        return Ok(None);
    };
    entries_in_root(alloc, view, geo, bytes, leaves.as_slice())
}

/// The entries of a directory's index, in the order of its leaves and of their lists: an empty list where the directory has no
/// INDEXED_DIR. Bad DX, at the directory, where the root, its list or a leaf is not well formed. Whether the entries agree with
/// the directory is not judged.
pub fn index_entries<D: Disk, const N: usize>(
    alloc: Global,
    view: &mut View<'_, D, N>,
    geo: &Geo,
    inode: u64,
) -> Result<IndexEntries, DirFault>
    requires inode { Reaches geo.now view.old inode }
    requires directory { (v : Volume) → Shows view.old geo.now v → is_directory v inode ≡ true }
    ensures told { IfOk result (λ entries. (v : Volume) → Shows view.old geo.now v → NoneFails (index_checks inode) v × (entries ≡ entries_of_index v inode)) }
    ensures reads { OnlyReads view.old view.new }
    ensures fails { IfErr result (DirFails view.old view.new geo.now (index_checks inode) ⊥) }
{
    let block = look(view, geo, inode)?;
    let dinode = read_dinode(block.as_slice());
    if !dinode.dyn_features.has(DynFeatures::INDEXED_DIR) {
        return Ok(IndexEntries::from(Vec::new(alloc)));
    }
    let Some(entries) = entries_under(alloc, view, geo, inode, dinode.dx_root)? else {
        return Err(DirFault::Bad {
            check: Check::Dx,
            block: inode,
        });
    };
    Ok(entries)
}

#[cfg(test)]
mod tests;
