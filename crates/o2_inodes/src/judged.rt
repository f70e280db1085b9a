// What is judged of an inode, while its dinode and its list are in hand.
ghost use Rattle.std.specs.Prelude.{◌≡◌, ◌++◌, ◌∷◌, [], ◌^◌, ◌≤◌, length, ℕ, IfOk, OnOk, if◌then◌else◌};
ghost use Rattle.o2_ondisk.specs.Bits.{has_bits, has_xattr_dyn_feature};
ghost use Rattle.o2_model.specs.Faults.{fails_unless};
ghost use Rattle.o2_model.specs.Checks.InodeKind.{inode_kind_faults};
ghost use Rattle.o2_model.specs.Checks.Extent.{extent_faults};
ghost use Rattle.o2_model.specs.Checks.InodeSize.{has_sound_size, inode_size_faults};
ghost use Rattle.o2_model.specs.Checks.EbNext.{leaf_blocks, next_faults};
ghost use Rattle.o2_model.specs.Extents.{Extents};
ghost use Rattle.o2_model.specs.Inodes.{extents};
ghost use Rattle.o2_model.specs.Volume.{Volume, dinode as dinode_in};
ghost use Rattle.o2_view.specs.Geos.{HasSizes};
ghost use Rattle.o2_extent.specs.Readings.{Keeps, AreListBlocks, Within};
ghost use Rattle.o2_dir.specs.Fails.{HoldsLeaves};
ghost use Rattle.o2_tree.specs.TreeWalks.{AreOwn};
ghost use Rattle.o2_inodes.specs.InodeSurveys.{last_faults_of};

use o2_dir::{ends_in_numbered, has_size_of_kind};
use o2_disk::NoMemory;
use o2_extent::{Leaf, ListBlock, Reading, has_list};
use o2_judges_blocks::{eb_next, last_leaf};
use o2_model::Geo;
use o2_ondisk::{Dinode, DynFeatures, read_dinode};
use o2_tally::put;
use std::alloc::Global;
use std::collections::BTreeSet;

/// Puts some blocks at the end.
pub fn put_all(found: &mut Vec<u64>, blocks: &[u64]) -> Result<(), NoMemory>
    ensures { OnOk result (found.new.items ≡ found.old.items ++ blocks.now) }
{
    match found.extend_from_slice(blocks) {
        Ok(()) => Ok(()),
        Err(_) => Err(NoMemory),
    }
}

/// Puts the block at the end, unless this holds.
fn put_unless(holds: bool, block: u64, found: &mut Vec<u64>) -> Result<(), NoMemory>
    ensures { OnOk result (found.new.items ≡ found.old.items ++ fails_unless block holds) }
{
    if holds {
        return Ok(());
    }
    put(found, block)
}

/// INODE_KIND of the inode with this dinode.
pub fn judge_kind(dinode: &Dinode, b: u64, found: &mut Vec<u64>) -> Result<(), NoMemory>
    ensures { OnOk result ((v : Volume) → dinode.now ≡ dinode_in v b → found.new.items ≡ found.old.items ++ inode_kind_faults v b) }
{
    put_unless(dinode.kind().is_some(), b, found)
}

/// EXTENT of the inode in block b with this list.
#[tactic(auto, using(o2_model::proofs::Readings::faults_of_own_list))]
pub fn judge_extents(b: u64, reading: &Reading, found: &mut Vec<u64>) -> Result<(), NoMemory>
    ensures { OnOk result ((v : Volume) → Keeps v reading.now (extents v b) → found.new.items ≡ found.old.items ++ extent_faults v b) }
{
    put_all(found, &reading.faults)
}

/// Whether INODE_SIZE holds for the inode whose dinode has these bytes, with these records; `own` are the volume's own inodes.
fn has_size(
    alloc: Global,
    geo: &Geo,
    own: &BTreeSet<u64>,
    b: u64,
    bytes: &[u8],
    leaves: &[Leaf],
) -> Result<bool, NoMemory>
    requires sizes { HasSizes geo.now }
    requires size { length bytes.now ≡ 2 ^ geo.now.block_bits }
    requires long { 512 ≤ length bytes.now }
    requires within { Within geo.now leaves.now }
    ensures { IfOk result (λ sound. (v : Volume) → v.geo ≡ geo.now → HoldsLeaves v b bytes.now leaves.now → AreOwn v own.now → sound ≡ has_sound_size v b) }
{
    let dinode = read_dinode(bytes);
    let may_be_file = ends_in_numbered(geo, dinode.size) || own.contains(&b);
    has_size_of_kind(alloc, geo, bytes, leaves, may_be_file)
}

/// INODE_SIZE of the same inode.
pub fn judge_size(
    alloc: Global,
    geo: &Geo,
    own: &BTreeSet<u64>,
    b: u64,
    bytes: &[u8],
    leaves: &[Leaf],
    found: &mut Vec<u64>,
) -> Result<(), NoMemory>
    requires sizes { HasSizes geo.now }
    requires size { length bytes.now ≡ 2 ^ geo.now.block_bits }
    requires long { 512 ≤ length bytes.now }
    requires within { Within geo.now leaves.now }
    ensures { OnOk result ((v : Volume) → v.geo ≡ geo.now → HoldsLeaves v b bytes.now leaves.now → AreOwn v own.now
        → found.new.items ≡ found.old.items ++ inode_size_faults v b) }
{
    let sound = has_size(alloc, geo, own, b, bytes, leaves)?;
    put_unless(sound, b, found)
}

/// EB_NEXT of the list with these extent blocks.
pub fn judge_next(alloc: Global, blocks: &[ListBlock], found: &mut Vec<u64>) -> Result<(), NoMemory>
    ensures { OnOk result ((v : Volume) (t : Extents) → AreListBlocks v t.blocks blocks.now
        → found.new.items ≡ found.old.items ++ next_faults v (leaf_blocks v t)) }
{
    let other = eb_next(alloc, blocks)?;
    put_all(found, &other)
}

/// LAST_EB of the inode with this dinode, where it has a list, whose extent blocks these are.
pub fn judge_last(
    dinode: &Dinode,
    b: u64,
    blocks: &[ListBlock],
    found: &mut Vec<u64>,
) -> Result<(), NoMemory>
    ensures { OnOk result ((v : Volume) → dinode.now ≡ dinode_in v b → AreListBlocks v (extents v b).blocks blocks.now
        → found.new.items ≡ found.old.items ++ last_faults_of v b) }
{
    if !has_list(dinode) {
        return Ok(());
    }
    put_unless(dinode.last_eb_blk == last_leaf(blocks), b, found)
}

/// Puts the inode in block b with this dinode at the end, where it has extended attributes.
pub fn put_attributes(dinode: &Dinode, b: u64, found: &mut Vec<u64>) -> Result<(), NoMemory>
    ensures { OnOk result ((v : Volume) → dinode.now ≡ dinode_in v b
        → found.new.items ≡ found.old.items ++ (if has_bits (dinode_in v b).dyn_features.0 has_xattr_dyn_feature then b ∷ [] else [])) }
{
    if !dinode.dyn_features.has(DynFeatures::HAS_XATTR) {
        return Ok(());
    }
    put(found, b)
}
