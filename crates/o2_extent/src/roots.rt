// Index roots and refcount roots, and the leaf records of their lists.
ghost use Rattle.std.specs.Prelude.{◌≡◌, ◌+◌, ◌*◌, ◌^◌, ◌≤◌, ◌&&◌, ℕ, nat_le, true, length, drop, IfOk};
ghost use Rattle.std.specs.Option.{IfSome};
ghost use Rattle.std.specs.Result.{IfErr};
ghost use Rattle.o2_ondisk.specs.Bits.{has_bits, inline_index_flag};
ghost use Rattle.o2_ondisk.specs.DxListHeaders.{dx_list_header_of};
ghost use Rattle.o2_ondisk.specs.DxRoots.{dx_root_list_place};
ghost use Rattle.o2_model.specs.Orders.{is_none_of};
ghost use Rattle.o2_model.specs.Indexes.{dx_root, is_sound_dx_list};
ghost use Rattle.o2_model.specs.RefcountTrees.{leaf_list};
ghost use Rattle.o2_model.specs.Checks.RefTree.{is_sound_root_block};
ghost use Rattle.o2_model.specs.Volume.{Volume};
ghost use Rattle.o2_view.specs.OwnChecks.{BlockFails};
ghost use Rattle.o2_view.specs.Counted.{CallsBut};
ghost use Rattle.o2_view.specs.Geos.{HasSizes, LiesIn};
ghost use Rattle.o2_view.specs.Views.{view_state, view_blocks, ShowsBytes, OnlyReads};
ghost use Rattle.o2_extent.specs.Readings.{Within};
ghost use Rattle.o2_extent.specs.Owners.{says_index_root, says_refcount_root, is_some_index_root, index_list, is_sound_index_root, where_sound, HasRoomForEntries};

use crate::Leaves;
use crate::block_list::read_block_list;
use crate::geometry::{block_bytes, is_block_in_range};
use crate::reading::Reading;
use crate::refcount_roots::refcount_root;
use crate::rule::LeafRule;
use o2_disk::Disk;
use o2_model::Geo;
use o2_ondisk::{
    DxListHeader, DxRoot, Signature, read_dx_list_header, read_dx_root, read_refcount_block,
};
use o2_view::{View, ViewFault};
use std::alloc::Global;

/// `OCFS2_DX_FLAG_INLINE` of `dr_flags`: the index entries stand in the root.
const INLINE_INDEX: u8 = 0x1;

/// Whether the bytes have the signature of an index root.
pub fn has_index_signature(bytes: &[u8]) -> bool
    requires { 512 ≤ length bytes.now }
    ensures { (v : Volume) (b : ℕ) → bytes.now ≡ v.at b → result ≡ says_index_root v b }
{
    read_dx_root(bytes).signature.0 == Signature::DXDIR01.0
}

/// Whether the bytes have the signature of a refcount block.
pub fn has_refcount_signature(bytes: &[u8]) -> bool
    requires { 512 ≤ length bytes.now }
    ensures { (v : Volume) (b : ℕ) → bytes.now ≡ v.at b → result ≡ says_refcount_root v b }
{
    read_refcount_block(bytes).signature.0 == Signature::REFCNT1.0
}

/// Whether block b is an index root of the volume, which has these fields.
#[tactic(auto, unfolding(o2_model::specs::Indexes::is_index_root))]
pub fn is_index_root_at(geo: &Geo, b: u64, root: &DxRoot) -> bool
    requires { HasSizes geo.now }
    ensures { (v : Volume) → v.geo ≡ geo.now → root.now ≡ dx_root v b → result ≡ is_some_index_root v b }
{
    is_block_in_range(geo, b)
        && root.signature.0 == Signature::DXDIR01.0
        && root.blkno == b
        && root.fs_generation == geo.generation
}

/// Whether the index entries stand in the index root.
pub fn holds_index_entries(root: &DxRoot) -> bool
    ensures { result ≡ has_bits root.now.flags inline_index_flag }
{
    root.flags & INLINE_INDEX != 0
}

/// The head of the list of index entries that begins at byte `at`.
#[tactic(auto, using(std::proofs::lemmas::List::take_rest))]
pub fn index_header_at(bytes: &[u8], at: usize) -> DxListHeader
    requires { at + 8 ≤ length bytes.now }
    ensures { result ≡ dx_list_header_of (drop at bytes.now) }
{
    read_dx_list_header(&bytes[at..])
}

/// Whether the head is that of a list that has room for `most` index entries.
fn fits(header: &DxListHeader, most: u64) -> bool
    ensures { result ≡ (nat_le header.now.num_used header.now.count && nat_le header.now.count most) }
{
    let used = header.num_used;
    let count = header.count;
    used <= count && u64::from(count) <= most
}

/// Whether the list of index entries that begins at byte `at`, and has room to the block's end, is well formed.
#[tactic(auto, using(crate::proofs::Sizes::some_bytes))]
pub fn has_sound_index_list(geo: &Geo, bytes: &[u8], at: usize) -> bool
    requires sizes { HasSizes geo.now }
    requires size { length bytes.now ≡ 2 ^ geo.now.block_bits }
    requires place { at + 8 ≤ 512 }
    ensures test { (v : Volume) (b : ℕ) → v.geo ≡ geo.now → bytes.now ≡ v.at b → result ≡ is_sound_dx_list v at b }
    ensures room { result ≡ true → at + 8 + 16 * (dx_list_header_of (drop at bytes.now)).num_used ≤ length bytes.now }
{
    let header = index_header_at(bytes, at);
    fits(&header, (block_bytes(geo) - (at as u64 + 8)) / 16)
}

/// The leaf records that were read, unless a list is at fault.
fn sound_leaves(reading: Reading) -> Option<Leaves>
    ensures { result ≡ where_sound (is_none_of reading.faults.items) reading.leaves.items }
{
    let faults = reading.faults;
    let leaves = reading.leaves;
    if !faults.is_empty() {
        return None;
    }
    Some(Leaves::from(leaves))
}

/// The leaf records of the index root in block b, where these are its bytes: an empty list where the index entries stand in the
/// root. None where the root is not sound.
#[tactic(auto, using(crate::proofs::Sizes::some_bytes))]
pub fn index_root_records<D: Disk, const N: usize>(
    alloc: Global,
    view: &mut View<'_, D, N>,
    geo: &Geo,
    b: u64,
    bytes: &[u8],
) -> Result<Option<Leaves>, ViewFault>
    requires geo { LiesIn geo.now view.old }
    requires size { length bytes.now ≡ 2 ^ geo.now.block_bits }
    ensures told { IfOk result (λ found. (v : Volume) → ShowsBytes view.old geo.now b bytes.now v
        → found ≡ where_sound (is_sound_index_root v b) (index_list v b).leaves) }
    ensures room { IfOk result (λ found. IfSome found (λ _. HasRoomForEntries bytes.now)) }
    ensures within { IfOk result (λ found. IfSome found (Within geo.now)) }
    // The disk is called for the extent blocks alone.
    ensures count { CallsBut 1 (view_blocks view.old) (view_state view.old) (view_state view.new) }
    ensures reads { OnlyReads view.old view.new }
    ensures fails { IfErr result (BlockFails view.old view.new) }
{
    let root = read_dx_root(bytes);
    if !is_index_root_at(geo, b, &root) {
        return Ok(None);
    }
    if holds_index_entries(&root) {
        if !has_sound_index_list(geo, bytes, 0xc0) {
            return Ok(None);
        }
        return Ok(Some(Leaves::from(Vec::new(alloc))));
    }
    let rule = LeafRule::ToClusters { most_flags: 3 };
    let reading = read_block_list(alloc, view, geo, rule, b, 0xc0, bytes)?;
    Ok(sound_leaves(reading))
}

/// The leaf records of the refcount root in block b, where these are its bytes: an empty list where it has no list of leaf
/// blocks. None where the root is not sound.
#[tactic(auto, using(crate::proofs::Sizes::some_bytes))]
pub fn refcount_root_records<D: Disk, const N: usize>(
    alloc: Global,
    view: &mut View<'_, D, N>,
    geo: &Geo,
    b: u64,
    bytes: &[u8],
) -> Result<Option<Leaves>, ViewFault>
    requires geo { LiesIn geo.now view.old }
    requires size { length bytes.now ≡ 2 ^ geo.now.block_bits }
    ensures told { IfOk result (λ found. (v : Volume) → ShowsBytes view.old geo.now b bytes.now v
        → found ≡ where_sound (is_sound_root_block v b) (leaf_list v b).leaves) }
    // The disk is called for the extent blocks alone.
    ensures count { CallsBut 1 (view_blocks view.old) (view_state view.old) (view_state view.new) }
    ensures reads { OnlyReads view.old view.new }
    ensures fails { IfErr result (BlockFails view.old view.new) }
{
    let root = refcount_root(alloc, view, geo, b, bytes)?;
    if !root.is_sound {
        return Ok(None);
    }
    Ok(Some(root.leaves))
}
