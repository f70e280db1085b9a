// New counts for the records of a refcount tree.
ghost use Rattle.std.specs.Prelude.{◌≡◌, ℕ, ◌+◌, ◌*◌, ◌<◌, ◌≤◌, true, List, [], ◌∷◌, length, take, drop, OnOk, IfOk};
ghost use Rattle.std.specs.Result.{IfErr};
ghost use Rattle.o2_ondisk.specs.RefcountListHeaders.{refcount_list_header_of};
ghost use Rattle.o2_model.specs.RefcountTrees.{refcounts, refcount_header};
ghost use Rattle.o2_model.specs.Volume.{Volume, over, block_size, is_in_range};
ghost use Rattle.o2_view.specs.Geos.{LiesIn, Reaches};
ghost use Rattle.o2_view.specs.HomePlans.{PlansHome, PlansOnly};
ghost use Rattle.o2_view.specs.OwnChecks.{BlockFails, NoneFails, ReadFails};
ghost use Rattle.o2_view.specs.Views.{Shows, with_block};
ghost use Rattle.o2_refcount.specs.Readings.{ref_tree_checks, nothing_read, with_blocks, IsReadWhole};
ghost use Rattle.o2_refcount.specs.Recounts.{HasCounts, IsRecounted, holders};

use crate::block_edit::change_counts;
use crate::block_records::{RECORDS, header_of};
use crate::tree_records::sound_tree;
use o2_disk::Disk;
use o2_extent::{is_block_in_range, look};
use o2_model::Geo;
use o2_view::{ReadFault, View, ViewFault};
use std::alloc::Global;
use std::cmp::min;

/// How many records are in use in the bytes of a refcount block, at most as many as have room.
fn records_in_use(bytes: &[u8]) -> usize
    requires { 512 ≤ length bytes.now }
    ensures fits { 0x90 + 16 * result ≤ length bytes.now }
    ensures used { 0x90 + 16 * (refcount_list_header_of (drop 0x80 bytes.now)).used ≤ length bytes.now
        → result ≡ (refcount_list_header_of (drop 0x80 bytes.now)).used }
{
    let used = usize::from(header_of(bytes).used);
    min(used, (bytes.len() - RECORDS) / 16)
}

/// Plans the records of block b with the first of these counts. Answers how many records there are with a count.
#[tactic(auto, using(o2_extent::proofs::Sizes::some_bytes))]
fn plan_block<D: Disk, const N: usize>(
    view: &mut View<'_, D, N>,
    geo: &Geo,
    b: u64,
    counts: &[u32],
) -> Result<usize, ViewFault>
    requires { LiesIn geo.now view.old }
    ensures few { IfOk result (λ used. used ≤ length counts.now) }
    ensures used { IfOk result (λ used. (v : Volume) → Shows view.old geo.now v → is_in_range v b ≡ true
        → 0x90 + 16 * (refcount_header v b).used ≤ block_size v → (refcount_header v b).used ≤ length counts.now → used ≡ (refcount_header v b).used) }
    ensures planned { IfOk result (λ used. 0 < used → (v : Volume) → Shows view.old geo.now v
        → (bytes : List ℕ) × Shows view.new geo.now (over v (with_block b bytes v.at)) × HasCounts (v.at b) bytes (take used counts.now)) }
    ensures kept { IfOk result (λ used. used ≡ 0 → (v : Volume) → Shows view.old geo.now v → Shows view.new geo.now v) }
    ensures alone { OnOk result (PlansOnly (b ∷ []) view.old view.new) }
    ensures none { IfOk result (λ used. used ≡ 0 → PlansOnly [] view.old view.new) }
    ensures plans { PlansHome view.old view.new }
    ensures fails { IfErr result (BlockFails view.old view.new) }
{
    if !is_block_in_range(geo, b) {
        return Ok(0);
    }
    let mut bytes = look(view, geo, b)?.into_vec();
    let used = min(records_in_use(&bytes), counts.len());
    if used == 0 {
        return Ok(0);
    }
    change_counts(&mut bytes, &counts[..used]);
    view.home(b, &bytes)?;
    Ok(used)
}

/// Plans the records of these blocks, one after the other, with these counts.
fn plan_blocks<D: Disk, const N: usize>(
    view: &mut View<'_, D, N>,
    geo: &Geo,
    blocks: &[u64],
    to: &[u32],
) -> Result<(), ViewFault>
    requires { LiesIn geo.now view.old }
    ensures recounted { OnOk result ((v : Volume) → Shows view.old geo.now v → IsReadWhole v blocks.now to.now
        → (new : Volume) × Shows view.new geo.now new × IsRecounted v new (with_blocks v nothing_read blocks.now).records to.now) }
    ensures alone { OnOk result ((v : Volume) → Shows view.old geo.now v → IsReadWhole v blocks.now to.now
        → PlansOnly (holders (with_blocks v nothing_read blocks.now).records) view.old view.new) }
    ensures plans { PlansHome view.old view.new }
    ensures fails { IfErr result (BlockFails view.old view.new) }
{
    let mut from = 0;
    for b in blocks {
        from += plan_block(view, geo, *b, &to[from..])?;
    }
    Ok(())
}

/// Plans the records of the refcount tree with this root with new counts, one for each record in their order. Bad where
/// REF_TREE fails for this tree, with the least block at which it does, and then nothing is planned.
pub fn set_counts<D: Disk, const N: usize>(
    alloc: Global,
    view: &mut View<'_, D, N>,
    geo: &Geo,
    root: u64,
    to: &[u32],
) -> Result<(), ReadFault>
    requires place { Reaches geo.now view.old root }
    requires each { (v : Volume) → Shows view.old geo.now v → NoneFails (ref_tree_checks root) v → length to.now ≡ length (refcounts v root).records }
    ensures recounted { OnOk result ((v : Volume) → Shows view.old geo.now v
        → (new : Volume) × Shows view.new geo.now new × IsRecounted v new (refcounts v root).records to.now) }
    // No block is planned but those that hold records of the tree.
    ensures alone { OnOk result ((v : Volume) → Shows view.old geo.now v → PlansOnly (holders (refcounts v root).records) view.old view.new) }
    ensures sound { OnOk result ((v : Volume) → Shows view.old geo.now v → NoneFails (ref_tree_checks root) v) }
    ensures plans { PlansHome view.old view.new }
    ensures fails { IfErr result (ReadFails view.old view.new geo.now (ref_tree_checks root)) }
{
    let tree = sound_tree(alloc, view, geo, root)?;
    plan_blocks(view, geo, tree.blocks.as_slice(), to)?;
    Ok(())
}
