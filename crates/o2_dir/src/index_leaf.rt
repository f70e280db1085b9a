// The leaves of an index, and their entries.
ghost use Rattle.std.specs.Prelude.{◌≡◌, ◌+◌, ◌*◌, ◌^◌, ◌≤◌, ◌++◌, true, length, drop, OnOk, IfOk, Bool, List};
ghost use Rattle.std.specs.Result.{IfErr};
ghost use Rattle.o2_ondisk.specs.DxEntries.{dx_entry_of};
ghost use Rattle.o2_ondisk.specs.DxListHeaders.{dx_list_header_of};
ghost use Rattle.o2_model.specs.Words.{table};
ghost use Rattle.o2_model.specs.Volume.{Volume};
ghost use Rattle.o2_model.specs.Indexes.{is_sound_index_leaf, dx_entries_at};
ghost use Rattle.o2_view.specs.Geos.{HasSizes, Reaches};
ghost use Rattle.o2_view.specs.OwnChecks.{BlockFails};
ghost use Rattle.o2_view.specs.Views.{Shows, OnlyReads};

use o2_disk::{Disk, NoMemory};
use o2_extent::{has_sound_index_list, index_header_at, look, put};
use o2_model::Geo;
use o2_ondisk::{DxEntry, Signature, read_dx_entry, read_dx_leaf};
use o2_view::{View, ViewFault};

/// Where the list of entries begins in a leaf of an index.
const LEAF_LIST: usize = 0x28;

/// The bytes of the head of a list of index entries.
const LIST_HEADER: usize = 8;

/// Whether block b, which has these bytes, is a leaf of an index, and its list is well formed.
#[tactic(auto, unfolding(o2_model::specs::Indexes::is_sound_index_leaf))]
fn is_index_leaf(geo: &Geo, b: u64, bytes: &[u8]) -> bool
    requires sizes { HasSizes geo.now }
    requires size { length bytes.now ≡ 2 ^ geo.now.block_bits }
    requires long { 512 ≤ length bytes.now }
    ensures test { (v : Volume) → v.geo ≡ geo.now → bytes.now ≡ v.at b → result ≡ is_sound_index_leaf v b }
    ensures room { result ≡ true → 0x30 + 16 * (dx_list_header_of (drop 0x28 bytes.now)).num_used ≤ length bytes.now }
{
    let leaf = read_dx_leaf(bytes);
    let has_head = leaf.signature.0 == Signature::DXLEAF1.0
        && leaf.blkno == b
        && leaf.fs_generation == geo.generation;
    has_head && has_sound_index_list(geo, bytes, LEAF_LIST)
}

/// Puts the first `used` entries of the list of index entries that begins at byte `at` at the end.
pub fn add_index_entries(
    bytes: &[u8],
    at: usize,
    used: u16,
    entries: &mut Vec<DxEntry>,
) -> Result<(), NoMemory>
    requires { at + 8 + 16 * used ≤ length bytes.now }
    ensures { OnOk result (entries.new.items ≡ entries.old.items ++ table dx_entry_of 16 (at + 8) used bytes.now) }
{
    for k in 0..usize::from(used) {
        put(entries, read_dx_entry(&bytes[at + LIST_HEADER + 16 * k..]))?;
    }
    Ok(())
}

/// Puts the entries of the leaf in block b at the end. False where it is no leaf of an index, or its list is not well formed.
pub fn add_leaf<D: Disk, const N: usize>(
    view: &mut View<'_, D, N>,
    geo: &Geo,
    b: u64,
    entries: &mut Vec<DxEntry>,
) -> Result<bool, ViewFault>
    requires { Reaches geo.now view.old b }
    ensures sound { IfOk result (λ sound. (v : Volume) → Shows view.old geo.now v → sound ≡ is_sound_index_leaf v b) }
    ensures added { IfOk result (λ sound. sound ≡ true → (v : Volume) → Shows view.old geo.now v → entries.new.items ≡ entries.old.items ++ dx_entries_at v 0x28 b) }
    ensures reads { OnlyReads view.old view.new }
    ensures fails { IfErr result (BlockFails view.old view.new) }
{
    let block = look(view, geo, b)?;
    let bytes = block.as_slice();
    if !is_index_leaf(geo, b, bytes) {
        return Ok(false);
    }
    let used = index_header_at(bytes, LEAF_LIST).num_used;
    add_index_entries(bytes, LEAF_LIST, used, entries)?;
    Ok(true)
}
