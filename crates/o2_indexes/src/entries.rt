// The entries of an index whose root is one.
ghost use Rattle.std.specs.Prelude.{◌≡◌, ◌^◌, ◌≤◌, ℕ, true, length, IfOk};
ghost use Rattle.std.specs.Result.{IfErr};
ghost use Rattle.o2_model.specs.Indexes.{index_root, index_extents};
ghost use Rattle.o2_model.specs.Volume.{Volume};
ghost use Rattle.o2_view.specs.Geos.{HasSizes, LiesIn};
ghost use Rattle.o2_view.specs.OwnChecks.{BlockFails};
ghost use Rattle.o2_view.specs.Views.{Shows, OnlyReads};
ghost use Rattle.o2_extent.specs.Owners.{HasRoomForEntries};
ghost use Rattle.o2_extent.specs.Readings.{Keeps, Within};
ghost use Rattle.o2_indexes.specs.Readings.{has_sound_root_list, entries_where_sound};

use o2_dir::{IndexEntries, entries_in_root};
use o2_disk::Disk;
use o2_extent::{Reading, has_sound_index_list, holds_index_entries};
use o2_model::Geo;
use o2_ondisk::read_dx_root;
use o2_view::{View, ViewFault};
use std::alloc::Global;

/// Where the list of entries begins in the root of an index.
const ROOT_LIST: usize = 0xc0;

/// Whether the list of entries in a root of these bytes is well formed, or its list of leaves, of which this was read.
fn has_sound_list(geo: &Geo, bytes: &[u8], reading: &Reading) -> bool
    requires sizes { HasSizes geo.now }
    requires size { length bytes.now ≡ 2 ^ geo.now.block_bits }
    requires long { 512 ≤ length bytes.now }
    ensures test { (v : Volume) (d : ℕ) → v.geo ≡ geo.now → bytes.now ≡ v.at (index_root v d) → Keeps v reading.now (index_extents v d)
        → result ≡ has_sound_root_list v d }
    ensures room { result ≡ true → HasRoomForEntries bytes.now }
{
    if holds_index_entries(&read_dx_root(bytes)) {
        return has_sound_index_list(geo, bytes, ROOT_LIST);
    }
    reading.faults.is_empty()
}

/// The entries of the index of a directory, whose root has these bytes and this list: those in the root, or those of the leaves.
/// None where the list of either or a leaf is not well formed. A leaf behind one that is none is not read.
pub fn sound_entries<D: Disk, const N: usize>(
    alloc: Global,
    view: &mut View<'_, D, N>,
    geo: &Geo,
    bytes: &[u8],
    reading: &Reading,
) -> Result<Option<IndexEntries>, ViewFault>
    requires geo { LiesIn geo.now view.old }
    requires size { length bytes.now ≡ 2 ^ geo.now.block_bits }
    requires long { 512 ≤ length bytes.now }
    requires within { Within geo.now reading.now.leaves.items }
    ensures told { IfOk result (λ found. (v : Volume) → Shows view.old geo.now v → (d : ℕ) → bytes.now ≡ v.at (index_root v d)
        → Keeps v reading.now (index_extents v d) → found ≡ entries_where_sound v d) }
    ensures reads { OnlyReads view.old view.new }
    ensures fails { IfErr result (BlockFails view.old view.new) }
{
    if !has_sound_list(geo, bytes, reading) {
        return Ok(None);
    }
    entries_in_root(alloc, view, geo, bytes, &reading.leaves)
}
