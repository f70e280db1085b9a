// The index of a directory, read once.
ghost use Rattle.std.specs.Prelude.{◌≡◌, ◌^◌, ◌≤◌, ℕ, true, length, IfOk};
ghost use Rattle.std.specs.Result.{IfErr};
ghost use Rattle.o2_model.specs.Indexes.{index_root, dx_root, is_index_root, index_extents};
ghost use Rattle.o2_model.specs.Volume.{Volume};
ghost use Rattle.o2_view.specs.Geos.{HasSizes, LiesIn};
ghost use Rattle.o2_view.specs.OwnChecks.{BlockFails};
ghost use Rattle.o2_view.specs.Views.{Shows, ShowsBytes, OnlyReads};
ghost use Rattle.o2_extent.specs.Readings.{Keeps, Within};
ghost use Rattle.o2_tree.specs.TreeRows.{is_sound_index_alone, IsIndexRow};
ghost use Rattle.o2_indexes.specs.Readings.{TellsDirectory};

use crate::IndexedDirectory;
use crate::block_counts::has_index_counts;
use crate::entries::sound_entries;
use crate::found::is_found_in_index;
use crate::rows::{row_of, row_without_root};
use o2_disk::Disk;
use o2_extent::{Reading, index_list, is_block_in_range, is_index_root_at, look};
use o2_model::Geo;
use o2_ondisk::{DxRoot, read_dx_root};
use o2_tree::IndexRow;
use o2_view::{View, ViewFault};
use std::alloc::Global;

/// Whether the block, which has these fields, is an index root of this directory.
fn is_root_of(geo: &Geo, root: u64, directory: u64, fields: &DxRoot) -> bool
    requires { HasSizes geo.now }
    ensures { (v : Volume) → v.geo ≡ geo.now → fields.now ≡ dx_root v root → result ≡ is_index_root v directory root }
{
    is_index_root_at(geo, root, fields) && fields.dir_blkno == directory
}

/// Whether an index whose root is one, with these bytes and this list, is sound by itself. What is judged first and fails is the
/// end, and nothing more is read.
fn is_sound_by_itself<D: Disk, const N: usize>(
    alloc: Global,
    view: &mut View<'_, D, N>,
    geo: &Geo,
    bytes: &[u8],
    reading: &Reading,
    listed: &IndexedDirectory<'_>,
) -> Result<bool, ViewFault>
    requires geo { LiesIn geo.now view.old }
    requires size { length bytes.now ≡ 2 ^ geo.now.block_bits }
    requires long { 512 ≤ length bytes.now }
    requires within { Within geo.now reading.now.leaves.items }
    ensures told { IfOk result (λ sound. (v : Volume) → Shows view.old geo.now v → (d : ℕ) → bytes.now ≡ v.at (index_root v d)
        → is_index_root v d (index_root v d) ≡ true → Keeps v reading.now (index_extents v d) → TellsDirectory v d listed.now → sound ≡ is_sound_index_alone v d) }
    ensures reads { OnlyReads view.old view.new }
    ensures fails { IfErr result (BlockFails view.old view.new) }
{
    if !listed.has_trailers {
        return Ok(false);
    }
    let Some(index) = sound_entries(alloc, view, geo, bytes, reading)? else {
        return Ok(false);
    };
    let index = index.as_slice();
    let says = read_dx_root(bytes).num_entries;
    if !has_index_counts(alloc, says, listed.entries, listed.blocks, index)? {
        return Ok(false);
    }
    Ok(is_found_in_index(alloc, geo, listed.entries, index)?)
}

/// The row of the index of this directory, whose root has these bytes.
fn read_index_in<D: Disk, const N: usize>(
    alloc: Global,
    view: &mut View<'_, D, N>,
    geo: &Geo,
    directory: u64,
    root: u64,
    bytes: &[u8],
    listed: &IndexedDirectory<'_>,
) -> Result<IndexRow, ViewFault>
    requires geo { LiesIn geo.now view.old }
    requires size { length bytes.now ≡ 2 ^ geo.now.block_bits }
    requires long { 512 ≤ length bytes.now }
    ensures of { IfOk result (λ row. row.directory ≡ directory) }
    ensures told { IfOk result (λ row. (v : Volume) → ShowsBytes view.old geo.now root bytes.now v → index_root v directory ≡ root → TellsDirectory v directory listed.now
        → IsIndexRow v row) }
    ensures reads { OnlyReads view.old view.new }
    ensures fails { IfErr result (BlockFails view.old view.new) }
{
    let fields = read_dx_root(bytes);
    if !is_root_of(geo, root, directory, &fields) {
        return Ok(row_without_root(alloc, directory, root));
    }
    let reading = index_list(alloc, view, geo, root, bytes)?;
    let is_sound_alone = is_sound_by_itself(alloc, view, geo, bytes, &reading, listed)?;
    Ok(row_of(
        alloc,
        geo,
        directory,
        root,
        &fields,
        &reading,
        is_sound_alone,
    )?)
}

/// The row of the index of this directory, sound or not, with its root in that block. The root, the extent blocks of its list and
/// its leaves are looked at once each: a root out of range is not, nor is a list in a root that is none of this directory, nor are
/// leaves behind one that is none. NoMemory where memory runs out, DeviceFault where a read fails.
pub fn read_index<D: Disk, const N: usize>(
    alloc: Global,
    view: &mut View<'_, D, N>,
    geo: &Geo,
    directory: u64,
    root: u64,
    listed: &IndexedDirectory<'_>,
) -> Result<IndexRow, ViewFault>
    requires { LiesIn geo.now view.old }
    ensures of { IfOk result (λ row. row.directory ≡ directory) }
    ensures told { IfOk result (λ row. (v : Volume) → Shows view.old geo.now v → index_root v directory ≡ root → TellsDirectory v directory listed.now → IsIndexRow v row) }
    ensures reads { OnlyReads view.old view.new }
    ensures fails { IfErr result (BlockFails view.old view.new) }
{
    if !is_block_in_range(geo, root) {
        return Ok(row_without_root(alloc, directory, root));
    }
    let block = look(view, geo, root)?;
    read_index_in(alloc, view, geo, directory, root, block.as_slice(), listed)
}
