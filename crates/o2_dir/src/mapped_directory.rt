// A directory whose entries stand in its blocks.
ghost use Rattle.std.specs.Prelude.{◌≡◌, ◌≤◌, ◌/◌, ◌%◌, ◌==◌, ◌&&◌, nat_lt, length, ℕ, IfOk};
ghost use Rattle.std.specs.Result.{IfErr};
ghost use Rattle.o2_view.specs.Views.{OnlyReads};
ghost use Rattle.o2_view.specs.Geos.{LiesIn, HasSizes};
ghost use Rattle.o2_view.specs.OwnChecks.{NoneFails};
ghost use Rattle.o2_model.specs.Directories.{directory_entries};
ghost use Rattle.o2_model.specs.Checks.InodeSize.{has_sound_size};
ghost use Rattle.o2_model.specs.Volume.{Volume};
ghost use Rattle.o2_extent.specs.Readings.{Within};
ghost use Rattle.o2_dir.specs.Fails.{DirFailsOf, MapsBlocks, ShowsMapped, directory_checks};

use crate::blocks::read_places;
use crate::places::{Place, places_within};
use crate::reading::settle;
use crate::{DirFault, Entries};
use o2_disk::{Disk, NoMemory};
use o2_extent::{Leaf, block_bytes, blocks_per_cluster, volume_blocks};
use o2_model::{Check, Geo};
use o2_view::View;
use std::alloc::Global;

/// Whether a directory of this size has these blocks.
fn has_size(size: u64, bytes: u64, places: &[Place]) -> bool
    requires { 1 ≤ bytes }
    ensures { result ≡ (nat_lt 0 size && size % bytes == 0 && length places.now == size / bytes) }
{
    let count = places.len() as u64;
    0 < size && size % bytes == 0 && count == size / bytes
}

/// Whether a directory of this size with these records has whole blocks, all mapped and written.
pub fn has_directory_size(
    alloc: Global,
    geo: &Geo,
    size: u64,
    leaves: &[Leaf],
) -> Result<bool, NoMemory>
    requires sizes { HasSizes geo.now }
    requires within { Within geo.now leaves.now }
    ensures { IfOk result (λ has. (v : Volume) (d : ℕ) → v.geo ≡ geo.now → MapsBlocks v d size leaves.now → has ≡ has_sound_size v d) }
{
    let bytes = block_bytes(geo);
    let per_cluster = blocks_per_cluster(geo);
    let blocks = volume_blocks(geo);
    let places = places_within(alloc, per_cluster, size / bytes, blocks, leaves)?;
    Ok(has_size(size, bytes, places.as_slice()))
}

/// The entries in the blocks that the records map.
pub fn mapped<D: Disk, const N: usize>(
    alloc: Global,
    view: &mut View<'_, D, N>,
    geo: &Geo,
    inode: u64,
    size: u64,
    leaves: &[Leaf],
) -> Result<Entries, DirFault>
    requires geo { LiesIn geo.now view.old }
    requires within { Within geo.now leaves.now }
    ensures told { IfOk result (λ entries. (v : Volume) → ShowsMapped view.old geo.now inode size leaves.now v
        → NoneFails (directory_checks inode) v × (entries ≡ directory_entries v inode)) }
    ensures reads { OnlyReads view.old view.new }
    ensures fails { IfErr result (DirFailsOf (ShowsMapped view.old geo.now inode size leaves.now) view.old view.new (directory_checks inode) ⊥) }
{
    let bytes = block_bytes(geo);
    let per_cluster = blocks_per_cluster(geo);
    let blocks = volume_blocks(geo);
    let places = places_within(alloc, per_cluster, size / bytes, blocks, leaves)?;
    if !has_size(size, bytes, places.as_slice()) {
        return Err(DirFault::Bad {
            check: Check::InodeSize,
            block: inode,
        });
    }
    let whole = read_places(alloc, view, geo, places.as_slice())?;
    settle(whole.reading)
}
