// The blocks of a directory, also where something is wrong with it.
ghost use Rattle.std.specs.Prelude.{◌≡◌, ◌∷◌, [], ◌^◌, ◌/◌, ◌≤◌, ℕ, length, map, IfOk};
ghost use Rattle.std.specs.Result.{IfErr};
ghost use Rattle.o2_view.specs.Views.{Shows, OnlyReads};
ghost use Rattle.o2_view.specs.Geos.{LiesIn};
ghost use Rattle.o2_view.specs.OwnChecks.{BlockFails};
ghost use Rattle.o2_model.specs.Volume.{Volume, per_cluster, block_size};
ghost use Rattle.o2_model.specs.Directories.{inline_block, inline_bytes as inline_bytes_in};
ghost use Rattle.o2_extent.specs.Readings.{Within};
ghost use Rattle.o2_dir.specs.Blocks.{Keeps, block_at_place, places_of};
ghost use Rattle.o2_dir.specs.WholeDirectories.{KeepsWhole};

use crate::blocks::read_places;
use crate::inline_directory::read_part;
use crate::parts::first;
use crate::places::{places_within, put};
use crate::reading::{Reading, start};
use crate::trailer::ends_in_trailer;
use crate::whole_reading::WholeReading;
use o2_disk::{Disk, NoMemory};
use o2_extent::{Leaf, block_bytes, blocks_per_cluster, volume_blocks};
use o2_model::Geo;
use o2_ondisk::read_dinode;
use o2_view::{View, ViewFault};
use std::alloc::Global;

/// Reads the entries among the inline bytes of a dinode of these bytes.
fn read_inline_entries(alloc: Global, inode: u64, bytes: &[u8]) -> Result<Reading, NoMemory>
    requires long { 512 ≤ length bytes.now }
    requires most { length bytes.now ≤ 4096 }
    ensures { IfOk result (λ reading. (v : Volume) → bytes.now ≡ v.at inode → length bytes.now ≡ 2 ^ v.geo.block_bits → Keeps reading (inline_block v inode ∷ [])) }
{
    let size = read_dinode(bytes).size;
    let room = (bytes.len() - 200) as u64;
    if room < size {
        let mut reading = start(alloc);
        put(&mut reading.faults, inode)?;
        return Ok(reading);
    }
    read_part(alloc, inode, size, bytes)
}

/// The inline bytes of a dinode of these bytes, as far as there are so many.
fn inline_bytes(bytes: &[u8]) -> &[u8]
    requires { 512 ≤ length bytes.now }
    ensures { (v : Volume) (b : ℕ) → bytes.now ≡ v.at b → result.now ≡ inline_bytes_in v b }
{
    first(&bytes[0xc8..], read_dinode(bytes).size)
}

/// Reads the inline bytes of a dinode of these bytes as a directory's one block.
pub fn read_inline(alloc: Global, inode: u64, bytes: &[u8]) -> Result<WholeReading, NoMemory>
    requires long { 512 ≤ length bytes.now }
    requires most { length bytes.now ≤ 4096 }
    ensures { IfOk result (λ whole. (v : Volume) → bytes.now ≡ v.at inode → length bytes.now ≡ 2 ^ v.geo.block_bits
        → KeepsWhole (λ b. inline_bytes_in v inode) whole (inline_block v inode ∷ [])) }
{
    let reading = read_inline_entries(alloc, inode, bytes)?;
    let mut blocks = Vec::new(alloc);
    put(&mut blocks, inode)?;
    let has_trailers = ends_in_trailer(inline_bytes(bytes));
    Ok(WholeReading {
        reading,
        blocks,
        has_trailers,
    })
}

/// Reads the blocks that the records map, those below so many bytes.
pub fn read_mapped<D: Disk, const N: usize>(
    alloc: Global,
    view: &mut View<'_, D, N>,
    geo: &Geo,
    size: u64,
    leaves: &[Leaf],
) -> Result<WholeReading, ViewFault>
    requires geo { LiesIn geo.now view.old }
    requires within { Within geo.now leaves.now }
    ensures read { IfOk result (λ whole. (v : Volume) → Shows view.old geo.now v
        → KeepsWhole (λ b. v.at b.block) whole (map (block_at_place v) (places_of (per_cluster v) (size / block_size v) leaves.now))) }
    ensures reads { OnlyReads view.old view.new }
    ensures fails { IfErr result (BlockFails view.old view.new) }
{
    let bytes = block_bytes(geo);
    let per_cluster = blocks_per_cluster(geo);
    let blocks = volume_blocks(geo);
    let places = places_within(alloc, per_cluster, size / bytes, blocks, leaves)?;
    read_places(alloc, view, geo, places.as_slice())
}
