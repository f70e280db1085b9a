// The bytes of a file or a link.
ghost use Rattle.std.specs.Prelude.{◌≡◌, ◌-◌, ◌≤◌, ℕ, length, map, min, take, drop, IfOk};
ghost use Rattle.std.specs.List.{range_with_len};
ghost use Rattle.std.specs.Result.{IfErr};
ghost use Rattle.o2_view.specs.Views.{Shows, OnlyReads};
ghost use Rattle.o2_view.specs.Geos.{LiesIn, Reaches};
ghost use Rattle.o2_view.specs.OwnChecks.{BlockFails, ReadFails, NoneFails};
ghost use Rattle.o2_model.specs.Contents.{byte_of, bytes_of};
ghost use Rattle.o2_model.specs.Volume.{Volume};
ghost use Rattle.o2_extent.specs.Readings.{Within};
ghost use Rattle.o2_dir.specs.Fails.{IsRead, data_checks};
ghost use Rattle.o2_dir.specs.FileData.{HasBytes};
ghost use Rattle.o2_dir.specs.InodeReadings.{Fits, TellsSound};

use crate::inode_reading::{InodeReading, sound_inode_in};
use crate::parts::{behind, first};
use o2_disk::Disk;
use o2_extent::{OrderedLeaves, add_bytes, is_fast_link, is_inline, look};
use o2_model::Geo;
use o2_ondisk::read_dinode;
use o2_view::{Bytes, ReadFault, View, ViewFault};
use std::alloc::{AllocError, Global};

/// A copy of the first `size` bytes from byte `at` on, of `len` bytes at most.
fn copy_part(
    alloc: Global,
    bytes: &[u8],
    size: u64,
    at: u64,
    len: u32,
) -> Result<Vec<u8>, AllocError>
    ensures { IfOk result (λ out. out.items ≡ take len (drop at (take size bytes.now))) }
{
    let part = first(behind(first(bytes, size), at), u64::from(len));
    let mut out = Vec::with_capacity(alloc, part.len())?;
    out.extend_from_slice(part)?;
    Ok(out)
}

/// Where the bytes end that are read of so many from byte `at` on, `len` at most.
fn end_of(size: u64, at: u64, len: u32) -> u64
    ensures order { at ≤ result }
    ensures count { result - at ≡ min len (size - at) }
{
    if size <= at {
        return at;
    }
    at + u64::from(len).min(size - at)
}

/// The bytes that the records map, of a file of `size` bytes from byte `at` on, `len` at most.
fn read_mapped<D: Disk, const N: usize>(
    alloc: Global,
    view: &mut View<'_, D, N>,
    geo: &Geo,
    leaves: &OrderedLeaves,
    size: u64,
    at: u64,
    len: u32,
) -> Result<Vec<u8>, ViewFault>
    requires geo { LiesIn geo.now view.old }
    requires within { Within geo.now leaves.now }
    ensures bytes { IfOk result (λ out. (v : Volume) → Shows view.old geo.now v
        → out.items ≡ take len (drop at (map (byte_of v leaves.now) (range_with_len 0 size)))) }
    ensures reads { OnlyReads view.old view.new }
    ensures fails { IfErr result (BlockFails view.old view.new) }
{
    let mut out = Vec::new(alloc);
    let end = end_of(size, at, len);
    add_bytes(view, geo, leaves, at, end, &mut out)?;
    Ok(out)
}

/// The bytes from byte `at` on, `len` at most, of the file or link whose dinode has these bytes, and which has these
/// records.
fn read_data<D: Disk, const N: usize>(
    alloc: Global,
    view: &mut View<'_, D, N>,
    geo: &Geo,
    bytes: &[u8],
    leaves: &OrderedLeaves,
    at: u64,
    len: u32,
) -> Result<Vec<u8>, ViewFault>
    requires geo { LiesIn geo.now view.old }
    requires long { 512 ≤ length bytes.now }
    requires within { Within geo.now leaves.now }
    ensures bytes { IfOk result (λ out. (v : Volume) → Shows view.old geo.now v → (b : ℕ) → IsRead v b bytes.now leaves.now
        → out.items ≡ take len (drop at (bytes_of v b))) }
    ensures reads { OnlyReads view.old view.new }
    ensures fails { IfErr result (BlockFails view.old view.new) }
{
    let dinode = read_dinode(bytes);
    if is_inline(&dinode) {
        return Ok(copy_part(alloc, &bytes[0xc8..], dinode.size, at, len)?);
    }
    if is_fast_link(&dinode) {
        return Ok(copy_part(alloc, &bytes[0xc0..], dinode.size, at, len)?);
    }
    read_mapped(alloc, view, geo, leaves, dinode.size, at, len)
}

/// The bytes of a file or link that was read before, from byte `at` on: `len` of them, or fewer where it ends before.
pub fn part_of_file<D: Disk, const N: usize>(
    alloc: Global,
    view: &mut View<'_, D, N>,
    geo: &Geo,
    reading: &InodeReading,
    at: u64,
    len: u32,
) -> Result<Bytes, ViewFault>
    requires geo { LiesIn geo.now view.old }
    requires fits { Fits geo.now reading.now }
    ensures bytes { IfOk result (λ bytes. (v : Volume) → Shows view.old geo.now v → (b : ℕ) → TellsSound v b reading.now
        → bytes ≡ take len (drop at (bytes_of v b))) }
    ensures reads { OnlyReads view.old view.new }
    ensures fails { IfErr result (BlockFails view.old view.new) }
{
    let bytes = reading.block.as_slice();
    let out = read_data(alloc, view, geo, bytes, &reading.leaves, at, len)?;
    Ok(Bytes::from(out))
}

/// The bytes of the file or link at `inode` from byte `at` on: `len` of them, or fewer where it ends before. Bad where EXTENT
/// or INODE_SIZE fails for it.
pub fn read_bytes<D: Disk, const N: usize>(
    alloc: Global,
    view: &mut View<'_, D, N>,
    geo: &Geo,
    inode: u64,
    at: u64,
    len: u32,
) -> Result<Bytes, ReadFault>
    requires inode { Reaches geo.now view.old inode }
    requires has { (v : Volume) → Shows view.old geo.now v → HasBytes v inode }
    ensures told { IfOk result (λ bytes. (v : Volume) → Shows view.old geo.now v
        → NoneFails (data_checks inode) v × (bytes ≡ take len (drop at (bytes_of v inode)))) }
    ensures reads { OnlyReads view.old view.new }
    ensures fails { IfErr result (ReadFails view.old view.new geo.now (data_checks inode)) }
{
    let block = look(view, geo, inode)?;
    let reading = sound_inode_in(alloc, view, geo, inode, block)?;
    Ok(part_of_file(alloc, view, geo, &reading, at, len)?)
}

#[cfg(test)]
mod tests;
