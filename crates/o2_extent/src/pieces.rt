// The bytes of a file, block by block.
ghost use Rattle.std.specs.Prelude.{◌≡◌, ◌+◌, ◌-◌, ◌*◌, ◌^◌, ◌<◌, ◌≤◌, ◌++◌, map, length, replicate, OnOk};
ghost use Rattle.std.specs.List.{range_with_len};
ghost use Rattle.std.specs.Option.{IfSome};
ghost use Rattle.std.specs.Result.{IfErr};
ghost use Rattle.o2_model.specs.Contents.{byte_of};
ghost use Rattle.o2_model.specs.Volume.{Volume};
ghost use Rattle.o2_view.specs.Geos.{HasSizes, LiesIn, blocks_of};
ghost use Rattle.o2_view.specs.OwnChecks.{BlockFails};
ghost use Rattle.o2_view.specs.Views.{Shows, OnlyReads};
ghost use Rattle.o2_extent.specs.Readings.{Within};
ghost use Rattle.o2_extent.specs.Maps.{written_at, piece_byte};

use crate::geometry::{block_bytes, blocks_per_cluster, volume_blocks};
use crate::ordered::OrderedLeaves;
use crate::tree::look;
use o2_disk::{Disk, NoMemory};
use o2_model::Geo;
use o2_ondisk::ExtentFlags;
use o2_view::{View, ViewFault};

/// The block of the device that holds block `j` of the file, where that is mapped and written.
fn written_block(geo: &Geo, leaves: &OrderedLeaves, j: u64) -> Option<u64>
    requires sizes { HasSizes geo.now }
    requires within { Within geo.now leaves.now }
    ensures block { result ≡ written_at (2 ^ (geo.now.cluster_bits - geo.now.block_bits)) j leaves.now }
    ensures inside { IfSome result (λ b. b < blocks_of geo.now) }
{
    let _blocks = volume_blocks(geo);
    let per_cluster = blocks_per_cluster(geo);
    let c = j / per_cluster;
    match leaves.find(c) {
        None => None,
        Some(leaf) => {
            if ExtentFlags(leaf.flags).has(ExtentFlags::UNWRITTEN) {
                return None;
            }
            Some(leaf.block + per_cluster * (c - u64::from(leaf.cpos)) + j % per_cluster)
        }
    }
}

/// Puts some bytes at the end.
fn put_all(out: &mut Vec<u8>, bytes: &[u8]) -> Result<(), NoMemory>
    ensures { OnOk result (out.new.items ≡ out.old.items ++ bytes.now) }
{
    match out.extend_from_slice(bytes) {
        Ok(()) => Ok(()),
        Err(_) => Err(NoMemory),
    }
}

/// Puts zeros at the end.
fn put_zeros(out: &mut Vec<u8>, count: usize) -> Result<(), NoMemory>
    requires { count ≤ 4096 }
    ensures { OnOk result (out.new.items ≡ out.old.items ++ replicate count 0) }
{
    let long = out.len() + count;
    match out.resize(long, 0) {
        Ok(()) => Ok(()),
        Err(_) => Err(NoMemory),
    }
}

/// Puts `count` bytes of block `j` of the file at the end, from its byte `from` on.
fn add_piece<D: Disk, const N: usize>(
    view: &mut View<'_, D, N>,
    geo: &Geo,
    leaves: &OrderedLeaves,
    j: u64,
    from: usize,
    count: usize,
    out: &mut Vec<u8>,
) -> Result<(), ViewFault>
    requires geo { LiesIn geo.now view.old }
    requires within { Within geo.now leaves.now }
    requires inside { from + count ≤ 2 ^ geo.now.block_bits }
    ensures bytes { OnOk result ((v : Volume) → Shows view.old geo.now v
        → out.new.items ≡ out.old.items ++ map (piece_byte v leaves.now j) (range_with_len from count)) }
    ensures long { OnOk result (length out.new.items ≡ length out.old.items + count) }
    ensures reads { OnlyReads view.old view.new }
    ensures fails { IfErr result (BlockFails view.old view.new) }
{
    match written_block(geo, leaves, j) {
        Some(b) => {
            let block = look(view, geo, b)?;
            put_all(out, &block.as_slice()[from..from + count])?;
        }
        None => put_zeros(out, count)?,
    }
    Ok(())
}

/// Puts the bytes of the file from `at` to below `end` at the end.
pub fn add_bytes<D: Disk, const N: usize>(
    view: &mut View<'_, D, N>,
    geo: &Geo,
    leaves: &OrderedLeaves,
    at: u64,
    end: u64,
    out: &mut Vec<u8>,
) -> Result<(), ViewFault>
    requires geo { LiesIn geo.now view.old }
    requires within { Within geo.now leaves.now }
    requires order { at ≤ end }
    ensures bytes { OnOk result ((v : Volume) → Shows view.old geo.now v
        → out.new.items ≡ out.old.items ++ map (byte_of v leaves.now) (range_with_len at (end - at))) }
    ensures long { OnOk result (length out.new.items ≡ length out.old.items + (end - at)) }
    ensures reads { OnlyReads view.old view.new }
    ensures fails { IfErr result (BlockFails view.old view.new) }
{
    let size = block_bytes(geo);
    let mut next = at;
    while next < end {
        let from = next % size;
        let count = (size - from).min(end - next);
        add_piece(
            view,
            geo,
            leaves,
            next / size,
            from as usize,
            count as usize,
            out,
        )?;
        next += count;
    }
    Ok(())
}
