// JOURNAL: a journal has its clusters in one piece, and a superblock that fits them.
ghost use Rattle.std.specs.Prelude.{◌≡◌, ◌^◌, length, IfOk};
ghost use Rattle.std.specs.Result.{IfErr};
ghost use Rattle.o2_model.specs.Volume.{Volume};
ghost use Rattle.o2_model.specs.Checks.Journal.{is_sound_journal};
ghost use Rattle.o2_view.specs.Geos.{LiesIn};
ghost use Rattle.o2_view.specs.OwnChecks.{BlockFails};
ghost use Rattle.o2_view.specs.Views.{ShowsBytes, OnlyReads};

use crate::journal_records::{blocks_without_gap, first_block, sound_records};
use crate::journal_super::is_sound_header;
use o2_disk::Disk;
use o2_extent::look;
use o2_model::Geo;
use o2_ondisk::read_journal_super;
use o2_view::{View, ViewFault};
use std::alloc::Global;

/// Whether JOURNAL holds for the journal at `inode`, where these are the bytes of its dinode. The journal's superblock is read
/// only where its records are sound. NoMemory where memory runs out, DeviceFault where a read fails.
pub fn is_sound_journal<D: Disk, const N: usize>(
    alloc: Global,
    view: &mut View<'_, D, N>,
    geo: &Geo,
    inode: u64,
    bytes: &[u8],
) -> Result<bool, ViewFault>
    requires geo { LiesIn geo.now view.old }
    requires size { length bytes.now ≡ 2 ^ geo.now.block_bits }
    ensures is { IfOk result (λ is. (v : Volume) → ShowsBytes view.old geo.now inode bytes.now v → is ≡ is_sound_journal v inode) }
    ensures reads { OnlyReads view.old view.new }
    ensures fails { IfErr result (BlockFails view.old view.new) }
{
    let Some(leaves) = sound_records(alloc, view, geo, inode, bytes)? else {
        return Ok(false);
    };
    let Some(blocks) = blocks_without_gap(geo, leaves.as_slice()) else {
        return Ok(false);
    };
    let Some(first) = first_block(leaves.as_slice()) else {
        return Ok(false);
    };
    let block = look(view, geo, first)?;
    let header = read_journal_super(block.as_slice());
    Ok(is_sound_header(geo, blocks, &header))
}
