// SUPER: block 2 and its numbers.
ghost use Rattle.std.specs.Prelude.{◌≡◌, ◌/◌, ◌<◌, ◌≤◌, true, IfOk};
ghost use Rattle.std.specs.Result.{IfErr};
ghost use Rattle.o2_view.specs.Views.{view_bits, view_blocks, Shows, OnlyReads};
ghost use Rattle.o2_view.specs.Geos.{LiesIn};
ghost use Rattle.o2_view.specs.OwnChecks.{BlockFails};
ghost use Rattle.o2_model.specs.Checks.Super.{is_super_dinode as is_super_at_two, is_sound_super};
ghost use Rattle.o2_model.specs.Volume.{Volume};

use crate::super_numbers::are_sound_numbers;
use o2_disk::Disk;
use o2_extent::look;
use o2_model::Geo;
use o2_ondisk::{InodeFlags, read_dinode};
use o2_view::{View, ViewFault};

/// The block of the superblock.
pub const SUPER_BLOCK: u64 = 2;

/// Whether the block of the superblock is a dinode in use that names this block.
fn is_super_dinode<D: Disk, const N: usize>(
    view: &mut View<'_, D, N>,
    geo: &Geo,
) -> Result<bool, ViewFault>
    requires geo { LiesIn geo.now view.old }
    ensures is { IfOk result (λ is. (v : Volume) → Shows view.old geo.now v → is ≡ is_super_at_two v) }
    ensures reads { OnlyReads view.old view.new }
    ensures fails { IfErr result (BlockFails view.old view.new) }
{
    let block = look(view, geo, SUPER_BLOCK)?;
    let dinode = read_dinode(block.as_slice());
    Ok(dinode.blkno == SUPER_BLOCK && dinode.flags.has(InodeFlags::VALID))
}

/// Whether SUPER holds, where the view has all whole blocks of the device.
pub fn has_sound_super<D: Disk, const N: usize>(
    view: &mut View<'_, D, N>,
    geo: &Geo,
) -> Result<bool, ViewFault>
    requires bits { geo.now.block_bits ≡ view_bits view.old }
    requires least { 9 ≤ geo.now.block_bits }
    requires most { geo.now.block_bits ≤ 12 }
    requires device { (v : Volume) → Shows view.old geo.now v → view_blocks view.old ≡ v.on_device }
    ensures is { IfOk result (λ is. (v : Volume) → Shows view.old geo.now v → is ≡ is_sound_super v) }
    ensures lies { IfOk result (λ is. is ≡ true → LiesIn geo.now view.old) }
    ensures reads { OnlyReads view.old view.new }
    ensures fails { IfErr result (BlockFails view.old view.new) }
{
    if !are_sound_numbers(geo, view.blocks()) {
        return Ok(false);
    }
    is_super_dinode(view, geo)
}
