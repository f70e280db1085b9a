// The blocks of a directory that its records map.
ghost use Rattle.std.specs.Prelude.{◌<◌, List, All, map, OnOk, IfOk};
ghost use Rattle.std.specs.Result.{IfErr};
ghost use Rattle.o2_view.specs.Views.{view_blocks, Shows, OnlyReads};
ghost use Rattle.o2_view.specs.Geos.{LiesIn, Reaches};
ghost use Rattle.o2_view.specs.OwnChecks.{BlockFails};
ghost use Rattle.o2_model.specs.Words.{push};
ghost use Rattle.o2_model.specs.Directories.{DirBlock};
ghost use Rattle.o2_model.specs.Volume.{Volume};
ghost use Rattle.o2_dir.specs.Blocks.{block_at_place};
ghost use Rattle.o2_dir.specs.WholeDirectories.{KeepsWhole};

use crate::places::Place;
use crate::whole_reading::{WholeReading, add_whole_block, start_whole};
use o2_disk::Disk;
use o2_extent::look;
use o2_model::Geo;
use o2_view::{View, ViewFault};
use std::alloc::Global;

/// Reads the block at this place.
fn read_place<D: Disk, const N: usize>(
    alloc: Global,
    view: &mut View<'_, D, N>,
    geo: &Geo,
    p: &Place,
    whole: &mut WholeReading,
) -> Result<(), ViewFault>
    requires inside { Reaches geo.now view.old p.now.block }
    ensures read { OnOk result ((v : Volume) → Shows view.old geo.now v → (bs : List DirBlock) → KeepsWhole (λ b. v.at b.block) whole.old bs
        → KeepsWhole (λ b. v.at b.block) whole.new (push bs (block_at_place v p.now))) }
    ensures reads { OnlyReads view.old view.new }
    ensures fails { IfErr result (BlockFails view.old view.new) }
{
    let block = look(view, geo, p.block)?;
    add_whole_block(alloc, block.as_slice(), p.place, p.block, whole)?;
    Ok(())
}

/// Reads the blocks at these places.
pub fn read_places<D: Disk, const N: usize>(
    alloc: Global,
    view: &mut View<'_, D, N>,
    geo: &Geo,
    places: &[Place],
) -> Result<WholeReading, ViewFault>
    requires geo { LiesIn geo.now view.old }
    requires inside { All (λ p. p.block < view_blocks view.old) places.now }
    ensures read { IfOk result (λ whole. (v : Volume) → Shows view.old geo.now v
        → KeepsWhole (λ b. v.at b.block) whole (map (block_at_place v) places.now)) }
    ensures reads { OnlyReads view.old view.new }
    ensures fails { IfErr result (BlockFails view.old view.new) }
{
    let mut whole = start_whole(alloc);
    for p in places {
        read_place(alloc, view, geo, p, &mut whole)?;
    }
    Ok(whole)
}
