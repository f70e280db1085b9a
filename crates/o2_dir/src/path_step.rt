// One step of a path.
ghost use Rattle.std.specs.Prelude.{◌≡◌, ◌^◌, ◌<◌, ◌≤◌, length, true, false, IfOk};
ghost use Rattle.std.specs.Option.{IfNone, IfSome};
ghost use Rattle.std.specs.Result.{IfErr};
ghost use Rattle.o2_view.specs.Views.{view_blocks, Shows, OnlyReads};
ghost use Rattle.o2_view.specs.Geos.{LiesIn, Reaches};
ghost use Rattle.o2_view.specs.OwnChecks.{BlockFails};
ghost use Rattle.o2_model.specs.Volume.{is_valid, Volume};
ghost use Rattle.o2_model.specs.Inodes.{is_directory};
ghost use Rattle.o2_model.specs.declared.entry.Entry.{Entry};
ghost use Rattle.o2_dir.specs.Paths.{StepsTo, AtName, PathFails};

use crate::PathFault;
use crate::data_inode::is_valid_dinode;
use crate::kinds::is_of_directory;
use crate::names::look_up_in;
use o2_disk::Disk;
use o2_extent::{look, volume_blocks};
use o2_model::{Check, Geo};
use o2_ondisk::read_dinode;
use o2_view::{Block, View, ViewFault};
use std::alloc::Global;

/// Whether the dinode at block `inode` is a directory's.
#[tactic(auto, unfolding(o2_model::specs::Inodes::is_directory))]
pub fn is_directory_at<D: Disk, const N: usize>(
    view: &mut View<'_, D, N>,
    geo: &Geo,
    inode: u64,
) -> Result<bool, ViewFault>
    requires inode { Reaches geo.now view.old inode }
    ensures is { IfOk result (λ is. (v : Volume) → Shows view.old geo.now v → is ≡ is_directory v inode) }
    ensures reads { OnlyReads view.old view.new }
    ensures fails { IfErr result (BlockFails view.old view.new) }
{
    let block = look(view, geo, inode)?;
    Ok(is_of_directory(&read_dinode(block.as_slice())))
}

/// Whether block `b` is a valid dinode of the volume. Any number may be asked.
pub fn is_valid_at<D: Disk, const N: usize>(
    view: &mut View<'_, D, N>,
    geo: &Geo,
    b: u64,
) -> Result<bool, ViewFault>
    requires geo { LiesIn geo.now view.old }
    ensures is { IfOk result (λ is. (v : Volume) → Shows view.old geo.now v → is ≡ is_valid v b) }
    ensures inside { IfOk result (λ is. is ≡ true → b < view_blocks view.old) }
    ensures reads { OnlyReads view.old view.new }
    ensures fails { IfErr result (BlockFails view.old view.new) }
{
    if volume_blocks(geo) <= b {
        return Ok(false);
    }
    let block = look(view, geo, b)?;
    let dinode = read_dinode(block.as_slice());
    Ok(is_valid_dinode(geo, b, &dinode))
}

/// The block of the inode, where it is a directory.
fn directory_block<D: Disk, const N: usize>(
    view: &mut View<'_, D, N>,
    geo: &Geo,
    inode: u64,
) -> Result<Option<Block>, ViewFault>
    requires inode { Reaches geo.now view.old inode }
    ensures holds { IfOk result (λ found. IfSome found (λ block. (v : Volume) → Shows view.old geo.now v → block ≡ v.at inode)) }
    ensures yes { IfOk result (λ found. IfSome found (λ _. (v : Volume) → Shows view.old geo.now v → is_directory v inode ≡ true)) }
    ensures size { IfOk result (λ found. IfSome found (λ block. length block ≡ 2 ^ geo.now.block_bits)) }
    ensures long { IfOk result (λ found. IfSome found (λ block. 512 ≤ length block)) }
    ensures no { IfOk result (λ found. IfNone found ((v : Volume) → Shows view.old geo.now v → is_directory v inode ≡ false)) }
    ensures reads { OnlyReads view.old view.new }
    ensures fails { IfErr result (BlockFails view.old view.new) }
{
    let block = look(view, geo, inode)?;
    let dinode = read_dinode(block.as_slice());
    if !is_of_directory(&dinode) {
        return Ok(None);
    }
    Ok(Some(block))
}

/// The inode that the name of a path leads to from the inode before.
#[tactic(auto, using(o2_extent::proofs::Views::only_both))]
pub fn step<D: Disk, const N: usize>(
    alloc: Global,
    view: &mut View<'_, D, N>,
    geo: &Geo,
    inode: u64,
    name: &[u8],
) -> Result<u64, PathFault>
    requires inode { Reaches geo.now view.old inode }
    ensures to { IfOk result (λ i. (v : Volume) → Shows view.old geo.now v → (e : Entry) × StepsTo v inode name.now e × (i ≡ e.inode)) }
    ensures inside { IfOk result (λ i. i < view_blocks view.old) }
    ensures reads { OnlyReads view.old view.new }
    ensures fails { IfErr result (PathFails view.old view.new (AtName view.old geo.now inode name.now)) }
{
    let Some(block) = directory_block(view, geo, inode)? else {
        return Err(PathFault::WrongKind);
    };
    let entry = look_up_in(alloc, view, geo, inode, block.as_slice(), name)?;
    if !is_valid_at(view, geo, entry.inode)? {
        return Err(PathFault::Bad {
            check: Check::DirentInode,
            block: entry.block,
        });
    }
    Ok(entry.inode)
}
