// SYSDIR and ROOT: the volume's two directories.
ghost use Rattle.std.specs.Prelude.{◌≡◌, ◌^◌, ◌≤◌, ◌&&◌, length, true, false, IfOk};
ghost use Rattle.std.specs.Option.{IfNone, IfSome};
ghost use Rattle.std.specs.Result.{IfErr};
ghost use Rattle.o2_view.specs.Views.{Shows, ShowsBytes, OnlyReads};
ghost use Rattle.o2_view.specs.Geos.{LiesIn, Reaches};
ghost use Rattle.o2_view.specs.OwnChecks.{BlockFails};
ghost use Rattle.o2_model.specs.Orders.{is_none_of};
ghost use Rattle.o2_model.specs.Volume.{is_valid, Volume};
ghost use Rattle.o2_model.specs.Inodes.{is_directory};
ghost use Rattle.o2_model.specs.Directories.{directory_entries};
ghost use Rattle.o2_model.specs.Checks.Sysdir.{directory_faults, is_sound_directory as is_directory_sound};

use crate::entry_names::have_sound_names;
use o2_dir::{DirFault, Entries, entries_in, is_of_directory, is_valid_dinode};
use o2_disk::Disk;
use o2_extent::look;
use o2_model::Geo;
use o2_ondisk::read_dinode;
use o2_view::{Block, View, ViewFault};
use std::alloc::Global;

/// The block of a valid dinode of a directory, read once. None where block `inode` is no such dinode.
pub fn valid_directory<D: Disk, const N: usize>(
    view: &mut View<'_, D, N>,
    geo: &Geo,
    inode: u64,
) -> Result<Option<Block>, ViewFault>
    requires inode { Reaches geo.now view.old inode }
    ensures some { IfOk result (λ found. IfSome found (λ block. (v : Volume) → Shows view.old geo.now v
        → ((is_valid v inode && is_directory v inode) ≡ true) × (block ≡ v.at inode))) }
    ensures none { IfOk result (λ found. IfNone found ((v : Volume) → Shows view.old geo.now v → (is_valid v inode && is_directory v inode) ≡ false)) }
    ensures size { IfOk result (λ found. IfSome found (λ block. length block ≡ 2 ^ geo.now.block_bits)) }
    ensures long { IfOk result (λ found. IfSome found (λ block. 512 ≤ length block)) }
    ensures reads { OnlyReads view.old view.new }
    ensures fails { IfErr result (BlockFails view.old view.new) }
{
    let block = look(view, geo, inode)?;
    let dinode = read_dinode(block.as_slice());
    if !is_valid_dinode(geo, inode, &dinode) {
        return Ok(None);
    }
    if !is_of_directory(&dinode) {
        return Ok(None);
    }
    Ok(Some(block))
}

/// The live entries of a directory whose block is in hand. None where one of EXTENT, INODE_SIZE, DIR_BLOCK, DIRENT_NAME and
/// DIRENT_DUP fails for it.
fn sound_entries_in<D: Disk, const N: usize>(
    alloc: Global,
    view: &mut View<'_, D, N>,
    geo: &Geo,
    inode: u64,
    bytes: &[u8],
) -> Result<Option<Entries>, ViewFault>
    requires geo { LiesIn geo.now view.old }
    requires size { length bytes.now ≡ 2 ^ geo.now.block_bits }
    requires long { 512 ≤ length bytes.now }
    requires directory { (v : Volume) → Shows view.old geo.now v → is_directory v inode ≡ true }
    ensures some { IfOk result (λ found. IfSome found (λ entries. (v : Volume) → ShowsBytes view.old geo.now inode bytes.now v
        → (is_none_of (directory_faults v inode) ≡ true) × (entries ≡ directory_entries v inode))) }
    ensures none { IfOk result (λ found. IfNone found ((v : Volume) → ShowsBytes view.old geo.now inode bytes.now v → is_none_of (directory_faults v inode) ≡ false)) }
    ensures reads { OnlyReads view.old view.new }
    ensures fails { IfErr result (BlockFails view.old view.new) }
{
    let entries = match entries_in(alloc, view, geo, inode, bytes) {
        Ok(entries) => entries,
        Err(DirFault::Bad { .. }) => return Ok(None),
        Err(DirFault::Absent) => return Ok(None),
        Err(DirFault::NoMemory) => return Err(ViewFault::NoMemory),
        Err(DirFault::DeviceFault) => return Err(ViewFault::DeviceFault),
    };
    if !have_sound_names(alloc, entries.as_slice())? {
        return Ok(None);
    }
    Ok(Some(entries))
}

/// The live entries of the directory in block `inode`, in order. None where it is no valid dinode of a directory, or one of the
/// five checks fails for it.
pub fn sound_entries<D: Disk, const N: usize>(
    alloc: Global,
    view: &mut View<'_, D, N>,
    geo: &Geo,
    inode: u64,
) -> Result<Option<Entries>, ViewFault>
    requires inode { Reaches geo.now view.old inode }
    ensures some { IfOk result (λ found. IfSome found (λ entries. (v : Volume) → Shows view.old geo.now v
        → (is_directory_sound v inode ≡ true) × (entries ≡ directory_entries v inode))) }
    ensures none { IfOk result (λ found. IfNone found ((v : Volume) → Shows view.old geo.now v → is_directory_sound v inode ≡ false)) }
    ensures reads { OnlyReads view.old view.new }
    ensures fails { IfErr result (BlockFails view.old view.new) }
{
    let Some(block) = valid_directory(view, geo, inode)? else {
        return Ok(None);
    };
    sound_entries_in(alloc, view, geo, inode, block.as_slice())
}
