// Entries by their names.
ghost use Rattle.std.specs.Prelude.{◌≡◌, ◌^◌, ◌≤◌, length, true, option_map, find, Some, IfOk};
ghost use Rattle.std.specs.Result.{IfErr};
ghost use Rattle.o2_view.specs.Views.{Shows, ShowsBytes, OnlyReads};
ghost use Rattle.o2_view.specs.Geos.{LiesIn, Reaches};
ghost use Rattle.o2_view.specs.OwnChecks.{NoneFails};
ghost use Rattle.o2_model.specs.Inodes.{is_directory};
ghost use Rattle.o2_model.specs.Directories.{first_named, is_named};
ghost use Rattle.o2_model.specs.Volume.{Volume};
ghost use Rattle.o2_dir.specs.Fails.{DirFails, DirFailsOf, HasNone, HasNoneOf, directory_checks};

use crate::directory::entries_in;
use crate::{DirFault, Entry};
use o2_disk::Disk;
use o2_extent::look;
use o2_model::Geo;
use o2_view::View;
use std::alloc::Global;

/// The first of the entries that has the name.
fn take_named(entries: Vec<Entry>, name: &[u8]) -> Option<Entry>
    ensures { result ≡ find (is_named name.now) entries.items }
{
    for entry in entries {
        if entry.name.as_slice() == name {
            return Some(entry);
        }
    }
    None
}

/// The first live entry of that name in a directory whose block is in hand. Absent where it has none, Bad where EXTENT, INODE_SIZE or DIR_BLOCK fails
/// for the directory.
pub fn look_up_in<D: Disk, const N: usize>(
    alloc: Global,
    view: &mut View<'_, D, N>,
    geo: &Geo,
    inode: u64,
    bytes: &[u8],
    name: &[u8],
) -> Result<Entry, DirFault>
    requires geo { LiesIn geo.now view.old }
    requires size { length bytes.now ≡ 2 ^ geo.now.block_bits }
    requires long { 512 ≤ length bytes.now }
    requires directory { (v : Volume) → Shows view.old geo.now v → is_directory v inode ≡ true }
    ensures told { IfOk result (λ entry. (v : Volume) → ShowsBytes view.old geo.now inode bytes.now v
        → NoneFails (directory_checks inode) v × (first_named v inode name.now ≡ Some entry)) }
    ensures reads { OnlyReads view.old view.new }
    ensures fails { IfErr result (DirFailsOf (ShowsBytes view.old geo.now inode bytes.now) view.old view.new (directory_checks inode)
        (HasNoneOf (ShowsBytes view.old geo.now inode bytes.now) inode name.now)) }
{
    let all = entries_in(alloc, view, geo, inode, bytes)?.into_vec();
    match take_named(all, name) {
        Some(entry) => Ok(entry),
        None => Err(DirFault::Absent),
    }
}

/// The first live entry of that name in a directory. Absent where it has none, Bad where EXTENT, INODE_SIZE or DIR_BLOCK fails
/// for the directory.
pub fn look_up<D: Disk, const N: usize>(
    alloc: Global,
    view: &mut View<'_, D, N>,
    geo: &Geo,
    inode: u64,
    name: &[u8],
) -> Result<Entry, DirFault>
    requires inode { Reaches geo.now view.old inode }
    requires directory { (v : Volume) → Shows view.old geo.now v → is_directory v inode ≡ true }
    ensures told { IfOk result (λ entry. (v : Volume) → Shows view.old geo.now v → NoneFails (directory_checks inode) v × (first_named v inode name.now ≡ Some entry)) }
    ensures reads { OnlyReads view.old view.new }
    ensures fails { IfErr result (DirFails view.old view.new geo.now (directory_checks inode) (HasNone view.old geo.now inode name.now)) }
{
    let block = look(view, geo, inode)?;
    look_up_in(alloc, view, geo, inode, block.as_slice(), name)
}

/// The inode of that name in the system directory. Absent where it has none, Bad where EXTENT, INODE_SIZE or DIR_BLOCK fails for
/// the system directory.
pub fn system_file<D: Disk, const N: usize>(
    alloc: Global,
    view: &mut View<'_, D, N>,
    geo: &Geo,
    name: &[u8],
) -> Result<u64, DirFault>
    requires geo { LiesIn geo.now view.old }
    requires directory { (v : Volume) → Shows view.old geo.now v → is_directory v geo.now.sysdir ≡ true }
    ensures told { IfOk result (λ inode. (v : Volume) → Shows view.old geo.now v → NoneFails (directory_checks geo.now.sysdir) v
        × (option_map (λ e. e.inode) (first_named v geo.now.sysdir name.now) ≡ Some inode)) }
    ensures reads { OnlyReads view.old view.new }
    ensures fails { IfErr result (DirFails view.old view.new geo.now (directory_checks geo.now.sysdir) (HasNone view.old geo.now geo.now.sysdir name.now)) }
{
    let entry = look_up(alloc, view, geo, geo.sysdir, name)?;
    Ok(entry.inode)
}
