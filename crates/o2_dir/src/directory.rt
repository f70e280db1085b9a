// The entries of a directory.
ghost use Rattle.std.specs.Prelude.{◌≡◌, ◌^◌, ◌≤◌, length, true, IfOk};
ghost use Rattle.std.specs.Result.{IfErr};
ghost use Rattle.o2_view.specs.Views.{Shows, ShowsBytes, OnlyReads};
ghost use Rattle.o2_view.specs.Geos.{LiesIn, Reaches};
ghost use Rattle.o2_view.specs.OwnChecks.{NoneFails};
ghost use Rattle.o2_model.specs.Inodes.{is_directory};
ghost use Rattle.o2_model.specs.Directories.{directory_entries};
ghost use Rattle.o2_model.specs.Volume.{Volume};
ghost use Rattle.o2_extent.specs.Readings.{Within};
ghost use Rattle.o2_dir.specs.Fails.{DirFails, DirFailsOf, ShowsRead, directory_checks};
ghost use Rattle.o2_dir.specs.InodeReadings.{Fits, TellsSound};

use crate::inline_directory::inlined;
use crate::mapped_directory::mapped;
use crate::{DirFault, Entries, InodeReading};
use o2_disk::Disk;
use o2_extent::{Leaf, is_inline, look, records_in};
use o2_model::Geo;
use o2_ondisk::read_dinode;
use o2_view::View;
use std::alloc::Global;

/// The entries of a directory whose dinode has these bytes, and which has these records.
fn entries_by<D: Disk, const N: usize>(
    alloc: Global,
    view: &mut View<'_, D, N>,
    geo: &Geo,
    inode: u64,
    bytes: &[u8],
    leaves: &[Leaf],
) -> Result<Entries, DirFault>
    requires geo { LiesIn geo.now view.old }
    requires size { length bytes.now ≡ 2 ^ geo.now.block_bits }
    requires long { 512 ≤ length bytes.now }
    requires within { Within geo.now leaves.now }
    requires directory { (v : Volume) → Shows view.old geo.now v → is_directory v inode ≡ true }
    ensures told { IfOk result (λ entries. (v : Volume) → ShowsRead view.old geo.now inode bytes.now leaves.now v
        → NoneFails (directory_checks inode) v × (entries ≡ directory_entries v inode)) }
    ensures reads { OnlyReads view.old view.new }
    ensures fails { IfErr result (DirFailsOf (ShowsRead view.old geo.now inode bytes.now leaves.now) view.old view.new (directory_checks inode) ⊥) }
{
    let dinode = read_dinode(bytes);
    if is_inline(&dinode) {
        return inlined(alloc, inode, dinode.size, bytes);
    }
    mapped(alloc, view, geo, inode, dinode.size, leaves)
}

/// The live entries of a directory whose block is in hand, in order. Bad where EXTENT, INODE_SIZE or DIR_BLOCK fails for it.
pub fn entries_in<D: Disk, const N: usize>(
    alloc: Global,
    view: &mut View<'_, D, N>,
    geo: &Geo,
    inode: u64,
    bytes: &[u8],
) -> Result<Entries, DirFault>
    requires geo { LiesIn geo.now view.old }
    requires size { length bytes.now ≡ 2 ^ geo.now.block_bits }
    requires long { 512 ≤ length bytes.now }
    requires directory { (v : Volume) → Shows view.old geo.now v → is_directory v inode ≡ true }
    ensures told { IfOk result (λ entries. (v : Volume) → ShowsBytes view.old geo.now inode bytes.now v
        → NoneFails (directory_checks inode) v × (entries ≡ directory_entries v inode)) }
    ensures reads { OnlyReads view.old view.new }
    ensures fails { IfErr result (DirFailsOf (ShowsBytes view.old geo.now inode bytes.now) view.old view.new (directory_checks inode) ⊥) }
{
    let leaves = records_in(alloc, view, geo, inode, bytes)?;
    entries_by(alloc, view, geo, inode, bytes, leaves.as_slice())
}

/// The live entries of a directory, in order. Bad where EXTENT, INODE_SIZE or DIR_BLOCK fails for it.
pub fn entries<D: Disk, const N: usize>(
    alloc: Global,
    view: &mut View<'_, D, N>,
    geo: &Geo,
    inode: u64,
) -> Result<Entries, DirFault>
    requires inode { Reaches geo.now view.old inode }
    requires directory { (v : Volume) → Shows view.old geo.now v → is_directory v inode ≡ true }
    ensures told { IfOk result (λ entries. (v : Volume) → Shows view.old geo.now v → NoneFails (directory_checks inode) v × (entries ≡ directory_entries v inode)) }
    ensures reads { OnlyReads view.old view.new }
    ensures fails { IfErr result (DirFails view.old view.new geo.now (directory_checks inode) ⊥) }
{
    let block = look(view, geo, inode)?;
    entries_in(alloc, view, geo, inode, block.as_slice())
}

/// The live entries of a directory that was read before, in order: only its blocks are read. Bad where DIR_BLOCK fails for it.
pub fn entries_of<D: Disk, const N: usize>(
    alloc: Global,
    view: &mut View<'_, D, N>,
    geo: &Geo,
    reading: &InodeReading,
) -> Result<Entries, DirFault>
    requires geo { LiesIn geo.now view.old }
    requires fits { Fits geo.now reading.now }
    requires sound { (v : Volume) → Shows view.old geo.now v → TellsSound v reading.now.inode reading.now }
    requires directory { (v : Volume) → Shows view.old geo.now v → is_directory v reading.now.inode ≡ true }
    ensures told { IfOk result (λ entries. (v : Volume) → Shows view.old geo.now v → NoneFails (directory_checks reading.now.inode) v × (entries ≡ directory_entries v reading.now.inode)) }
    ensures reads { OnlyReads view.old view.new }
    ensures fails { IfErr result (DirFails view.old view.new geo.now (directory_checks reading.now.inode) ⊥) }
{
    entries_by(
        alloc,
        view,
        geo,
        reading.inode,
        reading.block.as_slice(),
        reading.leaves.as_slice(),
    )
}
