// The volume's own inodes.
ghost use Rattle.std.specs.Prelude.{◌≡◌, ◌||◌, ◌&&◌, ◌==◌, not, map, filter, IfOk};
ghost use Rattle.std.specs.List.{list_any};
ghost use Rattle.std.specs.Result.{IfErr};
ghost use Rattle.o2_view.specs.Views.{Shows, OnlyReads};
ghost use Rattle.o2_view.specs.Geos.{LiesIn};
ghost use Rattle.o2_view.specs.OwnChecks.{BlockFails};
ghost use Rattle.o2_model.specs.Words.{among};
ghost use Rattle.o2_model.specs.Directories.{is_dot, own_inodes};
ghost use Rattle.o2_model.specs.Volume.{Volume};

use crate::Entry;
use crate::directory_whole::whole_directory;
use o2_disk::Disk;
use o2_extent::read_inode;
use o2_model::Geo;
use o2_view::{View, ViewFault};
use std::alloc::Global;

/// Whether the entry is `.` or `..`.
pub fn is_dot_entry(entry: &Entry) -> bool
    ensures { result ≡ is_dot entry.now }
{
    let name = entry.name.as_slice();
    name == b".".as_slice() || name == b"..".as_slice()
}

/// Whether an entry other than the dots names the inode.
fn are_naming(entries: &[Entry], inode: u64) -> bool
    ensures { result ≡ among (map (λ e. e.inode) (filter (λ e. not (is_dot e)) entries.now)) inode }
{
    for entry in entries {
        if !is_dot_entry(entry) && entry.inode == inode {
            return true;
        }
    }
    false
}

/// Whether the inode is one of the volume's own: the system directory, or one that its entries name. A block of that
/// directory which its entries do not fill names none.
pub fn is_own<D: Disk, const N: usize>(
    alloc: Global,
    view: &mut View<'_, D, N>,
    geo: &Geo,
    inode: u64,
) -> Result<bool, ViewFault>
    requires geo { LiesIn geo.now view.old }
    ensures own { IfOk result (λ own. (v : Volume) → Shows view.old geo.now v → own ≡ among (own_inodes v) inode) }
    ensures reads { OnlyReads view.old view.new }
    ensures fails { IfErr result (BlockFails view.old view.new) }
{
    if inode == geo.sysdir {
        return Ok(true);
    }
    let found = read_inode(alloc, view, geo, geo.sysdir)?;
    let bytes = found.block.as_slice();
    let leaves = &found.reading.leaves;
    let directory = whole_directory(alloc, view, geo, geo.sysdir, bytes, leaves)?;
    Ok(are_naming(directory.entries.as_slice(), inode))
}
