// The inode at the end of a path, and what is wrong with it.
ghost use Rattle.std.specs.Prelude.{◌≡◌, is_some, IfOk};
ghost use Rattle.std.specs.Result.{IfErr};
ghost use Rattle.o2_ondisk.specs.Kinds.{kind_of_mode};
ghost use Rattle.o2_view.specs.Views.{Shows, OnlyReads};
ghost use Rattle.o2_view.specs.Geos.{Reaches};
ghost use Rattle.o2_view.specs.OwnChecks.{ReadFails, NoneFails};
ghost use Rattle.o2_model.specs.Volume.{Volume};
ghost use Rattle.o2_dir.specs.InodeReadings.{Fits, TellsSound};
ghost use Rattle.o2_debug.specs.Objects.{object_checks};

use o2_dir::{InodeReading, sound_inode_in};
use o2_disk::Disk;
use o2_extent::look;
use o2_model::{Check, Geo};
use o2_ondisk::{Dinode, read_dinode};
use o2_view::{ReadFault, View};
use std::alloc::Global;

fn has_kind(d: &Dinode) -> bool
    ensures { result ≡ is_some (kind_of_mode d.now.mode) }
{
    d.kind().is_some()
}

/// Reads an inode once, for all that a query asks of it. Bad where INODE_KIND, EXTENT or INODE_SIZE fails for it.
pub fn judge<D: Disk, const N: usize>(
    alloc: Global,
    view: &mut View<'_, D, N>,
    geo: &Geo,
    inode: u64,
) -> Result<InodeReading, ReadFault>
    requires inode { Reaches geo.now view.old inode }
    ensures fits { IfOk result (λ reading. Fits geo.now reading) }
    ensures told { IfOk result (λ reading. (v : Volume) → Shows view.old geo.now v → NoneFails (object_checks inode) v × TellsSound v inode reading) }
    ensures reads { OnlyReads view.old view.new }
    ensures fails { IfErr result (ReadFails view.old view.new geo.now (object_checks inode)) }
{
    let block = look(view, geo, inode)?;
    if !has_kind(&read_dinode(block.as_slice())) {
        return Err(ReadFault::Bad {
            check: Check::InodeKind,
            block: inode,
        });
    }
    sound_inode_in(alloc, view, geo, inode, block)
}
