// An inode that is read once, for all that is asked of it.
ghost use Rattle.std.specs.Prelude.{◌≡◌, ◌^◌, ◌≤◌, length, IfOk};
ghost use Rattle.std.specs.Result.{IfErr};
ghost use Rattle.o2_view.specs.Views.{ShowsBytes, OnlyReads};
ghost use Rattle.o2_view.specs.Geos.{LiesIn};
ghost use Rattle.o2_view.specs.OwnChecks.{ReadFailsOf};
ghost use Rattle.o2_model.specs.Volume.{Volume};
ghost use Rattle.o2_dir.specs.Fails.{data_checks};
ghost use Rattle.o2_dir.specs.InodeReadings.{Fits, TellsSound};

use crate::file_size::has_sound_size;
use o2_disk::Disk;
use o2_extent::{OrderedLeaves, records_in};
use o2_model::{Check, Geo};
use o2_ondisk::{Dinode, read_dinode};
use o2_view::{Block, ReadFault, View};
use std::alloc::Global;

/// What was read of an inode, so that its dinode and its extent blocks need not be read again.
#[derive(Debug, Drop)]
pub struct InodeReading {
    pub inode: u64,
    pub dinode: Dinode,
    /// The block of the dinode, in which data can stand too.
    pub block: Block,
    pub leaves: OrderedLeaves,
}

/// Reads what there is to read of the inode whose block is in hand: the extent blocks of its list. Bad where EXTENT or INODE_SIZE
/// fails for it.
pub fn sound_inode_in<D: Disk, const N: usize>(
    alloc: Global,
    view: &mut View<'_, D, N>,
    geo: &Geo,
    inode: u64,
    block: Block,
) -> Result<InodeReading, ReadFault>
    requires geo { LiesIn geo.now view.old }
    requires size { length block ≡ 2 ^ geo.now.block_bits }
    requires long { 512 ≤ length block }
    ensures fits { IfOk result (λ reading. Fits geo.now reading) }
    ensures told { IfOk result (λ reading. (v : Volume) → ShowsBytes view.old geo.now inode block v → TellsSound v inode reading) }
    ensures reads { OnlyReads view.old view.new }
    ensures fails { IfErr result (ReadFailsOf (ShowsBytes view.old geo.now inode block) view.old view.new (data_checks inode)) }
{
    let leaves = records_in(alloc, view, geo, inode, block.as_slice())?;
    if !has_sound_size(alloc, view, geo, inode, block.as_slice(), leaves.as_slice())? {
        return Err(ReadFault::Bad {
            check: Check::InodeSize,
            block: inode,
        });
    }
    let dinode = read_dinode(block.as_slice());
    Ok(InodeReading {
        inode,
        dinode,
        block,
        leaves: OrderedLeaves::new(leaves),
    })
}
