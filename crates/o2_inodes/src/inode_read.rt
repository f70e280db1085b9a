// An inode with all that is read of it.
ghost use Rattle.std.specs.Prelude.{◌≡◌, ◌^◌, ◌≤◌, true, false, length, IfOk, MatchOption};
ghost use Rattle.std.specs.Option.{IfSome};
ghost use Rattle.std.specs.Result.{IfErr};
ghost use Rattle.o2_model.specs.Volume.{Volume, is_valid};
ghost use Rattle.o2_view.specs.Geos.{HasSizes, LiesIn};
ghost use Rattle.o2_view.specs.OwnChecks.{BlockFails};
ghost use Rattle.o2_view.specs.Views.{Shows, OnlyReads};
ghost use Rattle.o2_inodes.specs.InodeReads.{Fits, IsInodeRead};

use crate::directories::directory_in;
use crate::indexes::index_in;
use o2_dir::{WholeDirectory, is_valid_dinode};
use o2_disk::Disk;
use o2_extent::{Reading, is_block_in_range, look, read_own_list};
use o2_model::Geo;
use o2_ondisk::read_dinode;
use o2_tree::IndexRow;
use o2_view::{Block, View, ViewFault};
use std::alloc::Global;

/// What was read of an inode.
#[derive(Debug, Drop)]
pub struct InodeRead {
    /// The block of its dinode.
    pub number: u64,
    /// That block's bytes.
    pub block: Block,
    /// Its list, with the extent blocks.
    pub reading: Reading,
    /// Its blocks, where it is a directory.
    pub directory: Option<WholeDirectory>,
    /// Its index, where it is a directory that has one.
    pub index: Option<IndexRow>,
}

/// Whether these bytes of block b are a valid dinode.
fn holds_inode(geo: &Geo, b: u64, bytes: &[u8]) -> bool
    requires sizes { HasSizes geo.now }
    requires long { 512 ≤ length bytes.now }
    ensures { (v : Volume) → v.geo ≡ geo.now → bytes.now ≡ v.at b → result ≡ is_valid v b }
{
    let dinode = read_dinode(bytes);
    is_valid_dinode(geo, b, &dinode)
}

/// Reads the list of the inode in block b, which has these bytes, and where it is a directory its blocks and its index.
fn read_more<D: Disk, const N: usize>(
    alloc: Global,
    view: &mut View<'_, D, N>,
    geo: &Geo,
    number: u64,
    block: Block,
) -> Result<InodeRead, ViewFault>
    requires geo { LiesIn geo.now view.old }
    requires size { length block ≡ 2 ^ geo.now.block_bits }
    requires long { 512 ≤ length block }
    ensures told { IfOk result (λ inode. (v : Volume) → Shows view.old geo.now v → block ≡ v.at number → IsInodeRead v inode) }
    ensures number { IfOk result (λ inode. inode.number ≡ number) }
    ensures fits { IfOk result (λ inode. Fits geo.now inode) }
    ensures reads { OnlyReads view.old view.new }
    ensures fails { IfErr result (BlockFails view.old view.new) }
{
    let reading = read_own_list(alloc, view, geo, number, block.as_slice())?;
    let leaves = &reading.leaves;
    let directory = directory_in(alloc, view, geo, number, block.as_slice(), leaves)?;
    let index = index_in(alloc, view, geo, number, block.as_slice(), &directory)?;
    Ok(InodeRead {
        number,
        block,
        reading,
        directory,
        index,
    })
}

/// Reads the inode in block b: that block, its extent blocks, a directory's blocks and those of its index, each once. None where
/// no valid dinode stands there, and then nothing else is read.
pub fn read_at<D: Disk, const N: usize>(
    alloc: Global,
    view: &mut View<'_, D, N>,
    geo: &Geo,
    b: u64,
) -> Result<Option<InodeRead>, ViewFault>
    requires { LiesIn geo.now view.old }
    ensures told { IfOk result (λ found. (v : Volume) → Shows view.old geo.now v
        → MatchOption found (is_valid v b ≡ false) (λ inode. (is_valid v b ≡ true) × IsInodeRead v inode)) }
    ensures number { IfOk result (λ found. IfSome found (λ inode. inode.number ≡ b)) }
    ensures fits { IfOk result (λ found. IfSome found (λ inode. Fits geo.now inode)) }
    ensures reads { OnlyReads view.old view.new }
    ensures fails { IfErr result (BlockFails view.old view.new) }
{
    if !is_block_in_range(geo, b) {
        return Ok(None);
    }
    let block = look(view, geo, b)?;
    if !holds_inode(geo, b, block.as_slice()) {
        return Ok(None);
    }
    let inode = read_more(alloc, view, geo, b, block)?;
    Ok(Some(inode))
}
