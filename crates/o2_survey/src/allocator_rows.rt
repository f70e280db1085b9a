// What the dinodes of allocators say.
ghost use Rattle.std.specs.Prelude.{◌≡◌, ◌^◌, ◌≤◌, length, true, false, IfOk};
ghost use Rattle.std.specs.Option.{IfNone, IfSome};
ghost use Rattle.std.specs.Result.{IfErr};
ghost use Rattle.o2_ondisk.specs.Dinodes.{dinode_of};
ghost use Rattle.o2_model.specs.Volume.{Volume};
ghost use Rattle.o2_model.specs.Allocators.{chains, is_allocator, is_sound_chain_header};
ghost use Rattle.o2_view.specs.Geos.{HasSizes, LiesIn};
ghost use Rattle.o2_view.specs.OwnChecks.{BlockFails};
ghost use Rattle.o2_view.specs.Views.{Shows, OnlyReads};
ghost use Rattle.o2_tables.specs.Rows.{IsAllocatorRow};
ghost use Rattle.o2_survey.specs.SystemInodes.{AreRead};

use crate::named_inodes::{SystemInodes, block_of};
use o2_chain::chains_in;
use o2_dir::is_valid_dinode;
use o2_disk::{Disk, NoMemory};
use o2_extent::is_block_in_range;
use o2_model::{Allocator, Geo, Items};
use o2_ondisk::{ChainRec, Dinode, InodeFlags, read_dinode};
use o2_tables::AllocatorRow;
use o2_view::{View, ViewFault};
use std::alloc::Global;

/// Whether this is the dinode of an allocator, in block b.
#[tactic(auto, unfolding(o2_model::specs::Allocators::is_allocator))]
fn is_of_allocator(geo: &Geo, b: u64, dinode: &Dinode) -> bool
    requires { HasSizes geo.now }
    ensures { (v : Volume) → v.geo ≡ geo.now → dinode.now ≡ dinode_of (v.at b) → result ≡ is_allocator v b }
{
    is_valid_dinode(geo, b, dinode) && dinode.flags.has(InodeFlags::CHAIN)
}

/// The chain records of the allocator whose dinode has these bytes, none where the header of their list is not sound. Beside
/// them, whether it is.
fn chain_records(
    alloc: Global,
    geo: &Geo,
    a: &Allocator,
    bytes: &[u8],
) -> Result<(bool, Items<ChainRec>), NoMemory>
    requires sizes { HasSizes geo.now }
    requires size { length bytes.now ≡ 2 ^ geo.now.block_bits }
    ensures sound { IfOk result (λ told. (v : Volume) → v.geo ≡ geo.now → bytes.now ≡ v.at a.now.block → told.0 ≡ is_sound_chain_header v a.now) }
    ensures records { IfOk result (λ told. (v : Volume) → v.geo ≡ geo.now → bytes.now ≡ v.at a.now.block → told.1 ≡ chains v a.now) }
{
    match chains_in(alloc, geo, a, bytes)? {
        Some(records) => Ok((true, Items::from(records))),
        None => Ok((false, Items::from(Vec::new(alloc)))),
    }
}

/// The row of the allocator whose block has these bytes. None where they are no dinode of an allocator.
fn row_in(
    alloc: Global,
    geo: &Geo,
    a: Allocator,
    bytes: &[u8],
) -> Result<Option<AllocatorRow>, NoMemory>
    requires sizes { HasSizes geo.now }
    requires size { length bytes.now ≡ 2 ^ geo.now.block_bits }
    requires long { 512 ≤ length bytes.now }
    ensures none { IfOk result (λ found. IfNone found ((v : Volume) → v.geo ≡ geo.now → bytes.now ≡ v.at a.block → is_allocator v a.block ≡ false)) }
    ensures some { IfOk result (λ found. IfSome found (λ row. (v : Volume) → v.geo ≡ geo.now → bytes.now ≡ v.at a.block → is_allocator v a.block ≡ true)) }
    ensures of { IfOk result (λ found. IfSome found (λ row. row.allocator ≡ a)) }
    ensures row { IfOk result (λ found. IfSome found (λ row. (v : Volume) → v.geo ≡ geo.now → bytes.now ≡ v.at a.block → IsAllocatorRow v row)) }
{
    let dinode = read_dinode(bytes);
    if !is_of_allocator(geo, a.block, &dinode) {
        return Ok(None);
    }
    let (has_sound_header, chains) = chain_records(alloc, geo, &a, bytes)?;
    Ok(Some(AllocatorRow {
        allocator: a,
        used: dinode.role_data.used(),
        total: dinode.role_data.total(),
        has_sound_header,
        chains,
    }))
}

/// The row of the allocator. None where its block is no valid dinode with chains; one out of range is not looked at.
pub fn row_of<D: Disk, const N: usize>(
    alloc: Global,
    view: &mut View<'_, D, N>,
    geo: &Geo,
    inodes: &SystemInodes,
    a: Allocator,
) -> Result<Option<AllocatorRow>, ViewFault>
    requires { LiesIn geo.now view.old }
    ensures none { IfOk result (λ found. IfNone found ((v : Volume) → Shows view.old geo.now v → AreRead v inodes.now → is_allocator v a.block ≡ false)) }
    ensures some { IfOk result (λ found. IfSome found (λ row. (v : Volume) → Shows view.old geo.now v → AreRead v inodes.now → is_allocator v a.block ≡ true)) }
    ensures of { IfOk result (λ found. IfSome found (λ row. row.allocator ≡ a)) }
    ensures row { IfOk result (λ found. IfSome found (λ row. (v : Volume) → Shows view.old geo.now v → AreRead v inodes.now → IsAllocatorRow v row)) }
    ensures reads { OnlyReads view.old view.new }
    ensures fails { IfErr result (BlockFails view.old view.new) }
{
    if !is_block_in_range(geo, a.block) {
        return Ok(None);
    }
    let block = block_of(alloc, view, geo, inodes, a.block)?;
    Ok(row_in(alloc, geo, a, block.as_slice())?)
}
