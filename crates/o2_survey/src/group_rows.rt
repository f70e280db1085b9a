// What the descriptors of groups say.
ghost use Rattle.std.specs.Prelude.{◌≡◌, ◌^◌, ◌*◌, ◌<◌, ◌≤◌, ℕ, true, length, IfOk};
ghost use Rattle.std.specs.Result.{IfErr};
ghost use Rattle.o2_model.specs.Volume.{Volume};
ghost use Rattle.o2_model.specs.ClusterGroups.{group_index, group_size};
ghost use Rattle.o2_model.specs.Groups.{is_bit_set_in, is_of_clusters};
ghost use Rattle.o2_model.specs.Structures.{is_discontiguous};
ghost use Rattle.o2_view.specs.Counted.{CallsAtMost};
ghost use Rattle.o2_view.specs.Geos.{HasSizes, LiesIn};
ghost use Rattle.o2_view.specs.OwnChecks.{BlockFails};
ghost use Rattle.o2_view.specs.Views.{view_state, Shows, OnlyReads};
ghost use Rattle.o2_tables.specs.Rows.{IsGroupRow};

use crate::discontiguous::says_discontiguous;
use o2_disk::{Disk, NoMemory};
use o2_extent::{block_bytes, blocks_per_cluster, is_block_in_range, look};
use o2_model::{BitUse, Bytes, Geo, Group};
use o2_ondisk::read_group_desc;
use o2_tables::GroupRow;
use o2_view::{View, ViewFault};
use std::alloc::Global;

/// Where the bits of a group begin in its block.
const BITMAP_AT: usize = 0x40;

/// What the block of a group says.
#[derive(Drop)]
pub struct GroupReading {
    pub row: GroupRow,
    pub is_discontiguous: bool,
}

/// Whether it is a group of the global bitmap.
fn is_of_bitmap(group: &Group) -> bool
    ensures { result ≡ is_of_clusters group.now }
{
    match group.of.bit_use {
        BitUse::Clusters => true,
        _ => false,
    }
}

/// The first cluster of the group of the global bitmap that has the cluster of block b.
fn first_of_group(geo: &Geo, b: u64) -> u64
    requires { HasSizes geo.now }
    ensures { (v : Volume) → v.geo ≡ geo.now → result ≡ group_index v b * group_size v }
{
    let size = 8 * (block_bytes(geo) - 64);
    b / blocks_per_cluster(geo) / size * size
}

/// The cluster of bit 0 of a group of the global bitmap, 0 for any other group. NoMemory where its number has more than 32
/// bits, so that it is in no volume.
fn first_cluster(geo: &Geo, group: &Group) -> Result<u32, NoMemory>
    requires { HasSizes geo.now }
    ensures { IfOk result (λ first. (v : Volume) → v.geo ≡ geo.now → is_of_clusters group.now ≡ true → first ≡ group_index v group.now.block * group_size v) }
{
    if !is_of_bitmap(group) {
        return Ok(0);
    }
    match u32::try_from(first_of_group(geo, group.block)) {
        Ok(first) => Ok(first),
        Err(_) => Err(NoMemory),
    }
}

/// The bytes of so many bits behind a descriptor. NoMemory too where the block ends before them.
fn bitmap_in(alloc: Global, bytes: &[u8], bits: u16) -> Result<Bytes, NoMemory>
    ensures { IfOk result (λ bitmap. (k : ℕ) → k < bits → is_bit_set_in 0 bitmap k ≡ is_bit_set_in BITMAP_AT bytes.now k) }
{
    let end = BITMAP_AT + (usize::from(bits) + 7) / 8;
    if bytes.len() < end {
        return Err(NoMemory);
    }
    match bytes[BITMAP_AT..end].to_vec(alloc) {
        Ok(bitmap) => Ok(Bytes::from(bitmap)),
        Err(_) => Err(NoMemory),
    }
}

/// The row of the group whose block has these bytes.
fn row_in(alloc: Global, geo: &Geo, group: Group, bytes: &[u8]) -> Result<GroupRow, NoMemory>
    requires sizes { HasSizes geo.now }
    requires long { 512 ≤ length bytes.now }
    ensures of { IfOk result (λ row. row.group ≡ group) }
    ensures row { IfOk result (λ row. (v : Volume) → v.geo ≡ geo.now → bytes.now ≡ v.at group.block → IsGroupRow v row) }
{
    let desc = read_group_desc(bytes);
    let first = first_cluster(geo, &group)?;
    let bitmap = bitmap_in(alloc, bytes, group.bits)?;
    Ok(GroupRow {
        group,
        chain: desc.chain,
        free_bits: desc.free_bits_count,
        first,
        bitmap,
    })
}

/// What the group's block says, which is read. NoMemory too where the block is not in range or has no room for the group's bits,
/// so that no volume has the group.
pub fn read_group<D: Disk, const N: usize>(
    alloc: Global,
    view: &mut View<'_, D, N>,
    geo: &Geo,
    group: Group,
) -> Result<GroupReading, ViewFault>
    requires { LiesIn geo.now view.old }
    ensures of { IfOk result (λ reading. reading.row.group ≡ group) }
    ensures row { IfOk result (λ reading. (v : Volume) → Shows view.old geo.now v → IsGroupRow v reading.row) }
    ensures discontiguous { IfOk result (λ reading. (v : Volume) → Shows view.old geo.now v → reading.is_discontiguous ≡ is_discontiguous v group.block) }
    ensures count { CallsAtMost 1 (view_state view.old) (view_state view.new) }
    ensures reads { OnlyReads view.old view.new }
    ensures fails { IfErr result (BlockFails view.old view.new) }
{
    if !is_block_in_range(geo, group.block) {
        return Err(ViewFault::NoMemory);
    }
    let block = look(view, geo, group.block)?;
    let row = row_in(alloc, geo, group, block.as_slice())?;
    Ok(GroupReading {
        row,
        is_discontiguous: says_discontiguous(block.as_slice()),
    })
}
