// Whether the size of an inode is sound.
ghost use Rattle.std.specs.Prelude.{◌≡◌, ◌-◌, ◌*◌, ◌^◌, ◌≤◌, ◌||◌, ◌&&◌, true, nat_lt, nat_le, length, ℕ, IfOk, if◌then◌else◌};
ghost use Rattle.std.specs.List.{list_any};
ghost use Rattle.std.specs.Result.{IfErr};
ghost use Rattle.o2_ondisk.specs.Dinodes.{last_part_place};
ghost use Rattle.o2_view.specs.Views.{Shows, OnlyReads};
ghost use Rattle.o2_view.specs.Geos.{LiesIn, HasSizes};
ghost use Rattle.o2_view.specs.OwnChecks.{BlockFails};
ghost use Rattle.o2_model.specs.Words.{among};
ghost use Rattle.o2_model.specs.Directories.{own_inodes};
ghost use Rattle.o2_model.specs.Inodes.{has_fast_text};
ghost use Rattle.o2_model.specs.Contents.{maps_cluster};
ghost use Rattle.o2_model.specs.Checks.InodeSize.{has_sound_size as is_sound, is_file_size as may_have};
ghost use Rattle.o2_model.specs.Volume.{Volume};
ghost use Rattle.o2_extent.specs.Readings.{Within};
ghost use Rattle.o2_dir.specs.Fails.{HoldsLeaves, IsRead};

use crate::inline_directory::has_room;
use crate::kinds::{is_of_directory, is_of_file, is_of_link};
use crate::mapped_directory::has_directory_size;
use crate::own_inodes::is_own;
use o2_disk::{Disk, NoMemory};
use o2_extent::{Leaf, is_fast_link, is_inline};
use o2_model::Geo;
use o2_ondisk::{Dinode, read_dinode};
use o2_view::{View, ViewFault};
use std::alloc::Global;

/// Whether a record is about the first cluster.
fn maps_first(leaves: &[Leaf]) -> bool
    ensures { result ≡ list_any (maps_cluster 0) leaves.now }
{
    for leaf in leaves {
        if leaf.cpos == 0 && 0 < leaf.clusters {
            return true;
        }
    }
    false
}

/// Whether a link has a text, in the dinode of these bytes or in its first cluster.
fn has_text(dinode: &Dinode, bytes: &[u8], leaves: &[Leaf]) -> bool
    requires { 512 ≤ length bytes.now }
    ensures { result ≡ (nat_lt 0 dinode.now.size && (if has_fast_text dinode.now then nat_lt dinode.now.size (length bytes.now - last_part_place) else list_any (maps_cluster 0) leaves.now)) }
{
    let size = dinode.size;
    if size == 0 {
        return false;
    }
    if is_fast_link(dinode) {
        return size < (bytes.len() - 192) as u64;
    }
    maps_first(leaves)
}

/// Whether so many bytes end within the clusters that have a number.
pub fn ends_in_numbered(geo: &Geo, size: u64) -> bool
    requires { HasSizes geo.now }
    ensures { result ≡ nat_le size (2 ^ geo.now.cluster_bits * 2 ^ 32) }
{
    let cluster = 1u64 << geo.cluster_bits;
    size <= cluster * 0x1_0000_0000
}

/// Whether a file of this size may have it.
fn is_file_size<D: Disk, const N: usize>(
    alloc: Global,
    view: &mut View<'_, D, N>,
    geo: &Geo,
    inode: u64,
    size: u64,
) -> Result<bool, ViewFault>
    requires geo { LiesIn geo.now view.old }
    ensures sound { IfOk result (λ sound. (v : Volume) → Shows view.old geo.now v
        → sound ≡ (nat_le size (2 ^ geo.now.cluster_bits * 2 ^ 32) || among (own_inodes v) inode)) }
    ensures reads { OnlyReads view.old view.new }
    ensures fails { IfErr result (BlockFails view.old view.new) }
{
    if ends_in_numbered(geo, size) {
        return Ok(true);
    }
    is_own(alloc, view, geo, inode)
}

/// Whether INODE_SIZE holds for an inode whose dinode has these bytes and which has these records, where `may_be_file` tells
/// whether a file of its size may have it. NoMemory where memory runs out.
pub fn has_size_of_kind(
    alloc: Global,
    geo: &Geo,
    bytes: &[u8],
    leaves: &[Leaf],
    may_be_file: bool,
) -> Result<bool, NoMemory>
    requires sizes { HasSizes geo.now }
    requires size { length bytes.now ≡ 2 ^ geo.now.block_bits }
    requires long { 512 ≤ length bytes.now }
    requires within { Within geo.now leaves.now }
    ensures { IfOk result (λ sound. (v : Volume) → v.geo ≡ geo.now → (inode : ℕ) → HoldsLeaves v inode bytes.now leaves.now
        → may_be_file ≡ may_have v inode → sound ≡ is_sound v inode) }
{
    let dinode = read_dinode(bytes);
    if is_inline(&dinode) {
        return Ok(has_room(dinode.size, bytes));
    }
    if is_of_link(&dinode) {
        return Ok(has_text(&dinode, bytes, leaves));
    }
    if is_of_directory(&dinode) {
        return has_directory_size(alloc, geo, dinode.size, leaves);
    }
    if !is_of_file(&dinode) {
        return Ok(true);
    }
    Ok(may_be_file)
}

/// Whether INODE_SIZE holds for `inode`, whose dinode has these bytes, and which has these records.
pub fn has_sound_size<D: Disk, const N: usize>(
    alloc: Global,
    view: &mut View<'_, D, N>,
    geo: &Geo,
    inode: u64,
    bytes: &[u8],
    leaves: &[Leaf],
) -> Result<bool, ViewFault>
    requires geo { LiesIn geo.now view.old }
    requires size { length bytes.now ≡ 2 ^ geo.now.block_bits }
    requires long { 512 ≤ length bytes.now }
    requires within { Within geo.now leaves.now }
    ensures sound { IfOk result (λ sound. (v : Volume) → Shows view.old geo.now v → IsRead v inode bytes.now leaves.now
        → sound ≡ is_sound v inode) }
    ensures reads { OnlyReads view.old view.new }
    ensures fails { IfErr result (BlockFails view.old view.new) }
{
    let dinode = read_dinode(bytes);
    let may_be_file = is_file_size(alloc, view, geo, inode, dinode.size)?;
    Ok(has_size_of_kind(alloc, geo, bytes, leaves, may_be_file)?)
}
