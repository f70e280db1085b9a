// An entry of a directory that becomes void, in the plan.
ghost use Rattle.std.specs.Prelude.{◌≡◌, ◌+◌, ◌≤◌, true, false, List, [], ◌∷◌, length, Some, is_some, OnOk, IfOk};
ghost use Rattle.std.specs.Result.{IfErr};
ghost use Rattle.o2_ondisk.specs.Fields.{put_at};
ghost use Rattle.o2_model.specs.Directories.{NamedEntry, entries_in};
ghost use Rattle.o2_model.specs.Volume.{Volume};
ghost use Rattle.o2_view.specs.Geos.{Reaches};
ghost use Rattle.o2_view.specs.HomePlans.{PlansHome, PlansOnly};
ghost use Rattle.o2_view.specs.OwnChecks.{NoneFails};
ghost use Rattle.o2_view.specs.Views.{Shows};
ghost use Rattle.o2_dir.specs.Fails.{DirFails};
ghost use Rattle.o2_dir.specs.VoidEntries.{AreVoidedAt, BeginsAt, fill_checks, filled_bytes, filled_place, with_void};

use crate::DirFault;
use crate::entries_in_block::add_entries;
use crate::parts::first;
use o2_disk::{Disk, NoMemory};
use o2_extent::look;
use o2_model::{Check, Geo};
use o2_ondisk::{DIR_ENTRY_SIZE, put_array, read_dinode};
use o2_view::View;
use std::alloc::Global;

/// Where the inline bytes of a dinode begin.
const INLINE_DATA_PLACE: usize = 0xc8;

/// Where the bytes that entries fill begin in a block of the directory at `inode`.
fn filled_from(inode: u64, block: u64) -> usize
    ensures { result ≡ filled_place inode block }
{
    if block == inode { INLINE_DATA_PLACE } else { 0 }
}

/// The bytes that entries fill in a block of the directory at `inode`, which has these bytes.
fn filled_part(bytes: &[u8], inode: u64, block: u64) -> &[u8]
    requires { 512 ≤ length bytes.now }
    ensures part { (v : Volume) → bytes.now ≡ v.at block → result.now ≡ filled_bytes v inode block }
    ensures within { filled_place inode block + length result.now ≤ length bytes.now }
{
    if block != inode {
        return bytes;
    }
    first(&bytes[INLINE_DATA_PLACE..], read_dinode(bytes).size)
}

/// Whether entries fill these bytes of the block, and there is room for one from byte `at` on.
fn is_filled(alloc: Global, bytes: &[u8], block: u64, at: u32) -> Result<bool, NoMemory>
    requires { length bytes.now ≤ 4096 }
    ensures filled { IfOk result (λ filled. filled ≡ true → is_some (entries_in bytes.now) ≡ true) }
    ensures room { IfOk result (λ filled. filled ≡ true → at + 12 ≤ length bytes.now) }
    ensures bad { IfOk result (λ filled. filled ≡ false → (es : List NamedEntry) → entries_in bytes.now ≡ Some es → BeginsAt at es → ⊥) }
{
    let mut entries = Vec::new(alloc);
    if !add_entries(alloc, bytes, block, &mut entries)? {
        return Ok(false);
    }
    Ok(at as usize + DIR_ENTRY_SIZE <= bytes.len())
}

/// Puts 0 for the inode of the entry that begins at byte `place`.
fn clear_inode(bytes: &mut [u8], place: usize)
    requires { place + 8 ≤ length bytes.old }
    ensures { bytes.new ≡ put_at place 8 0 bytes.old }
{
    put_array(bytes, place, &0u64.to_le_bytes());
}

/// Makes the entry void that begins at byte `at` of those that entries fill, in a block of the directory at `inode`, which has
/// these bytes. False where entries do not fill them, and then nothing is changed.
fn void_in(
    alloc: Global,
    bytes: &mut [u8],
    inode: u64,
    block: u64,
    at: u32,
) -> Result<bool, NoMemory>
    requires long { 512 ≤ length bytes.old }
    requires most { length bytes.old ≤ 4096 }
    ensures voided { IfOk result (λ filled. filled ≡ true → bytes.new ≡ put_at (filled_place inode block + at) 8 0 bytes.old) }
    ensures filled { IfOk result (λ filled. filled ≡ true → (v : Volume) → bytes.old ≡ v.at block → is_some (entries_in (filled_bytes v inode block)) ≡ true) }
    ensures bad { IfOk result (λ filled. filled ≡ false → (v : Volume) → bytes.old ≡ v.at block
        → (es : List NamedEntry) → entries_in (filled_bytes v inode block) ≡ Some es → BeginsAt at es → ⊥) }
{
    let part = filled_part(bytes, inode, block);
    if !is_filled(alloc, part, block, at)? {
        return Ok(false);
    }
    clear_inode(bytes, filled_from(inode, block) + at as usize);
    Ok(true)
}

/// Plans the entry of the directory at `inode` that begins at byte `at` of `block` as void: its inode becomes 0, and its length,
/// its name and all else stay. Where `block` is `inode`, the byte counts among the inline bytes. Bad where entries do not fill
/// the block, which is all of DIR_BLOCK that is judged.
pub fn void_entry<D: Disk, const N: usize>(
    alloc: Global,
    view: &mut View<'_, D, N>,
    geo: &Geo,
    inode: u64,
    block: u64,
    at: u32,
) -> Result<(), DirFault>
    requires block { Reaches geo.now view.old block }
    requires begins { (v : Volume) → Shows view.old geo.now v → (es : List NamedEntry) → entries_in (filled_bytes v inode block) ≡ Some es → BeginsAt at es }
    ensures voided { OnOk result ((v : Volume) → Shows view.old geo.now v → Shows view.new geo.now (with_void v inode block at)) }
    // The entries of the block are the old ones, but that this one is void.
    ensures entries { OnOk result ((v : Volume) → Shows view.old geo.now v → (old : List NamedEntry) → entries_in (filled_bytes v inode block) ≡ Some old
        → (new : List NamedEntry) × (entries_in (filled_bytes (with_void v inode block at) inode block) ≡ Some new) × AreVoidedAt at old new) }
    ensures sound { OnOk result ((v : Volume) → Shows view.old geo.now v → NoneFails (fill_checks inode block) v) }
    // No other block is planned.
    ensures alone { OnOk result (PlansOnly (block ∷ []) view.old view.new) }
    ensures plans { PlansHome view.old view.new }
    ensures fails { IfErr result (DirFails view.old view.new geo.now (fill_checks inode block) ⊥) }
{
    let mut bytes = look(view, geo, block)?.into_vec();
    if !void_in(alloc, &mut bytes, inode, block, at)? {
        return Err(DirFault::Bad {
            check: Check::DirBlock,
            block,
        });
    }
    view.home(block, &bytes)?;
    Ok(())
}

#[cfg(test)]
mod tests;
