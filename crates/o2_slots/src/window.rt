// The window of a slot: the clusters that its local alloc has set aside.
ghost use Rattle.std.specs.Prelude.{◌≡◌, ◌+◌, ◌-◌, ◌*◌, ◌^◌, ◌≤◌, nat_le, ◌==◌, ◌&&◌, ◌||◌, length, drop, IfOk};
ghost use Rattle.std.specs.Result.{IfErr};
ghost use Rattle.o2_ondisk.specs.Dinodes.{last_part_place, window_bitmap_place};
ghost use Rattle.o2_ondisk.specs.Fields.{bytes_at};
ghost use Rattle.o2_ondisk.specs.LocalAllocHeaders.{local_alloc_header_of};
ghost use Rattle.o2_model.specs.Volume.{Volume};
ghost use Rattle.o2_view.specs.Counted.{CallsAtMost};
ghost use Rattle.o2_view.specs.Geos.{HasSizes, Reaches};
ghost use Rattle.o2_view.specs.OwnChecks.{NoneFails, ReadFails};
ghost use Rattle.o2_view.specs.Views.{view_state, Shows, OnlyReads};
ghost use Rattle.o2_slots.specs.Windows.{IsWindow};
ghost use Rattle.o2_slots.specs.SlotChecks.{window_checks};

use o2_disk::Disk;
use o2_extent::{block_bytes, look};
use o2_model::{Bytes, Check, Geo};
use o2_ondisk::{LocalAllocHeader, read_dinode, read_local_alloc_header};
use o2_view::{ReadFault, View};
use std::alloc::{AllocError, Global};

/// Where the header of the window begins in its dinode.
const WINDOW_HEADER: usize = 0xc0;

/// Where its bitmap begins.
const WINDOW_BITMAP: usize = 0xd0;

/// The clusters that a slot has set aside.
#[derive(Debug, Drop)]
pub struct Window {
    /// The first of them.
    pub start: u32,
    /// How many they are, 0 where there are none.
    pub total: u32,
    /// A bit for each, set where the cluster is in use, and further bits up to the end of the bitmap.
    pub bits: Bytes,
}

/// The header of the window in these bytes of a dinode.
fn header_of(bytes: &[u8]) -> LocalAllocHeader
    requires { 512 ≤ length bytes.now }
    ensures { result ≡ local_alloc_header_of (drop last_part_place bytes.now) }
{
    read_local_alloc_header(&bytes[WINDOW_HEADER..])
}

/// Whether the bitmap fits the dinode, and a window of so many clusters fits the bitmap.
fn fits(geo: &Geo, header: &LocalAllocHeader, total: u32) -> bool
    requires { HasSizes geo.now }
    ensures { result ≡ (nat_le header.now.size (2 ^ geo.now.block_bits - window_bitmap_place) && (total == 0 || nat_le total (8 * header.now.size))) }
{
    let size = header.size;
    let most = block_bytes(geo) - 0xd0;
    u64::from(size) <= most && (total == 0 || total <= 8 * u32::from(size))
}

/// The bytes of a bitmap of so many bytes in these of its dinode.
fn bits_of(alloc: Global, bytes: &[u8], size: u16) -> Result<Bytes, AllocError>
    requires { window_bitmap_place + size ≤ length bytes.now }
    ensures { IfOk result (λ bits. bits ≡ bytes_at window_bitmap_place size bytes.now) }
{
    let bits = bytes[WINDOW_BITMAP..WINDOW_BITMAP + usize::from(size)].to_vec(alloc)?;
    Ok(Bytes::from(bits))
}

/// The window of the local alloc whose dinode is in block `inode`. Bad where LOCAL_ALLOC fails for it in the sizes: where the
/// bitmap does not fit the dinode, or a window that has clusters does not fit the bitmap. Which clusters they are is not judged.
pub fn local_alloc<D: Disk, const N: usize>(
    alloc: Global,
    view: &mut View<'_, D, N>,
    geo: &Geo,
    inode: u64,
) -> Result<Window, ReadFault>
    requires { Reaches geo.now view.old inode }
    ensures told { IfOk result (λ window. (v : Volume) → Shows view.old geo.now v → NoneFails (window_checks inode) v × IsWindow v inode window) }
    ensures fails { IfErr result (ReadFails view.old view.new geo.now (window_checks inode)) }
    // The disk is called once at most.
    ensures count { CallsAtMost 1 (view_state view.old) (view_state view.new) }
    ensures reads { OnlyReads view.old view.new }
{
    let block = look(view, geo, inode)?;
    let bytes = block.as_slice();
    let total = read_dinode(bytes).role_data.total();
    let header = header_of(bytes);
    if !fits(geo, &header, total) {
        return Err(ReadFault::Bad {
            check: Check::LocalAlloc,
            block: inode,
        });
    }
    let bits = bits_of(alloc, bytes, header.size)?;
    Ok(Window {
        start: header.bm_off,
        total,
        bits,
    })
}
