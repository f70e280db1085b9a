// The clusters of a window that are not in use, where the window holds but for claims.
ghost use Rattle.std.specs.Prelude.{◌≡◌, ◌+◌, ◌<◌, ◌^◌, true, false, not, map, filter, IfOk};
ghost use Rattle.std.specs.List.{range_with_len};
ghost use Rattle.std.specs.Option.{IfNone, IfSome};
ghost use Rattle.o2_model.specs.Groups.{is_bit_set_in};
ghost use Rattle.o2_windows.specs.WindowBits.{clear_clusters as clusters_of_clear_bits, has_set_bits, lies_in_volume as is_in_volume, holds_alone};

use o2_disk::NoMemory;
use o2_model::Geo;
use o2_slots::Window;
use o2_tables::has_bit;
use o2_tally::put;
use std::alloc::Global;

fn lies_in_volume(geo: &Geo, window: &Window) -> bool
    ensures lies { result ≡ is_in_volume geo.now window.now }
    ensures few { result ≡ true → window.now.start + window.now.total < 2 ^ 32 }
{
    let start = window.start;
    let clusters = geo.clusters;
    0 < start && u64::from(start) + u64::from(window.total) <= u64::from(clusters)
}

/// The clusters of the clear ones of so many bits, the first of which stands for cluster `start`.
fn clear_clusters(alloc: Global, bits: &[u8], start: u32, total: u16) -> Result<Vec<u32>, NoMemory>
    requires { start + total < 2 ^ 32 }
    ensures { IfOk result (λ clusters. clusters.items ≡ map (λ k. start + k) (filter (λ k. not (is_bit_set_in 0 bits.now k)) (range_with_len 0 total))) }
{
    let mut clusters = Vec::new(alloc);
    for k in 0..total {
        if !has_bit(bits, k) {
            put(&mut clusters, start + u32::from(k))?;
        }
    }
    Ok(clusters)
}

/// The clusters of the clear bits, where so many of the bits are set.
fn clusters_not_used(
    alloc: Global,
    window: &Window,
    used: u32,
) -> Result<Option<Vec<u32>>, NoMemory>
    requires { window.now.start + window.now.total < 2 ^ 32 }
    ensures none { IfOk result (λ found. IfNone found (has_set_bits window.now used ≡ false)) }
    ensures some { IfOk result (λ found. IfSome found (λ clusters. (has_set_bits window.now used ≡ true) × (clusters.items ≡ clusters_of_clear_bits window.now))) }
{
    // The bitmap of a dinode has fewer bits. Memory may run out at any time, so that this answer is never wrong.
    let Ok(total) = u16::try_from(window.total) else {
        return Err(NoMemory);
    };
    let clusters = clear_clusters(alloc, window.bits.as_slice(), window.start, total)?;
    if clusters.len() as u64 + u64::from(used) != u64::from(total) {
        return Ok(None);
    }
    Ok(Some(clusters))
}

/// The clusters of its clear bits, where so many of its clusters are in use and all are the volume's. None where the window does
/// not hold.
pub fn sound_clusters(
    alloc: Global,
    geo: &Geo,
    window: &Window,
    used: u32,
) -> Result<Option<Vec<u32>>, NoMemory>
    ensures none { IfOk result (λ found. IfNone found (holds_alone geo.now window.now used ≡ false)) }
    ensures some { IfOk result (λ found. IfSome found (λ clusters. (holds_alone geo.now window.now used ≡ true) × (clusters.items ≡ clusters_of_clear_bits window.now))) }
{
    if window.total == 0 {
        return Ok(Some(Vec::new(alloc)));
    }
    if !lies_in_volume(geo, window) {
        return Ok(None);
    }
    clusters_not_used(alloc, window, used)
}
