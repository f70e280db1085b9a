// A view of all blocks of a device.
ghost use Rattle.std.specs.Prelude.{◌≡◌, ◌≤◌, Some, IfOk, IsOk};
ghost use Rattle.o2_disk.specs.Image.{Image};
ghost use Rattle.o2_model.specs.Volume.{Volume};
ghost use Rattle.o2_view.specs.Views.{view_disk, view_bits, view_blocks, Shows};
ghost use Rattle.o2_open.specs.Devices.{volume_on, IsOn};

use o2_disk::{Disk, NoMemory};
use o2_model::Geo;
use o2_view::View;
use std::alloc::Global;

/// A view of all whole blocks of the device, of which N may be kept, with nothing planned. It takes no memory, so it answers Ok.
pub fn whole_view<'a, D: Disk, const N: usize>(
    alloc: Global,
    device: &'a mut D,
    geo: &Geo,
) -> Result<View<'a, D, N>, NoMemory>
    requires least { 9 ≤ geo.now.block_bits }
    requires most { geo.now.block_bits ≤ 12 }
    requires kept { 1 ≤ N }
    ensures shows { IfOk result (λ view. (v : Volume) → IsOn (D.state device.old) geo.now v → Shows view geo.now v) }
    ensures bits { IfOk result (λ view. view_bits view ≡ geo.now.block_bits) }
    ensures blocks { IfOk result (λ view. (v : Volume) → Shows view geo.now v → view_blocks view ≡ v.on_device) }
    ensures disk { IfOk result (λ view. (view_disk view).now ≡ device.old) }
    ensures lent { IfOk result (λ view. (view_disk view).ghost_name ≡ device.entry.ghost_name) }
    ensures succeeds { IsOk result }
{
    let blocks = device.sectors() >> (geo.block_bits - 9);
    View::new(alloc, device, geo.block_bits, blocks)
}
