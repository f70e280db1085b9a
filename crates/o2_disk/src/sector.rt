// One sector, written for good.
ghost use Rattle.std.specs.Prelude.{◌≡◌, ◌⊎◌, length, OnOk, Some};
ghost use Rattle.o2_disk.specs.Image.{Image, written};
ghost use Rattle.o2_disk.specs.Device.{IsSettled, IsRange, IsWritable, SameDevice, LeavesOnly, HasCause, Told};

use crate::{Disk, Failed};

/// Writes one sector and syncs: a change that needs no log, since a sector is written whole or not at all.
pub fn put_sector<D: Disk>(disk: &mut D, at: u64, bytes: &[u8; 512]) -> Result<(), Failed>
    requires range { IsRange (D.state disk.old) at 512 }
    requires writable { IsWritable (D.state disk.old).attached }
    ensures written { OnOk result ((I : Image) → (D.state disk.old).content ≡ Some I → (D.state disk.new).content ≡ Some (written I at bytes.now)) }
    ensures either { Told (λ I J. (J ≡ I) ⊎ (J ≡ written I at bytes.now)) (D.state disk.old) (D.state disk.new) }
    // A crash at any moment of the call leaves the image from before it, or that with the new sector.
    ensures any_moment { (I : Image) → IsSettled (D.state disk.old) I → LeavesOnly (D.state disk.old) (D.state disk.new) (λ X. (X ≡ I) ⊎ (X ≡ written I at bytes.now)) }
    ensures done { OnOk result ((I : Image) → IsSettled (D.state disk.old) I → IsSettled (D.state disk.new) (written I at bytes.now)) }
    ensures device { SameDevice (D.state disk.old) (D.state disk.new) }
    ensures cause { HasCause (D.state disk.old).faults (D.state disk.new).faults result }
{
    disk.write(at, bytes)?;
    disk.sync()
}
