// A device, opened for reading.
ghost use Rattle.std.specs.Prelude.{◌≡◌, ◌≤◌, Some, None, OnOk, IfOk, IfErr, IsErrOf};
ghost use Rattle.o2_disk.specs.Device.{ReadsOnly, Rose, IsAttachedOnce, IsAttachedAtMostOnce, IsWritable};
ghost use Rattle.o2_model.specs.Image.{Image};
ghost use Rattle.o2_model.specs.Features.{unsupported_feature};
ghost use Rattle.o2_model.specs.Volume.{opened};
ghost use Rattle.o2_cause.specs.Causes.{IsDone};
ghost use Rattle.o2_open.specs.Devices.{volume_on};
ghost use Rattle.o2_open.specs.Openings.{RefusesVolume, IsOfOpening};

use o2_cause::{Cause, attach};
use o2_disk::{Disk, How};
use o2_model::Geo;
use o2_view::{find_super_sector, unsupported};
use std::alloc::Global;

// The block of the superblock.
const SUPER_BLOCK: u64 = 2;

/// Attaches the device for reading, and finds its superblock, whose volume has to be one that is supported: NotOcfs2 where there
/// is none, Unsupported where its features or its size are outside the profile.
pub fn open_for_reading<D: Disk>(alloc: Global, device: &mut D, name: &str) -> Result<Geo, Cause>
    ensures found { IfOk result (λ geo. (I : Image) → (D.state device.old).content ≡ Some I → (opened I ≡ Some (volume_on geo I)) × (unsupported_feature I ≡ None)) }
    ensures least { IfOk result (λ geo. 9 ≤ geo.block_bits) }
    ensures most { IfOk result (λ geo. geo.block_bits ≤ 12) }
    ensures refused { IfErr result (λ cause. (I : Image) → (D.state device.old).content ≡ Some I → RefusesVolume I cause) }
    ensures causes { IfErr result IsOfOpening }
    ensures not_done { IfErr result (λ cause. IsDone cause → ⊥) }
    ensures named { (IsErrOf result Cause.NoMemory → ⊥) → IsAttachedOnce name.now How.ReadOnly (D.state device.old) (D.state device.new) }
    ensures at_most { IsAttachedAtMostOnce name.now How.ReadOnly (D.state device.old) (D.state device.new) }
    ensures fault { IsErrOf result Cause.DeviceFault → Rose (D.state device.old).faults (D.state device.new).faults }
    ensures reads { ReadsOnly (D.state device.old) (D.state device.new) }
    ensures not_writable { IsWritable (D.state device.new).attached → ⊥ }
    ensures faults { OnOk result ((D.state device.new).faults ≡ (D.state device.old).faults) }
{
    attach(alloc, device, name, How::ReadOnly)?;
    let Some(sector) = find_super_sector(device)? else {
        return Err(Cause::NotOcfs2);
    };
    match unsupported(&sector.superblock(), sector.cluster_count()) {
        Some(what) => Err(Cause::Unsupported {
            what,
            block: SUPER_BLOCK,
        }),
        None => Ok(sector.geometry()),
    }
}
