// A volume's label.
ghost use Rattle.std.specs.Prelude.{◌≡◌, ◌≢◌, ◌⊎◌, ◌+◌, ◌<◌, ◌≤◌, ℕ, length, true, false, take, drop, ◌++◌, OnOk, IfOk, IfErr, OnErr, MatchResult, IsErrOf, Some, None};
ghost use Rattle.o2_ondisk.specs.Dinodes.{last_part_place};
ghost use Rattle.o2_ondisk.specs.Fields.{paste_at};
ghost use Rattle.o2_disk.specs.Device.{ReadsOnly, SameDevice, IsAttachedOnce, IsAttachedAtMostOnce, HasCause, Rose, IsSettled, IsWritable, LeavesOnly, Told};
ghost use Rattle.o2_model.specs.Image.{Image};
ghost use Rattle.o2_model.specs.Superblock.{superblock_bits, superblock, cluster_count};
ghost use Rattle.o2_model.specs.Label.{label_field, with_label, relabelled};
ghost use Rattle.o2_tunefs.specs.Answer.{is_for_later, volume_refusal, label_refusal, refusal_of, IsCauseFor};
ghost use Rattle.o2_cause.specs.Causes.{IsRefusal, IsDone};
ghost use Rattle.o2_tunefs.specs.LabelRun.{IsOfTunefs};
ghost use Rattle.o2_view.specs.SuperSector.{IsSuperSector};

use crate::served::is_not_served;
use o2_cause::{Cause, attach};
use o2_disk::{Disk, Failed, How, put_sector};
use o2_ondisk::{SUPER_AT, write_label};
use o2_view::{SuperSector, Which, find_super_sector};
use std::alloc::Global;

// How many bytes a label's field has.
const LABEL_SIZE: usize = 64;

/// Gives the volume on the device of that name another label.
pub fn set_label<D: Disk>(
    alloc: Global,
    device: &mut D,
    name: &str,
    label: &[u8],
) -> Result<(), Cause>
    ensures answer { (I : Image) → (D.state device.old).content ≡ Some I → MatchResult result (λ _. refusal_of label.now I ≡ None) (IsCauseFor (refusal_of label.now I)) }
    ensures length { IfErr result (λ cause. (which : _) (value : ℕ) → cause ≡ Cause.Range which value → label_refusal label.now ≡ Some cause) }
    ensures no_usage { IfErr result (λ cause. (place : ℕ) → cause ≢ Cause.Usage place) }
    ensures not_done { IfErr result (λ cause. IsDone cause → ⊥) }
    ensures causes { IfErr result IsOfTunefs }
    ensures named { (IsErrOf result Cause.NoMemory → ⊥) → IsAttachedOnce name.now How.ReadWrite (D.state device.old) (D.state device.new) }
    ensures at_most { IsAttachedAtMostOnce name.now How.ReadWrite (D.state device.old) (D.state device.new) }
    ensures fault { IsErrOf result Cause.DeviceFault → Rose (D.state device.old).faults (D.state device.new).faults }
    ensures done { OnOk result (Told (λ I J. J ≡ relabelled label.now I) (D.state device.old) (D.state device.new)) }
    ensures either { Told (λ I J. (J ≡ I) ⊎ (J ≡ relabelled label.now I)) (D.state device.old) (D.state device.new) }
    ensures refused { IfErr result (λ cause. IsRefusal cause → ReadsOnly (D.state device.old) (D.state device.new)) }
    ensures idle { (I : Image) → (D.state device.old).content ≡ Some I → relabelled label.now I ≡ I → ReadsOnly (D.state device.old) (D.state device.new) }
    ensures any_moment { (I : Image) → IsSettled (D.state device.old) I → LeavesOnly (D.state device.old) (D.state device.new) (λ X. (X ≡ I) ⊎ (X ≡ relabelled label.now I)) }
    ensures settled { OnOk result ((I : Image) → IsSettled (D.state device.old) I → IsSettled (D.state device.new) (relabelled label.now I)) }
{
    let sector = open_volume(alloc, device, name)?;
    if label.len() > LABEL_SIZE {
        let value = label.len() as u64;
        return Err(Cause::Range {
            which: Which::Label,
            value,
        });
    }
    put_label(device, &sector, &padded(label))?;
    Ok(())
}

// Attaches the device for writing, and finds its superblock, whose volume has to be one that is served.
fn open_volume<D: Disk>(alloc: Global, device: &mut D, name: &str) -> Result<SuperSector, Cause>
    ensures found { IfOk result (λ sector. (I : Image) → (D.state device.old).content ≡ Some I → (superblock_bits I ≡ Some sector.bits) × IsSuperSector I sector × (volume_refusal I ≡ None)) }
    ensures within { IfOk result (λ sector. sector.at + 1 ≤ (D.state device.new).sectors) }
    ensures writable { OnOk result (IsWritable (D.state device.new).attached) }
    ensures refused { IfErr result (λ cause. (I : Image) → (D.state device.old).content ≡ Some I → IsCauseFor (volume_refusal I) cause) }
    ensures no_range { IfErr result (λ cause. (which : _) (value : ℕ) → cause ≢ Cause.Range which value) }
    ensures no_usage { IfErr result (λ cause. (place : ℕ) → cause ≢ Cause.Usage place) }
    ensures not_done { IfErr result (λ cause. IsDone cause → ⊥) }
    ensures causes { IfErr result IsOfTunefs }
    ensures named { (IsErrOf result Cause.NoMemory → ⊥) → IsAttachedOnce name.now How.ReadWrite (D.state device.old) (D.state device.new) }
    ensures at_most { IsAttachedAtMostOnce name.now How.ReadWrite (D.state device.old) (D.state device.new) }
    ensures fault { IsErrOf result Cause.DeviceFault → Rose (D.state device.old).faults (D.state device.new).faults }
    ensures reads { ReadsOnly (D.state device.old) (D.state device.new) }
    ensures faults { OnOk result ((D.state device.new).faults ≡ (D.state device.old).faults) }
{
    attach(alloc, device, name, How::ReadWrite)?;
    let Some(sector) = find_super_sector(device)? else {
        return Err(Cause::NotOcfs2);
    };
    if is_not_served(&sector.superblock(), sector.cluster_count()) {
        return Err(Cause::Later);
    }
    Ok(sector)
}

// The label's field: the label, filled up with NUL.
fn padded(label: &[u8]) -> [u8; 64]
    requires { length label.now ≤ 64 }
    ensures { result ≡ label_field label.now }
{
    let mut field = [0; LABEL_SIZE];
    put_first(&mut field, label);
    field
}

// Puts the bytes at the beginning of the field.
fn put_first(field: &mut [u8], bytes: &[u8])
    requires { length bytes.now ≤ length field.old }
    ensures { field.new ≡ bytes.now ++ drop (length bytes.now) field.old }
{
    field[..bytes.len()].copy_from_slice(bytes);
}

// The sector with another label.
fn labelled(bytes: &[u8; 512], label: &[u8; 64]) -> [u8; 512]
    ensures { result ≡ take last_part_place bytes.now ++ paste_at 0x50 label.now (drop last_part_place bytes.now) }
{
    let mut changed = *bytes;
    write_label(&mut changed[SUPER_AT..], label);
    changed
}

// Writes the label, unless it is there already.
fn put_label<D: Disk>(device: &mut D, sector: &SuperSector, label: &[u8; 64]) -> Result<(), Failed>
    requires within { sector.now.at + 1 ≤ (D.state device.old).sectors }
    requires writable { IsWritable (D.state device.old).attached }
    ensures done { OnOk result ((I : Image) → (D.state device.old).content ≡ Some I → IsSuperSector I sector.now → (D.state device.new).content ≡ Some (with_label sector.now.bits label.now I)) }
    ensures either { (I : Image) → (D.state device.old).content ≡ Some I → IsSuperSector I sector.now
        → (J : Image) × ((D.state device.new).content ≡ Some J) × ((J ≡ I) ⊎ (J ≡ with_label sector.now.bits label.now I)) }
    ensures idle { (I : Image) → (D.state device.old).content ≡ Some I → IsSuperSector I sector.now → with_label sector.now.bits label.now I ≡ I → ReadsOnly (D.state device.old) (D.state device.new) }
    ensures any_moment { (I : Image) → IsSettled (D.state device.old) I → IsSuperSector I sector.now
        → LeavesOnly (D.state device.old) (D.state device.new) (λ X. (X ≡ I) ⊎ (X ≡ with_label sector.now.bits label.now I)) }
    ensures settled { OnOk result ((I : Image) → IsSettled (D.state device.old) I → IsSuperSector I sector.now → IsSettled (D.state device.new) (with_label sector.now.bits label.now I)) }
    ensures device { SameDevice (D.state device.old) (D.state device.new) }
    ensures cause { HasCause (D.state device.old).faults (D.state device.new).faults result }
{
    if sector.superblock().label == *label {
        return Ok(());
    }
    put_sector(device, sector.at, &labelled(&sector.bytes, label))
}
