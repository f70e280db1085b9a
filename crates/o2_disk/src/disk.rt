// A disk: whole sectors that are read and written, and what a crash may leave of them.
ghost use Rattle.std.specs.Prelude.{◌≡◌, ◌*◌, ◌≤◌, ℕ, length, IfOk, OnOk, OnErr, IsErrOf, Some, None};
ghost use Rattle.o2_disk.specs.Image.{Image, IsImage, written, bytes_from, Torn};

use std::alloc::Global;

/// A call that failed. The count of faults has risen.
#[derive(Clone, Copy, Debug, PartialEq, Eq)]
pub struct Failed;

/// There is no memory for what was asked.
#[derive(Clone, Copy, Debug, PartialEq, Eq)]
pub struct NoMemory;

/// Why a disk was not attached.
#[derive(Clone, Copy, Debug, PartialEq, Eq)]
pub enum AttachFault {
    /// There is no memory for its name.
    NoMemory,
    /// The disk can't be had under that name, or not in that way.
    Failed,
}

/// How a disk is attached.
#[derive(Clone, Copy, Debug, PartialEq, Eq)]
pub enum How {
    ReadOnly,
    ReadWrite,
}

/// A disk of sectors of 512 bytes, which a run has for itself.
///
/// A sector is written whole or not at all. Between two syncs that answer Ok each sector by itself holds, after a
/// crash, what it held at the first of them or anything that was written into it since.
pub trait Disk {
    ghost use Rattle.o2_disk.specs.Device.{DiskState, Told, Follows, Leads, StaysPending, Only, IsRange, IsWritable, IsAttachedOnce, SameDevice, Keeps, Elapses, Ticks, HasCause};

    /// What a contract knows of the disk.
    ghost state: { Self → DiskState };

    /// Opens the disk of that name, and answers how many whole sectors it has.
    fn attach(&mut self, alloc: Global, name: &str, how: How) -> Result<u64, AttachFault>
        ensures opened { IfOk result (λ n. ((state self.new).sectors ≡ n) × ((state self.new).attached ≡ Some how)) }
        ensures refused { OnErr result ((state self.new).attached ≡ None) }
        ensures told { (IsErrOf result AttachFault.NoMemory → ⊥) → IsAttachedOnce name.now how (state self.old) (state self.new) }
        ensures not_told { IsErrOf result AttachFault.NoMemory → (state self.new).attaches ≡ (state self.old).attaches }
        ensures same { Keeps (state self.old) (state self.new) }
        ensures pending { StaysPending (state self.old) (state self.new) }
        ensures time { Elapses (state self.old) (state self.new) }
        ensures cause { HasCause (state self.old).faults (state self.new).faults result };

    /// How many sectors it has.
    fn sectors(&self) -> u64
        ensures { result ≡ (state self.now).sectors };

    /// Reads the sectors from `at` on into `out`. After a failure nothing is said of `out`.
    fn read(&mut self, at: u64, out: &mut [u8]) -> Result<(), Failed>
        requires { IsRange (state self.old) at (length out.old) }
        ensures bytes { OnOk result ((I : Image) → (state self.old).content ≡ Some I → out.new ≡ bytes_from I (512 * at) (length out.old)) }
        ensures device { SameDevice (state self.old) (state self.new) }
        ensures same { Keeps (state self.old) (state self.new) }
        ensures pending { StaysPending (state self.old) (state self.new) }
        ensures time { Elapses (state self.old) (state self.new) }
        ensures ticks { Ticks (state self.old) (state self.new) result }
        ensures cause { HasCause (state self.old).faults (state self.new).faults result };

    /// Writes the bytes into the sectors from `at` on. Until a sync, a crash leaves each of them as it was or as it is
    /// written. After a failure each of them reads as before or as written, and may be pending either way.
    fn write(&mut self, at: u64, bytes: &[u8]) -> Result<(), Failed>
        requires range { IsRange (state self.old) at (length bytes.now) }
        requires writable { IsWritable (state self.old).attached }
        ensures written { OnOk result ((I : Image) → (state self.old).content ≡ Some I → (state self.new).content ≡ Some (written I at bytes.now)) }
        ensures torn { Told (Torn at bytes.now) (state self.old) (state self.new) }
        ensures device { SameDevice (state self.old) (state self.new) }
        ensures crash { Follows (Torn at bytes.now) (state self.old) (state self.new) }
        ensures pending { StaysPending (state self.old) (state self.new) }
        ensures tears { OnOk result (Leads (Torn at bytes.now) (state self.old) (state self.new)) }
        ensures time { Elapses (state self.old) (state self.new) }
        ensures ticks { Ticks (state self.old) (state self.new) result }
        ensures cause { HasCause (state self.old).faults (state self.new).faults result };

    /// After it, a crash leaves what a read gives. Where it fails, what was pending stays so.
    fn sync(&mut self) -> Result<(), Failed>
        requires { IsWritable (state self.old).attached }
        ensures durable { OnOk result ((I : Image) → (state self.old).content ≡ Some I → Only (state self.new) I) }
        ensures device { SameDevice (state self.old) (state self.new) }
        ensures same { Keeps (state self.old) (state self.new) }
        ensures pending { OnErr result (StaysPending (state self.old) (state self.new)) }
        ensures time { Elapses (state self.old) (state self.new) }
        ensures ticks { Ticks (state self.old) (state self.new) result }
        ensures cause { HasCause (state self.old).faults (state self.new).faults result };

    /// This moment is one of those since an earlier one.
    ghost counts_now: { (d : Self) (t : ℕ) (X : Image) → t ≤ (state d).moment → (state d).may_leave X → (state d).left_since t X };

    /// Since this moment there is no other.
    ghost only_now: { (d : Self) (X : Image) → (state d).left_since (state d).moment X → (state d).may_leave X };

    /// What a read gives is one of the images that a crash may leave.
    ghost may_leave_content: { (d : Self) (I : Image) → (state d).content ≡ Some I → (state d).may_leave I };

    /// It has as many sectors as the disk.
    ghost has_sectors: { (d : Self) (I : Image) → (state d).content ≡ Some I → length I ≡ (state d).sectors };

    /// It is made of whole sectors of bytes.
    ghost is_image: { (d : Self) (I : Image) → (state d).content ≡ Some I → IsImage I };
}
