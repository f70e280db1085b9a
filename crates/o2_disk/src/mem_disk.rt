// A disk in memory: a sparse map of sectors, and a record of all calls.
ghost use Rattle.std.specs.Prelude.{◌≡◌, ◌≢◌, ◌⊎◌, ℕ, ◌+◌, ◌-◌, ◌*◌, ◌/◌, ◌%◌, ◌<◌, ◌≤◌, ◌^◌, [], ◌∷◌, ◌++◌, length, OnOk, OnErr, IfOk, Some, None, unwrap_or};
ghost use Rattle.std.specs.Ordering.{nat_cmp};
ghost use Rattle.std.specs.BTreeMap.{get};
ghost use Rattle.o2_disk.specs.Image.{IsSector, zero_sector};
ghost use Rattle.o2_disk.specs.Attaches.{attachments_of};
ghost use Rattle.o2_disk.specs.Device.{Rose};
ghost use Rattle.o2_disk.specs.Stored.{stored};
ghost use Rattle.o2_disk.specs.Calls.{mem_state, newest, run, start, put_or_zeros};
ghost use Rattle.o2_disk.specs.Recorded.{counts_now, only_now, shown_is_outcome, has_sectors, is_image};

use crate::attach::{Attach, note_attach};
use crate::failing::FailingCalls;
use crate::kept::{keep, note, raise, sync_call};
use crate::maps::Maps;
use crate::sparse::copy_out;
use crate::stopped::{first, stopped};
use crate::{AttachFault, Call, Disk, Failed, How, NoMemory};
use std::alloc::Global;
use std::collections::BTreeMap;

/// A disk in memory that records its calls, and can let any of them fail.
#[derive(Drop)]
pub struct MemDisk {
    alloc: Global,
    attaches: Vec<Attach>,
    attached: Option<How>,
    sectors: u64,
    base: BTreeMap<u64, [u8; 512]>,
    held: BTreeMap<u64, [u8; 512]>,
    calls: Vec<Call>,
    failing: FailingCalls,
    attach_fails: bool,
    faults: u64,
    starved: u64,
    ghost few: { sectors < 2 ^ 64 },
    ghost agrees: { (s : ℕ) → stored held s ≡ newest (run (start base) calls.items s) },
    ghost sound: { (s : ℕ) → IsSector (stored held s) },
    ghost untouched: { (s : ℕ) → get nat_cmp held s ≡ None → stored base s ≡ zero_sector },
    ghost touched: { (s k : ℕ) → get nat_cmp held s ≡ None → k < length calls.items → put_or_zeros calls.items k s ≡ zero_sector },
}

impl MemDisk {
    ghost use Rattle.std.specs.Prelude.{◌≡◌, ◌+◌, ◌<◌, ◌≤◌, [], ◌∷◌, ◌++◌, length, true, IfOk, IsOk, Some, slice_index_or};
    ghost use Rattle.std.specs.List.{Contains};
    ghost use Rattle.o2_disk.specs.Image.{Image, zeros, image_of};
    ghost use Rattle.o2_disk.specs.Device.{IsSettled};
    ghost use Rattle.o2_disk.specs.Calls.{is_read};
    ghost use Rattle.o2_disk.specs.declared.call.Call.TheVariants.{Read};
    ghost use Rattle.o2_disk.specs.Memory.{disk_state, recorded, failing_calls, fails_attach, starved_calls, IsFresh, SameDisk, may_leave_after, stopped_image, resized_image};

    /// A disk of zeros with nothing pending. It takes no memory, so it answers Ok.
    pub fn new(alloc: Global, sectors: u64) -> Result<MemDisk, NoMemory>
        ensures settled { IfOk result (λ m. IsSettled (disk_state m) (zeros sectors)) }
        ensures fresh { IfOk result (λ m. IsFresh sectors m) }
        ensures succeeds { IsOk result }
    {
        Ok(MemDisk::settled(alloc, sectors, Maps::new(alloc)))
    }

    // A disk that holds what the maps hold, with nothing pending.
    fn settled(alloc: Global, sectors: u64, maps: Maps) -> MemDisk
        ensures settled { IsSettled (disk_state result) (image_of sectors (λ s. stored maps.base s)) }
        ensures fresh { IsFresh sectors result }
    {
        let Maps { base, held } = maps;
        MemDisk {
            alloc,
            attaches: Vec::new(alloc),
            attached: None,
            sectors,
            base,
            held,
            calls: Vec::new(alloc),
            failing: FailingCalls::new(),
            attach_fails: false,
            faults: 0,
            starved: 0,
        }
    }

    /// A disk of that many sectors with this one's content, cut or followed by zeros, and with nothing pending. No call
    /// of it has been made, and none is to fail.
    pub fn resized(&self, alloc: Global, sectors: u64) -> Result<MemDisk, NoMemory>
        ensures settled { IfOk result (λ m. (I : Image) → (disk_state self.now).content ≡ Some I → IsSettled (disk_state m) (resized_image sectors I)) }
        ensures fresh { IfOk result (λ m. IsFresh sectors m) }
    {
        let maps = first(alloc, &self.held, self.sectors.min(sectors))?;
        Ok(MemDisk::settled(alloc, sectors, maps))
    }

    /// The disk after a crash behind that past call, with nothing pending. A sector s that may then hold one of v
    /// contents holds number `choice * (s + 1)` of them, the oldest being number 0, counted round; equal ones count
    /// apart. No call of the new disk has been made, and none is to fail.
    pub fn stopped_at(&self, alloc: Global, call: u64, choice: u64) -> Result<MemDisk, NoMemory>
        requires { call < length (recorded self.now) }
        ensures settled { IfOk result (λ m. IsSettled (disk_state m) (stopped_image self.now call choice)) }
        ensures outcome { may_leave_after self.now (call + 1) (stopped_image self.now call choice) }
        ensures fresh { IfOk result (λ m. IsFresh (disk_state self.now).sectors m) }
    {
        let calls = &self.calls[..call as usize + 1];
        let maps = stopped(alloc, &self.base, &self.held, calls, choice)?;
        Ok(MemDisk::settled(alloc, self.sectors, maps))
    }

    /// How many reads, writes and syncs took a number.
    pub fn calls(&self) -> u64
        ensures { result ≡ length (recorded self.now) }
    {
        self.calls.len() as u64
    }

    /// Whether that past call was a read, be it one that failed.
    pub fn was_read(&self, call: u64) -> bool
        requires { call < length (recorded self.now) }
        ensures { result ≡ is_read (slice_index_or (recorded self.now) call Read) }
    {
        matches!(self.calls[call as usize], Call::Read)
    }

    /// Lets the read, write or sync of that number fail, counted from 0.
    pub fn fail_at(&mut self, call: u64)
        requires { length (failing_calls self.old) < 64 }
        ensures there { Contains (failing_calls self.old) call → failing_calls self.new ≡ failing_calls self.old }
        ensures added { (Contains (failing_calls self.old) call → ⊥) → failing_calls self.new ≡ failing_calls self.old ++ call ∷ [] }
        ensures count { length (failing_calls self.new) ≤ length (failing_calls self.old) + 1 }
        ensures attach { fails_attach self.new ≡ fails_attach self.old }
        ensures disk { SameDisk self.old self.new }
    {
        self.failing.add(call);
    }

    /// Lets the next attach fail.
    pub fn fail_attach(&mut self)
        ensures attach { fails_attach self.new ≡ true }
        ensures calls { failing_calls self.new ≡ failing_calls self.old }
        ensures disk { SameDisk self.old self.new }
    {
        self.attach_fails = true;
    }

    /// How many calls found no memory.
    pub fn starved(&self) -> u64
        ensures { result ≡ starved_calls self.now }
    {
        self.starved
    }
}

impl Disk for MemDisk {
    ghost use Rattle.std.specs.Prelude.{◌≡◌, ◌≢◌, ◌*◌, ℕ, List, length, true, false, IfOk, OnOk, OnErr, IsErrOf, Some, None};
    ghost use Rattle.o2_disk.specs.Image.{Image, written, bytes_from, Torn};
    ghost use Rattle.o2_disk.specs.Device.{Told, Follows, Leads, StaysPending, Only, IsRange, IsWritable, IsAttachedOnce, SameDevice, Keeps, Elapses, Ticks, HasCause};
    ghost use Rattle.o2_disk.specs.Attaches.{attachments_of};
    ghost use Rattle.o2_disk.specs.Calls.{RecordsWrite};
    ghost use Rattle.o2_disk.specs.declared.call.Call.TheVariants.{Read, Sync, FailedSync};
    ghost use Rattle.o2_disk.specs.Memory.{disk_state, Numbered, SameFailing, Attaches};

    ghost state = { λ m. mem_state (attachments_of m.attaches.items) m.attached m.sectors m.base m.calls.items m.faults };

    /// Answers alike for every name. It takes no number.
    fn attach(&mut self, alloc: Global, name: &str, how: How) -> Result<u64, AttachFault>
        ensures opened { IfOk result (λ n. ((disk_state self.new).sectors ≡ n) × ((disk_state self.new).attached ≡ Some how)) }
        ensures refused { OnErr result ((disk_state self.new).attached ≡ None) }
        ensures told { (IsErrOf result AttachFault.NoMemory → ⊥) → IsAttachedOnce name.now how (disk_state self.old) (disk_state self.new) }
        ensures not_told { IsErrOf result AttachFault.NoMemory → (disk_state self.new).attaches ≡ (disk_state self.old).attaches }
        ensures same { Keeps (disk_state self.old) (disk_state self.new) }
        ensures pending { StaysPending (disk_state self.old) (disk_state self.new) }
        ensures time { Elapses (disk_state self.old) (disk_state self.new) }
        ensures cause { HasCause (disk_state self.old).faults (disk_state self.new).faults result }
        ensures attaches { Attaches self.old self.new result }
        ensures size { (disk_state self.new).sectors ≡ (disk_state self.old).sectors }
    {
        let _sectors = self.sectors;
        let Ok(()) = note_attach(alloc, &mut self.attaches, name, how) else {
            self.attached = None;
            raise(&mut self.faults);
            raise(&mut self.starved);
            return Err(AttachFault::NoMemory);
        };
        if self.attach_fails {
            self.attach_fails = false;
            self.attached = None;
            raise(&mut self.faults);
            return Err(AttachFault::Failed);
        }
        self.attached = Some(how);
        Ok(self.sectors)
    }

    fn sectors(&self) -> u64 {
        self.sectors
    }

    fn read(&mut self, at: u64, out: &mut [u8]) -> Result<(), Failed>
        requires { IsRange (disk_state self.old) at (length out.old) }
        ensures bytes { OnOk result ((I : Image) → (disk_state self.old).content ≡ Some I → out.new ≡ bytes_from I (512 * at) (length out.old)) }
        ensures device { SameDevice (disk_state self.old) (disk_state self.new) }
        ensures same { Keeps (disk_state self.old) (disk_state self.new) }
        ensures pending { StaysPending (disk_state self.old) (disk_state self.new) }
        ensures time { Elapses (disk_state self.old) (disk_state self.new) }
        ensures ticks { Ticks (disk_state self.old) (disk_state self.new) result }
        ensures cause { HasCause (disk_state self.old).faults (disk_state self.new).faults result }
        ensures numbered { Numbered (λ c. c ≡ Read) (λ c. c ≡ Read) self.old self.new result }
        ensures failing { SameFailing self.old self.new }
    {
        let _sectors = self.sectors;
        let fails = self.failing.has(self.calls.len() as u64);
        let Ok(()) = note(&mut self.calls, Call::Read) else {
            raise(&mut self.faults);
            raise(&mut self.starved);
            return Err(Failed);
        };
        if fails {
            raise(&mut self.faults);
            return Err(Failed);
        }
        copy_out(&self.held, at, out);
        Ok(())
    }

    /// A write that fails by its number takes effect. One of nothing but zeros takes no memory for them.
    fn write(&mut self, at: u64, bytes: &[u8]) -> Result<(), Failed>
        requires range { IsRange (disk_state self.old) at (length bytes.now) }
        requires writable { IsWritable (disk_state self.old).attached }
        ensures written { OnOk result ((I : Image) → (disk_state self.old).content ≡ Some I → (disk_state self.new).content ≡ Some (written I at bytes.now)) }
        ensures torn { Told (Torn at bytes.now) (disk_state self.old) (disk_state self.new) }
        ensures device { SameDevice (disk_state self.old) (disk_state self.new) }
        ensures crash { Follows (Torn at bytes.now) (disk_state self.old) (disk_state self.new) }
        ensures pending { StaysPending (disk_state self.old) (disk_state self.new) }
        ensures tears { OnOk result (Leads (Torn at bytes.now) (disk_state self.old) (disk_state self.new)) }
        ensures time { Elapses (disk_state self.old) (disk_state self.new) }
        ensures ticks { Ticks (disk_state self.old) (disk_state self.new) result }
        ensures cause { HasCause (disk_state self.old).faults (disk_state self.new).faults result }
        ensures numbered { Numbered (RecordsWrite at bytes.now) (RecordsWrite at bytes.now) self.old self.new result }
        ensures failing { SameFailing self.old self.new }
    {
        let _sectors = self.sectors;
        let fails = self.failing.has(self.calls.len() as u64);
        let Ok(()) = keep(self.alloc, &mut self.held, &mut self.calls, at, bytes) else {
            raise(&mut self.faults);
            raise(&mut self.starved);
            return Err(Failed);
        };
        if fails {
            raise(&mut self.faults);
            return Err(Failed);
        }
        Ok(())
    }

    fn sync(&mut self) -> Result<(), Failed>
        requires { IsWritable (disk_state self.old).attached }
        ensures durable { OnOk result ((I : Image) → (disk_state self.old).content ≡ Some I → Only (disk_state self.new) I) }
        ensures device { SameDevice (disk_state self.old) (disk_state self.new) }
        ensures same { Keeps (disk_state self.old) (disk_state self.new) }
        ensures pending { OnErr result (StaysPending (disk_state self.old) (disk_state self.new)) }
        ensures time { Elapses (disk_state self.old) (disk_state self.new) }
        ensures ticks { Ticks (disk_state self.old) (disk_state self.new) result }
        ensures cause { HasCause (disk_state self.old).faults (disk_state self.new).faults result }
        ensures numbered { Numbered (λ c. c ≡ Sync) (λ c. c ≡ FailedSync) self.old self.new result }
        ensures failing { SameFailing self.old self.new }
    {
        let fails = self.failing.has(self.calls.len() as u64);
        let Ok(()) = note(&mut self.calls, sync_call(fails)) else {
            raise(&mut self.faults);
            raise(&mut self.starved);
            return Err(Failed);
        };
        if fails {
            raise(&mut self.faults);
            return Err(Failed);
        }
        Ok(())
    }

    ghost counts_now = { λ m t X le here. counts_now m.sectors m.base m.calls.items t X le here };

    ghost only_now = { λ m X since. only_now m.sectors m.base m.calls.items X since };

    ghost may_leave_content = { λ m I is. shown_is_outcome m.sectors m.base m.calls.items I is };

    ghost has_sectors = { λ m I is. has_sectors m.sectors m.base m.calls.items I is };

    ghost is_image = { λ m I is. is_image m.sectors m.base m.calls.items m.held m.few m.agrees m.sound I is };
}

#[cfg(test)]
mod tests;
