// The trusted edge of disks: a file of the operating system, whose content no contract tells.
ghost use Rattle.std.specs.Prelude.{◌≡◌, [], None};
ghost use Rattle.o2_disk.specs.Untold.{nothing_told};

use crate::attach::{Attach, note_attach};
use crate::in_use::is_in_use;
use crate::{AttachFault, Disk, Failed, How};
use std::alloc::Global;
use std::fs::{File, Metadata, OpenOptions, TryLockError};
use std::io::{ErrorKind, Seek, SeekFrom};
use std::os::unix::fs::{FileExt, FileTypeExt, MetadataExt};
use std::{fs, io};

/// A regular file or a block device.
///
/// A file that another run has attached for writing is not attached for writing, nor is a block device that is mounted or
/// that the system swaps to, as far as it tells (`is_in_use`). Anything else but a file or a block device is refused
/// before it is opened.
///
/// A read or write goes on where the system moved fewer bytes than asked, and again where a signal interrupted it. One
/// that moves no byte is a fault, as is each other error of the system. After a sync that failed, each read, write and
/// sync is a fault until the next attach: the system may have dropped what it could not write, and would answer a later
/// sync Ok.
#[derive(Drop)]
pub struct FileDisk {
    rt: HostRuntime,
    attaches: Vec<Attach>,
    attached: Option<How>,
    sectors: u64,
    faults: u64,
    file: Option<File>,
}

impl FileDisk {
    ghost use Rattle.o2_disk.specs.FileState.{file_state};

    /// A disk that is not attached. It opens nothing.
    pub fn new(rt: HostRuntime, alloc: Global) -> FileDisk
        ensures no_attach { (file_state result).attaches ≡ [] }
        ensures not_attached { (file_state result).attached ≡ None }
        ensures no_sectors { (file_state result).sectors ≡ 0 }
        ensures no_faults { (file_state result).faults ≡ 0 }
    {
        FileDisk {
            rt,
            attaches: Vec::new(alloc),
            attached: None,
            sectors: 0,
            faults: 0,
            file: None,
        }
    }
}

// Opens a file that is there, and finds how many whole sectors it has. What it is stands before it is opened, since a
// device may act when it is opened, and a FIFO makes who opens it wait. A block device's metadata has no length, so the
// length is where its end is.
fn open(rt: HostRuntime, name: &str, how: How) -> io::Result<(File, u64)> {
    let found = fs::metadata(&rt, name)?;
    judge(rt, &found, how)?;
    let mut options = OpenOptions::new();
    options.read(true).write(how == How::ReadWrite);
    let mut file = options.open(&rt, name)?;
    if !is_same(&found, &file.metadata()?) {
        return Err(ErrorKind::StaleNetworkFileHandle.into());
    }
    if how == How::ReadWrite {
        lock(&file)?;
    }
    let length = file.seek(SeekFrom::End(0))?;
    Ok((file, length / 512))
}

// A regular file, or a block device, which is not written where the system uses it.
fn judge(rt: HostRuntime, found: &Metadata, how: How) -> io::Result<()> {
    let kind = found.file_type();
    if kind.is_file() {
        return Ok(());
    }
    if !kind.is_block_device() {
        return Err(ErrorKind::InvalidInput.into());
    }
    if how == How::ReadWrite && is_in_use(rt, found.rdev())? {
        return Err(ErrorKind::ResourceBusy.into());
    }
    Ok(())
}

// Whether both are of one file. The name may have been given to another file meanwhile.
fn is_same(found: &Metadata, opened: &Metadata) -> bool {
    found.dev() == opened.dev() && found.ino() == opened.ino()
}

// Takes the file for this run alone, until it is closed. A file system that knows no locks takes none.
fn lock(file: &File) -> io::Result<()> {
    match file.try_lock() {
        Ok(()) => Ok(()),
        Err(TryLockError::Error(error)) if error.kind() == ErrorKind::Unsupported => Ok(()),
        Err(error) => Err(io::Error::from(error)),
    }
}

// The place of a sector in the file. It is an error where that is past what the system can address.
fn place(at: u64) -> io::Result<u64> {
    if at >= 1 << 54 {
        return Err(ErrorKind::InvalidInput.into());
    }
    Ok(512 * at)
}

fn opened(file: &Option<File>) -> io::Result<&File> {
    match file {
        Some(file) => Ok(file),
        None => Err(ErrorKind::NotConnected.into()),
    }
}

fn read_sectors(file: &Option<File>, at: u64, out: &mut [u8]) -> io::Result<()> {
    opened(file)?.read_exact_at(out, place(at)?)
}

fn write_sectors(file: &Option<File>, at: u64, bytes: &[u8]) -> io::Result<()> {
    opened(file)?.write_all_at(bytes, place(at)?)
}

fn sync_sectors(file: &Option<File>) -> io::Result<()> {
    opened(file)?.sync_data()
}

impl Disk for FileDisk {
    ghost use Rattle.o2_disk.specs.FileState.{file_state};

    ghost state = { file_state };

    ghost counts_now = { λ d t X le here. tt };

    ghost only_now = { λ d X since. tt };

    ghost may_leave_content = { λ d I told. nothing_told I told };

    ghost has_sectors = { λ d I told. nothing_told I told };

    ghost is_image = { λ d I told. nothing_told I told };

    fn attach(&mut self, alloc: Global, name: &str, how: How) -> Result<u64, AttachFault> {
        self.file = None;
        self.attached = None;
        self.sectors = 0;
        let Ok(()) = note_attach(alloc, &mut self.attaches, name, how) else {
            self.faults = self.faults.saturating_add(1);
            return Err(AttachFault::NoMemory);
        };
        let Ok((file, sectors)) = open(self.rt, name, how) else {
            self.faults = self.faults.saturating_add(1);
            return Err(AttachFault::Failed);
        };
        self.file = Some(file);
        self.attached = Some(how);
        self.sectors = sectors;
        Ok(sectors)
    }

    fn sectors(&self) -> u64 {
        self.sectors
    }

    fn read(&mut self, at: u64, out: &mut [u8]) -> Result<(), Failed> {
        if read_sectors(&self.file, at, out).is_err() {
            self.faults = self.faults.saturating_add(1);
            return Err(Failed);
        }
        Ok(())
    }

    fn write(&mut self, at: u64, bytes: &[u8]) -> Result<(), Failed> {
        if write_sectors(&self.file, at, bytes).is_err() {
            self.faults = self.faults.saturating_add(1);
            return Err(Failed);
        }
        Ok(())
    }

    fn sync(&mut self) -> Result<(), Failed> {
        if sync_sectors(&self.file).is_err() {
            self.file = None;
            self.faults = self.faults.saturating_add(1);
            return Err(Failed);
        }
        Ok(())
    }
}

#[cfg(test)]
mod tests {
    use super::*;
    use std::test::Fail;

    const NAME: &str = "file_disk.img";

    #[test]
    fn keeps_sectors_in_a_file(rt: HostRuntime) -> Result<(), Fail> {
        fs::write(&rt, NAME, [7u8; 1536].as_slice())?;
        let mut disk = FileDisk::new(rt, rt.alloc());
        let sectors = disk.attach(rt.alloc(), NAME, How::ReadWrite)?;
        assert_eq!(rt; sectors, 3);
        disk.write(1, &[9; 1024])?;
        disk.sync()?;
        let sectors = disk.attach(rt.alloc(), NAME, How::ReadOnly)?;
        assert_eq!(rt; sectors, 3);
        let mut untouched = [0; 512];
        disk.read(0, &mut untouched)?;
        assert_eq!(rt; untouched, [7; 512]);
        let mut written = [0; 1024];
        disk.read(1, &mut written)?;
        assert_eq!(rt; written, [9; 1024]);
        fs::write(&rt, NAME, [7u8; 1000].as_slice())?;
        let sectors = disk.attach(rt.alloc(), NAME, How::ReadWrite)?;
        assert_eq!(rt; sectors, 1);
        assert_eq!(rt; disk.faults, 0);
        fs::remove_file(&rt, NAME)?;
        for (refused, faults) in [(NAME, 1), (".", 2), ("", 3)] {
            let answer = disk.attach(rt.alloc(), refused, How::ReadOnly);
            assert_eq!(rt; answer, Err(AttachFault::Failed), "at {refused}");
            assert_eq!(rt; disk.faults, faults);
        }
        Ok(())
    }

    #[test]
    fn is_written_by_one_run_alone(rt: HostRuntime) -> Result<(), Fail> {
        let name = "file_disk_for_one.img";
        fs::write(&rt, name, [7u8; 512].as_slice())?;
        let mut first = FileDisk::new(rt, rt.alloc());
        let mut second = FileDisk::new(rt, rt.alloc());
        first.attach(rt.alloc(), name, How::ReadWrite)?;
        let answer = second.attach(rt.alloc(), name, How::ReadWrite);
        assert_eq!(rt; answer, Err(AttachFault::Failed));
        second.attach(rt.alloc(), name, How::ReadOnly)?;
        first.attach(rt.alloc(), name, How::ReadOnly)?;
        second.attach(rt.alloc(), name, How::ReadWrite)?;
        fs::remove_file(&rt, name)?;
        Ok(())
    }
}
