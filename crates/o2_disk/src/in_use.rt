// Whether the system uses a block device for itself.
use std::io::ErrorKind;
use std::os::unix::fs::{FileTypeExt, MetadataExt};
use std::{fs, io};

// A line for each mount: the third word is the number of the device, and behind a lone dash stand the kind of the file
// system and what it was mounted from.
const MOUNTS: &str = "/proc/self/mountinfo";

// A line of headings, and then one for each area: the first word is its file.
const SWAPS: &str = "/proc/swaps";

/// Whether the block device of this number is mounted, or holds a swap area. It is an error where the mounts can't be
/// told.
pub fn is_in_use(rt: HostRuntime, device: u64) -> io::Result<bool> {
    Ok(is_mounted(rt, device)? || is_swapped_to(rt, device)?)
}

fn is_mounted(rt: HostRuntime, device: u64) -> io::Result<bool> {
    let mounts = fs::read_to_string(&rt, MOUNTS)?;
    for line in mounts.lines() {
        if tells_mount_of(rt, line, device) {
            return Ok(true);
        }
    }
    Ok(false)
}

// Some file systems have a number of their own for each mount, so what it was mounted from counts as well.
fn tells_mount_of(rt: HostRuntime, line: &str, device: u64) -> bool {
    if line.split(' ').nth(2).and_then(number_of) == Some(device) {
        return true;
    }
    match line.split_once(" - ") {
        Some((_, mount)) => mount
            .split(' ')
            .nth(1)
            .map_or(false, |source| is_at(rt, source, device)),
        None => false,
    }
}

fn is_swapped_to(rt: HostRuntime, device: u64) -> io::Result<bool> {
    let swaps = match fs::read_to_string(&rt, SWAPS) {
        Ok(swaps) => swaps,
        // a system without swapping
        Err(error) if error.kind() == ErrorKind::NotFound => return Ok(false),
        Err(error) => return Err(error),
    };
    for line in swaps.lines() {
        if line
            .split(' ')
            .next()
            .map_or(false, |file| is_at(rt, file, device))
        {
            return Ok(true);
        }
    }
    Ok(false)
}

// Whether a block device of this number is there.
fn is_at(rt: HostRuntime, name: &str, device: u64) -> bool {
    if !name.starts_with('/') {
        return false;
    }
    match fs::metadata(&rt, name) {
        Ok(found) => found.file_type().is_block_device() && found.rdev() == device,
        Err(_) => false,
    }
}

// The number of a device that is written as MAJOR:MINOR.
fn number_of(text: &str) -> Option<u64> {
    let (major, minor) = text.split_once(':')?;
    let major = u64::from(major.parse::<u32>().ok()?);
    let minor = u64::from(minor.parse::<u32>().ok()?);
    Some(minor & 0xff | (major & 0xfff) << 8 | minor >> 8 << 20 | major >> 12 << 44)
}

#[cfg(test)]
mod tests {
    use super::*;

    #[test]
    fn reads_numbers_of_devices(rt: HostRuntime) {
        assert_eq!(rt; number_of("254:0"), Some(0xfe00));
        assert_eq!(rt; number_of("0:21"), Some(0x15));
        assert_eq!(rt; number_of("259:300"), Some(0x11_032c));
        assert_eq!(rt; number_of("254"), None);
        assert_eq!(rt; number_of("a:b"), None);
    }
}
