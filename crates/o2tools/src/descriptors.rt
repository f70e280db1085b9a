// The standard descriptors: input, output and error output.
use std::fs::File;
use std::io;
use std::os::fd::{AsFd, AsRawFd, IntoRawFd};

// What a closed descriptor is opened on.
const NULL: &str = "/dev/null";

// How many standard descriptors there are; their numbers are those below.
const STANDARD: i32 = 3;

/// Opens those of the standard descriptors that are closed, and keeps them open. So no device gets the number of one of
/// them, and no text that is put on the output goes into a device. They are open for reading alone: what is put on an
/// output that was closed fails.
pub fn open_standard(rt: HostRuntime) -> io::Result<()> {
    if is_open(&rt.stdin()) && is_open(&rt.stdout()) && is_open(&rt.stderr()) {
        return Ok(());
    }
    for _ in 0..STANDARD {
        let null = File::open(&rt, NULL)?;
        if null.as_raw_fd() >= STANDARD {
            return Ok(());
        }
        let _kept = null.into_raw_fd();
    }
    Ok(())
}

// Whether a copy of the descriptor can be made.
fn is_open<T: AsFd>(stream: &T) -> bool {
    stream.as_fd().try_clone_to_owned().is_ok()
}
