//! Disks and sinks: what their calls promise, what a crash may leave of a disk, and the disks and sinks themselves.
#![tactic(auto)]

mod attach;
mod call;
mod disk;
mod failing;
mod file_disk;
mod in_use;
mod kept;
mod maps;
mod mem_disk;
mod mem_sink;
mod sector;
mod sink;
mod sparse;
mod std_sink;
mod stopped;

pub use call::Call;
pub use disk::{AttachFault, Disk, Failed, How, NoMemory};
pub use file_disk::FileDisk;
pub use mem_disk::MemDisk;
pub use mem_sink::MemSink;
pub use sector::put_sector;
pub use sink::Sink;
pub use std_sink::StdSink;
