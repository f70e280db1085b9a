// What a disk keeps of its attaches.
ghost use Rattle.std.specs.Prelude.{◌≡◌, OnOk, OnErr};
ghost use Rattle.o2_disk.specs.Attaches.{and_attached, attachments_of};

use crate::How;
use std::alloc::{AllocError, Global};

/// An attach: the name that was given, and how the disk was to be attached.
#[derive(Debug, Drop)]
pub struct Attach {
    name: String,
    how: How,
}

/// Records an attach. Where there is no memory for it the record is as it was.
pub fn note_attach(
    alloc: Global,
    attaches: &mut Vec<Attach>,
    name: &str,
    how: How,
) -> Result<(), AllocError>
    ensures added { OnOk result (attachments_of attaches.new.items ≡ and_attached (attachments_of attaches.old.items) name.now how) }
    ensures same { OnErr result (attachments_of attaches.new.items ≡ attachments_of attaches.old.items) }
{
    let name = String::from_str(alloc, name)?;
    attaches.push(Attach { name, how })?;
    Ok(())
}
