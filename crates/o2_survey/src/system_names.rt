// The inodes of the volume's own files, by their names.
ghost use Rattle.std.specs.Prelude.{◌≡◌, ℕ, List, Some, None, if◌then◌else◌, bytes_eq, is_some, IfOk, OnOk};
ghost use Rattle.std.specs.Option.{option_or};
ghost use Rattle.o2_model.specs.Volume.{Volume};
ghost use Rattle.o2_model.specs.Directories.{directory_entries, is_named};
ghost use Rattle.o2_survey.specs.SystemNames.{inode_at};

use crate::file_names::name_of;
use o2_disk::NoMemory;
use o2_model::{Entry, SystemFile};
use std::alloc::Global;
use std::collections::BTreeMap;

/// The inodes that the live entries of the system directory name. Of equal names the first counts.
#[derive(Drop)]
pub struct SystemNames {
    // The inode of the first entry of each name.
    inodes: BTreeMap<Vec<u8>, u64>,
}

/// The inode that the map has at the name.
fn inode_named(inodes: &BTreeMap<Vec<u8>, u64>, name: &[u8]) -> Option<u64>
    ensures { result ≡ inode_at inodes.now name.now }
{
    inodes.get(name).copied()
}

/// Whether an earlier entry has the name of this one.
fn has_name(inodes: &BTreeMap<Vec<u8>, u64>, entry: &Entry) -> bool
    ensures { result ≡ is_some (inode_at inodes.now entry.now.name) }
{
    let found = inode_named(inodes, entry.name.as_slice());
    found.is_some()
}

/// Puts the inode at the name, in place of one that is there.
fn put_inode(inodes: &mut BTreeMap<Vec<u8>, u64>, name: Vec<u8>, inode: u64) -> Result<(), NoMemory>
    ensures { OnOk result ((other : List ℕ) → inode_at inodes.new other ≡ (if bytes_eq name.items other then Some inode else inode_at inodes.old other)) }
{
    match inodes.insert(name, inode) {
        Ok(_) => Ok(()),
        Err(_) => Err(NoMemory),
    }
}

/// Puts the inode of an entry at its name, unless an earlier entry has the name.
fn add_entry(
    alloc: Global,
    inodes: &mut BTreeMap<Vec<u8>, u64>,
    entry: &Entry,
) -> Result<(), NoMemory>
    ensures { OnOk result ((name : List ℕ) → inode_at inodes.new name ≡ option_or (inode_at inodes.old name) (if is_named name entry.now then Some entry.now.inode else None)) }
{
    if has_name(inodes, entry) {
        return Ok(());
    }
    let Ok(name) = entry.name.as_slice().to_vec(alloc) else {
        return Err(NoMemory);
    };
    put_inode(inodes, name, entry.inode)
}

impl SystemNames {
    ghost use Rattle.o2_model.specs.SystemFiles.{system_name, system_inode};
    ghost use Rattle.o2_survey.specs.SystemNames.{AreSystemNames};

    /// The names of the system directory that has these live entries. NoMemory where memory runs out.
    pub fn new(alloc: Global, entries: &[Entry]) -> Result<Self, NoMemory>
        ensures { IfOk result (λ names. (v : Volume) → entries.now ≡ directory_entries v v.geo.sysdir → AreSystemNames v names) }
    {
        let mut inodes = BTreeMap::new(alloc);
        for entry in entries {
            add_entry(alloc, &mut inodes, entry)?;
        }
        Ok(SystemNames { inodes })
    }

    /// The inode that the first entry of the file's name names. None where no entry has the name.
    pub fn inode_of(&self, file: SystemFile) -> Option<u64>
        ensures named { result ≡ inode_at self.now.inodes (system_name file) }
        ensures told { (v : Volume) → AreSystemNames v self.now → result ≡ system_inode v file }
    {
        inode_named(&self.inodes, name_of(file).as_slice())
    }
}
