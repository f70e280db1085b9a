// What the name of an entry of the system directory asks of the inode that it names.
ghost use Rattle.std.specs.Prelude.{◌≡◌, ◌||◌, not};
ghost use Rattle.o2_ondisk.specs.Bits.{has_bits};
ghost use Rattle.o2_model.specs.Volume.{Volume};
ghost use Rattle.o2_model.specs.Inodes.{is_directory_kind, is_file_kind};
ghost use Rattle.o2_model.specs.Checks.Sysfile.{has_flags_of_name as are_flags_of_name, has_kind_of_name as is_kind_of_name};
ghost use Rattle.o2_survey.specs.SystemInodes.{IsSystemInode};

use crate::names::{is_allocator_name, is_of_slot};
use o2_model::{Entry, SlotFile};
use o2_ondisk::{InodeFlags, Kind};
use o2_survey::SystemInode;

/// Whether the inode has the flag, where it is asked for.
fn has_flag_if(asked: bool, flag: InodeFlags, row: &SystemInode) -> bool
    ensures { result ≡ (not asked || has_bits row.now.flags.0 flag.0) }
{
    !asked || row.flags.has(flag)
}

/// Whether the inode has the flags that its name asks for.
#[tactic(auto, unfolding(o2_model::specs::Checks::Sysfile::has_flags_of_name))]
pub fn has_flags_of_name(entry: &Entry, row: &SystemInode) -> bool
    ensures { (v : Volume) → IsSystemInode v entry.now.inode row.now → result ≡ are_flags_of_name v entry.now }
{
    let is_allocator = is_allocator_name(entry);
    let is_journal = is_of_slot(SlotFile::Journal, entry);
    let is_window = is_of_slot(SlotFile::LocalAlloc, entry);
    let is_truncate_log = is_of_slot(SlotFile::TruncateLog, entry);
    has_flag_if(is_allocator, InodeFlags::CHAIN, row)
        && has_flag_if(is_allocator, InodeFlags::BITMAP, row)
        && has_flag_if(is_journal, InodeFlags::JOURNAL, row)
        && has_flag_if(is_window, InodeFlags::LOCAL_ALLOC, row)
        && has_flag_if(is_truncate_log, InodeFlags::DEALLOC, row)
}

fn is_directory(row: &SystemInode) -> bool
    ensures { result ≡ is_directory_kind row.now.kind }
{
    match row.kind {
        Some(Kind::Directory) => true,
        _ => false,
    }
}

fn is_file(row: &SystemInode) -> bool
    ensures { result ≡ is_file_kind row.now.kind }
{
    match row.kind {
        Some(Kind::File) => true,
        _ => false,
    }
}

/// Whether the inode is of the kind that its name asks for, and the entry says so.
#[tactic(auto, unfolding(o2_model::specs::Checks::Sysfile::has_kind_of_name, o2_model::specs::Inodes::is_directory, o2_model::specs::Inodes::is_file))]
pub fn has_kind_of_name(entry: &Entry, row: &SystemInode) -> bool
    ensures { (v : Volume) → IsSystemInode v entry.now.inode row.now → result ≡ is_kind_of_name v entry.now }
{
    if is_of_slot(SlotFile::OrphanDir, entry) {
        is_directory(row) && entry.file_type == Kind::Directory.file_type()
    } else {
        is_file(row) && entry.file_type == Kind::File.file_type()
    }
}
