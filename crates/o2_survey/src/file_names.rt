// The names of the volume's own files.
ghost use Rattle.std.specs.Prelude.{◌≡◌, ◌+◌, ◌%◌, ◌++◌, ◌≤◌, length, codes};
ghost use Rattle.o2_model.specs.SystemFiles.{slot_digits, slot_file_name, system_name};

use arrayvec::ArrayVec;
use o2_model::{SlotFile, SystemFile};

/// The bytes of a file's name, at most 18.
pub type FileName = ArrayVec<u8, 18>;

/// These bytes as a name.
fn name_from(text: &[u8]) -> FileName
    requires { length text.now ≤ 18 }
    ensures { result.items ≡ text.now }
{
    let mut name = FileName::new();
    for byte in text {
        name.push(*byte);
    }
    name
}

/// What the name of a slot's file begins with.
fn kind_name(file: SlotFile) -> &'static [u8]
    ensures name { result.now ≡ slot_file_name file }
    ensures short { length result.now ≤ 12 }
{
    match file {
        SlotFile::OrphanDir => b"orphan_dir".as_slice(),
        SlotFile::ExtentAlloc => b"extent_alloc".as_slice(),
        SlotFile::InodeAlloc => b"inode_alloc".as_slice(),
        SlotFile::Journal => b"journal".as_slice(),
        SlotFile::LocalAlloc => b"local_alloc".as_slice(),
        SlotFile::TruncateLog => b"truncate_log".as_slice(),
    }
}

/// The last decimal digit of the number, as a character.
fn last_digit(number: u16) -> u8
    ensures { result ≡ 48 + number % 10 }
{
    b'0' + (number % 10) as u8
}

/// The name of a slot's file, which ends with the slot's number.
fn slot_name(file: SlotFile, slot: u16) -> FileName
    ensures { result.items ≡ slot_file_name file ++ codes ":" ++ slot_digits slot }
{
    let mut name = name_from(kind_name(file));
    name.push(b':');
    name.push(last_digit(slot / 1000));
    name.push(last_digit(slot / 100));
    name.push(last_digit(slot / 10));
    name.push(last_digit(slot));
    name
}

/// The name of the file in the system directory.
#[tactic(auto, unfolding(o2_model::specs::SystemFiles::system_name))]
pub fn name_of(file: SystemFile) -> FileName
    ensures { result.items ≡ system_name file }
{
    match file {
        SystemFile::BadBlocks => name_from(b"bad_blocks".as_slice()),
        SystemFile::GlobalInodeAlloc => name_from(b"global_inode_alloc".as_slice()),
        SystemFile::SlotMap => name_from(b"slot_map".as_slice()),
        SystemFile::Heartbeat => name_from(b"heartbeat".as_slice()),
        SystemFile::GlobalBitmap => name_from(b"global_bitmap".as_slice()),
        SystemFile::OfSlot(kind, slot) => slot_name(kind, slot),
    }
}
