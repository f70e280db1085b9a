// The entries with which a directory begins.
ghost use Rattle.std.specs.Prelude.{◌≡◌, ℕ, List, Some};
ghost use Rattle.o2_model.specs.Directories.{NamedEntry, entries_in};
ghost use Rattle.o2_model.specs.Checks.DirBlock.{begin_with_dots};
ghost use Rattle.o2_dir.specs.Blocks.{begins_with};

use crate::entries_in_block::has_entry;
use o2_ondisk::read_dir_entry;

/// Whether a live entry of this name stands at the front of the bytes.
#[tactic(auto, unfolding(o2_model::specs::Directories::has_entry))]
fn begins_with_named(bytes: &[u8], name: &[u8]) -> bool
    ensures { result ≡ begins_with name.now bytes.now }
{
    if !has_entry(bytes) {
        return false;
    }
    let fields = read_dir_entry(bytes);
    if fields.inode == 0 {
        return false;
    }
    let behind = &bytes[12..];
    &behind[..usize::from(fields.name_len)] == name
}

/// Whether the entries that fill the bytes begin with `.` and `..`.
pub fn begins_with_dots(bytes: &[u8]) -> bool
    ensures { (es : List NamedEntry) → entries_in bytes.now ≡ Some es → result ≡ begin_with_dots es }
{
    if !begins_with_named(bytes, b".") {
        return false;
    }
    if !has_entry(bytes) {
        return false;
    }
    let first = read_dir_entry(bytes);
    begins_with_named(&bytes[usize::from(first.rec_len)..], b"..")
}
