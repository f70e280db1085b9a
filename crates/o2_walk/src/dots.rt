// Entries that are no names of the tree.
ghost use Rattle.std.specs.Prelude.{◌≡◌};
ghost use Rattle.o2_model.specs.declared.entry.Entry.{Entry};
ghost use Rattle.o2_model.specs.Directories.{is_dot as model_is_dot};
ghost use Rattle.o2_tree.specs.TreeRows.{row_of};

use o2_tree::{EntryName, EntryRow};

/// Whether the entry is `.` or `..`.
pub fn is_dot(entry: &EntryRow) -> bool
    ensures { (e : Entry) → row_of e ≡ entry.now → result ≡ model_is_dot e }
{
    match entry.name {
        EntryName::Itself | EntryName::Parent => true,
        EntryName::Other => false,
    }
}
