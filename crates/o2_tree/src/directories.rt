// Directories, with their entries.
ghost use Rattle.std.specs.Prelude.{◌≡◌};
ghost use Rattle.o2_tree.specs.TreeRows.{name_of, row_of};

use o2_model::{Entry, Items};

/// Which name an entry has, as far as the tree asks for it.
#[derive(Clone, Copy, Debug, PartialEq, Eq)]
pub enum EntryName {
    /// `.`
    Itself,
    /// `..`
    Parent,
    Other,
}

/// A live entry of a directory, without its name's bytes.
#[derive(Clone, Copy, Debug, PartialEq, Eq)]
pub struct EntryRow {
    /// The block of the dinode that it names.
    pub inode: u64,
    /// The number of the kind of what it names.
    pub file_type: u8,
    pub name: EntryName,
    /// Its block, or the directory's dinode.
    pub block: u64,
}

/// A directory, in the tree or not.
#[derive(Debug, Drop)]
pub struct DirectoryRow {
    /// The block of its dinode.
    pub block: u64,
    /// Its live entries in their order.
    pub entries: Items<EntryRow>,
}

/// The directories, rising.
pub type DirectoryTable = Items<DirectoryRow>;

/// Which name it is.
fn entry_name(name: &[u8]) -> EntryName
    ensures { result ≡ name_of name.now }
{
    if name == b".".as_slice() {
        return EntryName::Itself;
    }
    if name == b"..".as_slice() {
        return EntryName::Parent;
    }
    EntryName::Other
}

/// The row of an entry.
pub fn entry_row(entry: &Entry) -> EntryRow
    ensures { result ≡ row_of entry.now }
{
    EntryRow {
        inode: entry.inode,
        file_type: entry.file_type,
        name: entry_name(entry.name.as_slice()),
        block: entry.block,
    }
}
