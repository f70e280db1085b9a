// Which kind of inode a dinode is one of.
ghost use Rattle.std.specs.Prelude.{◌≡◌};
ghost use Rattle.o2_ondisk.specs.Kinds.{kind_of_mode};
ghost use Rattle.o2_model.specs.Inodes.{is_directory_kind, is_file_kind, is_link_kind};

use o2_ondisk::{Dinode, Kind};

/// Whether the dinode is one of a directory.
pub fn is_of_directory(dinode: &Dinode) -> bool
    ensures { result ≡ is_directory_kind (kind_of_mode dinode.now.mode) }
{
    match dinode.kind() {
        Some(Kind::Directory) => true,
        _ => false,
    }
}

/// Whether the dinode is one of a file.
pub fn is_of_file(dinode: &Dinode) -> bool
    ensures { result ≡ is_file_kind (kind_of_mode dinode.now.mode) }
{
    match dinode.kind() {
        Some(Kind::File) => true,
        _ => false,
    }
}

/// Whether the dinode is one of a link.
pub fn is_of_link(dinode: &Dinode) -> bool
    ensures { result ≡ is_link_kind (kind_of_mode dinode.now.mode) }
{
    match dinode.kind() {
        Some(Kind::Link) => true,
        _ => false,
    }
}
