// Which inodes the walk follows entries to.
ghost use Rattle.std.specs.Prelude.{◌≡◌, false, MatchOption};
ghost use Rattle.o2_model.specs.declared.entry.Entry.{Entry};
ghost use Rattle.o2_model.specs.Inodes.{is_directory_kind};
ghost use Rattle.o2_model.specs.Tree.{names_users};
ghost use Rattle.o2_model.specs.Volume.{Volume};
ghost use Rattle.o2_tables.specs.Rows.{IsInodeTable};
ghost use Rattle.o2_tree.specs.TreeRows.{IsInodeAt};
ghost use Rattle.o2_tree.specs.TreeWalks.{AreOwn};
ghost use Rattle.o2_walk.specs.TreeWalked.{IsUserAt};

use o2_ondisk::{InodeFlags, Kind};
use o2_tables::InodeRow;
use o2_tree::find_inode;
use std::collections::BTreeSet;

/// Whether the inode has no `OCFS2_SYSTEM_FL`, and is not the volume's own.
fn is_user(row: &InodeRow, own: &BTreeSet<u64>) -> bool
    ensures { (v : Volume) (e : Entry) → AreOwn v own.now → IsInodeAt v e.inode row.now → result ≡ names_users v e }
{
    !row.flags.has(InodeFlags::SYSTEM) && !own.contains(&row.block)
}

/// The row of the inode that an entry names, where that is one of the users. None where it is not, or there is no inode.
pub fn find_user<'a>(
    inodes: &'a [InodeRow],
    own: &BTreeSet<u64>,
    inode: u64,
) -> Option<&'a InodeRow>
    ensures { (v : Volume) → IsInodeTable v inodes.now → AreOwn v own.now → (e : Entry) → e.inode ≡ inode
        → MatchOption result (names_users v e ≡ false) (λ row. IsUserAt v e row.now) }
{
    match find_inode(inodes, inode) {
        Some(row) if is_user(row, own) => Some(row),
        _ => None,
    }
}

/// Whether an entry that names this inode names one of the users, as the walk follows: an inode without `OCFS2_SYSTEM_FL` that is not
/// the volume's own.
pub fn names_user(inodes: &[InodeRow], own: &BTreeSet<u64>, inode: u64) -> bool
    ensures { (v : Volume) → IsInodeTable v inodes.now → AreOwn v own.now → (e : Entry) → e.inode ≡ inode → result ≡ names_users v e }
{
    find_user(inodes, own, inode).is_some()
}

/// Whether the inode is a directory.
pub fn is_directory(row: &InodeRow) -> bool
    ensures { result ≡ is_directory_kind row.now.kind }
{
    match row.kind {
        Some(Kind::Directory) => true,
        _ => false,
    }
}
