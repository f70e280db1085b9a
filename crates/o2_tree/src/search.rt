// A row among rows that rise.
ghost use Rattle.std.specs.Prelude.{◌≡◌, false, MatchOption};
ghost use Rattle.o2_model.specs.Volume.{Volume};
ghost use Rattle.o2_model.specs.Words.{among};
ghost use Rattle.o2_model.specs.Groups.{is_inode};
ghost use Rattle.o2_tables.specs.Rows.{IsInodeTable};
ghost use Rattle.o2_tree.specs.TreeRows.{IsDirectoryTable, IsInodeAt, IsDirectoryAt, all_directories};

use crate::DirectoryRow;
use o2_tables::InodeRow;

/// The row of the inode in block b. None where there is no inode. The search halves what is left of the rows at each step.
pub fn find_inode(inodes: &[InodeRow], b: u64) -> Option<&InodeRow>
    ensures { (v : Volume) → IsInodeTable v inodes.now → MatchOption result (is_inode v b ≡ false) (λ row. IsInodeAt v b row.now) }
{
    match inodes.binary_search_by_key(&b, |row| row.block) {
        Ok(at) => inodes.get(at),
        Err(_) => None,
    }
}

/// The row of the directory in block b. None where there is no inode that is a directory.
pub fn find_directory(directories: &[DirectoryRow], b: u64) -> Option<&DirectoryRow>
    ensures { (v : Volume) → IsDirectoryTable v directories.now → MatchOption result (among (all_directories v) b ≡ false) (λ row. IsDirectoryAt v b row.now) }
{
    match directories.binary_search_by_key(&b, |row| row.block) {
        Ok(at) => directories.get(at),
        Err(_) => None,
    }
}
