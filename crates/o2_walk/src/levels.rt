// The walk, directory by directory, in the order in which they are entered: level by level.
ghost use Rattle.std.specs.Prelude.{◌≡◌, List, [], ◌∷◌, map, fold, OnOk};
ghost use Rattle.o2_model.specs.declared.entry.Entry.{Entry};
ghost use Rattle.o2_model.specs.Tree.{Entered, TreeWalk, at_root, follow, look_through as model_look_through, tree_walk};
ghost use Rattle.o2_model.specs.Volume.{Volume, blocks as blocks_in};
ghost use Rattle.o2_tables.specs.Rows.{IsInodeTable};
ghost use Rattle.o2_tree.specs.TreeRows.{IsDirectoryTable, row_of};
ghost use Rattle.o2_tree.specs.TreeWalks.{AreOwn};
ghost use Rattle.o2_walk.specs.TreeWalked.{HasMet, followed_of};

use crate::dots::is_dot;
use crate::progress::Progress;
use crate::users::find_user;
use o2_disk::NoMemory;
use o2_tables::InodeRow;
use o2_tree::{DirectoryRow, EntryRow, find_directory};
use std::collections::BTreeSet;

/// Looks at one entry of the directory `from`, and follows it where it is no dot and names an inode of the users.
fn look_at(
    progress: &mut Progress,
    inodes: &[InodeRow],
    own: &BTreeSet<u64>,
    from: u64,
    entry: &EntryRow,
) -> Result<(), NoMemory>
    ensures { OnOk result ((v : Volume) (w : TreeWalk) (d : Entered) (e : Entry) → IsInodeTable v inodes.now → AreOwn v own.now
        → HasMet w progress.old → d.inode ≡ from → row_of e ≡ entry.now
        → HasMet (fold (follow v d) w (followed_of v (e ∷ []))) progress.new) }
{
    if is_dot(entry) {
        return Ok(());
    }
    match find_user(inodes, own, entry.inode) {
        Some(inode) => progress.follow(from, entry, inode),
        None => Ok(()),
    }
}

/// Looks at these entries of the directory `from`, in order.
fn look_at_each(
    progress: &mut Progress,
    inodes: &[InodeRow],
    own: &BTreeSet<u64>,
    from: u64,
    entries: &[EntryRow],
) -> Result<(), NoMemory>
    ensures { OnOk result ((v : Volume) (w : TreeWalk) (d : Entered) (es : List Entry) → IsInodeTable v inodes.now → AreOwn v own.now
        → HasMet w progress.old → d.inode ≡ from → map row_of es ≡ entries.now
        → HasMet (fold (follow v d) w (followed_of v es)) progress.new) }
{
    for entry in entries {
        look_at(progress, inodes, own, from, entry)?;
    }
    Ok(())
}

/// Looks through the directory `from`. NoMemory where memory runs out, and where there is no row of it, as on no volume.
fn look_through(
    progress: &mut Progress,
    inodes: &[InodeRow],
    own: &BTreeSet<u64>,
    directories: &[DirectoryRow],
    from: u64,
) -> Result<(), NoMemory>
    ensures { OnOk result ((v : Volume) (w : TreeWalk) (d : Entered) → IsInodeTable v inodes.now → AreOwn v own.now
        → IsDirectoryTable v directories.now → HasMet w progress.old → d.inode ≡ from
        → HasMet (model_look_through v w d) progress.new) }
{
    let Some(row) = find_directory(directories, from) else {
        return Err(NoMemory);
    };
    look_at_each(progress, inodes, own, from, row.entries.as_slice())
}

/// Walks from the root on, until each directory that was entered is looked through, or as many as the volume has blocks. NoMemory
/// as at `look_through`.
pub fn walk_levels(
    progress: &mut Progress,
    blocks: usize,
    inodes: &[InodeRow],
    own: &BTreeSet<u64>,
    directories: &[DirectoryRow],
) -> Result<(), NoMemory>
    ensures { OnOk result ((v : Volume) → IsInodeTable v inodes.now → AreOwn v own.now → IsDirectoryTable v directories.now
        → blocks ≡ blocks_in v → HasMet (at_root v) progress.old → HasMet (tree_walk v) progress.new) }
{
    for next in 0..blocks {
        let Some(from) = progress.entered_at(next) else {
            return Ok(());
        };
        look_through(progress, inodes, own, directories, from)?;
    }
    Ok(())
}
