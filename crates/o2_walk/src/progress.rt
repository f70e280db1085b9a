// How far the walk has come.
ghost use Rattle.std.specs.Prelude.{◌≡◌, slice_get, OnOk, IfOk};
ghost use Rattle.std.specs.Option.{option_map};
ghost use Rattle.o2_model.specs.declared.entry.Entry.{Entry};
ghost use Rattle.o2_model.specs.Tree.{Entered, TreeWalk, at_root, follow, with_directory, with_name, with_second_name};
ghost use Rattle.o2_model.specs.Volume.{Volume};
ghost use Rattle.o2_tree.specs.TreeRows.{IsInodeAt, row_of};
ghost use Rattle.o2_walk.specs.TreeWalked.{HasMet, nothing_met};

use crate::users::is_directory;
use o2_disk::NoMemory;
use o2_tables::InodeRow;
use o2_tally::{add_number, put};
use o2_tree::{EnteredRow, EntryRow};
use std::alloc::Global;
use std::collections::BTreeSet;

/// What the walk has met so far.
#[derive(Drop)]
pub struct Progress {
    /// The directories that it entered, in order.
    pub entered: Vec<EnteredRow>,
    /// The blocks of their dinodes.
    pub directories: BTreeSet<u64>,
    /// The inodes that it met.
    pub met: BTreeSet<u64>,
    /// The blocks of later entries that name a directory.
    pub second_names: Vec<u64>,
}

impl Progress {
    /// Nothing is met yet.
    fn start(alloc: Global) -> Self
        ensures { HasMet nothing_met result }
    {
        Progress {
            entered: Vec::new(alloc),
            directories: BTreeSet::new(alloc),
            met: BTreeSet::new(alloc),
            second_names: Vec::new(alloc),
        }
    }

    /// The root alone is entered. NoMemory where memory runs out.
    pub fn at_root(alloc: Global, root: u64) -> Result<Self, NoMemory>
        ensures { IfOk result (λ progress. (v : Volume) → v.geo.root ≡ root → HasMet (at_root v) progress) }
    {
        let mut progress = Self::start(alloc);
        progress.meet(root)?;
        progress.enter(root, root)?;
        Ok(progress)
    }

    /// Meets an inode, by a name that is followed.
    fn meet(&mut self, inode: u64) -> Result<(), NoMemory>
        ensures { OnOk result ((w : TreeWalk) (d : Entered) (e : Entry) → HasMet w self.old → e.inode ≡ inode → HasMet (with_name d e w) self.new) }
    {
        add_number(&mut self.met, inode)?;
        Ok(())
    }

    /// Enters a directory, by an entry of its parent.
    fn enter(&mut self, inode: u64, parent: u64) -> Result<(), NoMemory>
        ensures { OnOk result ((w : TreeWalk) (d : Entered) (e : Entry) → HasMet w self.old → e.inode ≡ inode → d.inode ≡ parent
            → HasMet (with_directory d e w) self.new) }
    {
        add_number(&mut self.directories, inode)?;
        put(&mut self.entered, EnteredRow { inode, parent })
    }

    /// Meets a directory by a later entry, which stands in this block.
    fn meet_again(&mut self, block: u64) -> Result<(), NoMemory>
        ensures { OnOk result ((w : TreeWalk) (e : Entry) → HasMet w self.old → e.block ≡ block → HasMet (with_second_name e w) self.new) }
    {
        put(&mut self.second_names, block)
    }

    /// The directory at this place of the order in which they were entered. None where no more were.
    pub fn entered_at(&self, place: usize) -> Option<u64>
        ensures { result ≡ option_map (λ d. d.inode) (slice_get self.now.entered.items place) }
    {
        match self.entered.get(place) {
            Some(directory) => Some(directory.inode),
            None => None,
        }
    }

    /// Follows an entry of the directory `from`, which names this inode. The first entry that names a directory enters it.
    pub fn follow(&mut self, from: u64, entry: &EntryRow, inode: &InodeRow) -> Result<(), NoMemory>
        ensures { OnOk result ((v : Volume) (w : TreeWalk) (d : Entered) (e : Entry) → HasMet w self.old → d.inode ≡ from → row_of e ≡ entry.now
            → IsInodeAt v e.inode inode.now → HasMet (follow v d w e) self.new) }
    {
        if !is_directory(inode) {
            return self.meet(entry.inode);
        }
        if self.directories.contains(&entry.inode) {
            return self.meet_again(entry.block);
        }
        self.meet(entry.inode)?;
        self.enter(entry.inode, from)
    }
}
