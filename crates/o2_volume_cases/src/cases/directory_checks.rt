// Which checks of directories fail where one number of the whole volume is another one. In the root, in block 18, the entries of `d`,
// `f`, `a`, `b` and `l` begin bytes 232, 248, 264, 280 and 296.
ghost use Rattle.std.specs.Prelude.{◌≡◌, [], ◌∷◌};
ghost use Rattle.o2_model.specs.declared.check.Check.TheVariants as check;
ghost use Rattle.o2_model.specs.Failing.{failing};
ghost use Rattle.o2_cases_volumes.specs.WholeVolume.{volume_with, whole_block, with_number, with_number_at};
ghost use Rattle.o2_cases_volumes.specs.OtherVolumes.{changed, two_directory_blocks, two_orphan_entries, two_orphans, upper_and_lower_name};

/// A law: entries fill a directory's block; a block that they do not fill has none. Names are names, and each stands there once.
pub fn wrong_entries()
    ensures not_filled { failing (with_number 72 40 2 500)
        ≡ (check.DirBlock, 72) ∷ (check.Dx, 28) ∷ (check.InodeCount, 18) ∷ (check.InodeCount, 28) ∷ (check.InodeCount, 29) ∷ (check.BlockAllocBit, 40) ∷ [] }
    ensures no_second_dot { failing (with_number 18 228 2 0x7878) ≡ (check.DirBlock, 18) ∷ (check.DirParent, 18) ∷ [] }
    ensures slash { failing (with_number 18 260 1 0x2f) ≡ (check.DirentName, 18) ∷ [] }
    ensures namesakes { failing (with_number 18 292 1 0x61) ≡ (check.DirentDup, 18) ∷ [] }
{}

/// A law: in the tree the dots name the directory and its parent, and the links of the two are counted by entries.
pub fn wrong_dots()
    ensures parent { failing (with_number 72 16 8 28) ≡ (check.DirDots, 72) ∷ (check.InodeCount, 18) ∷ (check.InodeCount, 28) ∷ [] }
{}

/// A law: entries of the tree name inodes of the users, by their kind, and a directory once. An inode that none names is not connected.
pub fn wrong_targets()
    ensures no_inode { failing (with_number 18 296 8 34) ≡ (check.DirentInode, 18) ∷ (check.NotConnected, 33) ∷ [] }
    ensures own_inode { failing (with_number 18 296 8 21) ≡ (check.DirentInode, 18) ∷ (check.DirentType, 18) ∷ (check.NotConnected, 33) ∷ [] }
    ensures another_type { failing (with_number 18 259 1 2) ≡ (check.DirentType, 18) ∷ [] }
    ensures second_name { failing (with_number 18 296 8 28) ≡ (check.DirentType, 18) ∷ (check.DirParent, 18) ∷ (check.NotConnected, 33) ∷ (check.InodeCount, 28) ∷ [] }
    ensures void { failing (with_number 18 296 8 0) ≡ (check.NotConnected, 33) ∷ [] }
    ensures links { failing (with_number 29 0x2a 2 9) ≡ (check.InodeCount, 29) ∷ [] }
{}

/// A law: what the tree has is no orphan, and what an orphan directory names is one.
pub fn wrong_orphans()
    ensures in_tree { failing (with_number 30 0x2c 4 5) ≡ (check.OrphanFlag, 30) ∷ [] }
    ensures not_marked { failing (with_number 32 0x2c 4 1) ≡ (check.OrphanEntry, 22) ∷ (check.NotConnected, 32) ∷ [] }
    ensures not_named { failing (with_number 22 232 8 0) ≡ (check.NotConnected, 32) ∷ [] }
{}

/// A law: the first two entries of a directory's first block are live, `.` and then `..`. A second block begins as it will.
pub fn wrong_first_entries()
    ensures first_void { failing (with_number 18 200 8 0) ≡ (check.DirBlock, 18) ∷ (check.InodeCount, 18) ∷ [] }
    ensures second_void { failing (with_number 18 216 8 0) ≡ (check.DirBlock, 18) ∷ (check.InodeCount, 18) ∷ [] }
    ensures first_named { failing (with_number 22 212 1 0x78) ≡ (check.DirBlock, 22) ∷ (check.OrphanEntry, 22) ∷ [] }
    ensures one_entry { failing (with_number 22 208 2 48) ≡ (check.DirBlock, 22) ∷ (check.NotConnected, 32) ∷ [] }
    ensures second_block { failing (changed two_directory_blocks 73 8 2 500)
        ≡ (check.DirBlock, 73) ∷ (check.Dx, 28) ∷ (check.InodeCount, 30) ∷ (check.BlockAllocBit, 40) ∷ [] }
    ensures void_in_second_block { failing (changed two_directory_blocks 73 0 8 0)
        ≡ (check.Dx, 28) ∷ (check.InodeCount, 30) ∷ (check.BlockAllocBit, 40) ∷ [] }
{}

/// A law: a name has bytes, and none of them is NUL. A name that stands in an earlier block is told at the later one; the dots are told
/// as dots.
pub fn wrong_names()
    ensures empty { failing (with_number 18 306 1 0) ≡ (check.DirentName, 18) ∷ [] }
    ensures nul { failing (with_number 18 308 1 0) ≡ (check.DirentName, 18) ∷ [] }
    ensures in_second_block { failing (changed two_directory_blocks 73 12 1 0x68) ≡ (check.DirentDup, 73) ∷ (check.Dx, 28) ∷ (check.BlockAllocBit, 40) ∷ [] }
    ensures further_dot { failing (with_number 18 276 1 0x2e) ≡ (check.DirDots, 18) ∷ (check.NotConnected, 30) ∷ [] }
    ensures of_the_dots { failing (with_number 17 216 8 29) ≡ [] }
{}

/// A law: `.` names the directory itself, the `..` of the root names the root, and each has the type of a directory.
pub fn wrong_inodes_of_dots()
    ensures itself { failing (with_number 72 0 8 29) ≡ (check.DirDots, 72) ∷ (check.DirentType, 72) ∷ (check.InodeCount, 28) ∷ (check.InodeCount, 29) ∷ [] }
    ensures above_root { failing (with_number 18 216 8 28) ≡ (check.DirDots, 18) ∷ (check.InodeCount, 18) ∷ (check.InodeCount, 28) ∷ [] }
    ensures type_of_dot { failing (with_number 72 11 1 1) ≡ (check.DirentType, 72) ∷ [] }
    ensures orphans { failing (with_number 22 216 8 17) ≡ [] }
{}

/// A law: an entry of the tree names no inode with SYSTEM and none of the volume's own, and one on a set bit. The root is a directory that
/// is named already, and of two names of a directory that of the upper level is the first.
pub fn wrong_names_of_inodes()
    ensures system { failing (with_number 30 0x2c 4 0x11) ≡ (check.DirentInode, 18) ∷ (check.NotConnected, 30) ∷ [] }
    ensures own { failing (volume_with (with_number_at 21 0x2c 4 1 (with_number_at 18 296 8 21 whole_block)))
        ≡ (check.DirentInode, 18) ∷ (check.DirentType, 18) ∷ (check.NotConnected, 33) ∷ [] }
    ensures clear_bit { failing (with_number 16 0x42 1 0x01) ≡ (check.DirentInode, 18) ∷ (check.GroupFreeBits, 16) ∷ [] }
    ensures root { failing (with_number 18 296 8 18)
        ≡ (check.DirentType, 18) ∷ (check.DirParent, 18) ∷ (check.NotConnected, 33) ∷ (check.InodeCount, 18) ∷ [] }
    ensures lower_level { failing (volume_with upper_and_lower_name) ≡ (check.DirParent, 72) ∷ [] }
    ensures many_links { failing (with_number 29 0x10 2 1) ≡ (check.InodeCount, 29) ∷ [] }
    ensures links_of_own { failing (with_number 21 0x2a 2 9) ≡ [] }
    ensures links_of_orphan { failing (with_number 32 0x2a 2 9) ≡ [] }
{}

/// A law: an orphan directory names inodes that are orphans, none of the volume's own, and each once.
pub fn wrong_orphan_entries()
    ensures two { failing (volume_with two_orphans) ≡ [] }
    ensures again { failing (volume_with two_orphan_entries) ≡ (check.OrphanEntry, 22) ∷ [] }
    ensures void_again { failing (changed two_orphan_entries 22 248 8 0) ≡ [] }
    ensures own { failing (volume_with (with_number_at 21 0x2c 4 0x15 (with_number_at 22 232 8 21 whole_block)))
        ≡ (check.OrphanEntry, 22) ∷ (check.NotConnected, 32) ∷ [] }
    ensures clear_bit { failing (volume_with (with_number_at 34 0x2c 4 5 (with_number_at 22 232 8 34 whole_block)))
        ≡ (check.OrphanEntry, 22) ∷ (check.NotConnected, 32) ∷ [] }
{}
