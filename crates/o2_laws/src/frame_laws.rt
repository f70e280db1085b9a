// Laws of what depends on which blocks, each the contract of a function that does nothing.
ghost use Rattle.std.specs.Prelude.{◌≡◌, ◌^◌, ℕ, List, map, [], length, true};
ghost use Rattle.o2_disk.specs.Image.{Image, block_at};
ghost use Rattle.o2_model.specs.Volume.{Volume, over, volume_of};
ghost use Rattle.o2_laws.specs.Frames.{SameOn, SameTables, IsIn, SameSystemFiles, group_blocks, content_blocks};
ghost use Rattle.o2_model.specs.Inodes.{extents};
ghost use Rattle.o2_model.specs.Directories.{dir_blocks, directory_entries, own_inodes};
ghost use Rattle.o2_model.specs.Contents.{bytes_of, content_of};
ghost use Rattle.o2_model.specs.Files.{file_of};
ghost use Rattle.o2_model.specs.Allocators.{allocators};
ghost use Rattle.o2_model.specs.declared.system_file.SystemFile.{SystemFile};
ghost use Rattle.o2_model.specs.SystemFiles.{system_inode};
ghost use Rattle.o2_model.specs.Groups.{group_walk, is_inode, inodes_of, has_inode_bit};
ghost use Rattle.o2_model.specs.Tree.{followed, tree_walk, tree_of};

/// A law: a directory's entries depend on its dinode, its extents and its blocks, and on no other block.
pub fn other_blocks_keep_entries()
    ensures { (v : Volume) (at : ℕ → List ℕ) (d : ℕ) → at d ≡ v.at d → extents (over v at) d ≡ extents v d → SameOn (map (λ b. b.block) (dir_blocks v d)) v at
        → directory_entries (over v at) d ≡ directory_entries v d }
{}

/// A law: the allocators and the volume's own inodes depend on the entries of the system directory and on the dinodes that
/// these name, and on no other block.
pub fn other_blocks_keep_system_files()
    ensures inode { (v : Volume) (at : ℕ → List ℕ) → SameSystemFiles v at → (file : SystemFile) → system_inode (over v at) file ≡ system_inode v file }
    ensures allocators { (v : Volume) (at : ℕ → List ℕ) → SameSystemFiles v at → allocators (over v at) ≡ allocators v }
    ensures own { (v : Volume) (at : ℕ → List ℕ) → SameSystemFiles v at → own_inodes (over v at) ≡ own_inodes v }
{}

/// A law: where every link is right, the groups depend on which allocators there are, on their dinodes and on the groups'
/// own descriptors, and on no other block.
pub fn other_blocks_keep_groups()
    ensures { (v : Volume) (at : ℕ → List ℕ) → allocators (over v at) ≡ allocators v → SameOn (map (λ a. a.block) (allocators v)) v at
        → SameOn (group_blocks (group_walk v)) v at → (group_walk v).faults ≡ [] → group_walk (over v at) ≡ group_walk v }
{}

/// A law: where groups, bits, the blocks of inodes and the entries are the same, so are the inodes and the tree.
pub fn tables_tell_inodes_and_tree()
    ensures inode { (v : Volume) (at : ℕ → List ℕ) → SameTables v at → (b : ℕ) → is_inode (over v at) b ≡ is_inode v b }
    ensures inodes { (v : Volume) (at : ℕ → List ℕ) → SameTables v at → inodes_of (over v at) ≡ inodes_of v }
    ensures followed { (v : Volume) (at : ℕ → List ℕ) → SameTables v at → (d : ℕ) → IsIn v d → followed (over v at) d ≡ followed v d }
    ensures tree { (v : Volume) (at : ℕ → List ℕ) → SameTables v at → tree_walk (over v at) ≡ tree_walk v }
{}

/// A law: the tables are the same where these blocks are: the dinodes of the volume's own files, the groups, and the inodes.
pub fn blocks_tell_tables()
    ensures { (v : Volume) (at : ℕ → List ℕ) → SameSystemFiles v at → SameOn (map (λ a. a.block) (allocators v)) v at → SameOn (group_blocks (group_walk v)) v at → (group_walk v).faults ≡ []
        → ((b : ℕ) → has_inode_bit v b ≡ true → at b ≡ v.at b) → ((d : ℕ) → IsIn v d → directory_entries (over v at) d ≡ directory_entries v d) → SameTables v at }
{}

/// A law: what an inode holds depends on its dinode, its extents and the blocks of its data, and on no other block, and so
/// does what a user sees of it.
pub fn other_blocks_keep_contents()
    ensures bytes { (v : Volume) (at : ℕ → List ℕ) (b : ℕ) → at b ≡ v.at b → extents (over v at) b ≡ extents v b → SameOn (content_blocks v b) v at
        → bytes_of (over v at) b ≡ bytes_of v b }
    ensures content { (v : Volume) (at : ℕ → List ℕ) (b : ℕ) → at b ≡ v.at b → extents (over v at) b ≡ extents v b → SameOn (content_blocks v b) v at
        → SameOn (map (λ x. x.block) (dir_blocks v b)) v at → content_of (over v at) b ≡ content_of v b }
    ensures file { (v : Volume) (at : ℕ → List ℕ) (b : ℕ) → at b ≡ v.at b → content_of (over v at) b ≡ content_of v b → file_of (over v at) b ≡ file_of v b }
{}

/// A law: images of one length with the same block 2 are one volume over different blocks.
pub fn superblock_tells_volume()
    ensures { (I X : Image) (bits : ℕ) → length X ≡ length I → block_at (2 ^ bits) X 2 ≡ block_at (2 ^ bits) I 2
        → volume_of X bits ≡ over (volume_of I bits) (block_at (2 ^ bits) X) }
{}
