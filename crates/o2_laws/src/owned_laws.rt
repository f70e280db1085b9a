// Laws of the blocks that carry meaning, each the contract of a function that does nothing.
ghost use Rattle.std.specs.Prelude.{◌≡◌, ◌^◌, length, ◌<◌, ◌≤◌, ◌+◌, ℕ, List, [], map, flat_map, Some, true, false};
ghost use Rattle.std.specs.List.{Contains};
ghost use Rattle.o2_disk.specs.Image.{Image, block_at};
ghost use Rattle.o2_model.specs.declared.allocator.Group.{Group};
ghost use Rattle.o2_model.specs.declared.system_file.SystemFile.{SystemFile};
ghost use Rattle.o2_model.specs.declared.claim.Claim.{Claim};
ghost use Rattle.o2_model.specs.Volume.{Volume, over, volume_of};
ghost use Rattle.o2_model.specs.Clusters.{cluster_of};
ghost use Rattle.o2_model.specs.Groups.{group_walk, groups, is_of_clusters, is_inode, inodes_of, has_inode_bit};
ghost use Rattle.o2_laws.specs.Frames.{SameSystemFiles, content_blocks};
ghost use Rattle.o2_model.specs.Journals.{journals};
ghost use Rattle.o2_model.specs.Inodes.{extents, is_directory, leaf_records};
ghost use Rattle.o2_model.specs.LeafRecords.{blocks_under};
ghost use Rattle.o2_model.specs.Directories.{dir_blocks, directory_entries};
ghost use Rattle.o2_model.specs.Contents.{content_of};
ghost use Rattle.o2_model.specs.Files.{file_of, files_of};
ghost use Rattle.o2_model.specs.Failing.{failing};
ghost use Rattle.o2_laws.specs.Agrees.{AgreesOnOwned};
ghost use Rattle.o2_model.specs.SystemFiles.{system_inode};
ghost use Rattle.o2_model.specs.Tree.{tree_walk};
ghost use Rattle.o2_model.specs.Metadata.{metadata_blocks};
ghost use Rattle.o2_model.specs.Words.{among};
ghost use Rattle.o2_model.specs.Checks.MetaBlock.{meta_block_faults};
ghost use Rattle.o2_laws.specs.Walked.{IsGoodGroup};
ghost use Rattle.o2_model.specs.Claims.{structure_claims, inode_claims, claims_of};
ghost use Rattle.o2_model.specs.Owned.{needs_bytes, is_owned};

/// A law: the claims of structures and of inodes are among all claims, and a block is owned where its cluster is claimed by
/// an owner that needs its bytes.
pub fn claimed_blocks_are_owned()
    ensures structures { (v : Volume) (k : Claim) → Contains (structure_claims v) k → Contains (claims_of v) k }
    ensures inodes { (v : Volume) (k : Claim) → Contains (inode_claims v) k → Contains (claims_of v) k }
    ensures owned { (v : Volume) (k : Claim) (b : ℕ) → Contains (claims_of v) k → k.cluster ≡ cluster_of v b → needs_bytes v k.owner b ≡ true
        → is_owned v b ≡ true }
{}

/// A law: each group that the walk reaches is good, its descriptor is owned, and so are all blocks of a group of blocks.
pub fn blocks_of_groups_are_owned()
    ensures good { (v : Volume) (g : Group) → Contains (groups v) g → IsGoodGroup v g }
    ensures descriptor { (v : Volume) (g : Group) → Contains (groups v) g → is_owned v g.block ≡ true }
    ensures blocks { (v : Volume) (g : Group) (k : ℕ) → Contains (groups v) g → is_of_clusters g ≡ false → k < g.bits → is_owned v (g.block + k) ≡ true }
{}

/// A law: each block of the clusters up to that of the first group is owned, with the superblock among them.
pub fn first_blocks_are_owned()
    ensures { (v : Volume) (b : ℕ) → cluster_of v b ≤ cluster_of v v.geo.first_group → is_owned v b ≡ true }
{}

/// A law: each block that stands on a set bit of a group of inodes is owned, and so is each dinode. Where META_BLOCK holds,
/// so are the extent blocks of all inodes and the blocks of refcount trees.
pub fn dinodes_and_extent_blocks_are_owned()
    ensures bit { (v : Volume) (b : ℕ) → has_inode_bit v b ≡ true → is_owned v b ≡ true }
    ensures dinode { (v : Volume) (b : ℕ) → is_inode v b ≡ true → is_owned v b ≡ true }
    ensures metadata { (v : Volume) (b : ℕ) → meta_block_faults v ≡ [] → among (metadata_blocks v) b ≡ true → is_owned v b ≡ true }
{}

/// A law: the blocks of an inode's clusters are owned, where it is no journal: those that its contents stand in, and those
/// of a directory. Of a journal only the first block counts.
pub fn data_blocks_are_owned()
    ensures data { (v : Volume) (i b : ℕ) → is_inode v i ≡ true → among (journals v) i ≡ false → among (flat_map (blocks_under v) (leaf_records v i)) b ≡ true
        → is_owned v b ≡ true }
    ensures contents { (v : Volume) (i b : ℕ) → is_inode v i ≡ true → among (journals v) i ≡ false → among (content_blocks v i) b ≡ true → is_owned v b ≡ true }
    ensures directories { (v : Volume) (d b : ℕ) → is_inode v d ≡ true → among (journals v) d ≡ false → among (map (λ x. x.block) (dir_blocks v d)) b ≡ true
        → is_owned v b ≡ true }
{}

/// A law: where nothing fails, blocks that agree on the owned ones have the same extents of each inode, and the same
/// entries, contents and file of each that is no journal.
pub fn owned_blocks_tell_inodes()
    ensures extents { (v : Volume) (at : ℕ → List ℕ) (i : ℕ) → failing v ≡ [] → AgreesOnOwned v at → is_inode v i ≡ true
        → extents (over v at) i ≡ extents v i }
    ensures entries { (v : Volume) (at : ℕ → List ℕ) (d : ℕ) → failing v ≡ [] → AgreesOnOwned v at → is_inode v d ≡ true → among (journals v) d ≡ false
        → directory_entries (over v at) d ≡ directory_entries v d }
    ensures content { (v : Volume) (at : ℕ → List ℕ) (i : ℕ) → failing v ≡ [] → AgreesOnOwned v at → is_inode v i ≡ true → among (journals v) i ≡ false
        → content_of (over v at) i ≡ content_of v i }
    ensures file { (v : Volume) (at : ℕ → List ℕ) (i : ℕ) → failing v ≡ [] → AgreesOnOwned v at → is_inode v i ≡ true → among (journals v) i ≡ false
        → file_of (over v at) i ≡ file_of v i }
{}

/// A law: where nothing fails, the root, the system directory and the volume's own files are inodes, and no directory is a
/// journal.
pub fn own_files_are_inodes()
    ensures root { (v : Volume) → failing v ≡ [] → is_inode v v.geo.root ≡ true }
    ensures sysdir { (v : Volume) → failing v ≡ [] → is_inode v v.geo.sysdir ≡ true }
    ensures files { (v : Volume) (file : SystemFile) (b : ℕ) → failing v ≡ [] → system_inode v file ≡ Some b → is_inode v b ≡ true }
    ensures journals { (v : Volume) (d : ℕ) → failing v ≡ [] → is_directory v d ≡ true → among (journals v) d ≡ false }
{}

/// A law: where nothing fails, blocks that agree on the owned ones have the same entries and dinodes of the volume's own
/// files, the same groups, and the same inodes.
pub fn owned_blocks_tell_tables()
    ensures files { (v : Volume) (at : ℕ → List ℕ) → failing v ≡ [] → AgreesOnOwned v at → SameSystemFiles v at }
    ensures groups { (v : Volume) (at : ℕ → List ℕ) → failing v ≡ [] → AgreesOnOwned v at → group_walk (over v at) ≡ group_walk v }
    ensures inodes { (v : Volume) (at : ℕ → List ℕ) → failing v ≡ [] → AgreesOnOwned v at → inodes_of (over v at) ≡ inodes_of v }
{}

/// A law: where nothing fails, blocks that agree on the owned ones have the same tree, and the same files in it.
pub fn owned_blocks_tell_tree()
    ensures files { (v : Volume) (at : ℕ → List ℕ) → failing v ≡ [] → AgreesOnOwned v at → files_of (over v at) ≡ files_of v }
    ensures tree { (v : Volume) (at : ℕ → List ℕ) → failing v ≡ [] → AgreesOnOwned v at → tree_walk (over v at) ≡ tree_walk v }
{}

/// A law: where nothing fails, blocks 0 to 2 are owned. So an image of the same length that agrees on the owned blocks has
/// the same volume over its own blocks, the same tree and the same files.
pub fn owned_blocks_tell_images()
    ensures first { (v : Volume) (b : ℕ) → failing v ≡ [] → b ≤ 2 → is_owned v b ≡ true }
    ensures volume { (I X : Image) (bits : ℕ) → failing (volume_of I bits) ≡ [] → length X ≡ length I → AgreesOnOwned (volume_of I bits) (block_at (2 ^ bits) X)
        → volume_of X bits ≡ over (volume_of I bits) (block_at (2 ^ bits) X) }
    ensures tree { (I X : Image) (bits : ℕ) → failing (volume_of I bits) ≡ [] → length X ≡ length I → AgreesOnOwned (volume_of I bits) (block_at (2 ^ bits) X)
        → tree_walk (volume_of X bits) ≡ tree_walk (volume_of I bits) }
    ensures files { (I X : Image) (bits : ℕ) → failing (volume_of I bits) ≡ [] → length X ≡ length I → AgreesOnOwned (volume_of I bits) (block_at (2 ^ bits) X)
        → files_of (volume_of X bits) ≡ files_of (volume_of I bits) }
{}
