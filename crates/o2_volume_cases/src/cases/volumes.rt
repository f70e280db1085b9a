// What is read of a whole volume.
ghost use Rattle.std.specs.Prelude.{◌≡◌, ℕ, [], ◌∷◌, ◌++◌, Some, None, true, false, map, length, take, drop, codes};
ghost use Rattle.o2_model.specs.declared.oddity.Oddity.TheVariants.{Attributes, DioOrphan, DiscontiguousGroup};
ghost use Rattle.o2_model.specs.declared.system_file.SlotFile.TheVariants.{Journal};
ghost use Rattle.o2_model.specs.declared.system_file.SystemFile.TheVariants.{GlobalBitmap, Heartbeat, OfSlot};
ghost use Rattle.o2_model.specs.declared.claim.Owner.TheVariants.{Index, Inode, LocalAlloc, Suballocator, Super, TruncateLog};
ghost use Rattle.o2_model.specs.SystemFiles.{slot_in_name, system_inode};
ghost use Rattle.o2_model.specs.Allocators.{allocators};
ghost use Rattle.o2_model.specs.Groups.{group_walk, groups_of, inodes_of, is_inode};
ghost use Rattle.o2_model.specs.Inodes.{extent_blocks_of, records_of};
ghost use Rattle.o2_model.specs.Contents.{content_of};
ghost use Rattle.o2_model.specs.Directories.{dir_blocks, directory_entries};
ghost use Rattle.o2_model.specs.Contents.Content.{Bytes, Entries, Nothing};
ghost use Rattle.o2_model.specs.Tree.{inode_at, is_met, link_count, met_inodes, tree_directories, tree_inodes, tree_walk};
ghost use Rattle.o2_model.specs.Intact.{intact_paths, is_intact};
ghost use Rattle.o2_model.specs.AfterReplay.{geometry_of};
ghost use Rattle.o2_model.specs.Files.{file_of, links_of, shared_references};
ghost use Rattle.o2_model.specs.Volume.{dinode};
ghost use Rattle.o2_model.specs.RefcountTrees.{inodes_of_tree, refcount_roots, refcount_tree_blocks};
ghost use Rattle.o2_model.specs.Metadata.{metadata_blocks};
ghost use Rattle.o2_model.specs.Claims.{claims_by, claims_of, owner_in, structure_claims};
ghost use Rattle.o2_model.specs.Owned.{is_owned, owned_blocks};
ghost use Rattle.o2_model.specs.Structures.{unsupported_structure};
ghost use Rattle.o2_model.specs.Failing.{failing};
ghost use Rattle.o2_cases_volumes.specs.SmallFiles.{leaf_at};
ghost use Rattle.o2_cases_volumes.specs.OtherVolumes.{changed, far_directory_blocks, leaf_index_blocks, two_chain_blocks, two_directory_blocks};
ghost use Rattle.o2_cases_volumes.specs.WholeVolume.{volume_with, whole, whole_block, whole_geo, with_number, with_number_at};

/// A law: a group with a list of extents in use, an inode with attributes (HAS_XATTR), and an orphan of a direct write (DIO_ORPHANED)
/// are outside the profile.
pub fn odd_structures_on_cases()
    ensures group { unsupported_structure (volume_with (with_number_at 16 0x8 2 256 (with_number_at 16 0x144 2 1 whole_block))) ≡ Some (DiscontiguousGroup, 16) }
    ensures no_list { unsupported_structure (with_number 16 0x8 2 256) ≡ None }
    ensures room { unsupported_structure (volume_with (with_number_at 16 0x8 2 256 (with_number_at 16 0x142 2 0x100 whole_block))) ≡ None }
    ensures least { unsupported_structure (volume_with (with_number_at 40 0x8 2 256 (with_number_at 40 0x144 2 1 (with_number_at 120 0x8 2 256 (with_number_at 120 0x144 2 1 two_chain_blocks))))) ≡ Some (DiscontiguousGroup, 40) }
    ensures attributes { unsupported_structure (with_number 30 0x76 2 0x12) ≡ Some (Attributes, 30) }
    ensures direct_write { unsupported_structure (with_number 32 0x2c 4 0x2005) ≡ Some (DioOrphan, 32) }
{}

/// A law: the system directory names the files, and the chains of the allocators lead to their groups.
pub fn groups_of_whole()
    ensures named { system_inode whole GlobalBitmap ≡ Some 19 }
    ensures not_named { system_inode whole Heartbeat ≡ None }
    ensures allocators { map (λ a. a.block) (allocators whole) ≡ 19 ∷ 20 ∷ 23 ∷ 24 ∷ [] }
    ensures no_dinode { map (λ a. a.block) (allocators (with_number 23 0x0 8 0)) ≡ 19 ∷ 20 ∷ 24 ∷ [] }
    ensures groups { map (λ g. g.block) (group_walk whole).groups ≡ 8 ∷ 16 ∷ 40 ∷ [] }
    ensures of_inodes { map (λ g. g.bits) (groups_of whole 20) ≡ 24 ∷ [] }
    ensures of_none { groups_of whole 24 ≡ [] }
{}

/// A law: the four digits of a name tell the slot; three of them, or a letter among them, tell none.
pub fn slots_in_names_on_cases()
    ensures first { slot_in_name Journal (codes "journal:0000") ≡ Some 0 }
    ensures large { slot_in_name Journal (codes "journal:9127") ≡ Some 9127 }
    ensures three_digits { slot_in_name Journal (codes "journal:127") ≡ None }
    ensures letter { slot_in_name Journal (codes "journal:01x7") ≡ None }
    ensures another_file { slot_in_name Journal (codes "inode_alloc:0000") ≡ None }
{}

/// A law: the inodes are the valid dinodes on set bits. The block of the group, also on a set bit, is none.
pub fn inodes_of_whole()
    ensures inodes { inodes_of whole
        ≡ 17 ∷ 18 ∷ 19 ∷ 20 ∷ 21 ∷ 22 ∷ 23 ∷ 24 ∷ 25 ∷ 26 ∷ 27 ∷ 28 ∷ 29 ∷ 30 ∷ 31 ∷ 32 ∷ 33 ∷ [] }
    ensures group { is_inode whole 16 ≡ false }
    ensures clear { is_inode whole 34 ≡ false }
    ensures another_generation { is_inode (with_number 29 0x60 4 6) 29 ≡ false }
{}

/// A law: a file whose list is in an extent block has the two records there, and one whose text is in the dinode has none.
pub fn extents_of_whole()
    ensures records { records_of whole 29 ≡ leaf_at 0 1 0 80 ∷ leaf_at 2 1 0 104 ∷ [] }
    ensures blocks { extent_blocks_of whole 29 ≡ 41 ∷ [] }
    ensures no_records { records_of whole 33 ≡ [] }
{}

/// A law: a file has its bytes, a link its text, a directory its live entries.
pub fn contents_of_whole()
    ensures file { content_of whole 30 ≡ Bytes (codes "hello") }
    ensures link { content_of whole 33 ≡ Bytes (codes "f") }
    ensures directory { content_of whole 28 ≡ Entries ((28, 2, codes ".") ∷ (18, 2, codes "..") ∷ (29, 1, codes "h") ∷ []) }
    ensures fifo { content_of (with_number 30 0x28 2 0o10644) 30 ≡ Nothing }
{}

/// A law: the walk of the tree meets the root, what it names, and then what its directory names. A file with two names is met
/// twice; an orphan is not met.
pub fn tree_of_whole()
    ensures names { (tree_walk whole).names
        ≡ ([], 18) ∷ (codes "d" ∷ [], 28) ∷ (codes "f" ∷ [], 29) ∷ (codes "a" ∷ [], 30) ∷ (codes "b" ∷ [], 31)
        ∷ (codes "l" ∷ [], 33) ∷ (codes "d" ∷ codes "h" ∷ [], 29) ∷ [] }
    ensures directories { tree_directories whole ≡ 18 ∷ 28 ∷ [] }
    ensures once { (tree_walk whole).faults ≡ [] }
    ensures met { met_inodes whole ≡ 18 ∷ 28 ∷ 29 ∷ 30 ∷ 31 ∷ 33 ∷ [] }
    ensures links { link_count whole 29 ≡ 2 }
    ensures told { links_of (dinode whole 29) ≡ 2 }
{}

/// A law: two files share a cluster by one refcount tree, whose root is the only block of it.
pub fn sharing_of_whole()
    ensures roots { refcount_roots whole ≡ 42 ∷ [] }
    ensures inodes { inodes_of_tree whole 42 ≡ 30 ∷ 31 ∷ [] }
    ensures blocks { refcount_tree_blocks whole 42 ≡ 42 ∷ [] }
    ensures metadata { metadata_blocks whole ≡ 41 ∷ 42 ∷ [] }
    ensures shared { shared_references whole 31 ≡ 11 ∷ [] }
    ensures not_shared { shared_references whole 29 ≡ [] }
{}

/// A law: who claims the clusters.
pub fn claims_of_whole()
    ensures structures { structure_claims whole
        ≡ claims_by Super (0 ∷ 1 ∷ []) ++ claims_by (Suballocator 20) (2 ∷ 3 ∷ 4 ∷ []) ++ claims_by (Suballocator 23) (5 ∷ []) }
    ensures claims { claims_of whole
        ≡ claims_by Super (0 ∷ 1 ∷ []) ++ claims_by (Suballocator 20) (2 ∷ 3 ∷ 4 ∷ []) ++ claims_by (Suballocator 23) (5 ∷ [])
        ++ claims_by (Inode 21) (6 ∷ []) ++ claims_by (Inode 25) (7 ∷ []) ++ claims_by (Inode 28) (9 ∷ [])
        ++ claims_by (Inode 29) (10 ∷ 13 ∷ []) ++ claims_by (Inode 30) (11 ∷ []) ++ claims_by (Inode 31) (11 ∷ []) ++ claims_by (Inode 32) (8 ∷ [])
        ++ claims_by (LocalAlloc 0) (14 ∷ []) ++ claims_by (TruncateLog 0) (12 ∷ []) }
    ensures with_index { drop 14 (claims_of (volume_with leaf_index_blocks))
        ≡ claims_by (Index 28) (15 ∷ []) ++ claims_by (LocalAlloc 0) (14 ∷ []) ++ claims_by (TruncateLog 0) (12 ∷ []) }
    ensures first { owner_in (claims_of whole) 11 ≡ Some (Inode 30) }
    ensures free { owner_in (claims_of whole) 15 ≡ None }
{}

/// A law: the blocks that carry meaning are those of claimed clusters, without windows and truncate records, and of a journal the
/// first alone.
pub fn owned_blocks_of_whole()
    ensures super_block { is_owned whole 2 ≡ true }
    ensures first_of_journal { is_owned whole 56 ≡ true }
    ensures second_of_journal { is_owned whole 57 ≡ false }
    ensures data { is_owned whole 104 ≡ true }
    ensures truncated { is_owned whole 96 ≡ false }
    ensures window { is_owned whole 112 ≡ false }
    ensures free { is_owned whole 120 ≡ false }
    ensures count { length (owned_blocks whole) ≡ 97 }
{}

/// A law: the inode at a path is that of its names; an orphan is at none.
pub fn paths_of_whole()
    ensures root { inode_at whole [] ≡ Some 18 }
    ensures deep { inode_at whole (codes "d" ∷ codes "h" ∷ []) ≡ Some 29 }
    ensures absent { inode_at whole (codes "h" ∷ []) ≡ None }
    ensures met { is_met whole 30 ≡ true }
    ensures orphan { is_met whole 32 ≡ false }
{}

/// A law: a path is intact where its inode is, and each directory on the way. The file `f` has another name, `d/h`.
pub fn intact_paths_on_cases()
    ensures all { length (intact_paths whole) ≡ 7 }
    ensures absent { is_intact whole (codes "h" ∷ []) ≡ false }
    ensures overlap { is_intact (with_number 41 0x50 4 0) (codes "f" ∷ []) ≡ false }
    ensures another { is_intact (with_number 41 0x50 4 0) (codes "a" ∷ []) ≡ true }
    ensures on_the_way { is_intact (with_number 28 0x20 8 513) (codes "d" ∷ codes "h" ∷ []) ≡ false }
    ensures by_its_other_name { is_intact (with_number 28 0x20 8 513) (codes "f" ∷ []) ≡ true }
    ensures shared_badly { is_intact (with_number 42 0x98 4 2) (codes "a" ∷ []) ≡ false }
{}

/// A law: the numbers that a user may change are read of the superblock and of the journals.
pub fn geometry_of_whole()
    ensures slots { (geometry_of whole).slots ≡ 1 }
    ensures clusters { (geometry_of whole).clusters ≡ 16 }
    ensures journals { (geometry_of whole).journals ≡ 1 ∷ [] }
    ensures label { take 2 (geometry_of (with_number 2 0x110 2 0x6176)).label ≡ codes "va" }
{}

/// A law: of what is outside the profile a group comes before an inode with attributes, and that before an orphan of a direct write; of
/// several the least. A group of another size has no list.
pub fn odd_structures_in_order()
    ensures attributes_first { unsupported_structure (volume_with (with_number_at 29 0x2c 4 0x2001 (with_number_at 30 0x76 2 0x12 whole_block))) ≡ Some (Attributes, 30) }
    ensures group_first { unsupported_structure (volume_with (with_number_at 28 0x76 2 0xa (with_number_at 40 0x8 2 256 (with_number_at 40 0x144 2 1 whole_block)))) ≡ Some (DiscontiguousGroup, 40) }
    ensures least { unsupported_structure (volume_with (with_number_at 31 0x76 2 0x12 (with_number_at 30 0x76 2 0x12 whole_block))) ≡ Some (Attributes, 30) }
    ensures another_size { unsupported_structure (with_number 16 0x144 2 1) ≡ None }
{}

/// A law: an inode is not intact where its kind, its clusters or its extent blocks are wrong, a directory where a name is, and one that
/// shares where its tree is.
pub fn wrong_inodes_are_not_intact()
    ensures kind { is_intact (with_number 29 0x28 2 0) (codes "f" ∷ []) ≡ false }
    ensures second_owner { is_intact (with_number 32 0xd8 8 80) (codes "f" ∷ []) ≡ false }
    ensures another { is_intact (with_number 32 0xd8 8 80) (codes "a" ∷ []) ≡ true }
    ensures shared_block { is_intact (with_number 31 0x90 8 41) (codes "f" ∷ []) ≡ false }
    ensures dots { is_intact (with_number 72 28 2 0x7878) (codes "d" ∷ []) ≡ false }
    ensures others { intact_paths (with_number 72 28 2 0x7878) ≡ [] ∷ (codes "f" ∷ []) ∷ (codes "a" ∷ []) ∷ (codes "b" ∷ []) ∷ (codes "l" ∷ []) ∷ [] }
    ensures name { is_intact (with_number 18 260 1 0x2f) (codes "a" ∷ []) ≡ false }
    ensures namesake { is_intact (with_number 18 292 1 0x61) (codes "l" ∷ []) ≡ false }
    ensures tree { is_intact (with_number 42 0x82 2 2) (codes "a" ∷ []) ≡ false }
    ensures not_in_tree { is_intact (with_number 42 0x82 2 2) (codes "f" ∷ []) ≡ true }
{}

/// A law: what a user sees of an inode is read of its fields, and a device of block and character devices alone.
pub fn fields_of_files()
    ensures owner { (file_of (with_number 29 0x18 4 7) 29).owner ≡ 7 }
    ensures group { (file_of (with_number 29 0x1c 4 7) 29).group ≡ 7 }
    ensures accessed { (file_of (volume_with (with_number_at 29 0x30 8 7 (with_number_at 29 0x64 4 8 whole_block))) 29).accessed ≡ record { seconds = 7; nanoseconds = 8 } }
    ensures changed { (file_of (volume_with (with_number_at 29 0x38 8 7 (with_number_at 29 0x68 4 8 whole_block))) 29).changed ≡ record { seconds = 7; nanoseconds = 8 } }
    ensures modified { (file_of (volume_with (with_number_at 29 0x40 8 7 (with_number_at 29 0x6c 4 8 whole_block))) 29).modified ≡ record { seconds = 7; nanoseconds = 8 } }
    ensures block_device { (file_of (volume_with (with_number_at 30 0x28 2 0o60644 (with_number_at 30 0xb8 8 0x801 whole_block))) 30).device ≡ Some 0x801 }
    ensures character_device { (file_of (volume_with (with_number_at 30 0x28 2 0o20644 (with_number_at 30 0xb8 8 0x801 whole_block))) 30).device ≡ Some 0x801 }
    ensures no_device { (file_of (with_number 30 0xb8 8 0x801) 30).device ≡ None }
{}

/// A law: the volume's identifier and label are read of the superblock.
pub fn identifier_of_whole()
    ensures identifier { take 2 (geometry_of (with_number 2 0x150 2 0x6176)).uuid ≡ codes "va" }
    ensures label_length { length (geometry_of whole).label ≡ 64 }
    ensures identifier_length { length (geometry_of whole).uuid ≡ 16 }
    ensures no_second_journal { (geometry_of (record whole { geo = record whole_geo { slots = 2 } })).journals ≡ 1 ∷ 0 ∷ [] }
{}

/// A law: an entry tells its block and its place there, or among the inline bytes. Of two entries with one name the first counts.
pub fn places_of_entries()
    ensures in_block { map {B = ℕ × ℕ} (λ e. (e.block, e.at)) (directory_entries whole 28) ≡ (72, 0) ∷ (72, 16) ∷ (72, 32) ∷ [] }
    ensures inline { map {B = ℕ × ℕ} (λ e. (e.block, e.at)) (directory_entries whole 22) ≡ (22, 0) ∷ (22, 16) ∷ (22, 32) ∷ [] }
    ensures behind_void { map {B = ℕ × ℕ} (λ e. (e.inode, e.at)) (directory_entries (with_number 22 216 8 0) 22) ≡ (22, 0) ∷ (32, 32) ∷ [] }
    ensures behind_hole { map {B = ℕ × ℕ} (λ b. (b.place, b.block)) (drop 6 (dir_blocks (volume_with far_directory_blocks) 28)) ≡ (6, 78) ∷ (7, 79) ∷ (16, 120) ∷ (17, 121) ∷ [] }
    ensures second_block { map {B = ℕ × ℕ} (λ e. (e.block, e.at)) (directory_entries (volume_with two_directory_blocks) 28) ≡ (72, 0) ∷ (72, 16) ∷ (72, 32) ∷ (73, 0) ∷ [] }
    ensures namesakes { inode_at (with_number 18 292 1 0x61) (codes "a" ∷ []) ≡ Some 30 }
    ensures at_paths { tree_inodes (with_number 18 292 1 0x61) ≡ 18 ∷ 28 ∷ 29 ∷ 30 ∷ 30 ∷ 33 ∷ 29 ∷ [] }
    ensures names_of_one { met_inodes (with_number 18 292 1 0x61) ≡ 18 ∷ 28 ∷ 29 ∷ 30 ∷ 31 ∷ 33 ∷ [] }
    ensures index_leaf { is_owned (volume_with leaf_index_blocks) 127 ≡ true }
    ensures unsound_index { is_owned (changed leaf_index_blocks 43 0x38 4 9) 127 ≡ false }
{}

/// A law: clusters that are marked as unwritten are read as zeros. The text of a link is as long as i_size, and stands behind the header of
/// inline data where the link is inline.
pub fn contents_on_cases()
    ensures not_written { content_of (with_number 30 0xd7 1 3) 30 ≡ Bytes (0 ∷ 0 ∷ 0 ∷ 0 ∷ 0 ∷ []) }
    ensures no_clusters { content_of (with_number 30 0xc4 2 0) 30 ≡ Bytes (0 ∷ 0 ∷ 0 ∷ 0 ∷ 0 ∷ []) }
    ensures behind_text { content_of (with_number 33 0x20 8 3) 33 ≡ Bytes (0x66 ∷ 0 ∷ 0 ∷ []) }
    ensures inline_link { content_of (volume_with (with_number_at 33 0x76 2 1 (with_number_at 33 0xc8 1 0x61 whole_block))) 33 ≡ Bytes (codes "a") }
    ensures sound_inline_link { failing (with_number 33 0x76 2 1) ≡ [] }
    ensures long_link { content_of (volume_with (with_number_at 33 0x14 4 1 (with_number_at 33 0xc0 8 0x1_0013_0000 (with_number_at 33 0xd0 8 0x1_0000_0000 (with_number_at 33 0xd8 8 88 whole_block))))) 33 ≡ Bytes (codes "h") }
{}
