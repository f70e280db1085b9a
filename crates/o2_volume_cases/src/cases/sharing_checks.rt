// Which checks of refcount trees and of indexes fail where one number of the whole volume is another one. The fields' places are in
// docs/FORMAT.md.
ghost use Rattle.std.specs.Prelude.{◌≡◌, [], ◌∷◌, true, false};
ghost use Rattle.o2_model.specs.declared.check.Check.TheVariants as check;
ghost use Rattle.o2_model.specs.Failing.{failing};
ghost use Rattle.o2_model.specs.Checks.Dx.{holds_index};
ghost use Rattle.o2_model.specs.Checks.RefCover.{is_shared_evenly};
ghost use Rattle.o2_cases_volumes.specs.WholeVolume.{volume_with, whole_block, with_number, with_number_at};
ghost use Rattle.o2_cases_volumes.specs.OtherVolumes.{changed, deep_index_blocks, deep_refcount_blocks, leaf_index_blocks, leaf_refcount_blocks, two_directory_blocks, two_index_blocks};

/// A law: an inode with refcounted records has a tree. One without may share with none.
pub fn wrong_trees()
    ensures no_tree { failing (with_number 31 0x76 2 0)
        ≡ (check.RefTree, 31) ∷ (check.RefCount, 42) ∷ (check.RefUsers, 42) ∷ (check.DupClusters, 30) ∷ (check.DupClusters, 31) ∷ [] }
    ensures extent_block { failing (with_number 31 0x90 8 41)
        ≡ (check.MetaBlock, 41) ∷ (check.RefTree, 41) ∷ (check.RefCount, 42) ∷ (check.RefUsers, 42) ∷ (check.DupClusters, 30) ∷ (check.DupClusters, 31) ∷ [] }
    ensures out_of_range { failing (with_number 31 0x90 8 128)
        ≡ (check.MetaBlock, 128) ∷ (check.RefTree, 31) ∷ (check.RefTree, 128) ∷ (check.RefCount, 42) ∷ (check.RefUsers, 42) ∷ (check.DupClusters, 30) ∷ (check.DupClusters, 31) ∷ [] }
    ensures no_users { failing (with_number 42 0x9c 4 0) ≡ (check.RefTree, 42) ∷ (check.RefCover, 42) ∷ [] }
{}

/// A law: the records of a tree have just the clusters that its inodes share, each as often as it is shared.
pub fn wrong_refcounts()
    ensures wide_record { failing (with_number 42 0x98 4 2) ≡ (check.RefCover, 42) ∷ [] }
    ensures another_cluster { failing (with_number 42 0x90 8 12) ≡ (check.RefCover, 42) ∷ [] }
    ensures further_cluster { failing (volume_with (with_number_at 42 0x82 2 2 (with_number_at 42 0xa0 8 13 (with_number_at 42 0xa8 8 0x1_0000_0001 whole_block)))) ≡ (check.RefCover, 42) ∷ [] }
    ensures count { failing (with_number 42 0x9c 4 3) ≡ (check.RefCount, 42) ∷ [] }
    ensures users { failing (with_number 42 0x30 4 1) ≡ (check.RefUsers, 42) ∷ [] }
{}

/// A law: an index finds each entry by the hash of its name, counts them, and stands for itself. The blocks of one that does not hold
/// are in no use.
pub fn wrong_indexes()
    ensures hash { failing (with_number 43 0xe8 4 1) ≡ (check.Dx, 28) ∷ (check.BlockAllocBit, 40) ∷ [] }
    ensures count { failing (with_number 43 0x38 4 4) ≡ (check.Dx, 28) ∷ (check.BlockAllocBit, 40) ∷ [] }
    ensures directory { failing (with_number 43 0x30 8 18) ≡ (check.Dx, 28) ∷ (check.BlockAllocBit, 40) ∷ [] }
    ensures trailer { failing (with_number 72 464 1 0) ≡ (check.Dx, 28) ∷ (check.BlockAllocBit, 40) ∷ [] }
    ensures not_indexed { failing (with_number 28 0x76 2 0) ≡ (check.BlockAllocBit, 40) ∷ [] }
{}

/// A law: the root of a tree stands on a bit above 0 of an extent_alloc, and tells its own number and this volume. What a block tells that
/// is no root is not judged.
pub fn wrong_roots()
    ensures on_descriptor { failing (with_number 31 0x90 8 40)
        ≡ (check.MetaBlock, 40) ∷ (check.RefTree, 40) ∷ (check.RefCount, 42) ∷ (check.RefUsers, 42) ∷ (check.DupClusters, 30) ∷ (check.DupClusters, 31) ∷ [] }
    ensures among_inodes { failing (with_number 31 0x90 8 36)
        ≡ (check.MetaBlock, 36) ∷ (check.RefTree, 36) ∷ (check.RefCount, 42) ∷ (check.RefUsers, 42) ∷ (check.DupClusters, 30) ∷ (check.DupClusters, 31) ∷ [] }
    ensures block_number { failing (with_number 42 0x10 8 43) ≡ (check.RefTree, 42) ∷ [] }
    ensures generation { failing (with_number 42 0xc 4 6) ≡ (check.RefTree, 42) ∷ [] }
    ensures signature { failing (with_number 42 0x0 8 0) ≡ (check.RefTree, 42) ∷ [] }
    ensures bit { failing (with_number 42 0xa 2 3) ≡ (check.MetaSuballoc, 42) ∷ [] }
    ensures last_block { failing (with_number 42 0x28 8 41) ≡ [] }
    ensures second_inode { failing (volume_with (with_number_at 29 0x76 2 0x10 (with_number_at 29 0x90 8 42 whole_block))) ≡ (check.RefUsers, 42) ∷ [] }
{}

/// A law: the list of records fits its block. A record has clusters of the volume behind cluster 0, and none of an earlier one; one behind
/// that is not right is not read.
pub fn wrong_refcount_records()
    ensures room { failing (with_number 42 0x80 2 24) ≡ (check.RefTree, 42) ∷ (check.RefCover, 42) ∷ [] }
    ensures used { failing (with_number 42 0x80 2 0) ≡ (check.RefTree, 42) ∷ (check.RefCover, 42) ∷ [] }
    ensures none { failing (with_number 42 0x82 2 0) ≡ (check.RefCover, 42) ∷ [] }
    ensures first_cluster { failing (with_number 42 0x90 8 0) ≡ (check.RefTree, 42) ∷ (check.RefCover, 42) ∷ [] }
    ensures no_clusters { failing (with_number 42 0x98 4 0) ≡ (check.RefTree, 42) ∷ (check.RefCover, 42) ∷ [] }
    ensures to_the_end { failing (with_number 42 0x98 4 5) ≡ (check.RefCover, 42) ∷ [] }
    ensures behind_the_end { failing (with_number 42 0x98 4 6) ≡ (check.RefTree, 42) ∷ (check.RefCover, 42) ∷ [] }
    ensures overlap { failing (volume_with (with_number_at 42 0x82 2 2 (with_number_at 42 0xa0 8 11 (with_number_at 42 0xa8 8 0x2_0000_0001 whole_block)))) ≡ (check.RefTree, 42) ∷ [] }
{}

/// A law: the clusters of one record are shared equally often. One inode may share with itself, and with those of its tree, as far as both
/// records are marked.
pub fn wrong_sharing()
    ensures evenly { is_shared_evenly (7 ∷ 8 ∷ 8 ∷ 7 ∷ []) (record { cpos = 7; clusters = 2; refcount = 2 }) ≡ true }
    ensures unevenly { is_shared_evenly (7 ∷ 8 ∷ 7 ∷ []) (record { cpos = 7; clusters = 2; refcount = 2 }) ≡ false }
    ensures not_at_all { is_shared_evenly [] (record { cpos = 7; clusters = 2; refcount = 0 }) ≡ false }
    ensures with_itself { failing (volume_with (with_number_at 30 0x14 4 2 (with_number_at 30 0xc4 2 2 (with_number_at 30 0xe0 8 0x0200_0001_0000_0001 (with_number_at 30 0xe8 8 88 (with_number_at 42 0x9c 4 3 whole_block)))))) ≡ [] }
    ensures not_marked { failing (with_number 31 0xd7 1 0) ≡ (check.RefCount, 42) ∷ (check.DupClusters, 30) ∷ (check.DupClusters, 31) ∷ [] }
    ensures twice { failing (with_number 41 0x58 8 80) ≡ (check.DupClusters, 29) ∷ (check.ClusterAllocBit, 8) ∷ [] }
    ensures twice_marked { failing (volume_with (with_number_at 41 0x47 1 2 (with_number_at 41 0x57 1 2 (with_number_at 41 0x58 8 80 whole_block)))) ≡ (check.RefTree, 29) ∷ (check.ClusterAllocBit, 8) ∷ [] }
    ensures over_file { failing (with_number 31 0xd8 8 80) ≡ (check.RefCover, 42) ∷ (check.RefCount, 42) ∷ (check.DupClusters, 29) ∷ (check.DupClusters, 31) ∷ [] }
{}

/// A law: the leaf blocks of a tree are judged as its root is, at themselves, and the root tells the users.
pub fn wrong_leaves_of_trees()
    ensures sound { failing (volume_with leaf_refcount_blocks) ≡ [] }
    ensures leaf_number { failing (changed leaf_refcount_blocks 44 0x10 8 45) ≡ (check.RefTree, 44) ∷ (check.RefCover, 42) ∷ [] }
    ensures count { failing (changed leaf_refcount_blocks 44 0x9c 4 3) ≡ (check.RefCount, 44) ∷ [] }
    ensures bit { failing (changed leaf_refcount_blocks 44 0xa 2 3) ≡ (check.MetaSuballoc, 44) ∷ [] }
    ensures last_block { failing (changed leaf_refcount_blocks 42 0x28 8 44) ≡ (check.LastEb, 42) ∷ [] }
    ensures users { failing (changed leaf_refcount_blocks 42 0x30 4 1) ≡ (check.RefUsers, 42) ∷ [] }
    ensures room { failing (changed leaf_refcount_blocks 42 0x82 2 24) ≡ (check.RefTree, 42) ∷ (check.RefCover, 42) ∷ (check.BlockAllocBit, 40) ∷ [] }
    ensures twice { failing (volume_with (with_number_at 42 0x84 2 2 (with_number_at 42 0xa0 8 0x1_0000_0001 (with_number_at 42 0xa8 8 44 leaf_refcount_blocks))))
        ≡ (check.MetaBlock, 44) ∷ (check.RefTree, 44) ∷ [] }
{}

/// A law: the root of an index tells its own number, this volume, and its slot and bit. What it tells of its group is not asked.
pub fn wrong_index_roots()
    ensures signature { failing (with_number 43 0x0 8 0) ≡ (check.Dx, 28) ∷ (check.BlockAllocBit, 40) ∷ [] }
    ensures block_number { failing (with_number 43 0x18 8 42) ≡ (check.Dx, 28) ∷ (check.BlockAllocBit, 40) ∷ [] }
    ensures generation { failing (with_number 43 0x14 4 6) ≡ (check.Dx, 28) ∷ (check.BlockAllocBit, 40) ∷ [] }
    ensures slot { failing (with_number 43 0x10 2 1) ≡ (check.Dx, 28) ∷ (check.BlockAllocBit, 40) ∷ [] }
    ensures bit { failing (with_number 43 0x12 2 2) ≡ (check.Dx, 28) ∷ (check.BlockAllocBit, 40) ∷ [] }
    ensures group { failing (with_number 43 0x48 8 77) ≡ [] }
    ensures clusters { failing (with_number 43 0x28 4 7) ≡ [] }
    ensures refcount_root { failing (with_number 31 0x90 8 43)
        ≡ (check.RefTree, 43) ∷ (check.RefCount, 42) ∷ (check.RefUsers, 42) ∷ (check.Dx, 28) ∷ (check.DupClusters, 30) ∷ (check.DupClusters, 31) ∷ [] }
{}

/// A law: the entries of an index fit its root, are as many as those of each block of the directory, and have both halves of a name's hash.
/// Names with other bytes than ASCII are not looked for.
pub fn wrong_index_entries()
    ensures room { failing (with_number 43 0xc4 2 20) ≡ (check.Dx, 28) ∷ (check.BlockAllocBit, 40) ∷ [] }
    ensures used { failing (with_number 43 0xc4 2 2) ≡ (check.Dx, 28) ∷ (check.BlockAllocBit, 40) ∷ [] }
    ensures further { failing (with_number 43 0xc6 2 4) ≡ (check.Dx, 28) ∷ (check.BlockAllocBit, 40) ∷ [] }
    ensures second_half { failing (with_number 43 0xec 4 1) ≡ (check.Dx, 28) ∷ (check.BlockAllocBit, 40) ∷ [] }
    ensures another_block { failing (changed two_directory_blocks 43 0x100 8 72) ≡ (check.Dx, 28) ∷ (check.BlockAllocBit, 40) ∷ [] }
    ensures exchanged { failing (volume_with (with_number_at 43 0xf0 8 73 (with_number_at 43 0x100 8 72 two_directory_blocks))) ≡ (check.Dx, 28) ∷ (check.BlockAllocBit, 40) ∷ [] }
    ensures live_trailer { failing (volume_with (with_number_at 72 448 8 34 (with_number_at 43 0x38 4 4 (with_number_at 43 0xc6 2 4 (with_number_at 43 0xf8 8 0x2_0000_0001 (with_number_at 43 0x100 8 72 whole_block))))))
        ≡ (check.DirentName, 72) ∷ (check.DirentInode, 72) ∷ (check.Dx, 28) ∷ (check.BlockAllocBit, 40) ∷ [] }
    ensures short_trailer { failing (volume_with (with_number_at 72 456 2 52 (with_number_at 72 508 2 12 whole_block))) ≡ (check.Dx, 28) ∷ (check.BlockAllocBit, 40) ∷ [] }
{}

/// A law: an index may stand in clusters, with a leaf in each block. They are its own, and each leaf is well formed.
pub fn wrong_index_leaves()
    ensures sound { failing (volume_with leaf_index_blocks) ≡ [] }
    ensures signature { failing (changed leaf_index_blocks 125 0x0 8 0) ≡ (check.Dx, 28) ∷ (check.BlockAllocBit, 40) ∷ (check.ClusterAllocBit, 8) ∷ [] }
    ensures block_number { failing (changed leaf_index_blocks 125 0x10 8 124) ≡ (check.Dx, 28) ∷ (check.BlockAllocBit, 40) ∷ (check.ClusterAllocBit, 8) ∷ [] }
    ensures generation { failing (changed leaf_index_blocks 125 0x18 4 6) ≡ (check.Dx, 28) ∷ (check.BlockAllocBit, 40) ∷ (check.ClusterAllocBit, 8) ∷ [] }
    ensures room { failing (changed leaf_index_blocks 125 0x2c 2 30) ≡ (check.Dx, 28) ∷ (check.BlockAllocBit, 40) ∷ (check.ClusterAllocBit, 8) ∷ [] }
    ensures claimed { failing (changed leaf_index_blocks 32 0xd8 8 120) ≡ (check.Dx, 28) ∷ (check.BlockAllocBit, 40) ∷ (check.ClusterAllocBit, 8) ∷ [] }
    ensures flags { failing (changed leaf_index_blocks 43 0xd7 1 3) ≡ [] }
    ensures room_of_root { failing (changed leaf_index_blocks 43 0xc2 2 20) ≡ (check.Dx, 28) ∷ (check.BlockAllocBit, 40) ∷ (check.ClusterAllocBit, 8) ∷ [] }
{}

/// A law: an extent block of an index has its own bit, and tells it. What it names as the next one, and the root as the last, is not asked.
pub fn wrong_deep_indexes()
    ensures sound { failing (volume_with deep_index_blocks) ≡ [] }
    ensures bit { failing (changed deep_index_blocks 44 0x12 2 5) ≡ (check.Dx, 28) ∷ (check.BlockAllocBit, 40) ∷ (check.ClusterAllocBit, 8) ∷ [] }
    ensures slot { failing (changed deep_index_blocks 44 0x10 2 1) ≡ (check.Dx, 28) ∷ (check.BlockAllocBit, 40) ∷ (check.ClusterAllocBit, 8) ∷ [] }
    ensures depth { failing (changed deep_index_blocks 44 0x30 2 1) ≡ (check.Dx, 28) ∷ (check.BlockAllocBit, 40) ∷ (check.ClusterAllocBit, 8) ∷ [] }
    ensures next { failing (changed deep_index_blocks 44 0x28 8 7) ≡ [] }
    ensures last { failing (changed deep_index_blocks 43 0x20 8 7) ≡ [] }
{}

/// A law: a cluster of an index has no claim of an index before it. Which that is goes by the directories' numbers.
pub fn indexes_of_one_cluster()
    ensures first { holds_index (volume_with two_index_blocks) 28 ≡ true }
    ensures second { holds_index (volume_with two_index_blocks) 34 ≡ false }
    ensures no_cluster { holds_index (changed two_index_blocks 44 0xd4 2 0) 34 ≡ true }
    ensures first_unsound { holds_index (changed two_index_blocks 43 0x38 4 1) 34 ≡ true }
{}

/// A law: the leaf blocks of a tree may be named by extent blocks. These are on bits of their own, and tell their place, and the root the
/// last one.
pub fn deep_trees()
    ensures sound { failing (volume_with deep_refcount_blocks) ≡ [] }
    ensures last { failing (changed deep_refcount_blocks 42 0x28 8 0) ≡ (check.LastEb, 42) ∷ [] }
    ensures next { failing (changed deep_refcount_blocks 45 0x28 8 44) ≡ (check.EbNext, 45) ∷ [] }
    ensures bit { failing (changed deep_refcount_blocks 45 0x12 2 4) ≡ (check.MetaSuballoc, 45) ∷ [] }
    ensures depth { failing (changed deep_refcount_blocks 42 0x80 2 2) ≡ (check.LastEb, 42) ∷ (check.RefTree, 42) ∷ (check.RefCover, 42) ∷ (check.BlockAllocBit, 40) ∷ [] }
    ensures block_number { failing (changed deep_refcount_blocks 45 0x18 8 44) ≡ (check.LastEb, 42) ∷ (check.RefTree, 42) ∷ (check.RefCover, 42) ∷ (check.BlockAllocBit, 40) ∷ [] }
    ensures room { failing (changed deep_refcount_blocks 45 0x32 2 29) ≡ (check.RefTree, 42) ∷ (check.RefCover, 42) ∷ (check.BlockAllocBit, 40) ∷ [] }
{}
