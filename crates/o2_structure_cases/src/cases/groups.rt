// Groups of allocators on single cases.
ghost use Rattle.std.specs.Prelude.{◌≡◌, [], ◌∷◌, true, false};
ghost use Rattle.o2_ondisk.specs.Signatures.{inode_signature};
ghost use Rattle.o2_model.specs.declared.allocator.BitUse.TheVariants.{Inodes};
ghost use Rattle.o2_model.specs.Allocators.{is_sound_chain_size};
ghost use Rattle.o2_model.specs.Groups.{is_block_group, is_good_group, walk_chain};
ghost use Rattle.o2_model.specs.Checks.GroupFreeBits.{has_free_bits};
ghost use Rattle.o2_cases_volumes.specs.SmallVolumes.{small_at};
ghost use Rattle.o2_cases_volumes.specs.SmallGroups.{bitmap, bitmap_desc, desc_bytes, inode_allocator, inode_desc, inode_group, nothing_met, two_groups, with_desc, with_large_desc, with_plain_desc};

/// A law: the group of the global bitmap has its signature, stands at its place, and is of this volume and of this allocator.
pub fn bitmap_groups_on_cases()
    ensures good { is_good_group (with_desc 8 bitmap_desc) bitmap [] 8 ≡ true }
    ensures signature { is_good_group (with_desc 8 (record bitmap_desc { signature = record { 0 = inode_signature } })) bitmap [] 8 ≡ false }
    ensures generation { is_good_group (with_desc 8 (record bitmap_desc { generation = 6 })) bitmap [] 8 ≡ false }
    ensures another_allocator { is_good_group (with_desc 8 (record bitmap_desc { parent_dinode = 41 })) bitmap [] 8 ≡ false }
    ensures few_bits { is_good_group (with_desc 8 (record bitmap_desc { bits = 99 })) bitmap [] 8 ≡ false }
    ensures another_place { is_good_group (with_desc 16 (record bitmap_desc { blkno = 16 })) bitmap [] 16 ≡ false }
    ensures large { is_good_group (with_desc 8 (record bitmap_desc { size = 449 })) bitmap [] 8 ≡ false }
{}

/// A law: a group of blocks has whole clusters behind the first group descriptor, none of them of a group that was walked before.
pub fn block_groups_on_cases()
    ensures good { is_good_group (with_desc 80 (inode_desc 80 0)) inode_allocator [] 80 ≡ true }
    ensures part_of_cluster { is_good_group (with_desc 80 (record (inode_desc 80 0) { bits = 12 })) inode_allocator [] 80 ≡ false }
    ensures within_cluster { is_good_group (with_desc 81 (inode_desc 81 0)) inode_allocator [] 81 ≡ false }
    ensures on_bitmap { is_good_group (with_desc 8 (inode_desc 8 0)) inode_allocator [] 8 ≡ false }
    ensures last { is_good_group (with_desc 784 (inode_desc 784 0)) inode_allocator [] 784 ≡ true }
    ensures crossing { is_good_group (with_desc 792 (inode_desc 792 0)) inode_allocator [] 792 ≡ false }
    ensures behind_another { is_good_group (with_desc 80 (inode_desc 80 0)) inode_allocator (inode_group 64 ∷ []) 80 ≡ true }
    ensures over_another { is_good_group (with_desc 80 (inode_desc 80 0)) inode_allocator (inode_group 72 ∷ []) 80 ≡ false }
{}

/// A law: a chain ends with 0. Where it comes back to its first group, that is walked once, and the last one's link is wrong.
pub fn chains_on_cases()
    ensures none { walk_chain (two_groups 0) inode_allocator 0 800 41 0 nothing_met ≡ nothing_met }
    ensures two { walk_chain (two_groups 0) inode_allocator 0 800 41 80 nothing_met
        ≡ record { groups = inode_group 80 ∷ inode_group 96 ∷ []; faults = [] } }
    ensures ring { walk_chain (two_groups 80) inode_allocator 0 800 41 80 nothing_met
        ≡ record { groups = inode_group 80 ∷ inode_group 96 ∷ []; faults = 96 ∷ [] } }
    ensures bad_head { walk_chain (two_groups 0) inode_allocator 0 800 41 88 nothing_met
        ≡ record { groups = []; faults = 41 ∷ [] } }
{}

/// A law: the free bits of a group are its clear ones, here 13 of 16.
pub fn free_bits_on_cases()
    ensures told { has_free_bits (small_at (λ b. desc_bytes (record (inode_desc 80 0) { free_bits_count = 13 }) 0x8003)) (inode_group 80) ≡ true }
    ensures not_told { has_free_bits (small_at (λ b. desc_bytes (inode_desc 80 0) 0x8003)) (inode_group 80) ≡ false }
{}

/// A law: a group tells its own block, and has bytes for its bits. The first group of a large volume is full, and the last one has the rest.
pub fn sizes_of_groups()
    ensures another_block { is_good_group (with_desc 8 (record bitmap_desc { blkno = 16 })) bitmap [] 8 ≡ false }
    ensures bytes { is_good_group (with_desc 80 (record (inode_desc 80 0) { size = 2 })) inode_allocator [] 80 ≡ true }
    ensures few_bytes { is_good_group (with_desc 80 (record (inode_desc 80 0) { size = 1 })) inode_allocator [] 80 ≡ false }
    ensures no_bits { is_good_group (with_desc 80 (record (inode_desc 80 0) { bits = 0 })) inode_allocator [] 80 ≡ false }
    ensures full { is_good_group (with_large_desc 2048 (record bitmap_desc { bits = 3584; blkno = 2048 })) bitmap [] 2048 ≡ true }
    ensures over_full { is_good_group (with_large_desc 2048 (record bitmap_desc { bits = 5000; blkno = 2048 })) bitmap [] 2048 ≡ false }
    ensures rest { is_good_group (with_large_desc 7340032 (record bitmap_desc { bits = 1416; blkno = 7340032 })) bitmap [] 7340032 ≡ true }
    ensures more_than_rest { is_good_group (with_large_desc 7340032 (record bitmap_desc { bits = 1417; blkno = 7340032 })) bitmap [] 7340032 ≡ false }
{}

/// A law: a group of blocks has no cluster of a later group descriptor or of a backup. With a block in each cluster it has two bits or more,
/// and so have the groups that its allocator tells.
pub fn fixed_clusters_on_cases()
    ensures behind_backup { is_good_group (with_large_desc 2099200 (record bitmap_desc { bits = 2048; parent_dinode = 41; blkno = 2099200 })) inode_allocator [] 2099200 ≡ true }
    ensures on_backup { is_good_group (with_large_desc 2097152 (record bitmap_desc { bits = 2048; parent_dinode = 41; blkno = 2097152 })) inode_allocator [] 2097152 ≡ false }
    ensures on_descriptor { is_good_group (with_large_desc 7340032 (record bitmap_desc { bits = 2048; parent_dinode = 41; blkno = 7340032 })) inode_allocator [] 7340032 ≡ false }
    ensures two_bits { is_block_group (with_plain_desc 80 (record (inode_desc 80 0) { bits = 2 })) [] 80 ≡ true }
    ensures one_bit { is_block_group (with_plain_desc 80 (record (inode_desc 80 0) { bits = 1 })) [] 80 ≡ false }
    ensures two_blocks { is_sound_chain_size (with_plain_desc 80 (inode_desc 80 0)) Inodes (record { cpg = 2; bpc = 1; count = 1; next_free_rec = 0 }) ≡ true }
    ensures one_block { is_sound_chain_size (with_plain_desc 80 (inode_desc 80 0)) Inodes (record { cpg = 1; bpc = 1; count = 1; next_free_rec = 0 }) ≡ false }
{}
