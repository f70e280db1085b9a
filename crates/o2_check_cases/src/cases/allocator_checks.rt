// Which checks of allocators fail where one number of the whole volume is another one. The fields' places are in docs/FORMAT.md.
ghost use Rattle.std.specs.Prelude.{◌≡◌, [], ◌∷◌};
ghost use Rattle.o2_model.specs.declared.check.Check.TheVariants as check;
ghost use Rattle.o2_model.specs.Failing.{failing};
ghost use Rattle.o2_model.specs.Checks.AllocTotals.{alloc_totals_faults};
ghost use Rattle.o2_model.specs.Checks.ClusterAllocBit.{cluster_of_bit};
ghost use Rattle.o2_cases_volumes.specs.SmallGroups.{bitmap};
ghost use Rattle.o2_cases_volumes.specs.SmallVolumes.{large};
ghost use Rattle.o2_cases_volumes.specs.WholeVolume.{volume_with, whole_block, with_number, with_number_at};
ghost use Rattle.o2_cases_volumes.specs.OtherVolumes.{changed, large_total_blocks, two_chain_blocks};

/// A law: a chain that comes back to its group is told at the link. A group that no chain reaches is told at its place, and its chain
/// then has other sums.
pub fn broken_chains()
    ensures link_back { failing (with_number 8 0x18 8 8) ≡ (check.ChainLink, 8) ∷ [] }
    ensures no_group { failing (with_number 8 0x18 8 64) ≡ (check.ChainLink, 8) ∷ [] }
    ensures no_head { failing (with_number 19 0xd8 8 0) ≡ (check.GroupMissing, 8) ∷ (check.ChainBits, 19) ∷ [] }
    ensures chain_number { failing (with_number 16 0xe 2 1) ≡ (check.GroupChain, 16) ∷ [] }
{}

/// A law: a set bit stands for an inode, a block in use or a claimed cluster, and a clear one for none; and the clear ones are counted.
pub fn wrong_bits()
    ensures no_inode { failing (with_number 16 0x42 1 0x07) ≡ (check.InodeAllocBit, 16) ∷ (check.GroupFreeBits, 16) ∷ [] }
    ensures descriptor_free { failing (with_number 16 0x40 1 0xfe) ≡ (check.InodeAllocBit, 16) ∷ (check.GroupFreeBits, 16) ∷ [] }
    ensures no_block { failing (with_number 40 0x40 1 0x1f) ≡ (check.BlockAllocBit, 40) ∷ (check.GroupFreeBits, 40) ∷ [] }
    ensures block_free { failing (with_number 40 0x40 1 0x0d) ≡ (check.BlockAllocBit, 40) ∷ (check.GroupFreeBits, 40) ∷ [] }
    ensures no_claim { failing (with_number 8 0x41 1 0xff) ≡ (check.ClusterAllocBit, 8) ∷ (check.GroupFreeBits, 8) ∷ [] }
    ensures claim_free { failing (with_number 8 0x41 1 0x3f) ≡ (check.ClusterAllocBit, 8) ∷ (check.GroupFreeBits, 8) ∷ [] }
{}

/// A law: the free bits that a group tells are its own and its chain's, the sums that a chain tells are its allocator's.
pub fn wrong_counts()
    ensures group { failing (with_number 8 0xc 2 2) ≡ (check.GroupFreeBits, 8) ∷ (check.ChainBits, 19) ∷ [] }
    ensures chain { failing (with_number 19 0xd0 4 2) ≡ (check.ChainBits, 19) ∷ (check.AllocTotals, 19) ∷ [] }
    ensures used { failing (with_number 19 0xb8 4 14) ≡ (check.AllocTotals, 19) ∷ [] }
    ensures total { failing (with_number 23 0xbc 4 9) ≡ (check.AllocTotals, 23) ∷ [] }
{}

/// A law: an inode and an extent block tell the bit that they stand on.
pub fn wrong_origins()
    ensures inode_bit { failing (with_number 29 0xe 2 12) ≡ (check.InodeSuballoc, 29) ∷ [] }
    ensures inode_slot { failing (with_number 29 0xc 2 0) ≡ (check.InodeSuballoc, 29) ∷ [] }
    ensures inode_group { failing (with_number 29 0x98 8 16) ≡ [] }
    ensures another_group { failing (with_number 29 0x98 8 40) ≡ (check.InodeSuballoc, 29) ∷ [] }
    ensures extent_block { failing (with_number 41 0x12 2 2) ≡ (check.MetaSuballoc, 41) ∷ [] }
    ensures refcount_block { failing (with_number 42 0x8 2 1) ≡ (check.MetaSuballoc, 42) ∷ [] }
{}

/// A law: a window tells how many of its clusters are in use, and a truncate record names free clusters. Where they do not hold, the
/// clusters have no claim.
pub fn wrong_slot_parts()
    ensures dirty { failing (with_number 25 0xb8 4 1) ≡ (check.JournalDirty, 25) ∷ [] }
    ensures window { failing (with_number 26 0xb8 4 2) ≡ (check.LocalAlloc, 26) ∷ (check.ClusterAllocBit, 8) ∷ [] }
    ensures window_over_file { failing (with_number 26 0xc0 4 12) ≡ (check.LocalAlloc, 26) ∷ (check.ClusterAllocBit, 8) ∷ [] }
    ensures window_over_record { failing (with_number 26 0xc0 4 11) ≡ (check.TruncateLog, 27) ∷ (check.ClusterAllocBit, 8) ∷ [] }
    ensures record_claimed { failing (with_number 27 0xc8 4 10) ≡ (check.TruncateLog, 27) ∷ (check.ClusterAllocBit, 8) ∷ [] }
    ensures void_record { failing (with_number 27 0xc8 4 0) ≡ (check.ClusterAllocBit, 8) ∷ [] }
{}

/// A law: bits up to the last one of a group are looked at, and none behind it.
pub fn last_bits()
    ensures last_inode { failing (with_number 16 0x42 1 0x83) ≡ (check.InodeAllocBit, 16) ∷ (check.GroupFreeBits, 16) ∷ [] }
    ensures behind_inodes { failing (with_number 16 0x43 1 1) ≡ [] }
    ensures last_block { failing (with_number 40 0x40 1 0x8f) ≡ (check.BlockAllocBit, 40) ∷ (check.GroupFreeBits, 40) ∷ [] }
    ensures behind_blocks { failing (with_number 40 0x41 1 1) ≡ [] }
    ensures descriptor_free { failing (with_number 40 0x40 1 0x0e) ≡ (check.BlockAllocBit, 40) ∷ (check.GroupFreeBits, 40) ∷ [] }
    ensures behind_clusters { failing (with_number 8 0x42 1 1) ≡ [] }
{}

/// A law: an allocator may have two chains. Each has its number, and the sums of its own groups.
pub fn two_chains()
    ensures sound { failing (volume_with two_chain_blocks) ≡ [] }
    ensures number { failing (changed two_chain_blocks 120 0xe 2 0) ≡ (check.GroupChain, 120) ∷ [] }
    ensures free { failing (changed two_chain_blocks 20 0xe0 4 8) ≡ (check.ChainBits, 20) ∷ (check.AllocTotals, 20) ∷ [] }
    ensures total { failing (with_number 19 0xd4 4 17) ≡ (check.ChainBits, 19) ∷ (check.AllocTotals, 19) ∷ [] }
    ensures no_second { failing (changed two_chain_blocks 20 0xe8 8 0)
        ≡ (check.InodeClusters, 20) ∷ (check.ClusterAllocBit, 8) ∷ (check.ChainBits, 20) ∷ [] }
    ensures bad_first { failing (changed two_chain_blocks 20 0xd8 8 40) ≡ (check.Sysfile, 17) ∷ [] }
    ensures first_bit { failing (changed two_chain_blocks 120 0x40 1 0x03) ≡ (check.InodeAllocBit, 120) ∷ (check.GroupFreeBits, 120) ∷ [] }
    ensures bad_second { failing (changed two_chain_blocks 20 0xe8 8 16)
        ≡ (check.ChainLink, 20) ∷ (check.InodeClusters, 20) ∷ (check.ClusterAllocBit, 8) ∷ (check.ChainBits, 20) ∷ [] }
{}

/// A law: a truncate log has no more records than room, and each record is judged by itself, behind those before it.
pub fn wrong_truncate_logs()
    ensures header { failing (with_number 27 0xc0 2 0) ≡ (check.TruncateLog, 27) ∷ (check.ClusterAllocBit, 8) ∷ [] }
    ensures room { failing (with_number 27 0xc0 2 40) ≡ (check.TruncateLog, 27) ∷ (check.ClusterAllocBit, 8) ∷ [] }
    ensures again { failing (volume_with (with_number_at 27 0xc2 2 2 (with_number_at 27 0xd0 8 0x1_0000_000c whole_block))) ≡ (check.TruncateLog, 27) ∷ [] }
    ensures behind_bad_one { failing (volume_with (with_number_at 27 0xc2 2 2 (with_number_at 27 0xc8 4 10 (with_number_at 27 0xd0 8 0x1_0000_000c whole_block)))) ≡ (check.TruncateLog, 27) ∷ [] }
    ensures void_and_good { failing (volume_with (with_number_at 27 0xc2 2 2 (with_number_at 27 0xc8 4 0 (with_number_at 27 0xd0 8 0x1_0000_000c whole_block)))) ≡ [] }
    ensures not_used { failing (with_number 27 0xd0 8 0x1_0000_000a) ≡ [] }
{}

/// A law: of a local alloc without a window only the size of the bitmap is asked, and of a window's clear bits that nobody claims them.
pub fn wrong_windows()
    ensures large { failing (with_number 26 0xc4 2 305) ≡ (check.LocalAlloc, 26) ∷ (check.ClusterAllocBit, 8) ∷ [] }
    ensures no_window { failing (volume_with (with_number_at 26 0xb8 8 9 whole_block)) ≡ (check.ClusterAllocBit, 8) ∷ [] }
    ensures large_without_window { failing (volume_with (with_number_at 26 0xb8 8 0 (with_number_at 26 0xc4 2 305 whole_block))) ≡ (check.LocalAlloc, 26) ∷ (check.ClusterAllocBit, 8) ∷ [] }
    ensures behind_window { failing (with_number 26 0xd0 1 5) ≡ [] }
{}

/// A law: a chain that leads to a group of another allocator has none. The blocks of the groups that it had are then on no bits, and of
/// their slots and bits nothing is asked.
pub fn lost_groups()
    ensures of_extent_blocks { failing (with_number 23 0xd8 8 16)
        ≡ (check.ChainLink, 23) ∷ (check.MetaBlock, 41) ∷ (check.MetaBlock, 42) ∷ (check.Dx, 28) ∷ (check.InodeClusters, 23) ∷ (check.ClusterAllocBit, 8) ∷ (check.ChainBits, 23) ∷ [] }
    ensures next { failing (with_number 16 0x18 8 48) ≡ (check.ChainLink, 16) ∷ [] }
    ensures next_of_blocks { failing (with_number 40 0x18 8 16) ≡ (check.ChainLink, 40) ∷ [] }
{}

/// A law: the sums over the chains are told modulo 2^32, whatever the chains tell. Chains may tell more clear bits than bits.
pub fn large_totals()
    ensures large { alloc_totals_faults (volume_with large_total_blocks) ≡ [] }
    ensures used { alloc_totals_faults (changed large_total_blocks 20 0xb8 4 2) ≡ 20 ∷ [] }
    ensures total { alloc_totals_faults (changed large_total_blocks 20 0xbc 4 1) ≡ 20 ∷ [] }
{}

/// A law: bit k of a group of the global bitmap stands for the k-th cluster of the group, here of groups of 3584.
pub fn clusters_of_bits()
    ensures first { cluster_of_bit (large 2048) (record { of = bitmap; chain = 0; block = 2048; bits = 3584 }) 5 ≡ 5 }
    ensures second { cluster_of_bit (large 2048) (record { of = bitmap; chain = 0; block = 7340032; bits = 1416 }) 5 ≡ 3589 }
{}
