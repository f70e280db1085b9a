// Which checks of inodes fail where one number of the whole volume is another one. The fields' places are in docs/FORMAT.md.
ghost use Rattle.std.specs.Prelude.{◌≡◌, [], ◌∷◌};
ghost use Rattle.o2_model.specs.declared.check.Check.TheVariants as check;
ghost use Rattle.o2_model.specs.Failing.{failing};
ghost use Rattle.o2_cases_volumes.specs.WholeVolume.{volume_with, whole_block, with_number, with_number_at};
ghost use Rattle.o2_cases_volumes.specs.OtherVolumes.{changed, long_link_blocks, two_directory_blocks};

/// A law: an inode has one of the seven kinds, and its entries tell which.
pub fn wrong_kinds()
    ensures none { failing (with_number 29 0x28 2 0) ≡ (check.InodeKind, 29) ∷ (check.DirentType, 18) ∷ (check.DirentType, 72) ∷ [] }
    ensures another { failing (with_number 29 0x28 2 0o10644)
        ≡ (check.DirentType, 18) ∷ (check.DirentType, 72) ∷ (check.InodeClusters, 29) ∷ (check.BlockAllocBit, 40) ∷ (check.ClusterAllocBit, 8) ∷ [] }
{}

/// A law: of a list that is not well formed the records before the first bad one count. What they do not map is claimed by nobody.
pub fn wrong_extents()
    ensures overlap { failing (with_number 41 0x50 4 0) ≡ (check.Extent, 41) ∷ (check.InodeClusters, 29) ∷ (check.ClusterAllocBit, 8) ∷ [] }
    ensures flags { failing (with_number 28 0xd7 1 2) ≡ (check.Extent, 28) ∷ (check.InodeSize, 28) ∷ (check.Dx, 28) ∷ (check.InodeClusters, 28)
        ∷ (check.InodeCount, 18) ∷ (check.InodeCount, 28) ∷ (check.InodeCount, 29) ∷ (check.BlockAllocBit, 40) ∷ (check.ClusterAllocBit, 8) ∷ [] }
    ensures no_extent_block { failing (with_number 41 0x0 8 0) ≡ (check.Extent, 29) ∷ (check.LastEb, 29) ∷ (check.InodeClusters, 29)
        ∷ (check.BlockAllocBit, 40) ∷ (check.ClusterAllocBit, 8) ∷ [] }
    ensures head { failing (with_number 41 0x32 2 29) ≡ (check.Extent, 41) ∷ (check.InodeClusters, 29) ∷ (check.ClusterAllocBit, 8) ∷ [] }
{}

/// A law: leaves name one another in order, and the list's owner the last.
pub fn wrong_leaf_links()
    ensures next { failing (with_number 41 0x28 8 42) ≡ (check.EbNext, 41) ∷ [] }
    ensures last { failing (with_number 29 0x58 8 0) ≡ (check.LastEb, 29) ∷ [] }
    ensures none { failing (with_number 30 0x58 8 41) ≡ (check.LastEb, 30) ∷ [] }
    ensures no_list { failing (with_number 18 0x58 8 41) ≡ [] }
{}

/// A law: a link has a text, a directory whole blocks, all mapped, and inline data fits its room; a file may end where it will.
pub fn wrong_sizes()
    ensures empty_link { failing (with_number 33 0x20 8 0) ≡ (check.InodeSize, 33) ∷ [] }
    ensures part_of_block { failing (with_number 28 0x20 8 513) ≡ (check.InodeSize, 28) ∷ [] }
    ensures inline_room { failing (with_number 18 0xc0 2 313) ≡ (check.InodeSize, 18) ∷ [] }
    ensures behind_room { failing (with_number 18 0xc2 1 1) ≡ [] }
    ensures long_file { failing (with_number 29 0x20 8 1000000) ≡ [] }
{}

/// A law: an inode tells the clusters of its records, a cluster has one owner, and an allocator tells the clusters of its groups.
pub fn wrong_clusters()
    ensures count { failing (with_number 29 0x14 4 3) ≡ (check.InodeClusters, 29) ∷ [] }
    ensures of_groups { failing (with_number 20 0x14 4 2) ≡ (check.InodeClusters, 20) ∷ [] }
    ensures of_bitmap { failing (with_number 19 0x14 4 15) ≡ (check.InodeClusters, 19) ∷ [] }
    ensures second_owner { failing (with_number 32 0xd8 8 80) ≡ (check.DupClusters, 29) ∷ (check.DupClusters, 32) ∷ (check.ClusterAllocBit, 8) ∷ [] }
    ensures on_structure { failing (with_number 32 0xd8 8 16) ≡ (check.DupClusters, 32) ∷ (check.ClusterAllocBit, 8) ∷ [] }
{}

/// A law: devices and sockets have no data, as a fifo has none.
pub fn kinds_without_data()
    ensures character { failing (with_number 29 0x28 2 0o20644)
        ≡ (check.DirentType, 18) ∷ (check.DirentType, 72) ∷ (check.InodeClusters, 29) ∷ (check.BlockAllocBit, 40) ∷ (check.ClusterAllocBit, 8) ∷ [] }
    ensures block { failing (with_number 29 0x28 2 0o60644)
        ≡ (check.DirentType, 18) ∷ (check.DirentType, 72) ∷ (check.InodeClusters, 29) ∷ (check.BlockAllocBit, 40) ∷ (check.ClusterAllocBit, 8) ∷ [] }
    ensures socket { failing (with_number 29 0x28 2 0o140644)
        ≡ (check.DirentType, 18) ∷ (check.DirentType, 72) ∷ (check.InodeClusters, 29) ∷ (check.BlockAllocBit, 40) ∷ (check.ClusterAllocBit, 8) ∷ [] }
{}

/// A law: an extent block tells its own number, this volume and its depth. A dinode has room for 19 records, and its leaf records have two
/// flags at most; those of a directory may be marked as unwritten, and then it has no blocks.
pub fn wrong_lists()
    ensures block_number { failing (with_number 41 0x18 8 42) ≡ (check.Extent, 29) ∷ (check.LastEb, 29) ∷ (check.InodeClusters, 29) ∷ (check.BlockAllocBit, 40) ∷ (check.ClusterAllocBit, 8) ∷ [] }
    ensures generation { failing (with_number 41 0x14 4 6) ≡ (check.Extent, 29) ∷ (check.LastEb, 29) ∷ (check.InodeClusters, 29) ∷ (check.BlockAllocBit, 40) ∷ (check.ClusterAllocBit, 8) ∷ [] }
    ensures depth { failing (with_number 41 0x30 2 1) ≡ (check.Extent, 29) ∷ (check.LastEb, 29) ∷ (check.InodeClusters, 29) ∷ (check.BlockAllocBit, 40) ∷ (check.ClusterAllocBit, 8) ∷ [] }
    ensures room { failing (with_number 29 0xc2 2 20) ≡ (check.Extent, 29) ∷ (check.LastEb, 29) ∷ (check.InodeClusters, 29) ∷ (check.BlockAllocBit, 40) ∷ (check.ClusterAllocBit, 8) ∷ [] }
    ensures flags { failing (with_number 32 0xd7 1 4) ≡ (check.Extent, 32) ∷ (check.InodeClusters, 32) ∷ (check.ClusterAllocBit, 8) ∷ [] }
    ensures not_written { failing (with_number 32 0xd7 1 1) ≡ [] }
    ensures directory_not_written { failing (with_number 28 0xd7 1 1)
        ≡ (check.InodeSize, 28) ∷ (check.Dx, 28) ∷ (check.InodeCount, 18) ∷ (check.InodeCount, 28) ∷ (check.InodeCount, 29) ∷ (check.BlockAllocBit, 40) ∷ [] }
{}

/// A law: a directory has a block at least, and all its blocks are mapped. Inline data fits its room, and gives no entries where it is longer
/// than the dinode.
pub fn wrong_sizes_of_directories()
    ensures empty { failing (with_number 28 0x20 8 0)
        ≡ (check.InodeSize, 28) ∷ (check.Dx, 28) ∷ (check.InodeCount, 18) ∷ (check.InodeCount, 28) ∷ (check.InodeCount, 29) ∷ (check.BlockAllocBit, 40) ∷ [] }
    ensures not_mapped { failing (with_number 28 0x20 8 8192)
        ≡ (check.InodeSize, 28) ∷ (check.DirBlock, 73) ∷ (check.DirBlock, 74) ∷ (check.DirBlock, 75) ∷ (check.DirBlock, 76) ∷ (check.DirBlock, 77)
        ∷ (check.DirBlock, 78) ∷ (check.DirBlock, 79) ∷ (check.Dx, 28) ∷ (check.BlockAllocBit, 40) ∷ [] }
    ensures small_room { failing (with_number 18 0xc0 2 111) ≡ (check.InodeSize, 18) ∷ [] }
    ensures behind_small_room { failing (volume_with (with_number_at 18 0xc0 2 111 (with_number_at 18 0xc2 1 1 whole_block))) ≡ (check.InodeSize, 18) ∷ [] }
    ensures behind_dinode { failing (volume_with (with_number_at 18 0x20 8 320 (with_number_at 18 304 2 216 whole_block)))
        ≡ (check.InodeSize, 18) ∷ (check.DirBlock, 18) ∷ (check.NotConnected, 28) ∷ (check.NotConnected, 29) ∷ (check.NotConnected, 30)
        ∷ (check.NotConnected, 31) ∷ (check.NotConnected, 33) ∷ (check.InodeCount, 18) ∷ [] }
    ensures two_blocks { failing (volume_with two_directory_blocks) ≡ [] }
    ensures and_a_byte { failing (changed two_directory_blocks 28 0x20 8 1025) ≡ (check.InodeSize, 28) ∷ [] }
{}

/// A law: the text of a link fits its dinode, with a NUL behind it, or has a first cluster. A file ends within 2^32 clusters, but one of the
/// volume's own is not asked.
pub fn wrong_sizes_of_files()
    ensures long_text { failing (with_number 33 0x20 8 319) ≡ [] }
    ensures longer_text { failing (with_number 33 0x20 8 320) ≡ (check.InodeSize, 33) ∷ [] }
    ensures in_cluster { failing (volume_with long_link_blocks) ≡ [] }
    ensures without_first { failing (changed long_link_blocks 33 0xd0 4 1) ≡ (check.InodeSize, 33) ∷ [] }
    ensures no_cluster { failing (with_number 33 0x14 4 1) ≡ (check.Extent, 33) ∷ (check.InodeSize, 33) ∷ (check.InodeClusters, 33) ∷ [] }
    ensures longest { failing (with_number 29 0x20 8 0x1000_0000_0000) ≡ [] }
    ensures longer { failing (with_number 29 0x20 8 0x1000_0000_0001) ≡ (check.InodeSize, 29) ∷ [] }
    ensures own { failing (with_number 21 0x20 8 0x1000_0000_0001) ≡ [] }
{}

/// A law: what has no list has no clusters, but for a local alloc and a truncate log, which are not asked.
pub fn clusters_without_list()
    ensures inline { failing (with_number 18 0x14 4 1) ≡ (check.InodeClusters, 18) ∷ [] }
    ensures no_groups { failing (with_number 24 0x14 4 1) ≡ (check.InodeClusters, 24) ∷ [] }
    ensures local_alloc { failing (with_number 26 0x14 4 9) ≡ [] }
    ensures truncate_log { failing (with_number 27 0x14 4 9) ≡ [] }
{}
