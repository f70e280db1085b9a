// Which checks fail where one number is another one in the list of file 29, which stands in two leaf blocks or is two levels deep.
ghost use Rattle.std.specs.Prelude.{◌≡◌, [], ◌∷◌};
ghost use Rattle.o2_model.specs.declared.check.Check.TheVariants as check;
ghost use Rattle.o2_model.specs.Failing.{failing};
ghost use Rattle.o2_model.specs.Inodes.{extent_blocks_of, records_of};
ghost use Rattle.o2_cases_volumes.specs.SmallFiles.{leaf_at, record_of};
ghost use Rattle.o2_cases_volumes.specs.WholeVolume.{volume_with, with_number_at};
ghost use Rattle.o2_cases_volumes.specs.OtherVolumes.{changed, deep_blocks, extent_block_at, in_place_of, two_leaf_blocks};

/// A law: the records are those of the leaf blocks, in order.
pub fn records_of_trees()
    ensures two_leaves { records_of (volume_with two_leaf_blocks) 29 ≡ leaf_at 0 1 0 80 ∷ leaf_at 2 1 0 104 ∷ [] }
    ensures leaf_blocks { extent_blocks_of (volume_with two_leaf_blocks) 29 ≡ 41 ∷ 44 ∷ [] }
    ensures deep { records_of (volume_with deep_blocks) 29 ≡ leaf_at 0 1 0 80 ∷ leaf_at 2 1 0 104 ∷ [] }
    ensures inner_block { extent_blocks_of (volume_with deep_blocks) 29 ≡ 44 ∷ 41 ∷ [] }
{}

/// A law: an inner list rises and names blocks of the volume, each once. Of one that does not the records before the bad one count.
pub fn wrong_inner_records()
    ensures sound { failing (volume_with two_leaf_blocks) ≡ [] }
    ensures same_block { failing (changed two_leaf_blocks 29 0xe8 8 41)
        ≡ (check.Extent, 29) ∷ (check.EbNext, 41) ∷ (check.LastEb, 29) ∷ (check.InodeClusters, 29) ∷ (check.BlockAllocBit, 40) ∷ (check.ClusterAllocBit, 8) ∷ [] }
    ensures same_cluster { failing (changed two_leaf_blocks 29 0xe0 4 0)
        ≡ (check.Extent, 29) ∷ (check.EbNext, 41) ∷ (check.LastEb, 29) ∷ (check.InodeClusters, 29) ∷ (check.BlockAllocBit, 40) ∷ (check.ClusterAllocBit, 8) ∷ [] }
    ensures block_0 { failing (changed (with_number_at 0 0x18 8 0 (in_place_of 0 (extent_block_at 4 0 0 (record_of 2 1 0 104)) two_leaf_blocks)) 29 0xe8 8 0)
        ≡ (check.Extent, 29) ∷ (check.EbNext, 41) ∷ (check.LastEb, 29) ∷ (check.InodeClusters, 29) ∷ (check.BlockAllocBit, 40) ∷ (check.ClusterAllocBit, 8) ∷ [] }
{}

/// A law: leaf records rise over the whole tree, and the list of the later one is told. A list whose head is wrong has no records, and those
/// behind it are read.
pub fn wrong_leaf_blocks()
    ensures overlap { failing (changed two_leaf_blocks 44 0x40 4 0) ≡ (check.Extent, 44) ∷ (check.InodeClusters, 29) ∷ (check.ClusterAllocBit, 8) ∷ [] }
    ensures head { failing (changed two_leaf_blocks 41 0x32 2 29) ≡ (check.Extent, 41) ∷ (check.InodeClusters, 29) ∷ (check.ClusterAllocBit, 8) ∷ [] }
    ensures read_behind { records_of (changed two_leaf_blocks 41 0x32 2 29) 29 ≡ leaf_at 2 1 0 104 ∷ [] }
    ensures no_next { failing (changed two_leaf_blocks 41 0x28 8 0) ≡ (check.EbNext, 41) ∷ [] }
    ensures next_of_last { failing (changed two_leaf_blocks 44 0x28 8 41) ≡ (check.EbNext, 44) ∷ [] }
    ensures last { failing (changed two_leaf_blocks 29 0x58 8 41) ≡ (check.LastEb, 29) ∷ [] }
    ensures bit { failing (changed two_leaf_blocks 44 0x12 2 5) ≡ (check.MetaSuballoc, 44) ∷ [] }
    ensures group { failing (changed two_leaf_blocks 44 0x20 8 16) ≡ (check.MetaSuballoc, 44) ∷ [] }
{}

/// A law: a block above the leaves has the depth that its place tells, and names no next one.
pub fn wrong_deep_trees()
    ensures sound { failing (volume_with deep_blocks) ≡ [] }
    ensures next { failing (changed deep_blocks 44 0x28 8 41) ≡ [] }
    ensures depth { failing (changed deep_blocks 29 0xc0 2 1) ≡ (check.Extent, 29) ∷ (check.LastEb, 29) ∷ (check.InodeClusters, 29) ∷ (check.BlockAllocBit, 40) ∷ (check.ClusterAllocBit, 8) ∷ [] }
    ensures no_extent_block { failing (changed deep_blocks 44 0x48 8 42)
        ≡ (check.Extent, 44) ∷ (check.LastEb, 29) ∷ (check.InodeClusters, 29) ∷ (check.BlockAllocBit, 40) ∷ (check.ClusterAllocBit, 8) ∷ [] }
    ensures same_block { failing (changed deep_blocks 44 0x48 8 44)
        ≡ (check.Extent, 44) ∷ (check.LastEb, 29) ∷ (check.InodeClusters, 29) ∷ (check.BlockAllocBit, 40) ∷ (check.ClusterAllocBit, 8) ∷ [] }
{}

/// A law: an extent block in a cluster of no allocator is told, and of its slot and bit nothing is asked.
pub fn blocks_off_their_groups()
    ensures in_free_cluster { failing (changed (in_place_of 120 (extent_block_at 80 0 0 (record_of 2 1 0 104)) two_leaf_blocks) 29 0xe8 8 120)
        ≡ (check.MetaBlock, 120) ∷ (check.EbNext, 41) ∷ (check.LastEb, 29) ∷ (check.BlockAllocBit, 40) ∷ [] }
{}
