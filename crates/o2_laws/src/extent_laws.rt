// Laws of extents, each the contract of a function that does nothing.
ghost use Rattle.std.specs.Prelude.{◌≡◌, ◌<◌, ◌≤◌, ◌+◌, ◌∷◌, [], ℕ, List, length, true};
ghost use Rattle.o2_ondisk.specs.Dinodes.{last_part_place};
ghost use Rattle.o2_model.specs.Volume.{Volume, blocks, over};
ghost use Rattle.o2_laws.specs.Frames.{SameOn};
ghost use Rattle.o2_model.specs.Extents.{extent_list, leaves_below};
ghost use Rattle.o2_model.specs.Inodes.{extents, has_list, leaf_records};

/// A law: where EXTENT holds, the leaf records are those that the depth alone tells, however they are judged.
pub fn leaf_records_are_those_below()
    ensures { (v : Volume) (b : ℕ) → has_list v b ≡ true → (extents v b).faults ≡ []
        → leaf_records v b ≡ leaves_below v (extent_list last_part_place (v.at b)).header.tree_depth (extent_list last_part_place (v.at b)).records }
{}

/// A law: where EXTENT holds, an inode's extents depend on its dinode and on the extent blocks, and on no other block.
pub fn other_blocks_keep_extents()
    ensures { (v : Volume) (at : ℕ → List ℕ) (b : ℕ) → SameOn (b ∷ (extents v b).seen) v at → (extents v b).faults ≡ [] → extents (over v at) b ≡ extents v b }
{}

/// A law: no block of a tree is looked at twice, so that the dinode and these blocks are no more than the volume's.
pub fn few_blocks_are_looked_at()
    ensures { (v : Volume) (b : ℕ) → 0 < blocks v → length (extents v b).seen + 1 ≤ blocks v }
{}
