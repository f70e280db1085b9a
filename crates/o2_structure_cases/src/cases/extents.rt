// Extents on single cases.
ghost use Rattle.std.specs.Prelude.{◌≡◌, [], ◌∷◌, true, false};
ghost use Rattle.o2_model.specs.Extents.{is_sound_header, is_sound_leaf, leaf_clusters, leaf_flags};
ghost use Rattle.o2_model.specs.Inodes.{leaf_records};
ghost use Rattle.o2_model.specs.Checks.Extent.{extent_faults};
ghost use Rattle.o2_model.specs.Contents.{byte_in_block};
ghost use Rattle.o2_cases_volumes.specs.SmallVolumes.{small};
ghost use Rattle.o2_cases_volumes.specs.SmallFiles.{file_of, leaf_at, leaves_with_hole, overlapping_records, records_with_hole};

/// A law: of the four bytes behind e_cpos a leaf record has its clusters in the first two, and its flags in the last.
pub fn sizes_of_records()
    ensures clusters { leaf_clusters (record { cpos = 0; size = record { 0 = 0x0301_8001 }; blkno = 0 }) ≡ 0x8001 }
    ensures flags { leaf_flags (record { cpos = 0; size = record { 0 = 0x8301_8001 }; blkno = 0 }) ≡ 0x83 }
{}

/// A law: the head of a list fits the room for its records, and the tree is at most 5 deep.
pub fn headers_on_cases()
    ensures full { is_sound_header 19 (record { tree_depth = 5; count = 19; next_free_rec = 19 }) ≡ true }
    ensures large_count { is_sound_header 19 (record { tree_depth = 0; count = 20; next_free_rec = 1 }) ≡ false }
    ensures large_use { is_sound_header 19 (record { tree_depth = 0; count = 3; next_free_rec = 4 }) ≡ false }
    ensures deep { is_sound_header 19 (record { tree_depth = 6; count = 19; next_free_rec = 1 }) ≡ false }
{}

/// A law: a leaf record behind those that end at cluster 4 begins there or later, ends below 2^32, has whole clusters of the
/// volume, and has the flags that it may have.
pub fn leaves_on_cases()
    ensures next { is_sound_leaf small 3 4 (leaf_at 4 2 0 24) ≡ true }
    ensures behind_gap { is_sound_leaf small 3 4 (leaf_at 9 2 3 24) ≡ true }
    ensures overlapping { is_sound_leaf small 3 4 (leaf_at 3 2 0 24) ≡ false }
    ensures last { is_sound_leaf small 3 4 (leaf_at 4294967293 2 0 24) ≡ true }
    ensures far { is_sound_leaf small 3 4 (leaf_at 4294967294 2 0 24) ≡ false }
    ensures within_cluster { is_sound_leaf small 3 4 (leaf_at 4 2 0 25) ≡ false }
    ensures first_cluster { is_sound_leaf small 3 4 (leaf_at 4 2 0 0) ≡ false }
    ensures behind_volume { is_sound_leaf small 3 4 (leaf_at 4 2 0 792) ≡ false }
    ensures shared_directory { is_sound_leaf small 1 4 (leaf_at 4 2 2 24) ≡ false }
{}

/// A law: the leaf records of a file are those with clusters, in order, and nothing is wrong with them.
pub fn leaf_records_on_cases()
    ensures records { leaf_records (file_of records_with_hole) 40 ≡ leaf_at 0 1 0 16 ∷ leaf_at 1 2 1 24 ∷ leaf_at 5 1 0 48 ∷ [] }
    ensures sound { extent_faults (file_of records_with_hole) 40 ≡ [] }
{}

/// A law: a file whose second record overlaps its first has what stands before it, and is told as wrong.
pub fn overlapping_records_on_cases()
    ensures records { leaf_records (file_of overlapping_records) 40 ≡ leaf_at 0 2 0 16 ∷ [] }
    ensures wrong { extent_faults (file_of overlapping_records) 40 ≡ 40 ∷ [] }
{}

/// A law: a byte of a file is that of the volume's block under its record, and 0 where the record is marked as unwritten or
/// where there is none. Each block of this volume begins with a byte that is its number.
pub fn bytes_on_cases()
    ensures first { byte_in_block small leaves_with_hole 0 0 ≡ 16 }
    ensures written { byte_in_block small leaves_with_hole 7 0 ≡ 23 }
    ensures unwritten { byte_in_block small leaves_with_hole 8 0 ≡ 0 }
    ensures hole { byte_in_block small leaves_with_hole 24 0 ≡ 0 }
    ensures behind_hole { byte_in_block small leaves_with_hole 41 0 ≡ 49 }
    ensures behind_end { byte_in_block small leaves_with_hole 48 0 ≡ 0 }
{}
