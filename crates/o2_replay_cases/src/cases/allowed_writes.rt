// Which bytes of an anchor a log may write, on single cases. The fields' places are in docs/FORMAT.md.
ghost use Rattle.std.specs.Prelude.{◌≡◌, [], ◌∷◌, Some, None};
ghost use Rattle.o2_ondisk.specs.Fields.{put_at};
ghost use Rattle.o2_model.specs.Anchors.{anchors_of, log_fault};
ghost use Rattle.o2_cases_volumes.specs.DirtyVolume.{journal_dinode, logging, logging_block, logging_both, logging_slots, logging_with, naming_second, of_two_slots, second_journal_in_cluster, slot_comes};
ghost use Rattle.o2_cases_volumes.specs.OtherVolumes.{directory_blocks, extent_block_at, in_place_of};
ghost use Rattle.o2_cases_volumes.specs.SmallFiles.{record_of};
ghost use Rattle.o2_cases_volumes.specs.WholeVolume.{volume_with, whole_block, whole_super, with_number_at};

/// A law: of block 2 the four bytes of i_clusters, the two of s_max_slots and the 64 of s_label may change, and those beside them not.
pub fn bytes_of_the_superblock()
    ensures clusters { log_fault (logging 2 (put_at 0x14 4 0x0102_0304 whole_super)) ≡ None }
    ensures before_clusters { log_fault (logging 2 (put_at 0x13 1 1 whole_super)) ≡ Some (0, 2) }
    ensures behind_clusters { log_fault (logging 2 (put_at 0x18 1 1 whole_super)) ≡ Some (0, 2) }
    ensures many_slots { log_fault (logging 2 (put_at 0x100 2 0x102 whole_super)) ≡ None }
    ensures before_slots { log_fault (logging 2 (put_at 0xff 1 1 whole_super)) ≡ Some (0, 2) }
    ensures behind_slots { log_fault (logging 2 (put_at 0x102 1 1 whole_super)) ≡ Some (0, 2) }
    ensures before_label { log_fault (logging 2 (put_at 0x10f 1 1 whole_super)) ≡ Some (0, 2) }
    ensures end_of_label { log_fault (logging 2 (put_at 0x14f 1 0x76 whole_super)) ≡ None }
    ensures behind_label { log_fault (logging 2 (put_at 0x150 1 1 whole_super)) ≡ Some (0, 2) }
    ensures label_goes { log_fault (logging_with 2 whole_super 2 0x110 2 0x6261) ≡ None }
    ensures another_block { log_fault (logging 17 whole_super) ≡ Some (0, 17) }
{}

/// A law: a slot that comes is clean by the names of either system directory, on the journal's dinode as it stands and as the log leaves it.
/// What is no journal is not dirty.
pub fn slots_that_come()
    ensures clean { log_fault (slot_comes (naming_second whole_block) 0 (naming_second whole_block) 0) ≡ None }
    ensures dirty_before { log_fault (slot_comes (naming_second whole_block) 1 whole_block 0) ≡ Some (0, 2) }
    ensures dirty_behind { log_fault (slot_comes (naming_second whole_block) 0 whole_block 1) ≡ Some (0, 2) }
    ensures named_behind { log_fault (slot_comes whole_block 1 (naming_second whole_block) 0) ≡ Some (0, 2) }
    ensures both_behind { log_fault (slot_comes whole_block 0 (naming_second whole_block) 1) ≡ Some (0, 2) }
    ensures without_name { log_fault (slot_comes whole_block 1 whole_block 1) ≡ None }
    ensures no_journal { log_fault (volume_with (with_number_at 34 0x2c 4 0x11 (logging_slots 2 1))) ≡ None }
{}

/// A law: a log writes the journal of its own slot alone, and each write of it leaves a good one. The new system directory has the name of
/// each dirty slot's journal, and what that name tells then is an anchor already.
pub fn journals_that_change()
    ensures last_bad { log_fault (volume_with (logging_both 25 (journal_dinode 0 120) 25 (journal_dinode 1 120))) ≡ Some (0, 25) }
    ensures first_bad { log_fault (volume_with (logging_both 25 (journal_dinode 1 120) 25 (journal_dinode 0 120))) ≡ Some (0, 25) }
    ensures of_another_slot { log_fault (of_two_slots (naming_second (in_place_of 34 (second_journal_in_cluster 1) (logging_block 34 (second_journal_in_cluster 0))))) ≡ Some (0, 34) }
    ensures no_name { log_fault (logging 17 (put_at 412 1 0x78 (whole_block 17))) ≡ Some (0, 17) }
    ensures another_name { log_fault (volume_with (logging_both 34 [] 17 (put_at 400 8 34 (whole_block 17)))) ≡ Some (0, 34) }
{}

/// A law: extent blocks of the system directory and of a dirty journal are anchors.
pub fn extent_blocks_as_anchors()
    ensures directory { anchors_of (volume_with (with_number_at 17 0xc0 2 1 (with_number_at 17 0xd8 8 44 (in_place_of 44 (extent_block_at 4 0 0 (record_of 0 1 0 120)) (directory_blocks whole_block)))))
        ≡ 0 ∷ 1 ∷ 2 ∷ 17 ∷ 44 ∷ 120 ∷ [] }
    ensures journal { anchors_of (volume_with (with_number_at 25 0xc0 2 1 (with_number_at 25 0xd8 8 44 (in_place_of 44 (extent_block_at 4 0 0 (record_of 0 1 0 56)) (logging_block 88 [])))))
        ≡ 0 ∷ 1 ∷ 2 ∷ 17 ∷ 25 ∷ 44 ∷ 56 ∷ 57 ∷ 58 ∷ 59 ∷ 60 ∷ 61 ∷ 62 ∷ 63 ∷ [] }
{}
