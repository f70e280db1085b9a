// What a replay of a dirty journal rests on, what it writes, and what it may not write.
ghost use Rattle.std.specs.Prelude.{◌≡◌, [], ◌∷◌, ◌++◌, Some, None, true, false, take, codes};
ghost use Rattle.o2_ondisk.specs.Fields.{put_at};
ghost use Rattle.o2_model.specs.declared.journal_part.JournalPart.TheVariants.{Extents, Features, Superblock};
ghost use Rattle.o2_model.specs.Anchors.{anchors_of, is_allowed_write, log_fault};
ghost use Rattle.o2_model.specs.Dirty.{as_logged, committed_writes, dirty_slots, journal_fault, slot_journal};
ghost use Rattle.o2_model.specs.Journals.{journals};
ghost use Rattle.o2_model.specs.Replay.{as_clean};
ghost use Rattle.o2_cases_volumes.specs.DirtyVolume.{journal_dinode, logging, logging_block, logging_both, logging_slots, logging_with, of_two_slots, revoking_block, two_sectors, with_two_sectors, wrapping_block};
ghost use Rattle.o2_cases_volumes.specs.OtherVolumes.{directory_block, directory_blocks, directory_in_cluster, in_place_of};
ghost use Rattle.o2_cases_volumes.specs.WholeVolume.{filled, volume_with, whole, whole_block, whole_super, with_number_at};

/// A law: a slot is dirty by the flag of its journal, and only where its name names a valid journal.
pub fn dirty_slots_on_cases()
    ensures journals { journals whole ≡ 25 ∷ [] }
    ensures clean { dirty_slots whole ≡ [] }
    ensures dirty { dirty_slots (logging 88 (codes "world")) ≡ 0 ∷ [] }
    ensures no_journal { dirty_slots (logging_with 88 (codes "world") 25 0x2c 4 0x11) ≡ [] }
    ensures no_dinode { dirty_slots (logging_with 88 (codes "world") 25 0x60 4 6) ≡ [] }
    ensures journal { slot_journal whole 0 ≡ Some 25 }
    ensures no_slot { slot_journal whole 1 ≡ None }
{}

/// A law: a dirty journal can be used where its extents, its superblock and its features are right; of a clean one nothing is asked.
pub fn journal_faults_on_cases()
    ensures usable { journal_fault (logging 88 (codes "world")) ≡ None }
    ensures gap { journal_fault (logging_with 88 (codes "world") 25 0xd0 4 1) ≡ Some (0, Extents) }
    ensures start { journal_fault (logging_with 88 (codes "world") 56 0x1f 1 8) ≡ Some (0, Superblock) }
    ensures features { journal_fault (logging_with 88 (codes "world") 56 0x2b 1 0x10) ≡ Some (0, Features) }
    ensures clean { journal_fault whole ≡ None }
{}

/// A law: the log's one write is committed; after it its block has the write's bytes, and other blocks have theirs.
pub fn writes_of_logs_on_cases()
    ensures written { committed_writes (logging 88 (codes "world")) 0 ≡ record { block = 88; bytes = filled (codes "world") } ∷ [] }
    ensures no_log { committed_writes whole 0 ≡ [] }
    ensures revoked { committed_writes (volume_with (revoking_block 88 (codes "world"))) 0 ≡ [] }
    ensures revoked_harm { log_fault (volume_with (revoking_block 60 [])) ≡ None }
    ensures new_bytes { take 5 ((as_logged (logging 88 (codes "world"))).at 88) ≡ codes "world" }
    ensures old_bytes { take 5 ((as_logged whole).at 88) ≡ codes "hello" }
{}

/// A law: a replay rests on blocks 0 to 2, on the system directory, and on each dirty journal's dinode and clusters.
pub fn anchors_on_cases()
    ensures dirty { anchors_of (logging 88 (codes "world")) ≡ 0 ∷ 1 ∷ 2 ∷ 17 ∷ 25 ∷ 56 ∷ 57 ∷ 58 ∷ 59 ∷ 60 ∷ 61 ∷ 62 ∷ 63 ∷ [] }
    ensures clean { anchors_of whole ≡ 0 ∷ 1 ∷ 2 ∷ 17 ∷ [] }
{}

/// A law: a log may write any block of the device that is no anchor.
pub fn targets_on_cases()
    ensures data { log_fault (logging 88 (codes "world")) ≡ None }
    ensures last { log_fault (logging 127 []) ≡ None }
    ensures outside { log_fault (logging 128 []) ≡ Some (0, 128) }
    ensures block_0 { log_fault (logging 0 []) ≡ Some (0, 0) }
    ensures own_log { log_fault (logging 60 []) ≡ Some (0, 60) }
{}

/// A law: into block 2 it may write another label, slots or clusters, as long as the dirty slot is counted and the clusters are
/// supported.
pub fn superblock_writes_on_cases()
    ensures same { log_fault (logging 2 whole_super) ≡ None }
    ensures label { log_fault (logging 2 (put_at 0x110 1 0x76 whole_super)) ≡ None }
    ensures slots { log_fault (logging 2 (put_at 0x100 2 4 whole_super)) ≡ None }
    ensures no_slots { log_fault (logging 2 (put_at 0x100 2 0 whole_super)) ≡ Some (0, 2) }
    ensures clusters { log_fault (logging 2 (put_at 0x14 4 0x4000_0000 whole_super)) ≡ None }
    ensures many_clusters { log_fault (logging 2 (put_at 0x14 4 0x4000_0001 whole_super)) ≡ Some (0, 2) }
    ensures root { log_fault (logging 2 (put_at 0xe8 8 28 whole_super)) ≡ Some (0, 2) }
{}

/// A law: it may write another system directory that names the same journal, and another journal that is empty and clean.
pub fn directory_and_journal_writes_on_cases()
    ensures directory { log_fault (logging 17 (put_at 0x38 8 7 (whole_block 17))) ≡ None }
    ensures no_directory { log_fault (logging 17 []) ≡ Some (0, 17) }
    ensures another_journal { log_fault (logging 17 (put_at 400 8 26 (whole_block 17))) ≡ Some (0, 17) }
    ensures new_journal { log_fault (logging 25 (journal_dinode 0 120)) ≡ None }
    ensures dirty_journal { log_fault (logging 25 (journal_dinode 1 120)) ≡ Some (0, 25) }
    ensures same_journal { log_fault (logging 25 (journal_dinode 0 56)) ≡ Some (0, 25) }
    ensures no_superblock { log_fault (logging 25 (journal_dinode 0 112)) ≡ Some (0, 25) }
{}

/// A law: a replay clears the lowest bit of a journal's flags.
pub fn clean_journals_on_cases()
    ensures dirty { as_clean (journal_dinode 1 56) ≡ journal_dinode 0 56 }
    ensures other_bits { as_clean (journal_dinode 3 56) ≡ journal_dinode 2 56 }
    ensures clean { as_clean (journal_dinode 0 56) ≡ journal_dinode 0 56 }
    ensures all_bits { as_clean (journal_dinode 0xffff_ffff_ffff_ffff 56) ≡ journal_dinode 0xffff_ffff_ffff_fffe 56 }
    ensures generation { as_clean (journal_dinode 0xffff_ffff_ffff_fffe 56) ≡ journal_dinode 0xffff_ffff_ffff_fffe 56 }
{}

/// A law: the flags of a dirty journal's records are not looked at, as far as EXTENT knows them, but its extents are, and they come before its superblock, and that before
/// its features.
pub fn faults_in_order()
    ensures not_written { journal_fault (logging_with 88 (codes "world") 25 0xd7 1 1) ≡ None }
    ensures shared { journal_fault (logging_with 88 (codes "world") 25 0xd7 1 3) ≡ None }
    ensures unknown_flags { journal_fault (logging_with 88 (codes "world") 25 0xd7 1 4) ≡ Some (0, Extents) }
    ensures no_clusters { journal_fault (logging_with 88 (codes "world") 25 0xc4 2 0) ≡ Some (0, Extents) }
    ensures overlap { journal_fault (volume_with (with_number_at 25 0xc4 2 2 (with_number_at 25 0xe4 4 1 (logging_block 88 [])))) ≡ Some (0, Extents) }
    ensures superblock_first { journal_fault (volume_with (with_number_at 56 0x1f 1 8 (with_number_at 56 0x2b 1 0x10 (logging_block 88 [])))) ≡ Some (0, Superblock) }
    ensures extents_first { journal_fault (volume_with (with_number_at 25 0xd0 4 1 (with_number_at 56 0x1f 1 8 (logging_block 88 [])))) ≡ Some (0, Extents) }
    ensures compatible { journal_fault (logging_with 88 (codes "world") 56 0x27 1 1) ≡ Some (0, Features) }
    ensures two_features { journal_fault (logging_with 88 (codes "world") 56 0x2b 1 3) ≡ None }
    ensures third_feature { journal_fault (logging_with 88 (codes "world") 56 0x2b 1 4) ≡ Some (0, Features) }
{}

/// A law: a log begins where its superblock says, with the number that this says, and goes on behind the journal's last block at the first
/// one of the log. With 64BIT, and only then, the higher half of a number counts.
pub fn places_of_logs()
    ensures wrapping { committed_writes (volume_with (wrapping_block 88 (codes "world"))) 0 ≡ record { block = 88; bytes = filled (codes "world") } ∷ [] }
    ensures another_number { committed_writes (logging_with 88 (codes "world") 56 0x1b 1 8) 0 ≡ [] }
    ensures no_start { committed_writes (logging_with 88 (codes "world") 56 0x1f 1 0) 0 ≡ [] }
    ensures short { committed_writes (logging_with 88 (codes "world") 56 0x13 1 3) 0 ≡ [] }
    ensures just_long { committed_writes (logging_with 88 (codes "world") 56 0x13 1 4) 0 ≡ record { block = 88; bytes = filled (codes "world") } ∷ [] }
    ensures wide { log_fault (volume_with (with_number_at 56 0x2b 1 2 (with_number_at 57 23 1 1 (logging_block 88 [])))) ≡ Some (0, 4294967384) }
    ensures not_wide { log_fault (volume_with (with_number_at 56 0x2b 1 1 (with_number_at 57 23 1 1 (logging_block 88 [])))) ≡ None }
    ensures both { committed_writes (volume_with (logging_both 88 (codes "world") 89 (codes "w"))) 0 ≡ record { block = 88; bytes = filled (codes "world") } ∷ record { block = 89; bytes = filled (codes "w") } ∷ [] }
{}

/// A law: a replay rests on the blocks of the system directory, as it stands and as the logs leave it. The first bad write is told.
pub fn blocks_of_directories_as_anchors()
    ensures anchors { anchors_of (volume_with (directory_blocks (logging_block 88 []))) ≡ 0 ∷ 1 ∷ 2 ∷ 17 ∷ 120 ∷ 25 ∷ 56 ∷ 57 ∷ 58 ∷ 59 ∷ 60 ∷ 61 ∷ 62 ∷ 63 ∷ [] }
    ensures block { log_fault (volume_with (directory_blocks (logging_block 120 directory_block))) ≡ Some (0, 120) }
    ensures block_behind { log_fault (volume_with (directory_blocks (logging_block 121 []))) ≡ None }
    ensures moved { log_fault (volume_with (in_place_of 120 directory_block (logging_block 17 directory_in_cluster))) ≡ None }
    ensures moved_and_written { log_fault (volume_with (logging_both 17 directory_in_cluster 120 directory_block)) ≡ Some (0, 120) }
    ensures first { log_fault (volume_with (logging_both 60 [] 1 [])) ≡ Some (0, 60) }
    ensures second { log_fault (volume_with (logging_both 88 [] 1 [])) ≡ Some (0, 1) }
{}

/// A law: an allowed write leaves a directory that is well formed, no slot that comes dirty, and a journal that is empty. It changes the
/// first sector alone.
pub fn bounds_of_allowed_writes()
    ensures large_room { log_fault (logging 17 (put_at 0xc0 2 313 (whole_block 17))) ≡ Some (0, 17) }
    ensures slot_comes { log_fault (volume_with (logging_slots 2 0)) ≡ None }
    ensures dirty_slot_comes { log_fault (volume_with (logging_slots 2 1)) ≡ Some (0, 2) }
    ensures dirty_slot_stays_away { log_fault (volume_with (logging_slots 1 1)) ≡ None }
    ensures started_journal { log_fault (logging_with 25 (journal_dinode 0 120) 120 0x1f 1 1) ≡ Some (0, 25) }
    ensures same { is_allowed_write with_two_sectors 0 (record { block = 17; bytes = two_sectors }) ≡ true }
    ensures first_sector { is_allowed_write with_two_sectors 0 (record { block = 17; bytes = put_at 511 1 7 two_sectors }) ≡ true }
    ensures second_sector { is_allowed_write with_two_sectors 0 (record { block = 17; bytes = put_at 512 1 7 two_sectors }) ≡ false }
{}

/// A law: the slots are gone through rising, with the journal of each. The first dirty one that can't be used is told, whatever is wrong with it,
/// and each dirty one has to stay counted.
pub fn two_dirty_slots()
    ensures journals { journals (of_two_slots (logging_slots 2 1)) ≡ 25 ∷ 34 ∷ [] }
    ensures dirty { dirty_slots (of_two_slots (logging_slots 2 1)) ≡ 0 ∷ 1 ∷ [] }
    ensures second_clean { dirty_slots (of_two_slots (logging_slots 2 2)) ≡ 0 ∷ [] }
    ensures second { journal_fault (of_two_slots (logging_slots 2 1)) ≡ Some (1, Extents) }
    ensures first { journal_fault (of_two_slots (with_number_at 56 0x1f 1 8 (logging_slots 2 1))) ≡ Some (0, Superblock) }
    ensures anchors { anchors_of (of_two_slots (logging_slots 2 1)) ≡ 0 ∷ 1 ∷ 2 ∷ 17 ∷ 25 ∷ 56 ∷ 57 ∷ 58 ∷ 59 ∷ 60 ∷ 61 ∷ 62 ∷ 63 ∷ 34 ∷ [] }
    ensures both_counted { log_fault (of_two_slots (logging_slots 2 1)) ≡ None }
    ensures one_counted { log_fault (of_two_slots (logging_slots 1 1)) ≡ Some (0, 2) }
{}
