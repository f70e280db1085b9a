// What a slot holds of the volume's clusters, on single cases.
ghost use Rattle.std.specs.Prelude.{◌≡◌, [], ◌∷◌, Some, true, false};
ghost use Rattle.o2_model.specs.declared.claim.Owner.TheVariants.{LocalAlloc, TruncateLog};
ghost use Rattle.o2_model.specs.Checks.LocalAlloc.{local_alloc_faults};
ghost use Rattle.o2_model.specs.Checks.TruncateLog.{truncate_log_faults};
ghost use Rattle.o2_model.specs.Claims.{claims_of, owner_in};
ghost use Rattle.o2_model.specs.TruncateLogs.{is_sound_truncate_header, is_sound_truncation, truncated_clusters};
ghost use Rattle.o2_model.specs.Windows.{is_sound_window, is_sound_window_size, window_clusters};
ghost use Rattle.o2_model.specs.Allocators.{total_of, used_of};
ghost use Rattle.o2_ondisk.specs.Fields.{put_at};
ghost use Rattle.o2_cases_volumes.specs.SmallBytes.{zero_bytes};
ghost use Rattle.o2_cases_volumes.specs.SmallVolumes.{small};
ghost use Rattle.o2_cases_volumes.specs.DirtyVolume.{of_two_slots};
ghost use Rattle.o2_cases_volumes.specs.OtherVolumes.{second_truncate_log, second_window};
ghost use Rattle.o2_structure_cases.specs.SmallSlots.{in_dinode, with_truncate_log, with_window};
ghost use Rattle.o2_cases_volumes.specs.WholeVolume.{whole_block, with_number_at};

/// A law: the clusters of a truncate record are the volume's, and nobody else claims them; a void record has none.
pub fn truncations_on_cases()
    ensures sound { is_sound_truncation small (5 ∷ []) (record { start = 6; clusters = 94 }) ≡ true }
    ensures claimed { is_sound_truncation small (5 ∷ []) (record { start = 4; clusters = 2 }) ≡ false }
    ensures crossing { is_sound_truncation small (5 ∷ []) (record { start = 6; clusters = 95 }) ≡ false }
    ensures behind_volume { is_sound_truncation small (5 ∷ []) (record { start = 100; clusters = 0 }) ≡ false }
    ensures void { is_sound_truncation small (5 ∷ []) (record { start = 0; clusters = 200 }) ≡ true }
    ensures no_clusters { truncated_clusters (record { start = 0; clusters = 200 }) ≡ [] }
    ensures clusters { truncated_clusters (record { start = 4; clusters = 2 }) ≡ 4 ∷ 5 ∷ [] }
{}

/// A law: a truncate log has no more records than room, and that fits its dinode, here for 39.
pub fn truncate_logs_on_cases()
    ensures full { is_sound_truncate_header (with_truncate_log 39 39) 40 ≡ true }
    ensures large_count { is_sound_truncate_header (with_truncate_log 40 1) 40 ≡ false }
    ensures large_use { is_sound_truncate_header (with_truncate_log 3 4) 40 ≡ false }
{}

/// A law: of the eight bytes that an allocator and a window have for their totals the first four are i_used, and the others i_total.
pub fn totals_on_cases()
    ensures used { used_of (record { 0 = 0x9000_0002_8000_0001 }) ≡ 0x8000_0001 }
    ensures total { total_of (record { 0 = 0x9000_0002_8000_0001 }) ≡ 0x9000_0002 }
{}

/// A law: the bitmap of a window fits its dinode, here with 304 bytes. A window of 4 clusters from cluster 20 on, of which the
/// second is in use, has the three others.
pub fn windows_on_cases()
    ensures fits { is_sound_window_size (with_window 304 4 1) 40 ≡ true }
    ensures large { is_sound_window_size (with_window 305 4 1) 40 ≡ false }
    ensures clusters { window_clusters (with_window 304 4 1) 40 ≡ 20 ∷ 22 ∷ 23 ∷ [] }
    ensures sound { is_sound_window (with_window 304 4 1) (21 ∷ []) 40 ≡ true }
    ensures claimed { is_sound_window (with_window 304 4 1) (22 ∷ []) 40 ≡ false }
    ensures used { is_sound_window (with_window 304 4 2) [] 40 ≡ false }
    ensures short_bitmap { is_sound_window (with_window 0 4 1) [] 40 ≡ false }
    ensures behind_volume { is_sound_window (with_window 304 81 1) [] 40 ≡ false }
    ensures none { is_sound_window (with_window 304 0 0) [] 40 ≡ true }
{}

/// A law: a window has no cluster 0, and one without clear bits has no clusters for itself.
pub fn bounds_of_windows()
    ensures last { is_sound_window (with_window 304 80 1) [] 40 ≡ true }
    ensures first_cluster { is_sound_window (in_dinode (put_at 0xbc 4 1 (put_at 0xc4 2 304 (zero_bytes 512)))) [] 40 ≡ false }
    ensures second_cluster { is_sound_window (in_dinode (put_at 0xbc 4 1 (put_at 0xc0 4 1 (put_at 0xc4 2 304 (zero_bytes 512))))) [] 40 ≡ true }
    ensures full_bitmap { is_sound_window (with_window 1 8 1) [] 40 ≡ true }
    ensures short_bitmap { is_sound_window (with_window 1 9 1) [] 40 ≡ false }
    ensures all_in_use { window_clusters (in_dinode (put_at 0xbc 4 1 (put_at 0xc0 4 7 (put_at 0xc4 2 304 (put_at 0xd0 1 1 (zero_bytes 512)))))) 40 ≡ [] }
{}

/// A law: the windows of all slots are judged one after the other, and then the truncate records of all slots, each by the claims before it.
pub fn parts_of_two_slots()
    ensures free { local_alloc_faults (of_two_slots (second_window 15)) ≡ [] }
    ensures of_first { local_alloc_faults (of_two_slots (second_window 14)) ≡ 34 ∷ [] }
    ensures over_record { local_alloc_faults (of_two_slots (second_window 12)) ≡ [] }
    ensures record_under { truncate_log_faults (of_two_slots (second_window 12)) ≡ 27 ∷ [] }
    ensures owners { owner_in (claims_of (of_two_slots (second_window 15))) 15 ≡ Some (LocalAlloc 1) }
    ensures again { truncate_log_faults (of_two_slots (second_truncate_log 12 whole_block)) ≡ 34 ∷ [] }
    ensures first_void { truncate_log_faults (of_two_slots (second_truncate_log 12 (with_number_at 27 0xc8 4 0 whole_block))) ≡ [] }
    ensures second_owner { owner_in (claims_of (of_two_slots (second_truncate_log 12 (with_number_at 27 0xc8 4 0 whole_block)))) 12 ≡ Some (TruncateLog 1) }
{}
