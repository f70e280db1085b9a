// The numbers of a superblock on single cases.
ghost use Rattle.std.specs.Prelude.{◌≡◌, ◌==◌, [], ◌∷◌, ◌++◌, true, false, drop, Some, None, if◌then◌else◌};
ghost use Rattle.o2_ondisk.specs.Fields.{put_at};
ghost use Rattle.o2_ondisk.specs.Super.{super_of};
ghost use Rattle.o2_model.specs.declared.oddity.Oddity.TheVariants.{Clusters, HeartbeatDevice, InProgress, LocalMount, Metaecc, Quota, UnknownFeatures};
ghost use Rattle.o2_model.specs.declared.claim.Owner.TheVariants.{Backup, GlobalGroup, Super};
ghost use Rattle.o2_model.specs.Claims.{claims_by, structure_claims};
ghost use Rattle.o2_model.specs.Superblock.{superblock_bits};
ghost use Rattle.o2_cases_volumes.specs.SmallBytes.{zero_bytes};
ghost use Rattle.o2_model.specs.Volume.{over};
ghost use Rattle.o2_model.specs.Features.{unsupported_in};
ghost use Rattle.o2_model.specs.Clusters.{are_clusters_in_range};
ghost use Rattle.o2_model.specs.ClusterGroups.{backup_clusters, group_count, group_index, group_place, group_size};
ghost use Rattle.o2_model.specs.Checks.Super.{has_sound_directories, has_sound_first_group, has_sound_sizes};
ghost use Rattle.o2_model.specs.Checks.BackupSuper.{backup_super_faults};
ghost use Rattle.o2_structure_cases.specs.BackupVolume.{with_backup};
ghost use Rattle.o2_cases_volumes.specs.WholeVolume.{filled, whole_super};
ghost use Rattle.o2_cases_volumes.specs.SmallVolumes.{large, large_geo, small, small_geo, volume_with};

/// A law: clusters have 4 KiB to 1 MiB, and there is a slot.
pub fn sizes_on_cases()
    ensures small { has_sound_sizes small ≡ true }
    ensures large { has_sound_sizes (large 2048) ≡ true }
    ensures small_clusters { has_sound_sizes (volume_with (record small_geo { cluster_bits = 11 })) ≡ false }
    ensures large_clusters { has_sound_sizes (volume_with (record small_geo { cluster_bits = 21 })) ≡ false }
    ensures no_slot { has_sound_sizes (volume_with (record small_geo { slots = 0 })) ≡ false }
    ensures many_slots { has_sound_sizes (volume_with (record small_geo { slots = 256 })) ≡ false }
{}

/// A law: the first group begins a cluster of the volume and of the first group, neither cluster 0 nor a backup's.
pub fn first_group_on_cases()
    ensures small { has_sound_first_group small ≡ true }
    ensures large { has_sound_first_group (large 2048) ≡ true }
    ensures first_cluster { has_sound_first_group (volume_with (record small_geo { first_group = 0 })) ≡ false }
    ensures within_cluster { has_sound_first_group (volume_with (record small_geo { first_group = 9 })) ≡ false }
    ensures behind_volume { has_sound_first_group (volume_with (record small_geo { first_group = 800 })) ≡ false }
    ensures behind_group { has_sound_first_group (large 7340032) ≡ false }
    ensures on_backup { has_sound_first_group (large 2097152) ≡ false }
    ensures without_backups { has_sound_first_group (volume_with (record (large_geo 2097152) { compat = 0 })) ≡ true }
{}

/// A law: the root and the system directory are two blocks of the volume, and none is block 0.
pub fn directories_on_cases()
    ensures small { has_sound_directories small ≡ true }
    ensures same { has_sound_directories (volume_with (record small_geo { root = 17 })) ≡ false }
    ensures zero_block { has_sound_directories (volume_with (record small_geo { root = 0 })) ≡ false }
    ensures last { has_sound_directories (volume_with (record small_geo { sysdir = 799 })) ≡ true }
    ensures behind_volume { has_sound_directories (volume_with (record small_geo { sysdir = 800 })) ≡ false }
{}

/// A law: 5000 clusters of 1 MiB need two groups where a block has 512 bytes, and have two backups, at 1 GiB and 4 GiB.
pub fn group_places_on_cases()
    ensures size { group_size (large 2048) ≡ 3584 }
    ensures count { group_count (large 2048) ≡ 2 }
    ensures first { group_place (large 2048) 0 ≡ 2048 }
    ensures second { group_place (large 2048) 1 ≡ 7340032 }
    ensures last_of_first { group_index (large 2048) 7340031 ≡ 0 }
    ensures first_of_second { group_index (large 2048) 7340032 ≡ 1 }
    ensures backups { backup_clusters (large 2048) ≡ 1024 ∷ 4096 ∷ [] }
    ensures no_backups { backup_clusters small ≡ [] }
{}

/// A law: the clusters of a run are whole ones of the volume behind its cluster 0.
pub fn cluster_ranges_on_cases()
    ensures second { are_clusters_in_range small 8 99 ≡ true }
    ensures first { are_clusters_in_range small 0 1 ≡ false }
    ensures within_cluster { are_clusters_in_range small 9 1 ≡ false }
    ensures crossing { are_clusters_in_range small 8 100 ≡ false }
{}

/// A law: a backup says what the superblock says, but for its own block.
pub fn backups_on_cases()
    ensures own_block { backup_super_faults (with_backup 0x50 8 2097152) ≡ [] }
    ensures label { backup_super_faults (with_backup 0x110 1 0x76) ≡ 2097152 ∷ [] }
    ensures clusters { backup_super_faults (with_backup 0x14 4 17) ≡ 2097152 ∷ [] }
{}

/// A law: the first feature outside the profile is told, by the superblock's flags and its clusters.
pub fn features_on_cases()
    ensures supported { unsupported_in (super_of (drop 0xc0 whole_super)) 16 ≡ None }
    ensures checksums { unsupported_in (super_of (drop 0xc0 (put_at 0xe0 4 0x1d50 whole_super))) 16 ≡ Some Metaecc }
    ensures quotas { unsupported_in (super_of (drop 0xc0 (put_at 0xe4 4 0x2 whole_super))) 16 ≡ Some Quota }
    ensures heartbeat { unsupported_in (super_of (drop 0xc0 (put_at 0xe0 4 0x1552 whole_super))) 16 ≡ Some HeartbeatDevice }
    ensures local { unsupported_in (super_of (drop 0xc0 (put_at 0xe0 4 0x1558 whole_super))) 16 ≡ Some LocalMount }
    ensures in_progress { unsupported_in (super_of (drop 0xc0 (put_at 0xe0 4 0x1554 whole_super))) 16 ≡ Some InProgress }
    ensures unknown { unsupported_in (super_of (drop 0xc0 (put_at 0xe0 4 0x11550 whole_super))) 16 ≡ Some UnknownFeatures }
    ensures two { unsupported_in (super_of (drop 0xc0 (put_at 0xe0 4 0x11d52 whole_super))) 16 ≡ Some Metaecc }
    ensures clusters { unsupported_in (super_of (drop 0xc0 whole_super)) 0x4000_0001 ≡ Some Clusters }
{}

/// A law: there may be 255 slots. Where a cluster is a block, the first group stands behind the superblock, and elsewhere up to the last
/// cluster.
pub fn bounds_of_superblocks()
    ensures most_slots { has_sound_sizes (volume_with (record small_geo { slots = 255 })) ≡ true }
    ensures on_super { has_sound_first_group (volume_with (record small_geo { block_bits = 12; first_group = 2 })) ≡ false }
    ensures behind_super { has_sound_first_group (volume_with (record small_geo { block_bits = 12; first_group = 3 })) ≡ true }
    ensures last_cluster { has_sound_first_group (volume_with (record small_geo { first_group = 792 })) ≡ true }
    ensures one_group { group_count (volume_with (record (large_geo 2048) { clusters = 3584 })) ≡ 1 }
    ensures two_groups { group_count (volume_with (record (large_geo 2048) { clusters = 3585 })) ≡ 2 }
    ensures backup_at_end { backup_clusters (volume_with (record (large_geo 2048) { clusters = 4097 })) ≡ 1024 ∷ 4096 ∷ [] }
    ensures backup_behind_end { backup_clusters (volume_with (record (large_geo 2048) { clusters = 4096 })) ≡ 1024 ∷ [] }
{}

/// A law: the clusters up to the first group, those of later groups, and those of backups are claimed.
pub fn claims_of_structures()
    ensures large { structure_claims (large 2048)
        ≡ claims_by Super (0 ∷ 1 ∷ []) ++ claims_by GlobalGroup (3584 ∷ []) ++ claims_by Backup (1024 ∷ 4096 ∷ []) }
{}

/// A law: a backup has the superblock's signature, generation and features, and the same places.
pub fn features_of_backups()
    ensures signature { backup_super_faults (with_backup 0x0 8 0) ≡ 2097152 ∷ [] }
    ensures generation { backup_super_faults (with_backup 0x60 4 6) ≡ 2097152 ∷ [] }
    ensures compat { backup_super_faults (with_backup 0xdc 4 1) ≡ 2097152 ∷ [] }
    ensures incompat { backup_super_faults (with_backup 0xe0 4 1) ≡ 2097152 ∷ [] }
    ensures ro_compat { backup_super_faults (with_backup 0xe4 4 1) ≡ 2097152 ∷ [] }
    ensures root { backup_super_faults (with_backup 0xe8 8 1) ≡ 2097152 ∷ [] }
    ensures system_directory { backup_super_faults (with_backup 0xf0 8 1) ≡ 2097152 ∷ [] }
    ensures first_group { backup_super_faults (with_backup 0x108 8 16) ≡ 2097152 ∷ [] }
{}

/// A law: it has the same sizes, slots and identifier too. Other fields are not compared, and each backup is.
pub fn sizes_of_backups()
    ensures block_size { backup_super_faults (with_backup 0xf8 4 10) ≡ 2097152 ∷ [] }
    ensures cluster_size { backup_super_faults (with_backup 0xfc 4 13) ≡ 2097152 ∷ [] }
    ensures slots { backup_super_faults (with_backup 0x100 2 2) ≡ 2097152 ∷ [] }
    ensures identifier { backup_super_faults (with_backup 0x15f 1 1) ≡ 2097152 ∷ [] }
    ensures label_end { backup_super_faults (with_backup 0x14f 1 1) ≡ 2097152 ∷ [] }
    ensures seed { backup_super_faults (with_backup 0x17c 4 9) ≡ [] }
    ensures both { backup_super_faults (over (large 2048) (λ b. if b == 2 then whole_super else [])) ≡ 2097152 ∷ 8388608 ∷ [] }
{}

/// A law: each bit of a feature outside the profile is told, and of two features the first in the order of the profile.
pub fn bits_of_features()
    ensures all_supported { unsupported_in (super_of (drop 0xc0 (put_at 0xe0 8 0x1_0000_f7d0 whole_super))) 0x4000_0000 ≡ None }
    ensures group_quota { unsupported_in (super_of (drop 0xc0 (put_at 0xe4 4 0x4 whole_super))) 16 ≡ Some Quota }
    ensures tuning { unsupported_in (super_of (drop 0xc0 (put_at 0xe0 4 0x1570 whole_super))) 16 ≡ Some InProgress }
    ensures first_bit { unsupported_in (super_of (drop 0xc0 (put_at 0xe0 4 0x1551 whole_super))) 16 ≡ Some UnknownFeatures }
    ensures read_only { unsupported_in (super_of (drop 0xc0 (put_at 0xe4 4 0x8 whole_super))) 16 ≡ Some UnknownFeatures }
    ensures quota_first { unsupported_in (super_of (drop 0xc0 (put_at 0xe0 8 0x2_0000_002e whole_super))) 16 ≡ Some Quota }
    ensures heartbeat_first { unsupported_in (super_of (drop 0xc0 (put_at 0xe0 4 0x2e whole_super))) 16 ≡ Some HeartbeatDevice }
    ensures local_first { unsupported_in (super_of (drop 0xc0 (put_at 0xe0 4 0x1_002c whole_super))) 0x4000_0001 ≡ Some LocalMount }
{}

/// A law: a superblock is found where block 2 lies within the device, has the signature, and tells the size that its place is for. Of two
/// sizes the least counts.
pub fn superblocks_of_images()
    ensures small { superblock_bits (zero_bytes 512 ∷ zero_bytes 512 ∷ filled whole_super ∷ []) ≡ Some 9 }
    ensures large { superblock_bits (zero_bytes 512 ∷ zero_bytes 512 ∷ zero_bytes 512 ∷ zero_bytes 512 ∷ put_at 0xf8 4 10 (filled whole_super) ∷ zero_bytes 512 ∷ []) ≡ Some 10 }
    ensures crossing { superblock_bits (zero_bytes 512 ∷ zero_bytes 512 ∷ zero_bytes 512 ∷ zero_bytes 512 ∷ put_at 0xf8 4 10 (filled whole_super) ∷ []) ≡ None }
    ensures both { superblock_bits (zero_bytes 512 ∷ zero_bytes 512 ∷ filled whole_super ∷ zero_bytes 512 ∷ put_at 0xf8 4 10 (filled whole_super) ∷ zero_bytes 512 ∷ []) ≡ Some 9 }
    ensures another_size { superblock_bits (zero_bytes 512 ∷ zero_bytes 512 ∷ put_at 0xf8 4 10 (filled whole_super) ∷ []) ≡ None }
    ensures no_signature { superblock_bits (zero_bytes 512 ∷ zero_bytes 512 ∷ put_at 0x0 1 0 (filled whole_super) ∷ []) ≡ None }
    ensures nothing { superblock_bits [] ≡ None }
{}
