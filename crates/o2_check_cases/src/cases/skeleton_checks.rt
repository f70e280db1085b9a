// Which checks of the skeleton fail where one number of the whole volume is another one. The fields' places are in docs/FORMAT.md.
ghost use Rattle.std.specs.Prelude.{◌≡◌, [], ◌∷◌, true, false, codes};
ghost use Rattle.o2_model.specs.declared.check.Check.TheVariants as check;
ghost use Rattle.o2_model.specs.Failing.{failing};
ghost use Rattle.o2_model.specs.Checks.Root.{is_sound_root};
ghost use Rattle.o2_model.specs.Checks.SlotMap.{is_sound_slot_map, slot_entry_size};
ghost use Rattle.o2_model.specs.Checks.Super.{super_faults};
ghost use Rattle.o2_cases_volumes.specs.WholeVolume.{volume_with, whole, whole_block, whole_geo, with_number, with_number_at};
ghost use Rattle.o2_cases_volumes.specs.OtherVolumes.{changed, directory_blocks, with_system_entry, with_system_file};

/// A law: block 2 that tells another block is no superblock, and a system directory that its entries do not fill can't be read.
pub fn broken_directories()
    ensures block_number { failing (with_number 2 0x50 8 3) ≡ (check.Super, 2) ∷ [] }
    ensures not_in_use { failing (with_number 2 0x2c 4 0) ≡ (check.Super, 2) ∷ [] }
    ensures short_system_directory { failing (with_number 17 0x20 8 283) ≡ (check.Sysdir, 17) ∷ [] }
    ensures root_a_file { failing (with_number 18 0x28 2 0o100644) ≡ (check.Root, 18) ∷ [] }
    ensures root_no_dinode { failing (with_number 18 0x0 8 0) ≡ (check.Root, 18) ∷ [] }
{}

/// A law: the files that the system directory names have the flags and kinds of their names and stand on bits, each has one name, and
/// none that the slots need is missing. The last entry there begins byte 452, and its name ends with byte 480.
pub fn broken_system_files()
    ensures flag { failing (with_number 27 0x2c 4 0x11) ≡ (check.Sysfile, 27) ∷ [] }
    ensures kind { failing (with_number 22 0x28 2 0o100644) ≡ (check.Sysfile, 22) ∷ [] }
    ensures type_of_entry { failing (with_number 17 463 1 2) ≡ (check.Sysfile, 27) ∷ [] }
    ensures missing { failing (with_number 17 480 1 0x78) ≡ (check.Sysfile, 17) ∷ [] }
    ensures second_name { failing (with_number 17 452 8 26) ≡ (check.Sysfile, 26) ∷ [] }
    ensures off_its_bit { failing (with_number 16 0x40 1 0xfd) ≡ (check.Sysfile, 17) ∷ [] }
{}

/// A law: an allocator's groups have two blocks or more, the log of a journal begins within it, and the slot map has room for a slot.
pub fn broken_headers()
    ensures empty_groups { failing (with_number 23 0xc0 2 0) ≡ (check.ChainHeader, 23) ∷ [] }
    ensures log_behind_end { failing (with_number 56 0x1f 1 8) ≡ (check.Journal, 25) ∷ [] }
    ensures log_begins_in_journal { failing (with_number 56 0x1f 1 7) ≡ [] }
    ensures unknown_feature { failing (with_number 56 0x2b 1 4) ≡ (check.Journal, 25) ∷ [] }
    ensures no_room { failing (with_number 21 0xc4 2 0) ≡ (check.SlotMap, 21) ∷ [] }
{}

/// A law: the volume lies within its device.
pub fn short_devices()
    ensures all_blocks { failing (record whole { on_device = 128 }) ≡ [] }
    ensures one_less { failing (record whole { on_device = 127 }) ≡ (check.Super, 2) ∷ [] }
{}

/// A law: the system directory has a valid dinode of a directory, with room for its entries, and each is one name that stands there
/// once. The name of the slot map begins byte 304, and that of the truncate log byte 464, as long as `extent_alloc:0000`.
pub fn broken_system_directories()
    ensures another_generation { failing (with_number 17 0x60 4 6) ≡ (check.Sysdir, 17) ∷ [] }
    ensures a_file { failing (with_number 17 0x28 2 0o100644) ≡ (check.Sysdir, 17) ∷ [] }
    ensures large_room { failing (with_number 17 0xc0 2 313) ≡ (check.Sysdir, 17) ∷ [] }
    ensures slash { failing (with_number 17 304 1 0x2f) ≡ (check.Sysdir, 17) ∷ [] }
    ensures namesakes { failing (with_number 17 464 12 0x636f6c6c615f746e65747865) ≡ (check.Sysdir, 17) ∷ [] }
    ensures in_cluster { failing (volume_with (directory_blocks whole_block)) ≡ [] }
    ensures overlap { failing (volume_with (with_number_at 17 0xc4 2 2 (with_number_at 17 0xe4 4 1 (directory_blocks whole_block)))) ≡ (check.Sysdir, 17) ∷ [] }
    ensures not_written { failing (changed (directory_blocks whole_block) 17 0xd7 1 1) ≡ (check.Sysdir, 17) ∷ [] }
{}

/// A law: a root that is no valid dinode is told, whatever else is.
pub fn roots_on_cases()
    ensures sound { is_sound_root whole ≡ true }
    ensures another_generation { is_sound_root (with_number 18 0x60 4 6) ≡ false }
    ensures a_file { is_sound_root (with_number 18 0x28 2 0o100644) ≡ false }
{}

/// A law: each name asks for flags of its own, and further ones do no harm.
pub fn flags_of_system_files()
    ensures no_chains { failing (with_number 24 0x2c 4 0x91) ≡ (check.Sysfile, 24) ∷ [] }
    ensures no_bitmap { failing (with_number 24 0x2c 4 0x411) ≡ (check.Sysfile, 24) ∷ [] }
    ensures no_journal { failing (with_number 25 0x2c 4 0x11) ≡ (check.Sysfile, 25) ∷ [] }
    ensures no_window { failing (with_number 26 0x2c 4 0x91) ≡ (check.Sysfile, 26) ∷ [] }
    ensures further { failing (with_number 21 0x2c 4 0x111) ≡ [] }
    ensures no_system_flag { failing (with_number 21 0x2c 4 0x1) ≡ [] }
    ensures shared { failing (with_number 27 0x76 2 0x10) ≡ (check.Sysfile, 27) ∷ [] }
    ensures shared_bitmap { failing (volume_with (with_number_at 19 0x76 2 0x10 (with_number_at 19 0x90 8 42 whole_block))) ≡ (check.RefUsers, 42) ∷ [] }
{}

/// A law: each of the system files stands on a bit, as do the root and the system directory. An allocator of inodes without chains, or
/// whose header is unsound, gives none.
pub fn system_files_off_their_bits()
    ensures truncate_log { failing (with_number 16 0x41 1 0xf7) ≡ (check.Sysfile, 27) ∷ [] }
    ensures root { failing (with_number 16 0x40 1 0xfb) ≡ (check.Sysfile, 17) ∷ [] }
    ensures header { failing (with_number 20 0xc2 2 1) ≡ (check.Sysfile, 17) ∷ [] }
    ensures no_chains { failing (with_number 20 0x2c 4 0x91) ≡ (check.Sysfile, 17) ∷ [] }
    ensures no_slot_map { failing (with_number 17 311 1 0x71) ≡ (check.Sysfile, 17) ∷ [] }
    ensures no_bitmap { failing (with_number 17 256 1 0x71) ≡ (check.Sysfile, 17) ∷ [] }
{}

/// A law: an orphan directory is one by its entry too, and neither the root nor the system directory is a file of the system directory.
/// A further name is a file's; it is none of a slot that there is not, and names no inode that has another name. The entry of
/// `orphan_dir:0000` begins byte 312.
pub fn further_system_files()
    ensures type_of_orphans { failing (with_number 17 323 1 1) ≡ (check.Sysfile, 22) ∷ [] }
    ensures root { failing (with_number 17 312 8 18) ≡ (check.Sysfile, 18) ∷ [] }
    ensures itself { failing (with_number 17 312 8 17) ≡ (check.Sysfile, 17) ∷ [] }
    ensures bad_blocks { failing (volume_with (with_system_file (codes "bad_blocks") 0)) ≡ [] }
    ensures any_name { failing (volume_with (with_system_file (codes "journal:1") 0)) ≡ [] }
    ensures second_slot { failing (volume_with (with_system_file (codes "journal:0001") 0x100)) ≡ (check.Sysfile, 34) ∷ [] }
    ensures second_name { failing (volume_with (with_system_entry 21 (codes "bad_blocks") whole_block)) ≡ (check.Sysfile, 21) ∷ [] }
    ensures a_directory { failing (changed (with_system_file (codes "bad_blocks") 0) 34 0x28 2 0o40755) ≡ (check.Sysfile, 34) ∷ [] }
{}

/// A law: a group of the bitmap has a bit for each cluster and as many as fit, elsewhere a bit is a block. There is room for a chain, not
/// more than the dinode has, and no more chains than room.
pub fn broken_chain_headers()
    ensures size_of_bitmap_group { failing (with_number 19 0xc0 2 3583) ≡ (check.ChainHeader, 19) ∷ [] }
    ensures bit_of_bitmap { failing (with_number 19 0xc2 2 8) ≡ (check.ChainHeader, 19) ∷ [] }
    ensures bit_of_blocks { failing (with_number 23 0xc2 2 4) ≡ (check.ChainHeader, 23) ∷ [] }
    ensures any_group_size { failing (with_number 23 0xc0 2 7) ≡ [] }
    ensures no_room { failing (with_number 24 0xc4 2 0) ≡ (check.ChainHeader, 24) ∷ [] }
    ensures full_room { failing (with_number 24 0xc4 2 19) ≡ [] }
    ensures large_room { failing (with_number 24 0xc4 2 20) ≡ (check.ChainHeader, 24) ∷ [] }
    ensures more_chains { failing (with_number 24 0xc6 2 2) ≡ (check.ChainHeader, 24) ∷ [] }
{}

/// A law: a journal has clusters without a gap, all written and well formed, whatever i_clusters tells; so has the slot map.
pub fn broken_runs()
    ensures gap { failing (with_number 25 0xd0 4 1) ≡ (check.Journal, 25) ∷ [] }
    ensures no_clusters { failing (with_number 25 0xc4 2 0) ≡ (check.Journal, 25) ∷ [] }
    ensures not_written { failing (with_number 25 0xd7 1 1) ≡ (check.Journal, 25) ∷ [] }
    ensures overlap { failing (volume_with (with_number_at 25 0xc4 2 2 (with_number_at 25 0xe4 4 1 whole_block))) ≡ (check.Journal, 25) ∷ [] }
    ensures told_clusters { failing (with_number 25 0x14 4 2) ≡ (check.InodeClusters, 25) ∷ [] }
    ensures gap_in_map { failing (with_number 21 0xd0 4 1) ≡ (check.SlotMap, 21) ∷ [] }
    ensures map_not_written { failing (with_number 21 0xd7 1 1) ≡ (check.SlotMap, 21) ∷ [] }
    ensures overlap_in_map { failing (volume_with (with_number_at 21 0xc4 2 2 (with_number_at 21 0xe4 4 1 whole_block))) ≡ (check.SlotMap, 21) ∷ [] }
{}

/// A law: a journal begins with its superblock, which has no features but two. What a clean journal tells beside its flag is not asked.
pub fn broken_journal_superblocks()
    ensures magic { failing (with_number 56 0x0 1 0) ≡ (check.Journal, 25) ∷ [] }
    ensures version { failing (with_number 56 0x7 1 3) ≡ (check.Journal, 25) ∷ [] }
    ensures block_size { failing (with_number 56 0xe 1 4) ≡ (check.Journal, 25) ∷ [] }
    ensures long { failing (with_number 56 0x13 1 9) ≡ (check.Journal, 25) ∷ [] }
    ensures compatible { failing (with_number 56 0x27 1 1) ≡ (check.Journal, 25) ∷ [] }
    ensures read_only { failing (with_number 56 0x2f 1 1) ≡ (check.Journal, 25) ∷ [] }
    ensures two_features { failing (with_number 56 0x2b 1 3) ≡ [] }
    ensures recovery_generation { failing (with_number 25 0xb8 8 0x7_0000_0002) ≡ [] }
{}

/// A law: the superblock is told where its sizes, its first group, the device or its two directories are wrong.
pub fn wrong_superblocks()
    ensures sound { super_faults whole ≡ [] }
    ensures slots { super_faults (record whole { geo = record whole_geo { slots = 0 } }) ≡ 2 ∷ [] }
    ensures first_group { super_faults (record whole { geo = record whole_geo { first_group = 9 } }) ≡ 2 ∷ [] }
    ensures device { super_faults (record whole { on_device = 127 }) ≡ 2 ∷ [] }
    ensures directories { super_faults (record whole { geo = record whole_geo { root = 17 } }) ≡ 2 ∷ [] }
{}

/// A law: an entry of the slot map has 8 bytes where it is extended, else 2, and the map's clusters have room for the entry of each slot.
pub fn sizes_of_slot_maps()
    ensures extended { slot_entry_size (record whole { geo = record whole_geo { incompat = 0x100 } }) ≡ 8 }
    ensures plain { slot_entry_size (record whole { geo = record whole_geo { incompat = 0xfeff } }) ≡ 2 }
    ensures full { is_sound_slot_map (record whole { geo = record whole_geo { slots = 512 } }) 21 ≡ true }
    ensures short { is_sound_slot_map (record whole { geo = record whole_geo { slots = 513 } }) 21 ≡ false }
    ensures full_plain { is_sound_slot_map (record whole { geo = record whole_geo { slots = 2048; incompat = 0 } }) 21 ≡ true }
    ensures short_plain { is_sound_slot_map (record whole { geo = record whole_geo { slots = 2049; incompat = 0 } }) 21 ≡ false }
{}
