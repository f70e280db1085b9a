// Logs on single cases.
ghost use Rattle.std.specs.Prelude.{◌≡◌, [], ◌∷◌, ◌++◌, true, false};
ghost use Rattle.o2_model.specs.Dirty.{bytes_after};
ghost use Rattle.o2_model.specs.Journals.{has_sound_bounds};
ghost use Rattle.byteorder.specs.Endian.{big_bytes};
ghost use Rattle.o2_ondisk.specs.Fields.{put_at};
ghost use Rattle.o2_model.specs.Logs.{no_writes, read_log, revokes_of, tags_of, unrevoked};
ghost use Rattle.o2_cases_volumes.specs.SmallLogs.{bounds, commit, header_bytes, identifier, one_tag, one_tag_of, revoke, tag_bytes, telling, two_tags, write_of};

/// A law: the tags of a descriptor go up to the last one, with or without an identifier between them.
pub fn tags_on_cases()
    ensures one { tags_of false (one_tag 9) ≡ record { block = 7; is_escaped = false } ∷ [] }
    ensures two { tags_of false (two_tags 9) ≡ record { block = 7; is_escaped = false } ∷ record { block = 8; is_escaped = true } ∷ [] }
    ensures first_escaped { tags_of false (header_bytes 1 9 ++ tag_bytes 7 0x1 ++ identifier ++ tag_bytes 8 0xa) ≡ record { block = 7; is_escaped = true } ∷ record { block = 8; is_escaped = false } ∷ [] }
    ensures revoked { revokes_of false (revoke 9) ≡ 7 ∷ [] }
{}

/// A law: a descriptor, its block and a commit are a transaction; without the commit, or with one of another number, there is none.
pub fn transactions_on_cases()
    ensures whole { read_log false 9 no_writes [] (one_tag 9 ∷ (1 ∷ 2 ∷ []) ∷ commit 9 ∷ [])
        ≡ record { writes = record { block = 7; bytes = 1 ∷ 2 ∷ [] } ∷ []; revoked = [] } ∷ [] }
    ensures no_commit { read_log false 9 no_writes [] (one_tag 9 ∷ (1 ∷ 2 ∷ []) ∷ []) ≡ [] }
    ensures another_commit { read_log false 9 no_writes [] (one_tag 9 ∷ (1 ∷ 2 ∷ []) ∷ commit 8 ∷ []) ≡ [] }
    ensures another_number { read_log false 9 no_writes [] (one_tag 8 ∷ (1 ∷ 2 ∷ []) ∷ commit 8 ∷ []) ≡ [] }
    ensures escaped { read_log false 9 no_writes [] (two_tags 9 ∷ (1 ∷ 2 ∷ []) ∷ (0 ∷ 0 ∷ 0 ∷ 0 ∷ 3 ∷ []) ∷ commit 9 ∷ [])
        ≡ record {
          writes = record { block = 7; bytes = 1 ∷ 2 ∷ [] } ∷ record { block = 8; bytes = 0xc0 ∷ 0x3b ∷ 0x39 ∷ 0x98 ∷ 3 ∷ [] } ∷ [];
          revoked = [];
        } ∷ [] }
    ensures revoked_later { read_log false 0xffff_ffff no_writes [] (one_tag 0xffff_ffff ∷ (1 ∷ 2 ∷ []) ∷ commit 0xffff_ffff ∷ revoke 0 ∷ commit 0 ∷ [])
        ≡ record { writes = record { block = 7; bytes = 1 ∷ 2 ∷ [] } ∷ []; revoked = [] }
        ∷ record { writes = []; revoked = 7 ∷ [] } ∷ [] }
{}

/// A law: a revoke suppresses the writes of its block in its own transaction and in all earlier ones, and in no later one. What is left stays
/// in the order of the log.
pub fn revokes_on_cases()
    ensures none { unrevoked (telling (7 ∷ 8 ∷ []) [] ∷ telling (7 ∷ []) [] ∷ []) ≡ write_of 7 ∷ write_of 8 ∷ write_of 7 ∷ [] }
    ensures own { unrevoked (telling (7 ∷ 8 ∷ []) (7 ∷ []) ∷ []) ≡ write_of 8 ∷ [] }
    ensures earlier { unrevoked (telling (7 ∷ 8 ∷ []) [] ∷ telling (9 ∷ []) (6 ∷ 7 ∷ []) ∷ []) ≡ write_of 8 ∷ write_of 9 ∷ [] }
    ensures long_before { unrevoked (telling (7 ∷ []) [] ∷ telling [] [] ∷ telling [] (7 ∷ []) ∷ []) ≡ [] }
    ensures later { unrevoked (telling (9 ∷ []) (7 ∷ []) ∷ telling (7 ∷ []) [] ∷ []) ≡ write_of 9 ∷ write_of 7 ∷ [] }
{}

/// A law: after some writes a block has the bytes of its last one, and its own where there is none.
pub fn writes_on_cases()
    ensures last { bytes_after (record { block = 7; bytes = 1 ∷ [] } ∷ record { block = 7; bytes = 2 ∷ [] } ∷ []) 7 (0 ∷ []) ≡ 2 ∷ [] }
    ensures none { bytes_after (record { block = 7; bytes = 1 ∷ [] } ∷ record { block = 7; bytes = 2 ∷ [] } ∷ []) 8 (0 ∷ []) ≡ 0 ∷ [] }
{}

/// A law: the log begins behind the journal's first block and ends within its 16 blocks; a log that begins at 0 is empty.
pub fn bounds_on_cases()
    ensures all_blocks { has_sound_bounds 16 (bounds 1 16 15) ≡ true }
    ensures empty { has_sound_bounds 16 (bounds 1 16 0) ≡ true }
    ensures long { has_sound_bounds 16 (bounds 1 17 0) ≡ false }
    ensures over_super { has_sound_bounds 16 (bounds 0 16 0) ≡ false }
    ensures no_blocks { has_sound_bounds 16 (bounds 16 16 0) ≡ false }
    ensures before_first { has_sound_bounds 16 (bounds 2 16 1) ≡ false }
    ensures behind_end { has_sound_bounds 16 (bounds 1 16 16) ≡ false }
{}

/// A law: tags go on as far as whole ones fit, also where an identifier does not. What DELETED (4) says is not looked at.
pub fn ends_of_tags()
    ensures part_behind { tags_of false (header_bytes 1 9 ++ tag_bytes 7 0x2 ++ 0 ∷ 0 ∷ 0 ∷ 8 ∷ 0 ∷ 0 ∷ 0 ∷ []) ≡ record { block = 7; is_escaped = false } ∷ [] }
    ensures no_identifier { tags_of false (header_bytes 1 9 ++ tag_bytes 7 0) ≡ record { block = 7; is_escaped = false } ∷ [] }
    ensures none { tags_of false (header_bytes 1 9) ≡ [] }
    ensures deleted { tags_of false (header_bytes 1 9 ++ tag_bytes 7 0x6 ++ tag_bytes 8 0xe) ≡ record { block = 7; is_escaped = false } ∷ record { block = 8; is_escaped = false } ∷ [] }
    ensures behind_last { tags_of false (header_bytes 1 9 ++ tag_bytes 7 0xa ++ tag_bytes 8 0xa) ≡ record { block = 7; is_escaped = false } ∷ [] }
{}

/// A law: with 64BIT a tag has 12 bytes, a number in a revoke block has 8, and the higher half is behind the flags.
pub fn wide_tags_on_cases()
    ensures two { tags_of true (header_bytes 1 9 ++ tag_bytes 7 0 ++ big_bytes 4 1 ++ identifier ++ tag_bytes 8 0xb ++ big_bytes 4 0)
        ≡ record { block = 4294967303; is_escaped = false } ∷ record { block = 8; is_escaped = true } ∷ [] }
    ensures part_behind { tags_of true (header_bytes 1 9 ++ tag_bytes 7 0x2 ++ big_bytes 4 0 ++ tag_bytes 8 0xa) ≡ record { block = 7; is_escaped = false } ∷ [] }
    ensures revoked { revokes_of true (header_bytes 5 9 ++ big_bytes 4 32 ++ big_bytes 8 7 ++ big_bytes 8 4294967303) ≡ 7 ∷ 4294967303 ∷ [] }
    ensures part_revoked { revokes_of true (header_bytes 5 9 ++ big_bytes 4 31 ++ big_bytes 8 7 ++ big_bytes 8 8) ≡ 7 ∷ [] }
{}

/// A law: the numbers of a revoke block lie whole below its count and within it.
pub fn revoke_blocks_on_cases()
    ensures part { revokes_of false (header_bytes 5 9 ++ big_bytes 4 23 ++ big_bytes 4 7 ++ big_bytes 4 8) ≡ 7 ∷ [] }
    ensures large_count { revokes_of false (header_bytes 5 9 ++ big_bytes 4 100 ++ big_bytes 4 7) ≡ 7 ∷ [] }
    ensures small_count { revokes_of false (header_bytes 5 9 ++ big_bytes 4 0 ++ big_bytes 4 7) ≡ [] }
{}

/// A law: a commit alone is a transaction, where it has the magic. A transaction may have several descriptors and revokes, in any order, and
/// what stands in the place of a logged block is logged.
pub fn parts_of_transactions()
    ensures commit_alone { read_log false 9 no_writes [] (commit 9 ∷ []) ≡ no_writes ∷ [] }
    ensures no_magic { read_log false 9 no_writes [] (put_at 0 1 0 (commit 9) ∷ []) ≡ [] }
    ensures revoke_first { read_log false 9 no_writes [] (revoke 9 ∷ one_tag 9 ∷ (1 ∷ []) ∷ revoke 9 ∷ one_tag_of 8 9 ∷ (2 ∷ []) ∷ commit 9 ∷ [])
        ≡ record { writes = record { block = 7; bytes = 1 ∷ [] } ∷ record { block = 8; bytes = 2 ∷ [] } ∷ []; revoked = 7 ∷ 7 ∷ [] } ∷ [] }
    ensures logged_commit { read_log false 9 no_writes [] (one_tag 9 ∷ commit 9 ∷ commit 9 ∷ [])
        ≡ record { writes = record { block = 7; bytes = commit 9 } ∷ []; revoked = [] } ∷ [] }
    ensures next_number { read_log false 9 no_writes [] (commit 9 ∷ commit 9 ∷ []) ≡ no_writes ∷ [] }
    ensures large_number { read_log false 0x7fff_ffff no_writes [] (commit 0x7fff_ffff ∷ commit 0x8000_0000 ∷ []) ≡ no_writes ∷ no_writes ∷ [] }
    ensures second_descriptor_of_another { read_log false 9 no_writes [] (one_tag 9 ∷ (1 ∷ []) ∷ one_tag 10 ∷ (2 ∷ []) ∷ commit 9 ∷ []) ≡ [] }
    ensures superblock_type { read_log false 9 no_writes [] (header_bytes 4 9 ∷ commit 9 ∷ []) ≡ [] }
{}
