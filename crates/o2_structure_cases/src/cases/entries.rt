// Entries of a directory on single cases.
ghost use Rattle.std.specs.Prelude.{◌≡◌, [], ◌∷◌, ◌++◌, true, false, codes, Some, None};
ghost use Rattle.o2_model.specs.Directories.{entries_in, entry_at_front, has_entry, is_live};
ghost use Rattle.o2_cases_volumes.specs.SmallEntries.{entry_bytes, live_bytes, name_bytes, void_bytes};

/// A law: an entry stands at the front of the bytes that it fills. It does not where its length is 0 or no multiple of 4, goes
/// beyond the bytes, or is too short for a live entry's name; a void entry's name has no bytes.
pub fn has_entry_on_cases()
    ensures fills { has_entry (live_bytes 16) ≡ true }
    ensures no_length { has_entry (live_bytes 0) ≡ false }
    ensures odd { has_entry (live_bytes 14) ≡ false }
    ensures short { has_entry (void_bytes 8) ≡ false }
    ensures crossing { has_entry (live_bytes 20) ≡ false }
    ensures long_name { has_entry (entry_bytes 7 16 5 name_bytes) ≡ false }
    ensures long_void_name { has_entry (entry_bytes 0 16 5 name_bytes) ≡ true }
    ensures live { is_live (entry_at_front (live_bytes 16)) ≡ true }
    ensures void { is_live (entry_at_front (void_bytes 12)) ≡ false }
{}

/// A law: the entries that fill some bytes are found, and none where the last of them does not end with the bytes.
pub fn entries_on_cases()
    ensures one { entries_in (live_bytes 16)
        ≡ Some (record { fields = record { inode = 7; rec_len = 16; name_len = 1; file_type = 1 }; name = codes "f" } ∷ []) }
    ensures two { entries_in (void_bytes 12 ++ live_bytes 16)
        ≡ Some (entry_at_front (void_bytes 12) ∷ entry_at_front (live_bytes 16) ∷ []) }
    ensures no_bytes { entries_in [] ≡ Some [] }
    ensures no_length { entries_in (live_bytes 0) ≡ None }
    ensures short { entries_in (live_bytes 12) ≡ None }
    ensures crossing { entries_in (void_bytes 12 ++ live_bytes 20) ≡ None }
{}
