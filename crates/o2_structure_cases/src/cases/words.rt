// Names, bits, numbers in order and hashes on single cases.
ghost use Rattle.std.specs.Prelude.{◌≡◌, ◌==◌, [], ◌∷◌, true, false, codes, replicate};
ghost use Rattle.o2_ondisk.specs.declared.superblock.DxSeed.{DxSeed};
ghost use Rattle.o2_model.specs.Orders.{later_like, rising};
ghost use Rattle.o2_model.specs.Groups.{is_bit_set_in};
ghost use Rattle.o2_ondisk.specs.NameHashes.{is_ascii_name, name_hash};
ghost use Rattle.o2_model.specs.SystemFiles.{system_name};
ghost use Rattle.o2_model.specs.declared.system_file.SlotFile.TheVariants.{Journal};
ghost use Rattle.o2_model.specs.declared.system_file.SystemFile.TheVariants.{OfSlot};
ghost use Rattle.o2_model.specs.Checks.DirentName.{is_sound_name};

/// A law: names of one letter are sound, and the empty name and one with a slash are not; a slot's number has four digits.
pub fn names_on_cases()
    ensures sound { is_sound_name (codes "f") ≡ true }
    ensures empty { is_sound_name [] ≡ false }
    ensures slash { is_sound_name (codes "a/b") ≡ false }
    ensures slot { system_name (OfSlot Journal 12) ≡ codes "journal:0012" }
{}

/// A law: bit 2 of a bitmap is the third lowest of its first byte, and bit 8 the lowest of its second.
pub fn bits_on_cases()
    ensures set { is_bit_set_in 0 (4 ∷ 1 ∷ []) 2 ≡ true }
    ensures clear { is_bit_set_in 0 (4 ∷ 1 ∷ []) 0 ≡ false }
    ensures further { is_bit_set_in 0 (4 ∷ 1 ∷ []) 8 ≡ true }
{}

/// A law: of numbers that come again, only the later ones are told; in order, each is told once.
pub fn orders_on_cases()
    ensures again { later_like (λ x y. x == y) (7 ∷ 5 ∷ 7 ∷ []) ≡ 7 ∷ [] }
    ensures once { rising (7 ∷ 5 ∷ 7 ∷ []) ≡ 5 ∷ 7 ∷ [] }
{}

/// A law: hashes of the dots, of a short name, and of one of more than 16 bytes.
pub fn hashes_on_cases()
    ensures dot { (seed : DxSeed) → name_hash seed (codes ".") ≡ record { major = 0; minor = 0 } }
    ensures dots { (seed : DxSeed) → name_hash seed (codes "..") ≡ record { major = 0; minor = 0 } }
    ensures short { name_hash (record { first = 1; second = 2; third = 3 }) (codes "lost+found") ≡ record { major = 0x8ef6_095a; minor = 0x27c3_ab27 } }
    ensures long { name_hash (record { first = 1; second = 2; third = 3 }) (codes "a name that is longer than one piece") ≡ record { major = 0xc4c5_735a; minor = 0x390d_fc9d } }
{}

/// A law: a name has 255 bytes at most, and no NUL.
pub fn lengths_of_names()
    ensures longest { is_sound_name (replicate 255 0x61) ≡ true }
    ensures longer { is_sound_name (replicate 256 0x61) ≡ false }
    ensures nul { is_sound_name (0x61 ∷ 0 ∷ []) ≡ false }
    ensures dot { is_sound_name (codes ".") ≡ true }
{}

/// A law: bytes from 128 on are not ASCII.
pub fn ascii_names_on_cases()
    ensures ascii { is_ascii_name (0x61 ∷ 0x7f ∷ []) ≡ true }
    ensures not_ascii { is_ascii_name (0x61 ∷ 0x80 ∷ []) ≡ false }
{}
