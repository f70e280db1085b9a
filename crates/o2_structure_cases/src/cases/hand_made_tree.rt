// A tree made by hand on a volume without system files.
ghost use Rattle.std.specs.Prelude.{◌≡◌, [], ◌∷◌, codes};
ghost use Rattle.o2_model.specs.declared.check.Check.TheVariants.{Sysfile};
ghost use Rattle.o2_model.specs.Contents.{byte_of, content_of};
ghost use Rattle.o2_model.specs.Contents.Content.{Entries};
ghost use Rattle.o2_model.specs.Failing.{failing};
ghost use Rattle.o2_model.specs.Inodes.{leaf_records};
ghost use Rattle.o2_structure_cases.specs.HandMadeTree.{tree_volume};
ghost use Rattle.o2_cases_volumes.specs.SmallFiles.{leaf_at};

/// A law: the directory and the file are read, 4096 bytes of it and then zeros; but the volume's own files are missing, which is told
/// alone.
pub fn hand_made_tree_is_read()
    ensures directory { content_of tree_volume 5 ≡ Entries ((5, 2, codes ".") ∷ (5, 2, codes "..") ∷ (8, 1, codes "a") ∷ []) }
    ensures records { leaf_records tree_volume 8 ≡ leaf_at 0 1 0 10 ∷ [] }
    ensures first { byte_of tree_volume (leaf_records tree_volume 8) 0 ≡ 0x61 }
    ensures last { byte_of tree_volume (leaf_records tree_volume 8) 4095 ≡ 0x61 }
    ensures behind { byte_of tree_volume (leaf_records tree_volume 8) 4096 ≡ 0 }
    ensures failing { failing tree_volume ≡ (Sysfile, 6) ∷ [] }
{}
