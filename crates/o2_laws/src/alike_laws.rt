// Laws of volumes that agree on the blocks that carry meaning, each the contract of a function that does nothing.
ghost use Rattle.std.specs.Prelude.{◌≡◌, ℕ, List, [], length, Some};
ghost use Rattle.o2_disk.specs.Image.{Image, block_at};
ghost use Rattle.o2_model.specs.declared.check.Check.{Check};
ghost use Rattle.o2_model.specs.Volume.{Volume, over, block_size, opened};
ghost use Rattle.o2_model.specs.AfterReplay.{contents_after_replay, geometry_after_replay, volume_contents, geometry_of};
ghost use Rattle.o2_laws.specs.Agrees.{AgreesOnOwned, AgreesBesideJournals, HasSoundJournalSupers};
ghost use Rattle.o2_model.specs.Claims.{claims_of};
ghost use Rattle.o2_model.specs.Consistent.{IsConsistent};
ghost use Rattle.o2_model.specs.Dirty.{dirty_slots};
ghost use Rattle.o2_model.specs.Failing.{failing, faults};
ghost use Rattle.o2_model.specs.Files.{shared_clusters};
ghost use Rattle.o2_model.specs.Owned.{is_owned};
ghost use Rattle.o2_model.specs.Structures.{unsupported_structure};

/// A law: where nothing fails, each check fails at the same blocks of blocks that agree on the owned ones, and so at none.
pub fn owned_blocks_tell_checks()
    ensures faults { (v : Volume) (at : ℕ → List ℕ) (c : Check) → failing v ≡ [] → AgreesOnOwned v at → faults (over v at) c ≡ faults v c }
    ensures none { (v : Volume) (at : ℕ → List ℕ) → failing v ≡ [] → AgreesOnOwned v at → failing (over v at) ≡ [] }
{}

/// A law: where nothing fails, blocks that agree on the owned ones have the same claims and the same owned blocks, structures outside
/// the profile, and dirty slots.
pub fn owned_blocks_tell_claims()
    ensures claims { (v : Volume) (at : ℕ → List ℕ) → failing v ≡ [] → AgreesOnOwned v at → claims_of (over v at) ≡ claims_of v }
    ensures owned { (v : Volume) (at : ℕ → List ℕ) (b : ℕ) → failing v ≡ [] → AgreesOnOwned v at → is_owned (over v at) b ≡ is_owned v b }
    ensures structures { (v : Volume) (at : ℕ → List ℕ) → failing v ≡ [] → AgreesOnOwned v at → unsupported_structure (over v at) ≡ unsupported_structure v }
    ensures slots { (v : Volume) (at : ℕ → List ℕ) → failing v ≡ [] → AgreesOnOwned v at → dirty_slots (over v at) ≡ dirty_slots v }
{}

/// A law: where nothing fails, blocks that agree on the owned ones have the same tree, files and sharing, and the same size, label and
/// journals.
pub fn owned_blocks_tell_contents()
    ensures sharing { (v : Volume) (at : ℕ → List ℕ) → failing v ≡ [] → AgreesOnOwned v at → shared_clusters (over v at) ≡ shared_clusters v }
    ensures contents { (v : Volume) (at : ℕ → List ℕ) → failing v ≡ [] → AgreesOnOwned v at → volume_contents (over v at) ≡ volume_contents v }
    ensures geometry { (v : Volume) (at : ℕ → List ℕ) → failing v ≡ [] → AgreesOnOwned v at → geometry_of (over v at) ≡ geometry_of v }
{}

/// A law: an image of the same length that agrees with a consistent one on its owned blocks has the same volume over its own blocks. It
/// is consistent too, with the same contents, size, label and journals.
pub fn images_alike_are_consistent()
    ensures opened { (I X : Image) (h : IsConsistent I) → length X ≡ length I → AgreesOnOwned h.volume (block_at (block_size h.volume) X)
        → opened X ≡ Some (over h.volume (block_at (block_size h.volume) X)) }
    ensures consistent { (I X : Image) (h : IsConsistent I) → length X ≡ length I → AgreesOnOwned h.volume (block_at (block_size h.volume) X) → IsConsistent X }
    ensures contents { (I X : Image) (h : IsConsistent I) → length X ≡ length I → AgreesOnOwned h.volume (block_at (block_size h.volume) X)
        → contents_after_replay X ≡ contents_after_replay I }
    ensures geometry { (I X : Image) (h : IsConsistent I) → length X ≡ length I → AgreesOnOwned h.volume (block_at (block_size h.volume) X)
        → geometry_after_replay X ≡ geometry_after_replay I }
{}

/// A law: so is an image that agrees with a consistent one on its owned blocks but the first ones of journals, where each journal begins
/// with a sound superblock of known features. Whatever stands there, it has the same volume over its own blocks, with the same contents,
/// size, label and journals. What a commit writes into a journal's superblock is of that kind.
pub fn images_alike_beside_journals_are_consistent()
    ensures opened { (I X : Image) (h : IsConsistent I) → length X ≡ length I → AgreesBesideJournals h.volume (block_at (block_size h.volume) X)
        → opened X ≡ Some (over h.volume (block_at (block_size h.volume) X)) }
    ensures consistent { (I X : Image) (h : IsConsistent I) → length X ≡ length I → AgreesBesideJournals h.volume (block_at (block_size h.volume) X)
        → HasSoundJournalSupers h.volume (block_at (block_size h.volume) X) → IsConsistent X }
    ensures contents { (I X : Image) (h : IsConsistent I) → length X ≡ length I → AgreesBesideJournals h.volume (block_at (block_size h.volume) X)
        → contents_after_replay X ≡ contents_after_replay I }
    ensures geometry { (I X : Image) (h : IsConsistent I) → length X ≡ length I → AgreesBesideJournals h.volume (block_at (block_size h.volume) X)
        → geometry_after_replay X ≡ geometry_after_replay I }
{}
