// What is computed of the blocks of images, for the laws about these.
ghost use Rattle.std.specs.Prelude.{◌≡◌, [], ◌∷◌, Some, None, codes};
ghost use Rattle.o2_model.specs.Contents.{content_of};
ghost use Rattle.o2_model.specs.Contents.Content.{Bytes};
ghost use Rattle.o2_model.specs.declared.check.Check.TheVariants.{JournalDirty};
ghost use Rattle.o2_model.specs.Anchors.{log_fault};
ghost use Rattle.o2_model.specs.Failing.{failing};
ghost use Rattle.o2_model.specs.Structures.{unsupported_structure};
ghost use Rattle.o2_replay_cases.specs.WholeImages.{CanBeReplayed, HasOneWrite, IsVolume, clean_blocks, dirty_blocks, harmful_blocks, stopped_blocks};
ghost use Rattle.o2_cases_volumes.specs.WholeVolume.{on_device, volume_with, whole_block};

/// A law: block 2 of each is the superblock.
pub fn blocks_are_volumes()
    ensures whole { IsVolume whole_block }
    ensures dirty { IsVolume dirty_blocks }
    ensures clean { IsVolume clean_blocks }
    ensures stopped { IsVolume stopped_blocks }
    ensures harmful { IsVolume harmful_blocks }
{}

/// A law: the journal is dirty before the replay, and nothing fails after it.
pub fn failures_of_blocks()
    ensures dirty { failing (volume_with dirty_blocks) ≡ (JournalDirty, 25) ∷ [] }
    ensures clean { failing (volume_with clean_blocks) ≡ [] }
    ensures clean_structures { unsupported_structure (volume_with clean_blocks) ≡ None }
    ensures new_content { content_of (volume_with clean_blocks) 30 ≡ Bytes (codes "world") }
{}

/// A law: the log has one write, and a replay may be started before and behind it; where it writes into the system directory, it may
/// not.
pub fn replays_of_blocks()
    ensures write { HasOneWrite dirty_blocks clean_blocks 25 88 }
    ensures put { on_device stopped_blocks 88 ≡ on_device clean_blocks 88 }
    ensures before { CanBeReplayed dirty_blocks }
    ensures behind { CanBeReplayed stopped_blocks }
    ensures harmful { log_fault (volume_with harmful_blocks) ≡ Some (0, 17) }
{}
