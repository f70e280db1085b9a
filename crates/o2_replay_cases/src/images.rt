// A consistent image, and one that a replay makes consistent, also where it is stopped and started again.
ghost use Rattle.std.specs.Prelude.{◌≡◌, ◌⊎◌, [], ◌∷◌, Some};
ghost use Rattle.o2_disk.specs.Image.{Image};
ghost use Rattle.o2_model.specs.AfterReplay.{contents_after_replay, geometry_after_replay, volume_contents, geometry_of};
ghost use Rattle.o2_model.specs.Consistent.{IsConsistent, failing_checks};
ghost use Rattle.o2_model.specs.TornReplays.{IsPartialReplay};
ghost use Rattle.o2_model.specs.Recoverable.{IsRecoverable, IsRepairable, IsReplayStable};
ghost use Rattle.o2_model.specs.Replay.{replayed};
ghost use Rattle.o2_model.specs.Volume.{opened};
ghost use Rattle.o2_model.specs.declared.check.Check.TheVariants.{JournalDirty};
ghost use Rattle.o2_replay_cases.specs.WholeImages.{clean_blocks, dirty_image, harmful_image, replayed_image, stopped_image, whole_image};
ghost use Rattle.o2_cases_volumes.specs.WholeVolume.{volume_with, whole};

use crate::cases::blocks_of_images::{blocks_are_volumes, failures_of_blocks, replays_of_blocks};
use o2_cases_volumes::whole_volume_is_sound;

/// A law: the image of the whole volume is consistent, so that there are consistent images.
pub fn whole_image_is_consistent()
    ensures opened { opened whole_image ≡ Some whole }
    ensures consistent { IsConsistent whole_image }
{
    blocks_are_volumes();
    whole_volume_is_sound();
}

/// A law: where the journal is dirty, that alone fails. A replay makes the image consistent, with the log's write in its block.
pub fn dirty_image_is_replayed()
    ensures dirty { failing_checks dirty_image ≡ (JournalDirty, 25) ∷ [] }
    ensures not_consistent { IsConsistent dirty_image → ⊥ }
    ensures replayed { replayed dirty_image ≡ replayed_image }
    ensures consistent { IsConsistent (replayed dirty_image) }
    ensures contents { contents_after_replay dirty_image ≡ Some (volume_contents (volume_with clean_blocks)) }
    ensures geometry { geometry_after_replay dirty_image ≡ Some (geometry_of (volume_with clean_blocks)) }
{
    blocks_are_volumes();
    failures_of_blocks();
    replays_of_blocks();
}

/// A law: a replay that was stopped leaves the image as it was, or with the log's write in its block, and nothing else.
pub fn torn_replays_on_cases()
    ensures old { IsPartialReplay dirty_image dirty_image }
    ensures written { IsPartialReplay dirty_image stopped_image }
    ensures nothing_else { (V : Image) → IsPartialReplay dirty_image V → (V ≡ dirty_image) ⊎ (V ≡ stopped_image) }
{
    blocks_are_volumes();
    replays_of_blocks();
}

/// A law: so the image with the dirty journal is recoverable. One whose log writes into the system directory is not even stable.
pub fn recoverable_images_on_cases()
    ensures stable { IsReplayStable dirty_image }
    ensures recoverable { IsRecoverable dirty_image }
    ensures repairable { IsRepairable dirty_image }
    ensures harmful { IsReplayStable harmful_image → ⊥ }
{
    blocks_are_volumes();
    failures_of_blocks();
    replays_of_blocks();
}
