// Laws of consistent images and of replays, each the contract of a function that does nothing.
ghost use Rattle.std.specs.Prelude.{◌≡◌, Some, [], ◌∷◌, ℕ, length, map, nat_eq};
ghost use Rattle.std.specs.List.{IsDistinct};
ghost use Rattle.o2_disk.specs.Image.{Image};
ghost use Rattle.o2_model.specs.Volume.{Volume, opened};
ghost use Rattle.o2_model.specs.Consistent.{IsConsistent};
ghost use Rattle.o2_model.specs.Logs.{Transaction};
ghost use Rattle.o2_model.specs.Dirty.{dirty_slots, log_of, committed_writes, all_committed_writes};
ghost use Rattle.o2_model.specs.Replay.{replayed};
ghost use Rattle.o2_model.specs.TornReplays.{IsPartialReplay};
ghost use Rattle.o2_model.specs.Recoverable.{IsRecoverable, IsRepairable, IsReplayable, IsReplayStable};
ghost use Rattle.o2_replay_laws.specs.FourImages.{HasOneLog, AreFourReplayable};

/// A law: a consistent image has nothing to replay, so that a replay leaves it as it is.
pub fn consistent_image_stays()
    ensures slots { (I : Image) (v : Volume) → IsConsistent I → opened I ≡ Some v → dirty_slots v ≡ [] }
    ensures writes { (v : Volume) → dirty_slots v ≡ [] → all_committed_writes v ≡ [] }
    ensures image { (I : Image) → IsConsistent I → replayed I ≡ I }
{}

/// A law: a torn replay of an image with nothing dirty leaves that image alone.
pub fn clean_image_has_no_variant()
    ensures { (I V : Image) (v : Volume) → opened I ≡ Some v → dirty_slots v ≡ [] → IsPartialReplay I V → V ≡ I }
{}

/// A law: a replay-stable image can be replayed itself, as it is one that a torn replay of it leaves.
pub fn stable_image_can_be_replayed()
    ensures itself { (I : Image) (v : Volume) → opened I ≡ Some v → IsPartialReplay I I }
    ensures now { (I : Image) (h : IsReplayStable I) → IsReplayable h.volume I }
{}

/// A law: a replay keeps the number of sectors.
pub fn replay_keeps_length()
    ensures { (I : Image) → length (replayed I) ≡ length I }
{}

/// A law: a consistent image is recoverable, as there is nothing to replay, and a recoverable one is repairable.
pub fn consistent_images_are_recoverable()
    ensures recoverable { (I : Image) → IsConsistent I → IsRecoverable I }
    ensures repairable { (I : Image) → IsRecoverable I → IsRepairable I }
{}

/// A law: where one slot is dirty, its log writes each block once and four images can be replayed, a replay may be stopped and started
/// again. A log of one transaction writes each block once where the transaction names no block twice.
pub fn four_images_tell_stability()
    ensures stable { (I : Image) (v : Volume) (slot journal : ℕ) → HasOneLog I v slot journal → AreFourReplayable I v → IsReplayStable I }
    ensures one_transaction { (v : Volume) (slot : ℕ) (t : Transaction) → log_of v slot ≡ t ∷ [] → IsDistinct nat_eq (map (λ w. w.block) t.writes)
        → IsDistinct nat_eq (map (λ w. w.block) (committed_writes v slot)) }
{}
