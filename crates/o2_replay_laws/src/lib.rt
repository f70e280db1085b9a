//! The laws of replays: consistent images have nothing to replay, and when a replay may be stopped. No reader stands on them.
#![tactic(auto)]

mod replay_laws;

pub use replay_laws::{
    clean_image_has_no_variant, consistent_image_stays, consistent_images_are_recoverable,
    four_images_tell_stability, replay_keeps_length, stable_image_can_be_replayed,
};
