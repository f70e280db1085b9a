// The first owner of each cluster, as it is kept.
ghost use Rattle.std.specs.Prelude.{◌<◌, ◌^◌};
ghost use Rattle.o2_claims.specs.Keys.{LieBelow};

mod asked;
mod between;
mod free;
mod taken;

use o2_model::Owner;
use std::collections::BTreeMap;

/// The first owner of each cluster of a volume, as far as they were claimed.
#[derive(Drop)]
pub struct Claims {
    clusters: u32,
    first: BTreeMap<u32, Owner>,
    ghost fits: { clusters < 2 ^ 32 },
    ghost below: { LieBelow clusters first },
}
