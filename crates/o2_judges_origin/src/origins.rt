// Where a block says that it is from.
ghost use Rattle.std.specs.Prelude.{◌≡◌, ◌<◌, Bool, OnOk};
ghost use Rattle.o2_model.specs.declared.allocator.BitUse.{BitUse};
ghost use Rattle.o2_model.specs.Faults.{fails_unless};
ghost use Rattle.o2_model.specs.Volume.{Volume};
ghost use Rattle.o2_model.specs.Metadata.{has_origin};
ghost use Rattle.o2_judges_origin.specs.Placed.{is_origin_in, AreOfVolume};
ghost use Rattle.o2_judges_origin.specs.OriginRows.{Adds};

use crate::{GroupPlace, PlacedGroups};
use o2_disk::NoMemory;
use o2_model::Origin;
use o2_tally::put;

/// Whether it tells the group and the bit of block b there.
fn is_of_group(place: &GroupPlace, origin: &Origin, b: u64) -> bool
    requires { place.now.block < b }
    ensures { result ≡ is_origin_in origin.now b place.now }
{
    origin.slot == place.slot
        && u64::from(origin.bit) == b - place.block
        && (origin.loc == 0 || origin.loc == place.block)
}

/// Whether it is right for block b, as it is where none of the groups has the block.
pub fn is_right(placed: &PlacedGroups, origin: &Origin, b: u64) -> bool
    ensures { (v : Volume) (is_use : BitUse → Bool) → AreOfVolume v is_use placed.now → result ≡ has_origin v is_use origin.now b }
{
    match placed.group_of(b) {
        Some(place) => is_of_group(&place, origin, b),
        None => true,
    }
}

/// Puts block b with those found, unless it is right.
pub fn judge(
    found: &mut Vec<u64>,
    placed: &PlacedGroups,
    origin: &Origin,
    b: u64,
) -> Result<(), NoMemory>
    ensures { OnOk result (Adds placed.now found.old.items found.new.items (λ v is_use. fails_unless b (has_origin v is_use origin.now b))) }
{
    if !is_right(placed, origin, b) {
        put(found, b)?;
    }
    Ok(())
}
