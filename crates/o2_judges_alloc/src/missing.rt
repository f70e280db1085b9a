// GROUP_MISSING: the walk reaches each group of the global bitmap.
ghost use Rattle.std.specs.Prelude.{◌≡◌, List, [], ◌∷◌, ◌++◌, IfOk, OnOk};
ghost use Rattle.o2_model.specs.declared.check.Check.TheVariants as check;
ghost use Rattle.o2_model.specs.Words.{push};
ghost use Rattle.o2_model.specs.Faults.{those_not};
ghost use Rattle.o2_model.specs.Orders.{rising};
ghost use Rattle.o2_model.specs.Volume.{Volume};
ghost use Rattle.o2_model.specs.Checks.GroupMissing.{bitmap_places};
ghost use Rattle.o2_model.specs.Failing.{faults};
ghost use Rattle.o2_tally.specs.Again.{has_number};
ghost use Rattle.o2_tables.specs.declared.groups.GroupRow.{GroupRow};
ghost use Rattle.o2_tables.specs.Rows.{IsGroupTable};
ghost use Rattle.o2_view.specs.Geos.{HasSizes, bare};
ghost use Rattle.o2_judges_alloc.specs.GroupRows.{AreReached};

use crate::bit_use::is_of_bitmap;
use crate::places::{group_count, group_place};
use o2_disk::NoMemory;
use o2_model::Geo;
use o2_tables::GroupRow;
use o2_tally::{add_number, put};
use std::alloc::Global;
use std::collections::BTreeSet;

/// Puts the block of a group among them, if it is one of the global bitmap. Where memory runs out, they are as before.
fn add_reached(reached: &mut BTreeSet<u64>, row: &GroupRow) -> Result<(), NoMemory>
    ensures { OnOk result ((rows : List GroupRow) → AreReached rows reached.old → AreReached (push rows row.now) reached.new) }
{
    if is_of_bitmap(row) {
        add_number(reached, row.group.block)?;
    }
    Ok(())
}

/// The blocks of the groups of the global bitmap.
fn reached_blocks(alloc: Global, groups: &[GroupRow]) -> Result<BTreeSet<u64>, NoMemory>
    ensures { IfOk result (λ reached. AreReached groups.now reached) }
{
    let mut reached = BTreeSet::new(alloc);
    for row in groups {
        add_reached(&mut reached, row)?;
    }
    Ok(reached)
}

/// Puts a place with the missing ones, unless it was reached.
fn judge_place(missing: &mut Vec<u64>, place: u64, reached: &BTreeSet<u64>) -> Result<(), NoMemory>
    ensures { OnOk result (missing.new.items ≡ missing.old.items ++ those_not (has_number reached.now) (place ∷ [])) }
{
    if !reached.contains(&place) {
        put(missing, place)?;
    }
    Ok(())
}

/// The places of groups that were not reached.
fn places_not_in(alloc: Global, geo: &Geo, reached: &BTreeSet<u64>) -> Result<Vec<u64>, NoMemory>
    requires { HasSizes geo.now }
    ensures { IfOk result (λ places. places.items ≡ those_not (has_number reached.now) (bitmap_places (bare geo.now))) }
{
    let mut missing = Vec::new(alloc);
    let count = group_count(geo);
    for i in 0..count {
        judge_place(&mut missing, group_place(geo, i), reached)?;
    }
    Ok(missing)
}

/// The places of groups at which GROUP_MISSING fails, in a volume of these numbers. NoMemory where memory runs out.
pub fn group_missing(alloc: Global, geo: &Geo, groups: &[GroupRow]) -> Result<Vec<u64>, NoMemory>
    requires { HasSizes geo.now }
    ensures { IfOk result (λ blocks. (v : Volume) → v.geo ≡ geo.now → IsGroupTable v groups.now → rising blocks.items ≡ rising (faults v check.GroupMissing)) }
{
    let reached = reached_blocks(alloc, groups)?;
    places_not_in(alloc, geo, &reached)
}
