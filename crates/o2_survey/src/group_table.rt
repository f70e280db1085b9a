// The groups of a volume, as a table.
ghost use Rattle.std.specs.Prelude.{◌≡◌, ◌++◌, ◌∷◌, [], List, length, map, filter, IfOk, OnOk};
ghost use Rattle.std.specs.Result.{IfErr};
ghost use Rattle.o2_model.specs.declared.allocator.Group.{Group as Told};
ghost use Rattle.o2_model.specs.Groups.{groups as groups_told};
ghost use Rattle.o2_model.specs.Structures.{is_discontiguous};
ghost use Rattle.o2_model.specs.Volume.{Volume};
ghost use Rattle.o2_model.specs.Words.{push};
ghost use Rattle.o2_view.specs.Counted.{CallsAtMost};
ghost use Rattle.o2_view.specs.Geos.{LiesIn};
ghost use Rattle.o2_view.specs.OwnChecks.{BlockFails};
ghost use Rattle.o2_view.specs.Views.{view_state, Shows, OnlyReads};
ghost use Rattle.o2_chain.specs.Whole.{IsVolumeWalk};
ghost use Rattle.o2_tables.specs.Rows.{IsGroupTable};
ghost use Rattle.o2_survey.specs.GroupRows.{AreGroupRows};

use crate::group_rows::read_group;
use o2_chain::VolumeWalk;
use o2_disk::Disk;
use o2_model::{Geo, Group};
use o2_tables::{GroupRow, GroupTable};
use o2_tally::put;
use o2_view::{View, ViewFault};
use std::alloc::Global;

/// The groups that a walk met.
#[derive(Drop)]
pub struct GroupSurvey {
    /// In the order of the walk.
    pub rows: GroupTable,
    /// The blocks of those whose blocks lie in several places, in the same order.
    pub discontiguous: Vec<u64>,
}

/// Puts the row of the group at the end, and its block where it is discontiguous.
fn add_group<D: Disk, const N: usize>(
    alloc: Global,
    view: &mut View<'_, D, N>,
    geo: &Geo,
    group: Group,
    rows: &mut Vec<GroupRow>,
    discontiguous: &mut Vec<u64>,
) -> Result<(), ViewFault>
    requires { LiesIn geo.now view.old }
    ensures row { OnOk result ((v : Volume) → Shows view.old geo.now v → (before : List Told)
        → AreGroupRows v before rows.old.items → AreGroupRows v (push before group) rows.new.items) }
    ensures block { OnOk result ((v : Volume) → Shows view.old geo.now v
        → discontiguous.new.items ≡ discontiguous.old.items ++ filter (is_discontiguous v) (group.block ∷ [])) }
    ensures count { CallsAtMost 1 (view_state view.old) (view_state view.new) }
    ensures reads { OnlyReads view.old view.new }
    ensures fails { IfErr result (BlockFails view.old view.new) }
{
    let reading = read_group(alloc, view, geo, group)?;
    if reading.is_discontiguous {
        put(discontiguous, group.block)?;
    }
    put(rows, reading.row)?;
    Ok(())
}

/// The rows of these groups, in their order, and which are discontiguous.
fn survey<D: Disk, const N: usize>(
    alloc: Global,
    view: &mut View<'_, D, N>,
    geo: &Geo,
    groups: &[Group],
) -> Result<GroupSurvey, ViewFault>
    requires { LiesIn geo.now view.old }
    ensures rows { IfOk result (λ found. (v : Volume) → Shows view.old geo.now v → AreGroupRows v groups.now found.rows) }
    ensures discontiguous { IfOk result (λ found. (v : Volume) → Shows view.old geo.now v
        → found.discontiguous.items ≡ filter (is_discontiguous v) (map (λ g. g.block) groups.now)) }
    ensures count { CallsAtMost (length groups.now) (view_state view.old) (view_state view.new) }
    ensures reads { OnlyReads view.old view.new }
    ensures fails { IfErr result (BlockFails view.old view.new) }
{
    let mut rows = Vec::new(alloc);
    let mut discontiguous = Vec::new(alloc);
    for group in groups {
        add_group(alloc, view, geo, *group, &mut rows, &mut discontiguous)?;
    }
    Ok(GroupSurvey {
        rows: GroupTable::from(rows),
        discontiguous,
    })
}

/// The groups that the walk met, with what their descriptors say and their bits, in its order, and which of them are
/// discontiguous. Each descriptor is read once. NoMemory where memory runs out, or a group has no room in the volume, so that no
/// volume has the walk; DeviceFault where a read fails.
pub fn groups<D: Disk, const N: usize>(
    alloc: Global,
    view: &mut View<'_, D, N>,
    geo: &Geo,
    walk: &VolumeWalk,
) -> Result<GroupSurvey, ViewFault>
    requires { LiesIn geo.now view.old }
    ensures told { IfOk result (λ found. (v : Volume) → Shows view.old geo.now v → IsVolumeWalk v walk.now → IsGroupTable v found.rows) }
    ensures discontiguous { IfOk result (λ found. (v : Volume) → Shows view.old geo.now v → IsVolumeWalk v walk.now
        → found.discontiguous.items ≡ filter (is_discontiguous v) (map (λ g. g.block) (groups_told v))) }
    ensures count { CallsAtMost (length walk.now.groups) (view_state view.old) (view_state view.new) }
    ensures reads { OnlyReads view.old view.new }
    ensures fails { IfErr result (BlockFails view.old view.new) }
{
    survey(alloc, view, geo, walk.groups.as_slice())
}
