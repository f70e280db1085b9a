// All owners of one cluster.
ghost use Rattle.std.specs.Prelude.{◌≡◌, ◌<◌, ◌≤◌, IfOk};
ghost use Rattle.std.specs.Result.{IfErr};
ghost use Rattle.o2_model.specs.Volume.{Volume};
ghost use Rattle.std.specs.Option.{option_to_list};
ghost use Rattle.o2_model.specs.Claims.{claims_of, owner_in};
ghost use Rattle.o2_view.specs.Views.{view_bits, view_blocks, Shows, OnlyReads};
ghost use Rattle.o2_view.specs.Geos.{LiesIn, HasSizes, HasNumbers};
ghost use Rattle.o2_view.specs.OwnChecks.{BlockFails, ReadFails};
ghost use Rattle.o2_skeleton.specs.Skeleton.{HasSkeleton, skeleton_checks};
ghost use Rattle.o2_skeleton.specs.SkeletonTables.{IsSkeleton};
ghost use Rattle.o2_check.specs.OwnersAt.{owners_in};
ghost use Rattle.o2_check.specs.WholeTables.{AreTables};

use crate::claims::judge_claims;
use crate::found::{add_inodes, add_structures};
use crate::tables::{Tables, read_tables};
use o2_disk::{Disk, NoMemory};
use o2_model::{Geo, Owner};
use o2_skeleton::{Skeleton, judge_skeleton};
use o2_tally::put;
use o2_view::{Items, ReadFault, View, ViewFault};
use std::alloc::Global;

/// Owners of a cluster, one for each claim of it, in the order of the claims.
pub type Owners = Items<Owner>;

/// The owners of a cluster. The view and the numbers are as for `check`. NoMemory where memory runs out, DeviceFault where a read
/// fails, Bad where a check of the skeleton fails: the first of them. Where structures or inodes have the cluster, nothing else does;
/// else an index, a window or a truncate record may.
pub fn owners<D: Disk, const N: usize>(
    alloc: Global,
    view: &mut View<'_, D, N>,
    geo: &Geo,
    cluster: u32,
) -> Result<Owners, ReadFault>
    requires bits { geo.now.block_bits ≡ view_bits view.old }
    requires least { 9 ≤ geo.now.block_bits }
    requires most { geo.now.block_bits ≤ 12 }
    requires device { (v : Volume) → Shows view.old geo.now v → view_blocks view.old ≡ v.on_device }
    requires within { cluster < geo.now.clusters }
    ensures told { IfOk result (λ owners. (v : Volume) → Shows view.old geo.now v → HasSkeleton v × (owners ≡ owners_in (claims_of v) cluster)) }
    ensures reads { OnlyReads view.old view.new }
    ensures fails { IfErr result (ReadFails view.old view.new geo.now skeleton_checks) }
{
    let skeleton = judge_skeleton(alloc, view, geo)?;
    Ok(owners_behind(alloc, view, geo, skeleton, cluster)?)
}

// The same, where the skeleton holds.
fn owners_behind<D: Disk, const N: usize>(
    alloc: Global,
    view: &mut View<'_, D, N>,
    geo: &Geo,
    skeleton: Skeleton,
    cluster: u32,
) -> Result<Owners, ViewFault>
    requires geo { LiesIn geo.now view.old }
    requires tables { (v : Volume) → Shows view.old geo.now v → IsSkeleton v skeleton }
    requires within { cluster < geo.now.clusters }
    ensures told { IfOk result (λ owners. (v : Volume) → Shows view.old geo.now v → owners ≡ owners_in (claims_of v) cluster) }
    ensures reads { OnlyReads view.old view.new }
    ensures fails { IfErr result (BlockFails view.old view.new) }
{
    let tables = read_tables(alloc, view, geo, skeleton)?;
    Ok(owners_by(alloc, geo, &tables, cluster)?)
}

// The same by the tables of the volume.
fn owners_by(alloc: Global, geo: &Geo, tables: &Tables, cluster: u32) -> Result<Owners, NoMemory>
    requires sizes { HasSizes geo.now }
    requires numbers { HasNumbers geo.now }
    requires within { cluster < geo.now.clusters }
    ensures { IfOk result (λ owners. (v : Volume) → v.geo ≡ geo.now → AreTables v tables.now → owners ≡ owners_in (claims_of v) cluster) }
{
    let mut owners = Vec::new(alloc);
    let groups = tables.skeleton.groups.as_slice();
    add_structures(&mut owners, u64::from(cluster), geo, groups)?;
    add_inodes(&mut owners, u64::from(cluster), &tables.inodes.rows)?;
    if owners.is_empty() {
        return first_owner(alloc, geo, tables, cluster);
    }
    Ok(Owners::from(owners))
}

// The first owner of all, if there is one.
fn first_owner(alloc: Global, geo: &Geo, tables: &Tables, cluster: u32) -> Result<Owners, NoMemory>
    requires sizes { HasSizes geo.now }
    requires numbers { HasNumbers geo.now }
    requires within { cluster < geo.now.clusters }
    ensures { IfOk result (λ owners. (v : Volume) → v.geo ≡ geo.now → AreTables v tables.now → owners ≡ option_to_list (owner_in (claims_of v) cluster)) }
{
    let judged = judge_claims(alloc, geo, tables)?;
    let mut owners = Vec::new(alloc);
    if let Some(owner) = judged.claims.owner(cluster) {
        put(&mut owners, owner)?;
    }
    Ok(Owners::from(owners))
}
