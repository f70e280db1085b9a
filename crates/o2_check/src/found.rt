// The owners of one cluster, found claim by claim: those of structures, and behind them those of inodes.
ghost use Rattle.std.specs.Prelude.{◌≡◌, ◌^◌, ◌-◌, ◌+◌, ◌*◌, ◌<◌, nat_lt, [], ◌∷◌, ◌++◌, filter, flat_map, OnOk};
ghost use Rattle.std.specs.List.{range_with_len};
ghost use Rattle.o2_model.specs.declared.claim.Owner.TheVariants as owner;
ghost use Rattle.o2_model.specs.Volume.{Volume};
ghost use Rattle.o2_model.specs.ClusterGroups.{backup_clusters};
ghost use Rattle.o2_model.specs.Claims.{claims_by, structure_claims, inode_claims};
ghost use Rattle.o2_tables.specs.Rows.{IsGroupTable, IsInodeTable};
ghost use Rattle.o2_view.specs.Geos.{HasSizes, HasNumbers, bare};
ghost use Rattle.o2_judges_claims.specs.ClaimRows.{super_claims, descriptor_claims, group_claims, runs_claims, row_claims};
ghost use Rattle.o2_check.specs.OwnersAt.{AddsOwners};

use o2_disk::NoMemory;
use o2_extent::blocks_per_cluster;
use o2_judges_alloc::{group_count, group_size};
use o2_model::{BitUse, Geo, Owner};
use o2_tables::{ClusterRun, GroupRow, InodeRow};
use o2_tally::put;

// The feature that a volume with backups of its superblock has: OCFS2_FEATURE_COMPAT_BACKUP_SB.
const BACKUP_SUPER: u32 = 0x1;

/// Adds the owner, if the run of `count` clusters from `start` on has the cluster.
fn add_in_run(
    owners: &mut Vec<Owner>,
    cluster: u64,
    start: u64,
    count: u64,
    owner: Owner,
) -> Result<(), NoMemory>
    ensures { OnOk result (AddsOwners (claims_by owner (range_with_len start count)) cluster owners.old.items owners.new.items) }
{
    if start <= cluster && cluster - start < count {
        put(owners, owner)?;
    }
    Ok(())
}

/// Adds the owner, if its cluster is this one.
fn add_at(owners: &mut Vec<Owner>, cluster: u64, number: u64, owner: Owner) -> Result<(), NoMemory>
    ensures { OnOk result (AddsOwners (record { owner = owner; cluster = number } ∷ []) cluster owners.old.items owners.new.items) }
{
    if number == cluster {
        put(owners, owner)?;
    }
    Ok(())
}

/// Adds the claims of the clusters up to the first group descriptor.
fn add_super(owners: &mut Vec<Owner>, cluster: u64, geo: &Geo) -> Result<(), NoMemory>
    requires sizes { HasSizes geo.now }
    requires numbers { HasNumbers geo.now }
    ensures { OnOk result (AddsOwners (super_claims geo.now) cluster owners.old.items owners.new.items) }
{
    let last = geo.first_group / blocks_per_cluster(geo);
    add_in_run(owners, cluster, 0, last + 1, Owner::Super)
}

/// Adds the claims of later group descriptors.
fn add_descriptors(owners: &mut Vec<Owner>, cluster: u64, geo: &Geo) -> Result<(), NoMemory>
    requires { HasSizes geo.now }
    ensures { OnOk result (AddsOwners (descriptor_claims geo.now) cluster owners.old.items owners.new.items) }
{
    let size = group_size(geo);
    let count = group_count(geo);
    for i in 1..count {
        add_at(owners, cluster, i * size, Owner::GlobalGroup)?;
    }
    Ok(())
}

/// Adds the claim of a backup, if the volume goes so far.
fn add_backup(owners: &mut Vec<Owner>, cluster: u64, geo: &Geo, k: u32) -> Result<(), NoMemory>
    requires sizes { HasSizes geo.now }
    requires backup { k < 6 }
    ensures { OnOk result (AddsOwners (claims_by owner.Backup (filter (λ c. nat_lt c geo.now.clusters) (2 ^ (30 + 2 * k - geo.now.cluster_bits) ∷ []))) cluster owners.old.items owners.new.items) }
{
    let number = 1u64 << (30 + 2 * k - geo.cluster_bits);
    if number < u64::from(geo.clusters) {
        add_at(owners, cluster, number, Owner::Backup)?;
    }
    Ok(())
}

/// Adds the claims of the superblock's backups.
fn add_backups(owners: &mut Vec<Owner>, cluster: u64, geo: &Geo) -> Result<(), NoMemory>
    requires { HasSizes geo.now }
    ensures { OnOk result (AddsOwners (claims_by owner.Backup (backup_clusters (bare geo.now))) cluster owners.old.items owners.new.items) }
{
    if geo.compat & BACKUP_SUPER == 0 {
        return Ok(());
    }
    for k in 0..6u32 {
        add_backup(owners, cluster, geo, k)?;
    }
    Ok(())
}

/// Adds the claims of a group, unless it is one of the global bitmap.
fn add_group(
    owners: &mut Vec<Owner>,
    cluster: u64,
    geo: &Geo,
    row: &GroupRow,
) -> Result<(), NoMemory>
    requires { HasSizes geo.now }
    ensures { OnOk result (AddsOwners (group_claims geo.now row.now) cluster owners.old.items owners.new.items) }
{
    match row.group.of.bit_use {
        BitUse::Clusters => Ok(()),
        _ => {
            let per_cluster = blocks_per_cluster(geo);
            let start = row.group.block / per_cluster;
            let count = u64::from(row.group.bits) / per_cluster;
            add_in_run(
                owners,
                cluster,
                start,
                count,
                Owner::Suballocator(row.group.of.block),
            )
        }
    }
}

/// Adds the claims of the groups of blocks.
fn add_groups(
    owners: &mut Vec<Owner>,
    cluster: u64,
    geo: &Geo,
    groups: &[GroupRow],
) -> Result<(), NoMemory>
    requires { HasSizes geo.now }
    ensures { OnOk result (AddsOwners (flat_map (group_claims geo.now) groups.now) cluster owners.old.items owners.new.items) }
{
    for row in groups {
        add_group(owners, cluster, geo, row)?;
    }
    Ok(())
}

/// Adds the owners of the cluster by the claims of structures, in their order. NoMemory where memory runs out.
pub fn add_structures(
    owners: &mut Vec<Owner>,
    cluster: u64,
    geo: &Geo,
    groups: &[GroupRow],
) -> Result<(), NoMemory>
    requires sizes { HasSizes geo.now }
    requires numbers { HasNumbers geo.now }
    ensures { OnOk result ((v : Volume) → v.geo ≡ geo.now → IsGroupTable v groups.now → AddsOwners (structure_claims v) cluster owners.old.items owners.new.items) }
{
    add_super(owners, cluster, geo)?;
    add_descriptors(owners, cluster, geo)?;
    add_backups(owners, cluster, geo)?;
    add_groups(owners, cluster, geo, groups)
}

/// Adds the inode for each of its runs that has the cluster.
fn add_runs(
    owners: &mut Vec<Owner>,
    cluster: u64,
    runs: &[ClusterRun],
    owner: Owner,
) -> Result<(), NoMemory>
    ensures { OnOk result (AddsOwners (runs_claims owner runs.now) cluster owners.old.items owners.new.items) }
{
    for run in runs {
        let start = u64::from(run.start);
        let count = u64::from(run.clusters);
        add_in_run(owners, cluster, start, count, owner)?;
    }
    Ok(())
}

fn add_rows(owners: &mut Vec<Owner>, cluster: u64, rows: &[InodeRow]) -> Result<(), NoMemory>
    ensures { OnOk result (AddsOwners (flat_map row_claims rows.now) cluster owners.old.items owners.new.items) }
{
    for row in rows {
        add_runs(
            owners,
            cluster,
            row.runs.as_slice(),
            Owner::Inode(row.block),
        )?;
    }
    Ok(())
}

/// Adds the owners of the cluster by the claims of inodes, rising. NoMemory where memory runs out.
pub fn add_inodes(owners: &mut Vec<Owner>, cluster: u64, rows: &[InodeRow]) -> Result<(), NoMemory>
    ensures { OnOk result ((v : Volume) → IsInodeTable v rows.now → AddsOwners (inode_claims v) cluster owners.old.items owners.new.items) }
{
    add_rows(owners, cluster, rows)
}
