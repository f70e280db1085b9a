// The claims of structures: what stands up to the first group descriptor, later descriptors, backups, and groups of blocks.
ghost use Rattle.std.specs.Prelude.{◌≡◌, ◌^◌, ◌-◌, ◌+◌, ◌*◌, ◌<◌, nat_lt, [], ◌∷◌, filter, flat_map, IfOk, OnOk};
ghost use Rattle.o2_model.specs.declared.claim.Owner.TheVariants as owner;
ghost use Rattle.o2_model.specs.Volume.{Volume};
ghost use Rattle.o2_model.specs.Groups.{is_of_clusters};
ghost use Rattle.o2_model.specs.ClusterGroups.{backup_clusters};
ghost use Rattle.o2_model.specs.Claims as model;
ghost use Rattle.o2_tables.specs.Rows.{IsGroupTable};
ghost use Rattle.o2_view.specs.Geos.{HasSizes, HasNumbers, bare};
ghost use Rattle.o2_claims.specs.Owners.{clusters_of, AreOwners};
ghost use Rattle.o2_judges_claims.specs.Adding.{AddsClaims};
ghost use Rattle.o2_judges_claims.specs.ClaimRows.{super_claims, descriptor_claims, group_claims};

use crate::once::{claim_number, claim_run};
use o2_claims::Claims;
use o2_disk::NoMemory;
use o2_extent::blocks_per_cluster;
use o2_judges_alloc::{group_count, group_size};
use o2_model::{BitUse, Geo, Owner};
use o2_tables::GroupRow;
use std::alloc::Global;

// The feature that a volume with backups of its superblock has: OCFS2_FEATURE_COMPAT_BACKUP_SB.
const BACKUP_SUPER: u32 = 0x1;

/// Adds the claims of the clusters up to the first group descriptor.
fn claim_super(claims: &mut Claims, geo: &Geo) -> Result<(), NoMemory>
    requires sizes { HasSizes geo.now }
    requires numbers { HasNumbers geo.now }
    ensures clusters { clusters_of claims.new ≡ clusters_of claims.old }
    ensures owners { OnOk result (AddsClaims (super_claims geo.now) claims.old claims.new) }
{
    let last = geo.first_group / blocks_per_cluster(geo);
    claim_run(claims, 0, (last + 1) as u32, Owner::Super)
}

/// Adds the claims of later group descriptors.
fn claim_descriptors(claims: &mut Claims, geo: &Geo) -> Result<(), NoMemory>
    requires { HasSizes geo.now }
    ensures clusters { clusters_of claims.new ≡ clusters_of claims.old }
    ensures owners { OnOk result (AddsClaims (descriptor_claims geo.now) claims.old claims.new) }
{
    let size = group_size(geo);
    let count = group_count(geo);
    for i in 1..count {
        claim_number(claims, i * size, Owner::GlobalGroup)?;
    }
    Ok(())
}

/// Adds the claim of a backup, if the volume goes so far.
fn claim_backup(claims: &mut Claims, geo: &Geo, k: u32) -> Result<(), NoMemory>
    requires sizes { HasSizes geo.now }
    requires backup { k < 6 }
    ensures clusters { clusters_of claims.new ≡ clusters_of claims.old }
    ensures owners { OnOk result (AddsClaims (model.claims_by owner.Backup (filter (λ c. nat_lt c geo.now.clusters) (2 ^ (30 + 2 * k - geo.now.cluster_bits) ∷ []))) claims.old claims.new) }
{
    let cluster = 1u64 << (30 + 2 * k - geo.cluster_bits);
    if cluster < u64::from(geo.clusters) {
        claim_number(claims, cluster, Owner::Backup)?;
    }
    Ok(())
}

/// Adds the claims of the superblock's backups.
fn claim_backups(claims: &mut Claims, geo: &Geo) -> Result<(), NoMemory>
    requires { HasSizes geo.now }
    ensures clusters { clusters_of claims.new ≡ clusters_of claims.old }
    ensures owners { OnOk result (AddsClaims (model.claims_by owner.Backup (backup_clusters (bare geo.now))) claims.old claims.new) }
{
    if geo.compat & BACKUP_SUPER == 0 {
        return Ok(());
    }
    for k in 0..6u32 {
        claim_backup(claims, geo, k)?;
    }
    Ok(())
}

/// Whether it is a group of the global bitmap.
fn is_of_bitmap(row: &GroupRow) -> bool
    ensures { result ≡ is_of_clusters row.now.group }
{
    match row.group.of.bit_use {
        BitUse::Clusters => true,
        _ => false,
    }
}

/// Adds the claims of a group, if it is one of blocks.
fn claim_group(claims: &mut Claims, geo: &Geo, row: &GroupRow) -> Result<(), NoMemory>
    requires { HasSizes geo.now }
    ensures clusters { clusters_of claims.new ≡ clusters_of claims.old }
    ensures owners { OnOk result (AddsClaims (group_claims geo.now row.now) claims.old claims.new) }
{
    if is_of_bitmap(row) {
        return Ok(());
    }
    let per_cluster = blocks_per_cluster(geo);
    // The clusters of a volume have numbers of 32 bits, so none has a group in another one.
    let Ok(start) = u32::try_from(row.group.block / per_cluster) else {
        return Err(NoMemory);
    };
    let count = u64::from(row.group.bits) / per_cluster;
    claim_run(
        claims,
        start,
        count as u32,
        Owner::Suballocator(row.group.of.block),
    )
}

/// Adds the claims of the groups of blocks.
fn claim_groups(claims: &mut Claims, geo: &Geo, groups: &[GroupRow]) -> Result<(), NoMemory>
    requires { HasSizes geo.now }
    ensures clusters { clusters_of claims.new ≡ clusters_of claims.old }
    ensures owners { OnOk result (AddsClaims (flat_map (group_claims geo.now) groups.now) claims.old claims.new) }
{
    for row in groups {
        claim_group(claims, geo, row)?;
    }
    Ok(())
}

/// The claims of structures in their order: the clusters up to the first group descriptor, later descriptors, backups of the
/// superblock, and groups of blocks. NoMemory where memory runs out.
pub fn structure_claims(alloc: Global, geo: &Geo, groups: &[GroupRow]) -> Result<Claims, NoMemory>
    requires sizes { HasSizes geo.now }
    requires numbers { HasNumbers geo.now }
    ensures clusters { IfOk result (λ claims. clusters_of claims ≡ geo.now.clusters) }
    ensures owners { IfOk result (λ claims. (v : Volume) → v.geo ≡ geo.now → IsGroupTable v groups.now → AreOwners (model.structure_claims v) claims) }
{
    let mut claims = Claims::new(alloc, geo.clusters)?;
    claim_super(&mut claims, geo)?;
    claim_descriptors(&mut claims, geo)?;
    claim_backups(&mut claims, geo)?;
    claim_groups(&mut claims, geo, groups)?;
    Ok(claims)
}
