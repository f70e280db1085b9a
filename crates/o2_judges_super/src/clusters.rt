// Where the backups of the superblock stand.
ghost use Rattle.std.specs.Prelude.{◌≡◌, ◌-◌, ◌+◌, ◌*◌, ◌^◌, ◌<◌, ◌∷◌, ◌++◌, [], nat_lt, map, filter, if◌then◌else◌, IfOk, OnOk};
ghost use Rattle.std.specs.List.{range_with_len};
ghost use Rattle.o2_model.specs.Volume.{Volume};
ghost use Rattle.o2_model.specs.ClusterGroups.{backup_clusters as clusters_of_backups};
ghost use Rattle.o2_view.specs.Geos.{HasSizes};

use o2_disk::NoMemory;
use o2_model::Geo;
use o2_tally::put;
use std::alloc::Global;

/// The bit of the features that a volume with backups of its superblock has.
const BACKUP_SUPER: u32 = 0x1;

/// How many backups a volume can have.
const BACKUPS: u32 = 6;

/// The cluster of backup k, be the volume that long or not.
fn backup_cluster(geo: &Geo, k: u32) -> u64
    requires sizes { HasSizes geo.now }
    requires backup { k < 6 }
    ensures { result ≡ 2 ^ (30 + 2 * k - geo.now.cluster_bits) }
{
    1u64 << (30 + 2 * k - geo.cluster_bits)
}

/// Puts the cluster at the end, where the volume has it.
fn add_within(geo: &Geo, cluster: u64, found: &mut Vec<u64>) -> Result<(), NoMemory>
    ensures { OnOk result (found.new.items ≡ found.old.items ++ (if nat_lt cluster geo.now.clusters then cluster ∷ [] else [])) }
{
    if cluster < u64::from(geo.clusters) {
        put(found, cluster)?;
    }
    Ok(())
}

/// Those of the six clusters that the volume has.
fn within_volume(alloc: Global, geo: &Geo) -> Result<Vec<u64>, NoMemory>
    requires { HasSizes geo.now }
    ensures { IfOk result (λ found. found.items ≡ filter (λ c. nat_lt c geo.now.clusters) (map (λ k. 2 ^ (30 + 2 * k - geo.now.cluster_bits)) (range_with_len 0 6))) }
{
    let mut found = Vec::new(alloc);
    for k in 0..BACKUPS {
        add_within(geo, backup_cluster(geo, k), &mut found)?;
    }
    Ok(found)
}

/// The clusters of the superblock's backups: those of byte 1 GiB and of each fourfold up to 1 TiB, as far as the volume goes.
/// None where the volume has no backups. NoMemory where memory runs out.
pub fn backup_clusters(alloc: Global, geo: &Geo) -> Result<Vec<u64>, NoMemory>
    requires { HasSizes geo.now }
    ensures { IfOk result (λ found. (v : Volume) → v.geo ≡ geo.now → found.items ≡ clusters_of_backups v) }
{
    if geo.compat & BACKUP_SUPER == 0 {
        return Ok(Vec::new(alloc));
    }
    within_volume(alloc, geo)
}
