// What SUPER asks of the numbers of the superblock.
ghost use Rattle.std.specs.Prelude.{◌≡◌, ◌-◌, ◌+◌, ◌*◌, ◌/◌, ◌^◌, ◌≤◌, ◌<◌, true, map};
ghost use Rattle.std.specs.List.{range_with_len};
ghost use Rattle.o2_view.specs.Geos.{HasSizes};
ghost use Rattle.o2_model.specs.Words.{among};
ghost use Rattle.o2_model.specs.ClusterGroups.{backup_clusters};
ghost use Rattle.o2_model.specs.Checks.Super.{has_sound_sizes as are_sound_sizes, has_sound_first_group as is_sound_first_group, has_sound_directories as are_sound_directories, has_sound_numbers};
ghost use Rattle.o2_model.specs.Volume.{Volume};
ghost use Rattle.o2_skeleton.specs.Numbers.{is_place, FitsIn};

use o2_extent::{block_bytes, blocks_per_cluster, volume_blocks};
use o2_model::Geo;

/// The bit of the features that a volume with backups of its superblock has.
const BACKUP_SUPER: u32 = 0x1;

/// Whether a cluster has 4 KiB to 1 MiB, and whether there are 1 to 255 slots.
fn has_sound_sizes(geo: &Geo) -> bool
    requires least { 9 ≤ geo.now.block_bits }
    requires most { geo.now.block_bits ≤ 12 }
    ensures told { (v : Volume) → v.geo ≡ geo.now → result ≡ are_sound_sizes v }
    ensures sizes { result ≡ true → HasSizes geo.now }
{
    12 <= geo.cluster_bits && geo.cluster_bits <= 20 && 1 <= geo.slots && geo.slots <= 255
}

/// Whether one of the six backups has its place in the cluster, be the volume that long or not.
fn is_backup_place(cluster_bits: u32, cluster: u64) -> bool
    requires { cluster_bits ≤ 20 }
    ensures { result ≡ among (map (λ k. 2 ^ (30 + 2 * k - cluster_bits)) (range_with_len 0 6)) cluster }
{
    for k in 0..6u32 {
        if cluster == 1u64 << (30 + 2 * k - cluster_bits) {
            return true;
        }
    }
    false
}

/// Whether a backup of the superblock stands in the cluster.
fn is_of_backup(geo: &Geo, cluster: u64) -> bool
    requires { HasSizes geo.now }
    ensures { (v : Volume) → v.geo ≡ geo.now → result ≡ among (backup_clusters v) cluster }
{
    if geo.compat & BACKUP_SUPER == 0 {
        return false;
    }
    cluster < u64::from(geo.clusters) && is_backup_place(geo.cluster_bits, cluster)
}

/// Whether the first group descriptor begins a cluster behind the superblock that is of the first group and of the volume.
fn has_place(geo: &Geo, per_cluster: u64, group_size: u64) -> bool
    requires { 1 ≤ per_cluster }
    ensures { result ≡ is_place per_cluster group_size geo.now }
{
    let cluster = geo.first_group / per_cluster;
    let clusters = u64::from(geo.clusters);
    geo.first_group % per_cluster == 0
        && 3 <= geo.first_group
        && cluster < group_size
        && cluster < clusters
}

/// Whether the first group descriptor has such a place, which is none of a backup.
fn has_sound_first_group(geo: &Geo) -> bool
    requires { HasSizes geo.now }
    ensures { (v : Volume) → v.geo ≡ geo.now → result ≡ is_sound_first_group v }
{
    let per_cluster = blocks_per_cluster(geo);
    let group_size = 8 * (block_bytes(geo) - 64);
    if !has_place(geo, per_cluster, group_size) {
        return false;
    }
    !is_of_backup(geo, geo.first_group / per_cluster)
}

/// Whether the root and the system directory are two blocks of the volume.
fn has_sound_directories(geo: &Geo) -> bool
    requires { HasSizes geo.now }
    ensures { (v : Volume) → v.geo ≡ geo.now → result ≡ are_sound_directories v }
{
    let blocks = volume_blocks(geo);
    0 < geo.root
        && geo.root < blocks
        && 0 < geo.sysdir
        && geo.sysdir < blocks
        && geo.root != geo.sysdir
}

/// Whether the numbers fit one another and a device of so many blocks.
pub fn are_sound_numbers(geo: &Geo, on_device: u64) -> bool
    requires least { 9 ≤ geo.now.block_bits }
    requires most { geo.now.block_bits ≤ 12 }
    ensures told { (v : Volume) → v.geo ≡ geo.now → on_device ≡ v.on_device → result ≡ has_sound_numbers v }
    ensures within { result ≡ true → FitsIn geo.now on_device }
{
    if !has_sound_sizes(geo) {
        return false;
    }
    if !has_sound_first_group(geo) {
        return false;
    }
    if on_device < volume_blocks(geo) {
        return false;
    }
    has_sound_directories(geo)
}
