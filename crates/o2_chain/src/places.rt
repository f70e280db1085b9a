// Where groups may stand.
ghost use Rattle.std.specs.Prelude.{◌≡◌, ◌+◌, ◌-◌, ◌*◌, ◌/◌, ◌^◌, ◌<◌, ◌≤◌, ℕ, true, false};
ghost use Rattle.o2_model.specs.Words.{among};
ghost use Rattle.o2_model.specs.Volume.{Volume};
ghost use Rattle.o2_model.specs.ClusterGroups.{backup_clusters};
ghost use Rattle.o2_model.specs.Groups.{group_desc, is_bitmap_group, is_fixed};
ghost use Rattle.o2_view.specs.Geos.{HasSizes, blocks_of};

use o2_extent::{block_bytes, blocks_per_cluster};
use o2_model::Geo;

/// The bit of the features that a volume with backups of its superblock has.
const BACKUP_SUPER: u32 = 0x1;

/// The clusters of one group of the global bitmap.
pub fn group_size(geo: &Geo) -> u64
    requires { HasSizes geo.now }
    ensures size { result ≡ 8 * (2 ^ geo.now.block_bits - 64) }
    ensures some { 3584 ≤ result }
    ensures few { result ≤ 32256 }
{
    8 * (block_bytes(geo) - 64)
}

/// Whether a group of the global bitmap with so many bits has its place in block b of the volume.
pub fn is_bitmap_place(geo: &Geo, b: u64, bits: u64) -> bool
    requires sizes { HasSizes geo.now }
    ensures { (v : Volume) → v.geo ≡ geo.now → (group_desc v b).bits ≡ bits → result ≡ is_bitmap_group v b }
{
    let per_cluster = blocks_per_cluster(geo);
    let size = group_size(geo);
    let clusters = u64::from(geo.clusters);
    let index = b / per_cluster / size;
    if (clusters + size - 1) / size <= index {
        return false;
    }
    let first = index * size;
    let place = if index == 0 {
        geo.first_group
    } else {
        first * per_cluster
    };
    place == b && bits == size.min(clusters - first)
}

/// Whether backup k of the superblock stands in one of `count` clusters from `first` on.
fn is_backup_among(geo: &Geo, k: u32, first: u64, count: u64) -> bool
    requires sizes { HasSizes geo.now }
    requires backup { k < 6 }
    requires fits { first + count < 2 ^ 64 }
    ensures some { result ≡ true → (2 ^ (30 + 2 * k - geo.now.cluster_bits) < geo.now.clusters) × (first ≤ 2 ^ (30 + 2 * k - geo.now.cluster_bits)) × (2 ^ (30 + 2 * k - geo.now.cluster_bits) < first + count) }
    ensures none { result ≡ false → 2 ^ (30 + 2 * k - geo.now.cluster_bits) < geo.now.clusters → first ≤ 2 ^ (30 + 2 * k - geo.now.cluster_bits) → first + count ≤ 2 ^ (30 + 2 * k - geo.now.cluster_bits) }
{
    let cluster = 1u64 << (30 + 2 * k - geo.cluster_bits);
    let clusters = u64::from(geo.clusters);
    cluster < clusters && first <= cluster && cluster < first + count
}

/// Whether a backup of the superblock stands in one of `count` clusters from `first` on.
fn has_backup(geo: &Geo, first: u64, count: u64) -> bool
    requires sizes { HasSizes geo.now }
    requires fits { first + count < 2 ^ 64 }
    ensures some { result ≡ true → (v : Volume) → v.geo ≡ geo.now → (c : ℕ) × (first ≤ c) × (c < first + count) × (among (backup_clusters v) c ≡ true) }
    ensures none { result ≡ false → (v : Volume) → v.geo ≡ geo.now → (c : ℕ) → first ≤ c → c < first + count → among (backup_clusters v) c ≡ false }
{
    if geo.compat & BACKUP_SUPER == 0 {
        return false;
    }
    for k in 0..6u32 {
        if is_backup_among(geo, k, first, count) {
            return true;
        }
    }
    false
}

/// Whether one of `count` clusters from `first` on is one up to the first group descriptor, or that of a later one or of a backup.
pub fn has_fixed(geo: &Geo, first: u64, count: u64) -> bool
    requires sizes { HasSizes geo.now }
    requires some_clusters { 0 < count }
    requires fits { first + count < 2 ^ 64 }
    ensures some { result ≡ true → (v : Volume) → v.geo ≡ geo.now → (c : ℕ) × (first ≤ c) × (c < first + count) × (is_fixed v c ≡ true) }
    ensures none { result ≡ false → (v : Volume) → v.geo ≡ geo.now → (c : ℕ) → first ≤ c → c < first + count → is_fixed v c ≡ false }
{
    if first <= geo.first_group / blocks_per_cluster(geo) {
        return true;
    }
    let size = group_size(geo);
    let over = first % size;
    if over == 0 || size - over < count {
        return true;
    }
    has_backup(geo, first, count)
}
