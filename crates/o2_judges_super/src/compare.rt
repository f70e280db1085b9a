// Whether a block is a backup of the superblock, by the bytes of both.
ghost use Rattle.std.specs.Prelude.{◌≡◌, ◌&&◌, ◌≤◌, bytes_eq, drop, length, ℕ};
ghost use Rattle.o2_model.specs.Checks.BackupSuper.{is_backup as is_backup_in, has_same_features as same_features, has_same_places as same_places, has_same_numbers as same_numbers};
ghost use Rattle.o2_model.specs.Volume.{Volume};
ghost use Rattle.o2_ondisk.specs.Dinodes.{last_part_place};
ghost use Rattle.o2_ondisk.specs.Super.{super_of};
ghost use Rattle.o2_judges_super.specs.Backups.{super_in};

use o2_ondisk::{Super, read_dinode, read_super};

/// Where the superblock's part of its block begins.
const SUPER_PART: usize = 0xc0;

/// The superblock's part of a block of these bytes.
fn super_part(bytes: &[u8]) -> Super
    requires { 512 ≤ length bytes.now }
    ensures { result ≡ super_of (drop last_part_place bytes.now) }
{
    read_super(&bytes[SUPER_PART..])
}

fn has_same_features(backup: &Super, first: &Super) -> bool
    ensures { result ≡ same_features backup.now first.now }
{
    backup.feature_compat == first.feature_compat
        && backup.feature_incompat == first.feature_incompat
        && backup.feature_ro_compat == first.feature_ro_compat
}

fn has_same_places(backup: &Super, first: &Super) -> bool
    ensures { result ≡ same_places backup.now first.now }
{
    backup.root_blkno == first.root_blkno
        && backup.system_dir_blkno == first.system_dir_blkno
        && backup.first_cluster_group == first.first_cluster_group
}

fn has_same_numbers(backup: &Super, first: &Super) -> bool
    ensures { result ≡ same_numbers backup.now first.now }
{
    backup.blocksize_bits == first.blocksize_bits
        && backup.clustersize_bits == first.clustersize_bits
        && backup.max_slots == first.max_slots
}

fn has_same_names(backup: &Super, first: &Super) -> bool
    ensures { result ≡ (bytes_eq backup.now.label first.now.label && bytes_eq backup.now.uuid first.now.uuid) }
{
    backup.label == first.label && backup.uuid == first.uuid
}

/// Whether both have the same superblock's part, as far as a backup repeats it.
fn has_same_part(backup: &[u8], first: &[u8]) -> bool
    requires backup { 512 ≤ length backup.now }
    requires first { 512 ≤ length first.now }
    ensures { result ≡ (same_features (super_in backup.now) (super_in first.now)
        && (same_places (super_in backup.now) (super_in first.now)
        && (same_numbers (super_in backup.now) (super_in first.now)
        && (bytes_eq (super_in backup.now).label (super_in first.now).label && bytes_eq (super_in backup.now).uuid (super_in first.now).uuid)))) }
{
    let backup = super_part(backup);
    let first = super_part(first);
    has_same_features(&backup, &first)
        && has_same_places(&backup, &first)
        && has_same_numbers(&backup, &first)
        && has_same_names(&backup, &first)
}

/// Whether these bytes are a backup of the superblock with those.
#[tactic(auto, unfolding(o2_model::specs::Checks::BackupSuper::is_backup))]
pub fn is_backup(backup: &[u8], first: &[u8]) -> bool
    requires backup { 512 ≤ length backup.now }
    requires first { 512 ≤ length first.now }
    ensures { (v : Volume) (b : ℕ) → backup.now ≡ v.at b → first.now ≡ v.at 2 → result ≡ is_backup_in v b }
{
    let dinode = read_dinode(backup);
    let super_dinode = read_dinode(first);
    dinode.signature.0 == super_dinode.signature.0
        && dinode.fs_generation == super_dinode.fs_generation
        && dinode.clusters == super_dinode.clusters
        && has_same_part(backup, first)
}
