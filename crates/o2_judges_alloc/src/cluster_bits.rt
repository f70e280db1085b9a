// CLUSTER_ALLOC_BIT: the set bits of a group of the global bitmap are those of claimed clusters.
ghost use Rattle.std.specs.Prelude.{◌≡◌, ◌^◌, ◌<◌, ◌&&◌, not, map, filter, IfOk};
ghost use Rattle.std.specs.List.{list_all, range_with_len};
ghost use Rattle.o2_model.specs.declared.check.Check.TheVariants as check;
ghost use Rattle.o2_model.specs.Orders.{rising};
ghost use Rattle.o2_model.specs.Volume.{Volume};
ghost use Rattle.o2_model.specs.Groups.{is_of_clusters};
ghost use Rattle.o2_model.specs.Claims.{claims_of};
ghost use Rattle.o2_model.specs.Failing.{faults};
ghost use Rattle.o2_tables.specs.Rows.{IsGroupTable};
ghost use Rattle.o2_claims.specs.Owners.{clusters_of, AreOwners};
ghost use Rattle.o2_judges_alloc.specs.ClusterRows.{is_set_for_owner, has_bits_of_claims as bits_are_of_claims};

use crate::bit_use::is_of_bitmap;
use o2_claims::Claims;
use o2_disk::NoMemory;
use o2_tables::{GroupRow, has_bit};
use std::alloc::{AllocError, Global};

/// Whether bit k is set just where its cluster has an owner.
fn is_right(row: &GroupRow, claims: &Claims, k: u16) -> bool
    ensures { result ≡ is_set_for_owner claims.now row.now k }
{
    let cluster = row.first.wrapping_add(u32::from(k));
    has_bit(row.bitmap.as_slice(), k) == claims.owner(cluster).is_some()
}

fn has_bits_of_claims(row: &GroupRow, claims: &Claims) -> bool
    ensures { result ≡ bits_are_of_claims claims.now row.now }
{
    let bits = row.group.bits;
    for k in 0..bits {
        if !is_right(row, claims, k) {
            return false;
        }
    }
    true
}

/// The blocks of the groups of the global bitmap whose set bits are not those of claimed clusters.
fn with_other_bits(
    alloc: Global,
    groups: &[GroupRow],
    claims: &Claims,
) -> Result<Vec<u64>, AllocError>
    ensures { IfOk result (λ blocks. blocks.items ≡ map (λ r. r.group.block) (filter (λ r. is_of_clusters r.group && not (bits_are_of_claims claims.now r)) groups.now)) }
{
    groups
        .iter()
        .filter(|row| is_of_bitmap(row) && !has_bits_of_claims(row, claims))
        .map(|row| row.group.block)
        .collect(alloc)
}

/// The groups at which CLUSTER_ALLOC_BIT fails, where these are the claims of the volume. NoMemory where memory runs out.
pub fn cluster_alloc_bit(
    alloc: Global,
    groups: &[GroupRow],
    claims: &Claims,
) -> Result<Vec<u64>, NoMemory>
    ensures { IfOk result (λ blocks. (v : Volume) → v.geo.clusters < 2 ^ 32 → clusters_of claims.now ≡ v.geo.clusters → IsGroupTable v groups.now → AreOwners (claims_of v) claims.now → rising blocks.items ≡ rising (faults v check.ClusterAllocBit)) }
{
    match with_other_bits(alloc, groups, claims) {
        Ok(blocks) => Ok(blocks),
        Err(_) => Err(NoMemory),
    }
}
