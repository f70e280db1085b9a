// LOCAL_ALLOC: a window holds, and no earlier claim has a cluster of one of its clear bits.
ghost use Rattle.std.specs.Prelude.{◌≡◌, ◌++◌, List, IfOk, OnOk};
ghost use Rattle.o2_model.specs.declared.check.Check.TheVariants as check;
ghost use Rattle.o2_model.specs.declared.claim.Claim.{Claim};
ghost use Rattle.o2_model.specs.Claims.{claimed_clusters, claims_with_indexes, claims_with_windows, with_window_of};
ghost use Rattle.o2_model.specs.Failing.{faults};
ghost use Rattle.o2_model.specs.Faults.{fails_unless};
ghost use Rattle.o2_model.specs.Orders.{rising};
ghost use Rattle.o2_model.specs.Volume.{Volume};
ghost use Rattle.o2_model.specs.Windows.{is_sound_window};
ghost use Rattle.o2_claims.specs.Owners.{clusters_of, AreOwners};
ghost use Rattle.o2_windows.specs.SlotRows.{IsWindowRow, IsWindowTable};

use crate::claiming::{claim_all, is_any_owned};
use o2_claims::Claims;
use o2_disk::NoMemory;
use o2_model::Owner;
use o2_tally::put;
use o2_windows::WindowRow;
use std::alloc::Global;

/// Whether the window holds behind these claims.
fn is_sound(row: &WindowRow, claims: &Claims) -> bool
    ensures { (v : Volume) (earlier : List Claim) → clusters_of claims.now ≡ v.geo.clusters → IsWindowRow v row.now → AreOwners earlier claims.now
        → result ≡ is_sound_window v (claimed_clusters earlier) row.now.inode }
{
    row.is_sound_alone && !is_any_owned(claims, row.clusters.as_slice())
}

/// Claims the clusters of the window where it holds, and else puts its inode with those found.
fn judge_window(row: &WindowRow, claims: &mut Claims, found: &mut Vec<u64>) -> Result<(), NoMemory>
    ensures clusters { clusters_of claims.new ≡ clusters_of claims.old }
    ensures found { OnOk result ((v : Volume) (earlier : List Claim) → clusters_of claims.old ≡ v.geo.clusters → IsWindowRow v row.now → AreOwners earlier claims.old
        → found.new.items ≡ found.old.items ++ fails_unless row.now.inode (is_sound_window v (claimed_clusters earlier) row.now.inode)) }
    ensures owners { OnOk result ((v : Volume) (earlier : List Claim) → clusters_of claims.old ≡ v.geo.clusters → IsWindowRow v row.now → AreOwners earlier claims.old
        → AreOwners (with_window_of v earlier row.now.slot row.now.inode) claims.new) }
{
    if !is_sound(row, claims) {
        return put(found, row.inode);
    }
    claim_all(claims, row.clusters.as_slice(), Owner::LocalAlloc(row.slot))
}

/// The dinodes at which LOCAL_ALLOC fails, slot by slot. The windows that hold claim the clusters of their clear bits. NoMemory
/// where memory runs out.
pub fn local_alloc(
    alloc: Global,
    windows: &[WindowRow],
    claims: &mut Claims,
) -> Result<Vec<u64>, NoMemory>
    ensures clusters { clusters_of claims.new ≡ clusters_of claims.old }
    ensures told { IfOk result (λ blocks. (v : Volume) → clusters_of claims.old ≡ v.geo.clusters → IsWindowTable v windows.now → AreOwners (claims_with_indexes v) claims.old
        → (rising blocks.items ≡ rising (faults v check.LocalAlloc)) × AreOwners (claims_with_windows v v.geo.slots) claims.new) }
{
    let mut found = Vec::new(alloc);
    for row in windows {
        judge_window(row, claims, &mut found)?;
    }
    Ok(found)
}
