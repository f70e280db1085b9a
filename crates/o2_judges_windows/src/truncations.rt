// TRUNCATE_LOG: the header of a log is sound, and each record is void or has clusters of the volume that no earlier claim has.
ghost use Rattle.std.specs.Prelude.{◌≡◌, ◌≢◌, ◌+◌, ◌<◌, ◌^◌, ◌++◌, ◌&&◌, true, List, map, fold, IfOk, OnOk};
ghost use Rattle.o2_ondisk.specs.declared.truncate_rec.TruncateRec.{TruncateRec};
ghost use Rattle.o2_model.specs.declared.check.Check.TheVariants as check;
ghost use Rattle.o2_model.specs.declared.claim.Claim.{Claim};
ghost use Rattle.o2_model.specs.Checks.TruncateLog.{are_sound_truncations};
ghost use Rattle.o2_model.specs.Claims.{claimed_clusters, claims_of, claims_with_windows, with_truncation};
ghost use Rattle.o2_model.specs.Failing.{faults};
ghost use Rattle.o2_model.specs.Faults.{fails_unless};
ghost use Rattle.o2_model.specs.Orders.{rising};
ghost use Rattle.o2_model.specs.TruncateLogs.{is_sound_truncate_header, is_sound_truncation, truncate_records};
ghost use Rattle.o2_model.specs.Volume.{Volume};
ghost use Rattle.o2_slots.specs.Truncations.{run_of};
ghost use Rattle.o2_claims.specs.Owners.{clusters_of, AreOwners};
ghost use Rattle.o2_windows.specs.SlotRows.{IsTruncateLogRow, IsTruncateLogTable};

use crate::claiming::claim_below;
use o2_claims::Claims;
use o2_disk::NoMemory;
use o2_model::Owner;
use o2_tally::put;
use o2_view::Run;
use o2_windows::TruncateLogRow;
use std::alloc::Global;

/// Whether the clusters of a record that is not void are the volume's, and none has an owner.
fn has_free_clusters(claims: &Claims, run: Run) -> bool
    ensures holds { (v : Volume) (earlier : List Claim) (r : TruncateRec) → clusters_of claims.now ≡ v.geo.clusters → run ≡ run_of r → AreOwners earlier claims.now
        → r.start ≢ 0 → result ≡ is_sound_truncation v (claimed_clusters earlier) r }
    ensures few { result ≡ true → run.start + run.clusters < 2 ^ 32 }
{
    let start = run.start;
    let all = claims.clusters();
    if all <= start || all - start < run.clusters {
        return false;
    }
    !claims.has_owner_between(start, start + run.clusters)
}

/// Claims the clusters of a record where it holds, and tells whether it does. A void one has none.
fn take_record(claims: &mut Claims, run: Run, slot: u16) -> Result<bool, NoMemory>
    ensures clusters { clusters_of claims.new ≡ clusters_of claims.old }
    ensures holds { IfOk result (λ holds. (v : Volume) (earlier : List Claim) (r : TruncateRec) → clusters_of claims.old ≡ v.geo.clusters → run ≡ run_of r → AreOwners earlier claims.old
        → holds ≡ is_sound_truncation v (claimed_clusters earlier) r) }
    ensures owners { OnOk result ((v : Volume) (earlier : List Claim) (r : TruncateRec) → clusters_of claims.old ≡ v.geo.clusters → run ≡ run_of r → AreOwners earlier claims.old
        → AreOwners (with_truncation v slot earlier r) claims.new) }
{
    let start = run.start;
    if start == 0 {
        return Ok(true);
    }
    if !has_free_clusters(claims, run) {
        return Ok(false);
    }
    claim_below(
        claims,
        start,
        start + run.clusters,
        Owner::TruncateLog(slot),
    )?;
    Ok(true)
}

/// Claims the clusters of the records that hold, and tells whether all do.
fn take_records(claims: &mut Claims, records: &[Run], slot: u16) -> Result<bool, NoMemory>
    ensures clusters { clusters_of claims.new ≡ clusters_of claims.old }
    ensures hold { IfOk result (λ hold. (v : Volume) (earlier : List Claim) (rs : List TruncateRec) → clusters_of claims.old ≡ v.geo.clusters → records.now ≡ map run_of rs → AreOwners earlier claims.old
        → hold ≡ are_sound_truncations v slot earlier rs) }
    ensures owners { OnOk result ((v : Volume) (earlier : List Claim) (rs : List TruncateRec) → clusters_of claims.old ≡ v.geo.clusters → records.now ≡ map run_of rs → AreOwners earlier claims.old
        → AreOwners (fold (with_truncation v slot) earlier rs) claims.new) }
{
    let mut hold = true;
    for run in records {
        let holds = take_record(claims, *run, slot)?;
        hold = hold && holds;
    }
    Ok(hold)
}

/// Claims the clusters of the log's records that hold, and puts its inode with those found where one does not, or its header is
/// not sound.
fn judge_log(
    row: &TruncateLogRow,
    claims: &mut Claims,
    found: &mut Vec<u64>,
) -> Result<(), NoMemory>
    ensures clusters { clusters_of claims.new ≡ clusters_of claims.old }
    ensures found { OnOk result ((v : Volume) (earlier : List Claim) → clusters_of claims.old ≡ v.geo.clusters → IsTruncateLogRow v row.now → AreOwners earlier claims.old
        → found.new.items ≡ found.old.items ++ fails_unless row.now.inode (is_sound_truncate_header v row.now.inode && are_sound_truncations v row.now.slot earlier (truncate_records v row.now.inode))) }
    ensures owners { OnOk result ((v : Volume) (earlier : List Claim) → clusters_of claims.old ≡ v.geo.clusters → IsTruncateLogRow v row.now → AreOwners earlier claims.old
        → AreOwners (fold (with_truncation v row.now.slot) earlier (truncate_records v row.now.inode)) claims.new) }
{
    let hold = take_records(claims, row.records.as_slice(), row.slot)?;
    if !(row.has_sound_header && hold) {
        put(found, row.inode)?;
    }
    Ok(())
}

/// The dinodes at which TRUNCATE_LOG fails, slot by slot. The records that hold claim their clusters, so that the claims are then
/// all of the volume's. NoMemory where memory runs out.
pub fn truncate_log(
    alloc: Global,
    logs: &[TruncateLogRow],
    claims: &mut Claims,
) -> Result<Vec<u64>, NoMemory>
    ensures clusters { clusters_of claims.new ≡ clusters_of claims.old }
    ensures told { IfOk result (λ blocks. (v : Volume) → clusters_of claims.old ≡ v.geo.clusters → IsTruncateLogTable v logs.now → AreOwners (claims_with_windows v v.geo.slots) claims.old
        → (rising blocks.items ≡ rising (faults v check.TruncateLog)) × AreOwners (claims_of v) claims.new) }
{
    let mut found = Vec::new(alloc);
    for row in logs {
        judge_log(row, claims, &mut found)?;
    }
    Ok(found)
}
