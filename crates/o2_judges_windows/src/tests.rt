// Both judges, on a volume of 40 clusters of which cluster 5 has an owner.
use crate::{local_alloc, truncate_log};
use o2_claims::Claims;
use o2_model::{Items, Owner};
use o2_view::Run;
use o2_windows::{TruncateLogRow, WindowRow};
use std::alloc::{AllocError, Global};
use std::test::Fail;

fn claims(alloc: Global) -> Result<Claims, Fail> {
    let mut claims = Claims::new(alloc, 40)?;
    claims.claim(5, Owner::Super)?;
    Ok(claims)
}

fn window(
    alloc: Global,
    slot: u16,
    is_sound_alone: bool,
    clusters: &[u32],
) -> Result<WindowRow, AllocError> {
    let clusters = clusters.to_vec(alloc)?;
    Ok(WindowRow {
        slot,
        inode: 50 + u64::from(slot),
        is_sound_alone,
        clusters: Items::from(clusters),
    })
}

// Cluster 7 is in the windows of slots 0 and 1.
#[test]
fn windows_claim_their_clusters(rt: HostRuntime) -> Result<(), Fail> {
    let alloc = rt.alloc();
    let mut claims = claims(alloc)?;
    let mut windows = Vec::new(alloc);
    windows.push(window(alloc, 0, true, &[6, 7])?)?;
    windows.push(window(alloc, 1, true, &[7, 8])?)?;
    windows.push(window(alloc, 2, false, &[])?)?;
    windows.push(window(alloc, 3, true, &[])?)?;
    let found = local_alloc(alloc, &windows, &mut claims)?;
    assert_eq!(rt; found.len(), 2);
    assert_eq!(rt; found[0], 51);
    assert_eq!(rt; found[1], 52);
    assert_eq!(rt; claims.owner(6), Some(Owner::LocalAlloc(0)));
    assert_eq!(rt; claims.owner(7), Some(Owner::LocalAlloc(0)));
    assert_eq!(rt; claims.owner(8), None);
    Ok(())
}

fn run(start: u32, clusters: u32) -> Run {
    Run { start, clusters }
}

fn log(
    alloc: Global,
    slot: u16,
    has_sound_header: bool,
    records: &[Run],
) -> Result<TruncateLogRow, AllocError> {
    let records = records.to_vec(alloc)?;
    Ok(TruncateLogRow {
        slot,
        inode: 60 + u64::from(slot),
        has_sound_header,
        records: Items::from(records),
    })
}

// The log of slot 0 has a record of clusters with owners behind a void one and before one that holds, and that of slot 2 one that
// reaches beyond the volume.
#[test]
fn records_claim_their_clusters(rt: HostRuntime) -> Result<(), Fail> {
    let alloc = rt.alloc();
    let mut claims = claims(alloc)?;
    let mut logs = Vec::new(alloc);
    logs.push(log(alloc, 0, true, &[run(0, 9), run(4, 2), run(10, 2)])?)?;
    logs.push(log(alloc, 1, true, &[run(12, 1)])?)?;
    logs.push(log(alloc, 2, true, &[run(39, 2)])?)?;
    logs.push(log(alloc, 3, false, &[])?)?;
    let found = truncate_log(alloc, &logs, &mut claims)?;
    assert_eq!(rt; found.len(), 3);
    assert_eq!(rt; found[0], 60);
    assert_eq!(rt; found[1], 62);
    assert_eq!(rt; found[2], 63);
    assert_eq!(rt; claims.owner(4), None);
    assert_eq!(rt; claims.owner(5), Some(Owner::Super));
    assert_eq!(rt; claims.owner(11), Some(Owner::TruncateLog(0)));
    assert_eq!(rt; claims.owner(12), Some(Owner::TruncateLog(1)));
    assert_eq!(rt; claims.owner(39), None);
    Ok(())
}
