// Each call once, on volumes of a few clusters.
use crate::{ClaimFault, Claims};
use o2_model::Owner;
use o2_view::Run;
use std::test::Fail;

#[test]
fn a_cluster_keeps_its_first_owner(rt: HostRuntime) -> Result<(), Fail> {
    let mut claims = Claims::new(rt.alloc(), 8)?;
    claims.claim(2, Owner::Inode(7))?;
    claims.claim(7, Owner::Super)?;
    let twice = ClaimFault::Twice {
        cluster: 2,
        first: Owner::Inode(7),
        second: Owner::Index(9),
    };
    assert_eq!(rt; claims.claim(2, Owner::Index(9)), Err(twice));
    assert_eq!(rt; claims.owner(2), Some(Owner::Inode(7)));
    assert_eq!(rt; claims.owner(7), Some(Owner::Super));
    assert_eq!(rt; claims.owner(3), None);
    assert_eq!(rt; claims.owner(8), None);
    assert_eq!(rt; claims.count(), 2);
    assert_eq!(rt; claims.clusters(), 8);
    assert!(rt; claims.has_owner_between(1, 3));
    assert!(rt; !claims.has_owner_between(3, 7));
    assert!(rt; !claims.has_owner_between(2, 2));
    Ok(())
}

fn run(start: u32, clusters: u32) -> Run {
    Run { start, clusters }
}

#[test]
fn free_runs_lie_at_both_ends_and_between(rt: HostRuntime) -> Result<(), Fail> {
    let alloc = rt.alloc();
    let mut claims = Claims::new(alloc, 10)?;
    claims.claim(6, Owner::Backup)?;
    claims.claim(2, Owner::Inode(7))?;
    claims.claim(3, Owner::Inode(7))?;
    let runs = claims.free_runs(alloc)?;
    let found = runs.as_slice();
    assert_eq!(rt; found.len(), 3);
    assert_eq!(rt; found[0], run(0, 2));
    assert_eq!(rt; found[1], run(4, 2));
    assert_eq!(rt; found[2], run(7, 3));
    Ok(())
}

#[test]
fn no_run_has_a_claimed_end(rt: HostRuntime) -> Result<(), Fail> {
    let alloc = rt.alloc();
    let mut claims = Claims::new(alloc, 4)?;
    claims.claim(0, Owner::Super)?;
    claims.claim(3, Owner::LocalAlloc(1))?;
    let runs = claims.free_runs(alloc)?;
    let found = runs.as_slice();
    assert_eq!(rt; found.len(), 1);
    assert_eq!(rt; found[0], run(1, 2));
    Ok(())
}
