// The pairs of checks and blocks at which they fail.
ghost use Rattle.std.specs.Prelude.{◌≡◌, ◌++◌, ◌<◌, ◌^◌, map, IfOk, OnOk};
ghost use Rattle.o2_model.specs.Failing.{further, pairs};
ghost use Rattle.o2_model.specs.Volume.{Volume};
ghost use Rattle.o2_view.specs.Geos.{HasSizes, blocks_of};
ghost use Rattle.o2_skeleton.specs.Skeleton.{HasSkeleton};
ghost use Rattle.o2_check.specs.Findings.{AreFindings, pairs_at};

use crate::findings::Findings;
use crate::join::faults_of;
use o2_disk::NoMemory;
use o2_model::{Check, Geo};
use o2_tally::{in_order, put};
use std::alloc::Global;

/// The checks behind the skeleton, by their numbers.
pub const FURTHER: [Check; 39] = [
    Check::JournalDirty,
    Check::ChainLink,
    Check::GroupMissing,
    Check::InodeAllocBit,
    Check::InodeSuballoc,
    Check::InodeKind,
    Check::Extent,
    Check::MetaBlock,
    Check::MetaSuballoc,
    Check::EbNext,
    Check::LastEb,
    Check::InodeSize,
    Check::DirBlock,
    Check::DirentName,
    Check::DirentDup,
    Check::DirDots,
    Check::DirentInode,
    Check::DirentType,
    Check::DirParent,
    Check::OrphanFlag,
    Check::OrphanEntry,
    Check::NotConnected,
    Check::RefTree,
    Check::RefCover,
    Check::RefCount,
    Check::RefUsers,
    Check::Dx,
    Check::InodeClusters,
    Check::InodeCount,
    Check::DupClusters,
    Check::LocalAlloc,
    Check::TruncateLog,
    Check::BackupSuper,
    Check::BlockAllocBit,
    Check::ClusterAllocBit,
    Check::GroupChain,
    Check::GroupFreeBits,
    Check::ChainBits,
    Check::AllocTotals,
];

/// Puts the check with each of these blocks at the end.
fn add_pairs(told: &mut Vec<(Check, u64)>, check: Check, blocks: &[u64]) -> Result<(), NoMemory>
    ensures { OnOk result (told.new.items ≡ told.old.items ++ map (λ b. (check, b)) blocks.now) }
{
    for block in blocks {
        put(told, (check, *block))?;
    }
    Ok(())
}

/// Puts the check with each block at which it fails at the end, rising, where the skeleton holds.
fn add_check(
    alloc: Global,
    geo: &Geo,
    findings: &Findings,
    check: Check,
    told: &mut Vec<(Check, u64)>,
) -> Result<(), NoMemory>
    requires sizes { HasSizes geo.now }
    requires few { blocks_of geo.now < 2 ^ 64 }
    ensures { OnOk result ((v : Volume) → v.geo ≡ geo.now → HasSkeleton v → AreFindings v findings.now → told.new.items ≡ told.old.items ++ pairs_at v check) }
{
    let blocks = in_order(faults_of(alloc, geo, findings, check)?);
    add_pairs(told, check, &blocks)
}

/// The failing pairs of these checks, by check and then by block, each once, where the skeleton holds.
fn pairs_of(
    alloc: Global,
    geo: &Geo,
    findings: &Findings,
    checks: &[Check],
) -> Result<Vec<(Check, u64)>, NoMemory>
    requires sizes { HasSizes geo.now }
    requires few { blocks_of geo.now < 2 ^ 64 }
    ensures { IfOk result (λ told. (v : Volume) → v.geo ≡ geo.now → HasSkeleton v → AreFindings v findings.now → told.items ≡ pairs v checks.now) }
{
    let mut told = Vec::new(alloc);
    for check in checks {
        add_check(alloc, geo, findings, *check, &mut told)?;
    }
    Ok(told)
}

/// The failing pairs behind the skeleton. NoMemory where memory runs out.
pub fn further_pairs(
    alloc: Global,
    geo: &Geo,
    findings: &Findings,
) -> Result<Vec<(Check, u64)>, NoMemory>
    requires sizes { HasSizes geo.now }
    requires few { blocks_of geo.now < 2 ^ 64 }
    ensures { IfOk result (λ told. (v : Volume) → v.geo ≡ geo.now → HasSkeleton v → AreFindings v findings.now → told.items ≡ pairs v further) }
{
    pairs_of(alloc, geo, findings, &FURTHER)
}
