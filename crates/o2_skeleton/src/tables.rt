// What the skeleton of a volume is judged by, each block read once.
ghost use Rattle.std.specs.Prelude.{◌≡◌, IfOk};
ghost use Rattle.std.specs.Result.{IfErr};
ghost use Rattle.o2_model.specs.Directories.{directory_entries};
ghost use Rattle.o2_model.specs.Volume.{Volume};
ghost use Rattle.o2_view.specs.Geos.{LiesIn};
ghost use Rattle.o2_view.specs.OwnChecks.{BlockFails};
ghost use Rattle.o2_view.specs.Views.{Shows, OnlyReads};
ghost use Rattle.o2_skeleton.specs.SkeletonTables.{IsSkeleton};

use o2_chain::walk_all;
use o2_disk::Disk;
use o2_model::{Entries, Geo};
use o2_survey::{SystemInodes, SystemNames, allocators, groups, inode_blocks, system_inodes};
use o2_tables::{AllocatorTable, GroupTable};
use o2_view::{Numbers, View, ViewFault};
use std::alloc::Global;

/// The files of the system directory, the allocators and their groups: what every later check needs too.
#[derive(Drop)]
pub struct Skeleton {
    /// The live entries of the system directory.
    pub entries: Entries,
    pub names: SystemNames,
    pub inodes: SystemInodes,
    pub allocators: AllocatorTable,
    /// The blocks with a link of a chain that is bad: where CHAIN_LINK fails.
    pub links: Numbers,
    pub groups: GroupTable,
    /// The blocks of those groups that are discontiguous, in the same order.
    pub discontiguous: Vec<u64>,
    /// The blocks on set bits of groups of inodes, rising.
    pub blocks: Vec<u64>,
}

/// Reads the tables of the volume whose system directory has these live entries. NoMemory where memory runs out, DeviceFault
/// where a read fails.
pub fn read_skeleton<D: Disk, const N: usize>(
    alloc: Global,
    view: &mut View<'_, D, N>,
    geo: &Geo,
    entries: Entries,
) -> Result<Skeleton, ViewFault>
    requires { LiesIn geo.now view.old }
    ensures told { IfOk result (λ skeleton. (v : Volume) → Shows view.old geo.now v → entries ≡ directory_entries v v.geo.sysdir → IsSkeleton v skeleton) }
    ensures reads { OnlyReads view.old view.new }
    ensures fails { IfErr result (BlockFails view.old view.new) }
{
    let names = SystemNames::new(alloc, entries.as_slice())?;
    let inodes = system_inodes(alloc, view, geo, &names, entries.as_slice())?;
    let allocators = allocators(alloc, view, geo, &names, &inodes)?;
    let walk = walk_all(alloc, view, geo, allocators.as_slice())?;
    let survey = groups(alloc, view, geo, &walk)?;
    let blocks = inode_blocks(alloc, survey.rows.as_slice())?;
    Ok(Skeleton {
        entries,
        names,
        inodes,
        allocators,
        links: walk.faults,
        groups: survey.rows,
        discontiguous: survey.discontiguous,
        blocks,
    })
}
