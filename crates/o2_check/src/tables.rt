// What a check reads of a volume, each block once behind the skeleton.
ghost use Rattle.std.specs.Prelude.{IfOk};
ghost use Rattle.std.specs.Result.{IfErr};
ghost use Rattle.o2_model.specs.Volume.{Volume};
ghost use Rattle.o2_view.specs.Geos.{LiesIn};
ghost use Rattle.o2_view.specs.OwnChecks.{BlockFails};
ghost use Rattle.o2_view.specs.Views.{Shows, OnlyReads};
ghost use Rattle.o2_skeleton.specs.SkeletonTables.{IsSkeleton};
ghost use Rattle.o2_check.specs.WholeTables.{AreTables};

use o2_disk::Disk;
use o2_inodes::{InodeSurvey, inodes};
use o2_judges_super::backup_super;
use o2_model::Geo;
use o2_refcount::{TreeSurvey, refcount_trees, roots_named};
use o2_skeleton::Skeleton;
use o2_survey::own_inodes;
use o2_view::{View, ViewFault};
use o2_windows::{TruncateLogRow, WindowRow, truncate_logs, windows};
use std::alloc::Global;
use std::collections::BTreeSet;

/// What was read of a volume, and where the checks fail that are judged while a block is in hand.
#[derive(Drop)]
pub struct Tables {
    pub skeleton: Skeleton,
    /// The volume's own inodes.
    pub own: BTreeSet<u64>,
    /// The inodes, with directories and indexes.
    pub inodes: InodeSurvey,
    pub trees: TreeSurvey,
    pub windows: Vec<WindowRow>,
    pub logs: Vec<TruncateLogRow>,
    /// The backups at which BACKUP_SUPER fails.
    pub backups: Vec<u64>,
}

/// Reads what the skeleton has not read yet. NoMemory where memory runs out, DeviceFault where a read fails.
pub fn read_tables<D: Disk, const N: usize>(
    alloc: Global,
    view: &mut View<'_, D, N>,
    geo: &Geo,
    skeleton: Skeleton,
) -> Result<Tables, ViewFault>
    requires { LiesIn geo.now view.old }
    ensures told { IfOk result (λ tables. (v : Volume) → Shows view.old geo.now v → IsSkeleton v skeleton → AreTables v tables) }
    ensures reads { OnlyReads view.old view.new }
    ensures fails { IfErr result (BlockFails view.old view.new) }
{
    let own = own_inodes(alloc, geo, skeleton.entries.as_slice())?;
    let survey = inodes(alloc, view, geo, &skeleton.blocks, &own)?;
    let roots = roots_named(alloc, &survey.rows)?;
    let trees = refcount_trees(alloc, view, geo, &roots)?;
    let windows = windows(alloc, view, geo, &skeleton.names, &skeleton.inodes)?;
    let logs = truncate_logs(alloc, view, geo, &skeleton.names)?;
    let backups = backup_super(alloc, view, geo)?;
    Ok(Tables {
        skeleton,
        own,
        inodes: survey,
        trees,
        windows,
        logs,
        backups,
    })
}
