// The claims of a volume in their order, and what is judged on the way.
ghost use Rattle.std.specs.Prelude.{◌≡◌, IfOk};
ghost use Rattle.o2_model.specs.Volume.{Volume};
ghost use Rattle.o2_view.specs.Geos.{HasSizes, HasNumbers};
ghost use Rattle.o2_check.specs.Findings.{AreJudgedClaims};
ghost use Rattle.o2_check.specs.WholeTables.{AreTables};

use crate::tables::Tables;
use o2_claims::Claims;
use o2_disk::NoMemory;
use o2_judges_claims::{add_inode_claims, dup_clusters, structure_claims};
use o2_judges_index::{IndexJudgement, dx};
use o2_judges_windows::{local_alloc, truncate_log};
use o2_model::Geo;
use std::alloc::Global;

/// All claims, and where the checks fail that ask for the claims before one.
#[derive(Drop)]
pub struct JudgedClaims {
    pub claims: Claims,
    /// The inodes at which DUP_CLUSTERS fails.
    pub duplicates: Vec<u64>,
    /// Where DX fails, and the blocks of the indexes that hold.
    pub indexes: IndexJudgement,
    /// The dinodes at which LOCAL_ALLOC fails.
    pub windows: Vec<u64>,
    /// The dinodes at which TRUNCATE_LOG fails.
    pub logs: Vec<u64>,
}

/// Makes the claims: those of structures, of inodes, of indexes, of windows and of truncate logs. NoMemory where memory runs out.
pub fn judge_claims(alloc: Global, geo: &Geo, tables: &Tables) -> Result<JudgedClaims, NoMemory>
    requires sizes { HasSizes geo.now }
    requires numbers { HasNumbers geo.now }
    ensures { IfOk result (λ judged. (v : Volume) → v.geo ≡ geo.now → AreTables v tables.now → AreJudgedClaims v judged) }
{
    let groups = tables.skeleton.groups.as_slice();
    let rows = &tables.inodes.rows;
    let mut claims = structure_claims(alloc, geo, groups)?;
    let duplicates = dup_clusters(alloc, &claims, rows)?;
    add_inode_claims(rows, &mut claims)?;
    let trees = &tables.trees.rows;
    let indexes = dx(
        alloc,
        groups,
        rows,
        trees,
        &tables.inodes.indexes,
        &mut claims,
    )?;
    let windows = local_alloc(alloc, &tables.windows, &mut claims)?;
    let logs = truncate_log(alloc, &tables.logs, &mut claims)?;
    Ok(JudgedClaims {
        claims,
        duplicates,
        indexes,
        windows,
        logs,
    })
}
