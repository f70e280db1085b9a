// What is found out of the tables before the further checks are joined.
ghost use Rattle.std.specs.Prelude.{◌≡◌, IfOk};
ghost use Rattle.o2_model.specs.declared.check.Check.TheVariants as check_of;
ghost use Rattle.o2_model.specs.Orders.{rising};
ghost use Rattle.o2_model.specs.Failing.{faults};
ghost use Rattle.o2_model.specs.Volume.{Volume};
ghost use Rattle.o2_view.specs.Geos.{HasSizes, HasNumbers};
ghost use Rattle.o2_walk.specs.TreeWalked.{IsWalk};
ghost use Rattle.o2_check.specs.Findings.{AreFindings};
ghost use Rattle.o2_check.specs.WholeTables.{AreTables};

use crate::claims::{JudgedClaims, judge_claims};
use crate::given::are_given;
use crate::lists::{blocks_in_use, inode_numbers};
use crate::orphans::orphan_entries;
use crate::tables::Tables;
use o2_disk::NoMemory;
use o2_judges_refcount::{References, references};
use o2_model::Geo;
use o2_survey::{dirty_journals, journals, orphan_directories};
use o2_tree::{EntryRow, find_directory};
use o2_walk::{Walk, walk_tree};
use std::alloc::Global;
use std::collections::BTreeSet;

/// The tables with all that is found out of them.
#[derive(Drop)]
pub struct Findings {
    pub tables: Tables,
    pub walk: Walk,
    /// The entries of orphan directories but the dots.
    pub orphans: Vec<EntryRow>,
    pub references: References,
    pub judged: JudgedClaims,
    /// Extent blocks, refcount blocks and the blocks of indexes that hold.
    pub in_use: BTreeSet<u64>,
    /// The blocks of the inodes.
    pub inodes: BTreeSet<u64>,
    /// The journals at which JOURNAL_DIRTY fails.
    pub dirty: Vec<u64>,
}

/// Walks the tree. NoMemory where memory runs out, and where the root is no directory, as on no volume whose skeleton holds.
fn walk_from_root(alloc: Global, geo: &Geo, tables: &Tables) -> Result<Walk, NoMemory>
    ensures { IfOk result (λ walk. (v : Volume) → v.geo ≡ geo.now → AreTables v tables.now → IsWalk v walk) }
{
    let survey = &tables.inodes;
    if find_directory(&survey.directories, geo.root).is_none() {
        return Err(NoMemory);
    }
    walk_tree(alloc, geo, &survey.rows, &tables.own, &survey.directories)
}

/// The journals at which JOURNAL_DIRTY fails. NoMemory where memory runs out, and where the system directory names one that is out
/// of range or itself, as on no volume whose skeleton holds.
fn judge_journals(alloc: Global, geo: &Geo, tables: &Tables) -> Result<Vec<u64>, NoMemory>
    requires { HasSizes geo.now }
    ensures { IfOk result (λ found. (v : Volume) → v.geo ≡ geo.now → AreTables v tables.now → rising found.items ≡ rising (faults v check_of.JournalDirty)) }
{
    let skeleton = &tables.skeleton;
    let journals = journals(alloc, geo, &skeleton.names)?;
    if !are_given(geo, &tables.own, &journals) {
        return Err(NoMemory);
    }
    dirty_journals(alloc, &skeleton.inodes, &journals)
}

/// Finds out what the further checks ask for. NoMemory where memory runs out, and where the root, an orphan directory or a journal
/// is none, as on no volume whose skeleton holds.
pub fn find(alloc: Global, geo: &Geo, tables: Tables) -> Result<Findings, NoMemory>
    requires sizes { HasSizes geo.now }
    requires numbers { HasNumbers geo.now }
    ensures { IfOk result (λ findings. (v : Volume) → v.geo ≡ geo.now → AreTables v tables → AreFindings v findings) }
{
    let walk = walk_from_root(alloc, geo, &tables)?;
    let slots = orphan_directories(alloc, geo, &tables.skeleton.names)?;
    let orphans = orphan_entries(alloc, &tables.inodes.directories, &slots)?;
    let references = references(alloc, &tables.inodes.rows)?;
    let judged = judge_claims(alloc, geo, &tables)?;
    let in_use = blocks_in_use(alloc, &tables, &judged.indexes)?;
    let inodes = inode_numbers(alloc, &tables.inodes.rows)?;
    let dirty = judge_journals(alloc, geo, &tables)?;
    Ok(Findings {
        tables,
        walk,
        orphans,
        references,
        judged,
        in_use,
        inodes,
        dirty,
    })
}
