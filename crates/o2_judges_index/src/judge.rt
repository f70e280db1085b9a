// DX: an index is well formed, has its blocks and clusters for itself, and agrees with the directory.
ghost use Rattle.std.specs.Prelude.{◌≡◌, ◌++◌, List, map, IfOk, OnOk};
ghost use Rattle.o2_model.specs.declared.claim.Claim.{Claim};
ghost use Rattle.o2_model.specs.Volume.{Volume};
ghost use Rattle.o2_model.specs.Claims.{structure_claims, inode_claims, claimed_clusters, claims_with_indexes};
ghost use Rattle.o2_model.specs.SoundIndexes.{is_sound_index};
ghost use Rattle.o2_tables.specs.Rows.{IsGroupTable, IsInodeTable, IsRefcountTreeTable};
ghost use Rattle.o2_claims.specs.Owners.{clusters_of, AreOwners};
ghost use Rattle.o2_tree.specs.TreeRows.{IsIndexRow, IsIndexTable};
ghost use Rattle.o2_judges_index.specs.IndexRows.{AreBlockUses};
ghost use Rattle.o2_judges_index.specs.Judgements.{IsJudgedOne, IsJudgedTo, IsIndexJudgement};

use crate::block_uses::{BlockUses, add_index_blocks};
use crate::own_blocks::has_own_blocks;
use crate::own_clusters::has_own_clusters;
use o2_claims::Claims;
use o2_disk::NoMemory;
use o2_judges_claims::claim_runs;
use o2_model::Owner;
use o2_tables::{GroupRow, InodeRow, RefcountTreeRow};
use o2_tally::put;
use o2_tree::IndexRow;
use std::alloc::Global;

/// Where DX fails, and which blocks the indexes use that hold.
#[derive(Debug, Drop)]
pub struct IndexJudgement {
    /// The blocks of the directories whose index does not hold.
    pub faults: Vec<u64>,
    /// The roots of the indexes that hold, each with the extent blocks of its list.
    pub blocks: Vec<u64>,
}

/// Whether the index holds, where these clusters have an owner.
fn is_sound(
    alloc: Global,
    uses: &BlockUses,
    row: &IndexRow,
    claims: &Claims,
) -> Result<bool, NoMemory>
    ensures { IfOk result (λ sound. (v : Volume) (before : List Claim) → AreBlockUses v uses.now → IsIndexRow v row.now → clusters_of claims.now ≡ v.geo.clusters → AreOwners before claims.now → sound ≡ is_sound_index v (claimed_clusters before) row.now.directory) }
{
    if !has_own_blocks(uses, row) {
        return Ok(false);
    }
    has_own_clusters(alloc, claims, row.runs.as_slice())
}

/// Judges an index behind those before it.
fn judge_index(
    alloc: Global,
    judged: &mut IndexJudgement,
    claims: &mut Claims,
    uses: &BlockUses,
    row: &IndexRow,
) -> Result<(), NoMemory>
    ensures clusters { clusters_of claims.new ≡ clusters_of claims.old }
    ensures told { OnOk result ((v : Volume) (before : List Claim) → AreBlockUses v uses.now → IsIndexRow v row.now → clusters_of claims.old ≡ v.geo.clusters → AreOwners before claims.old → IsJudgedOne v before row.now.directory judged.old judged.new claims.new) }
{
    if !is_sound(alloc, uses, row, claims)? {
        return put(&mut judged.faults, row.directory);
    }
    claim_runs(claims, row.runs.as_slice(), Owner::Index(row.directory))?;
    add_index_blocks(&mut judged.blocks, row)
}

/// Judges all indexes in their order.
fn judge_indexes(
    alloc: Global,
    uses: &BlockUses,
    indexes: &[IndexRow],
    claims: &mut Claims,
) -> Result<IndexJudgement, NoMemory>
    ensures clusters { clusters_of claims.new ≡ clusters_of claims.old }
    ensures told { IfOk result (λ judged. (v : Volume) → AreBlockUses v uses.now → IsIndexTable v indexes.now → clusters_of claims.old ≡ v.geo.clusters → AreOwners (structure_claims v ++ inode_claims v) claims.old → IsJudgedTo v (map (λ r. r.directory) indexes.now) judged claims.new) }
{
    let mut judged = IndexJudgement {
        faults: Vec::new(alloc),
        blocks: Vec::new(alloc),
    };
    for row in indexes {
        judge_index(alloc, &mut judged, claims, uses, row)?;
    }
    Ok(judged)
}

/// The directories at which DX fails, and the blocks of the indexes that hold. Where the claims of structures and inodes were
/// made, those of these indexes are added behind them, each before the next is judged. NoMemory where memory runs out.
pub fn dx(
    alloc: Global,
    groups: &[GroupRow],
    inodes: &[InodeRow],
    trees: &[RefcountTreeRow],
    indexes: &[IndexRow],
    claims: &mut Claims,
) -> Result<IndexJudgement, NoMemory>
    ensures clusters { clusters_of claims.new ≡ clusters_of claims.old }
    ensures told { IfOk result (λ judged. (v : Volume) → clusters_of claims.old ≡ v.geo.clusters → IsGroupTable v groups.now → IsInodeTable v inodes.now → IsRefcountTreeTable v trees.now → IsIndexTable v indexes.now → AreOwners (structure_claims v ++ inode_claims v) claims.old → IsIndexJudgement v judged × AreOwners (claims_with_indexes v) claims.new) }
{
    let uses = BlockUses::new(alloc, groups, inodes, trees, indexes)?;
    judge_indexes(alloc, &uses, indexes, claims)
}
