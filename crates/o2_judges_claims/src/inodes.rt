// The claims of inodes: the clusters that their records map.
ghost use Rattle.std.specs.Prelude.{◌≡◌, flat_map, OnOk};
ghost use Rattle.o2_model.specs.Volume.{Volume};
ghost use Rattle.o2_model.specs.Claims.{inode_claims};
ghost use Rattle.o2_tables.specs.Rows.{IsInodeTable};
ghost use Rattle.o2_claims.specs.Owners.{clusters_of};
ghost use Rattle.o2_judges_claims.specs.Adding.{AddsClaims};
ghost use Rattle.o2_judges_claims.specs.ClaimRows.{row_claims};

use crate::once::claim_runs;
use o2_claims::Claims;
use o2_disk::NoMemory;
use o2_model::Owner;
use o2_tables::InodeRow;

/// Adds the claims that rows tell.
fn claim_rows(claims: &mut Claims, inodes: &[InodeRow]) -> Result<(), NoMemory>
    ensures clusters { clusters_of claims.new ≡ clusters_of claims.old }
    ensures owners { OnOk result (AddsClaims (flat_map row_claims inodes.now) claims.old claims.new) }
{
    for row in inodes {
        claim_runs(claims, row.runs.as_slice(), Owner::Inode(row.block))?;
    }
    Ok(())
}

/// Adds the claims of inodes behind others. NoMemory where memory runs out; then some of them may be added.
pub fn add_inode_claims(inodes: &[InodeRow], claims: &mut Claims) -> Result<(), NoMemory>
    ensures clusters { clusters_of claims.new ≡ clusters_of claims.old }
    ensures owners { OnOk result ((v : Volume) → IsInodeTable v inodes.now → AddsClaims (inode_claims v) claims.old claims.new) }
{
    claim_rows(claims, inodes)
}
