// INODE_SUBALLOC: an inode's slot and bit are those of its group and bit, and it names no group or this one.
ghost use Rattle.std.specs.Prelude.{◌≡◌, ◌<◌, ◌^◌, flat_map, OnOk, IfOk};
ghost use Rattle.o2_model.specs.declared.check.Check.TheVariants as check;
ghost use Rattle.o2_model.specs.Orders.{rising};
ghost use Rattle.o2_model.specs.Volume.{Volume, blocks};
ghost use Rattle.o2_model.specs.Failing.{faults};
ghost use Rattle.o2_tables.specs.Rows.{IsGroupTable, IsInodeTable};
ghost use Rattle.o2_judges_origin.specs.OriginRows.{Adds, inode_row_faults};

use crate::origins::judge;
use crate::{PlacedGroups, placed_groups};
use o2_disk::NoMemory;
use o2_model::BitUse;
use o2_tables::{GroupRow, InodeRow};
use std::alloc::Global;

/// Puts the inodes that are not right with those found.
fn judge_inodes(
    found: &mut Vec<u64>,
    placed: &PlacedGroups,
    inodes: &[InodeRow],
) -> Result<(), NoMemory>
    ensures { OnOk result (Adds placed.now found.old.items found.new.items (λ v is_use. flat_map (inode_row_faults v is_use) inodes.now)) }
{
    for row in inodes {
        judge(found, placed, &row.origin, row.block)?;
    }
    Ok(())
}

/// The inodes at which INODE_SUBALLOC fails. NoMemory where memory runs out.
pub fn inode_suballoc(
    alloc: Global,
    groups: &[GroupRow],
    inodes: &[InodeRow],
) -> Result<Vec<u64>, NoMemory>
    ensures { IfOk result (λ found. (v : Volume) → blocks v < 2 ^ 64 → IsGroupTable v groups.now → IsInodeTable v inodes.now → rising found.items ≡ rising (faults v check.InodeSuballoc)) }
{
    let placed = placed_groups(alloc, groups, BitUse::Inodes)?;
    let mut found = Vec::new(alloc);
    judge_inodes(&mut found, &placed, inodes)?;
    Ok(found)
}
