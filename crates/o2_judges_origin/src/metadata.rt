// META_SUBALLOC: the slot and bit of an extent block or refcount block are those of its group and bit, and it names no group or
// this one.
ghost use Rattle.std.specs.Prelude.{◌≡◌, ◌<◌, ◌^◌, IfOk};
ghost use Rattle.o2_model.specs.declared.check.Check.TheVariants as check;
ghost use Rattle.o2_model.specs.Orders.{rising};
ghost use Rattle.o2_model.specs.Volume.{Volume, blocks};
ghost use Rattle.o2_model.specs.Failing.{faults};
ghost use Rattle.o2_tables.specs.Rows.{IsGroupTable, IsInodeTable, IsRefcountTreeTable};

use crate::extent_blocks::{judge_lists, judge_tree_lists};
use crate::placed_groups;
use crate::refcount_blocks::{judge_leaves, judge_roots};
use o2_disk::NoMemory;
use o2_model::BitUse;
use o2_tables::{GroupRow, InodeRow, RefcountTreeRow};
use std::alloc::Global;

/// The extent blocks and refcount blocks at which META_SUBALLOC fails. NoMemory where memory runs out.
pub fn meta_suballoc(
    alloc: Global,
    groups: &[GroupRow],
    inodes: &[InodeRow],
    trees: &[RefcountTreeRow],
) -> Result<Vec<u64>, NoMemory>
    ensures { IfOk result (λ found. (v : Volume) → blocks v < 2 ^ 64 → IsGroupTable v groups.now → IsInodeTable v inodes.now → IsRefcountTreeTable v trees.now → rising found.items ≡ rising (faults v check.MetaSuballoc)) }
{
    let placed = placed_groups(alloc, groups, BitUse::Metadata)?;
    let mut found = Vec::new(alloc);
    judge_lists(&mut found, &placed, inodes)?;
    judge_tree_lists(&mut found, &placed, trees)?;
    judge_roots(&mut found, &placed, trees)?;
    judge_leaves(&mut found, &placed, trees)?;
    Ok(found)
}
