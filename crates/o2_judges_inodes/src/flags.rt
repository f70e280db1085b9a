// ORPHAN_FLAG: no inode that the walk of the tree meets is marked as an orphan.
ghost use Rattle.std.specs.Prelude.{◌≡◌, ◌&&◌, map, filter, IfOk};
ghost use Rattle.o2_model.specs.declared.check.Check.TheVariants as check;
ghost use Rattle.o2_model.specs.Orders.{rising};
ghost use Rattle.o2_model.specs.Volume.{Volume};
ghost use Rattle.o2_model.specs.Failing.{faults};
ghost use Rattle.o2_tables.specs.Rows.{IsInodeTable, IsTreeTable};
ghost use Rattle.o2_tally.specs.Again.{has_number};
ghost use Rattle.o2_judges_inodes.specs.OrphanRows.{is_marked};

use o2_disk::NoMemory;
use o2_ondisk::InodeFlags;
use o2_tables::{InodeRow, TreeTable};
use std::alloc::{AllocError, Global};

/// Whether the inode is marked as an orphan.
pub fn is_orphaned(row: &InodeRow) -> bool
    ensures { result ≡ is_marked row.now }
{
    row.flags.has(InodeFlags::ORPHANED)
}

/// The inodes that were met and are marked as orphans.
fn met_orphans(alloc: Global, tree: &TreeTable, inodes: &[InodeRow]) -> Result<Vec<u64>, AllocError>
    ensures { IfOk result (λ blocks. blocks.items ≡ map (λ r. r.block) (filter (λ r. has_number tree.now.met r.block && is_marked r) inodes.now)) }
{
    inodes
        .iter()
        .filter(|row| tree.met.contains(&row.block) && is_orphaned(row))
        .map(|row| row.block)
        .collect(alloc)
}

/// The inodes at which ORPHAN_FLAG fails. NoMemory where memory runs out.
pub fn orphan_flag(
    alloc: Global,
    tree: &TreeTable,
    inodes: &[InodeRow],
) -> Result<Vec<u64>, NoMemory>
    ensures { IfOk result (λ blocks. (v : Volume) → IsInodeTable v inodes.now → IsTreeTable v tree.now → rising blocks.items ≡ rising (faults v check.OrphanFlag)) }
{
    match met_orphans(alloc, tree, inodes) {
        Ok(blocks) => Ok(blocks),
        Err(_) => Err(NoMemory),
    }
}
