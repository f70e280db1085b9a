// INODE_COUNT: an inode that the walk of the tree meets has as many links as entries of the tree name it.
ghost use Rattle.std.specs.Prelude.{◌≡◌, ◌&&◌, not, map, filter, IfOk};
ghost use Rattle.o2_model.specs.declared.check.Check.TheVariants as check;
ghost use Rattle.o2_model.specs.Orders.{rising};
ghost use Rattle.o2_model.specs.Volume.{Volume};
ghost use Rattle.o2_model.specs.Failing.{faults};
ghost use Rattle.o2_tables.specs.Rows.{IsInodeTable, IsTreeTable};
ghost use Rattle.o2_tally.specs.Again.{has_number};
ghost use Rattle.o2_judges_inodes.specs.LinkRows.{has_links as links_are};

use o2_disk::NoMemory;
use o2_tables::{InodeRow, TreeTable};
use std::alloc::{AllocError, Global};

/// Whether the links of the inode are as many, as far as their field goes.
fn has_links(tree: &TreeTable, row: &InodeRow) -> bool
    ensures { result ≡ links_are tree.now row.now }
{
    u64::from(row.links) == tree.links.count(row.block) % 4_294_967_296
}

/// The inodes that were met and have other links.
fn with_other_links(
    alloc: Global,
    tree: &TreeTable,
    inodes: &[InodeRow],
) -> Result<Vec<u64>, AllocError>
    ensures { IfOk result (λ blocks. blocks.items ≡ map (λ r. r.block) (filter (λ r. has_number tree.now.met r.block && not (links_are tree.now r)) inodes.now)) }
{
    inodes
        .iter()
        .filter(|row| tree.met.contains(&row.block) && !has_links(tree, row))
        .map(|row| row.block)
        .collect(alloc)
}

/// The inodes at which INODE_COUNT fails. NoMemory where memory runs out.
pub fn inode_count(
    alloc: Global,
    tree: &TreeTable,
    inodes: &[InodeRow],
) -> Result<Vec<u64>, NoMemory>
    ensures { IfOk result (λ blocks. (v : Volume) → IsInodeTable v inodes.now → IsTreeTable v tree.now → rising blocks.items ≡ rising (faults v check.InodeCount)) }
{
    match with_other_links(alloc, tree, inodes) {
        Ok(blocks) => Ok(blocks),
        Err(_) => Err(NoMemory),
    }
}
