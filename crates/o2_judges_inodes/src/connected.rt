// NOT_CONNECTED: the walk of the tree meets each inode, or it is one of the volume's own, or an orphan that an orphan directory
// names.
ghost use Rattle.std.specs.Prelude.{◌≡◌, IfOk};
ghost use Rattle.o2_model.specs.declared.check.Check.TheVariants as check;
ghost use Rattle.o2_model.specs.Faults.{fails_at};
ghost use Rattle.o2_model.specs.Orders.{rising};
ghost use Rattle.o2_model.specs.Volume.{Volume};
ghost use Rattle.o2_model.specs.Failing.{faults};
ghost use Rattle.o2_tables.specs.Rows.{IsInodeTable, IsTreeTable};
ghost use Rattle.o2_tree.specs.TreeWalks.{AreOwn, AreOrphans};
ghost use Rattle.o2_judges_inodes.specs.OrphanRows.{is_connected as is_row_connected};

use crate::flags::is_orphaned;
use crate::named::named_inodes;
use o2_disk::NoMemory;
use o2_tables::{InodeRow, TreeTable};
use o2_tree::EntryRow;
use std::alloc::{AllocError, Global};
use std::collections::BTreeSet;

/// Whether one of the three names the inode.
fn is_connected(
    tree: &TreeTable,
    own: &BTreeSet<u64>,
    named: &BTreeSet<u64>,
    row: &InodeRow,
) -> bool
    ensures { result ≡ is_row_connected tree.now own.now named.now row.now }
{
    tree.met.contains(&row.block)
        || own.contains(&row.block)
        || (is_orphaned(row) && named.contains(&row.block))
}

/// The inodes that none of them names.
fn unconnected(
    alloc: Global,
    tree: &TreeTable,
    own: &BTreeSet<u64>,
    named: &BTreeSet<u64>,
    inodes: &[InodeRow],
) -> Result<Vec<u64>, AllocError>
    ensures { IfOk result (λ blocks. blocks.items ≡ fails_at (λ r. r.block) (is_row_connected tree.now own.now named.now) inodes.now) }
{
    inodes
        .iter()
        .filter(|row| !is_connected(tree, own, named, row))
        .map(|row| row.block)
        .collect(alloc)
}

/// The inodes at which NOT_CONNECTED fails, by the volume's own inodes and the entries of its orphan directories. NoMemory
/// where memory runs out.
pub fn not_connected(
    alloc: Global,
    tree: &TreeTable,
    own: &BTreeSet<u64>,
    orphans: &[EntryRow],
    inodes: &[InodeRow],
) -> Result<Vec<u64>, NoMemory>
    ensures { IfOk result (λ blocks. (v : Volume) → IsInodeTable v inodes.now → IsTreeTable v tree.now → AreOwn v own.now → AreOrphans v orphans.now → rising blocks.items ≡ rising (faults v check.NotConnected)) }
{
    let named = named_inodes(alloc, orphans)?;
    match unconnected(alloc, tree, own, &named, inodes) {
        Ok(blocks) => Ok(blocks),
        Err(_) => Err(NoMemory),
    }
}
