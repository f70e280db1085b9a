// What stands on a volume that is outside the profile.
ghost use Rattle.std.specs.Prelude.{◌≡◌, IfOk};
ghost use Rattle.o2_model.specs.Orders.{first_of, rising};
ghost use Rattle.o2_model.specs.Structures.{unsupported_structure};
ghost use Rattle.o2_model.specs.Volume.{Volume};
ghost use Rattle.o2_check.specs.Oddities.{first_marked, is_marked};
ghost use Rattle.o2_check.specs.WholeTables.{AreTables};

use crate::lists::copied;
use crate::tables::Tables;
use o2_disk::NoMemory;
use o2_model::Oddity;
use o2_ondisk::InodeFlags;
use o2_tables::InodeRow;
use o2_tally::in_order;
use std::alloc::Global;

/// The first of some blocks, where there is one.
fn first_in(blocks: &[u64]) -> Option<u64>
    ensures { result ≡ first_of blocks.now }
{
    blocks.first().copied()
}

/// The least of some blocks, where there is one.
fn least(alloc: Global, blocks: &[u64]) -> Result<Option<u64>, NoMemory>
    ensures { IfOk result (λ found. found ≡ first_of (rising blocks.now)) }
{
    let rising = in_order(copied(alloc, blocks)?);
    Ok(first_in(&rising))
}

/// Whether the inode is an orphan of a direct write.
fn is_direct_orphan(row: &InodeRow) -> bool
    ensures { result ≡ is_marked row.now }
{
    row.flags.has(InodeFlags::DIO_ORPHANED)
}

/// The first inode that is one.
fn first_orphan(inodes: &[InodeRow]) -> Option<u64>
    ensures { result ≡ first_marked inodes.now }
{
    match inodes.iter().find(|row| is_direct_orphan(row)) {
        Some(row) => Some(row.block),
        None => None,
    }
}

/// The first group or inode that is not supported: the least discontiguous group, else the least inode with attributes, else the
/// least orphan of a direct write. NoMemory where memory runs out.
pub fn unsupported_in(alloc: Global, tables: &Tables) -> Result<Option<(Oddity, u64)>, NoMemory>
    ensures { IfOk result (λ found. (v : Volume) → AreTables v tables.now → found ≡ unsupported_structure v) }
{
    if let Some(block) = least(alloc, &tables.skeleton.discontiguous)? {
        return Ok(Some((Oddity::DiscontiguousGroup, block)));
    }
    if let Some(block) = first_in(&tables.inodes.attributes) {
        return Ok(Some((Oddity::Attributes, block)));
    }
    if let Some(block) = first_orphan(&tables.inodes.rows) {
        return Ok(Some((Oddity::DioOrphan, block)));
    }
    Ok(None)
}
