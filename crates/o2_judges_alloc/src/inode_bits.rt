// INODE_ALLOC_BIT: bit 0 of a group of inodes is set, and each further set bit stands for an inode.
ghost use Rattle.std.specs.Prelude.{◌≡◌, ◌^◌, ◌<◌, ◌&&◌, not, ℕ, map, filter, IfOk};
ghost use Rattle.std.specs.List.{list_all};
ghost use Rattle.o2_model.specs.declared.check.Check.TheVariants as check;
ghost use Rattle.o2_model.specs.Orders.{rising, from_to};
ghost use Rattle.o2_model.specs.Volume.{Volume, blocks};
ghost use Rattle.o2_model.specs.Allocators.{are_inodes};
ghost use Rattle.o2_model.specs.Groups.{is_inode};
ghost use Rattle.o2_model.specs.Failing.{faults};
ghost use Rattle.o2_tally.specs.Again.{has_number};
ghost use Rattle.o2_tables.specs.Rows.{IsGroupTable};
ghost use Rattle.o2_judges_alloc.specs.GroupRows.{may_have_inode, has_inodes_at_bits as inodes_at_bits};

use crate::bit_use::{block_at, is_of_inodes};
use o2_disk::NoMemory;
use o2_tables::{GroupRow, has_bit};
use std::alloc::{AllocError, Global};
use std::collections::BTreeSet;

/// Whether bit k is clear or stands for an inode.
fn is_clear_or_inode(row: &GroupRow, inodes: &BTreeSet<u64>, k: u16) -> bool
    ensures { result ≡ may_have_inode inodes.now row.now k }
{
    !has_bit(row.bitmap.as_slice(), k) || inodes.contains(&block_at(row, k))
}

/// Whether each bit above 0 is clear or stands for an inode.
fn are_clear_or_inodes(row: &GroupRow, inodes: &BTreeSet<u64>) -> bool
    ensures { result ≡ list_all (may_have_inode inodes.now row.now) (from_to 1 row.now.group.bits) }
{
    let bits = row.group.bits;
    for k in 1..bits {
        if !is_clear_or_inode(row, inodes, k) {
            return false;
        }
    }
    true
}

fn has_inodes_at_bits(row: &GroupRow, inodes: &BTreeSet<u64>) -> bool
    ensures { result ≡ inodes_at_bits inodes.now row.now }
{
    has_bit(row.bitmap.as_slice(), 0) && are_clear_or_inodes(row, inodes)
}

/// The blocks of the groups of inodes with a set bit that stands for none, or a clear bit 0.
fn with_other_bits(
    alloc: Global,
    groups: &[GroupRow],
    inodes: &BTreeSet<u64>,
) -> Result<Vec<u64>, AllocError>
    ensures { IfOk result (λ blocks. blocks.items ≡ map (λ r. r.group.block) (filter (λ r. are_inodes r.group.of.bit_use && not (inodes_at_bits inodes.now r)) groups.now)) }
{
    groups
        .iter()
        .filter(|row| is_of_inodes(row) && !has_inodes_at_bits(row, inodes))
        .map(|row| row.group.block)
        .collect(alloc)
}

/// The groups at which INODE_ALLOC_BIT fails, where these are the inodes. NoMemory where memory runs out.
pub fn inode_alloc_bit(
    alloc: Global,
    groups: &[GroupRow],
    inodes: &BTreeSet<u64>,
) -> Result<Vec<u64>, NoMemory>
    ensures { IfOk result (λ found. (v : Volume) → blocks v < 2 ^ 64 → IsGroupTable v groups.now → ((b : ℕ) → has_number inodes.now b ≡ is_inode v b) → rising found.items ≡ rising (faults v check.InodeAllocBit)) }
{
    match with_other_bits(alloc, groups, inodes) {
        Ok(blocks) => Ok(blocks),
        Err(_) => Err(NoMemory),
    }
}
