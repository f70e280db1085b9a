// The blocks where the groups of inodes say that inodes are.
ghost use Rattle.std.specs.Prelude.{◌≡◌, ◌+◌, ◌%◌, ◌^◌, ◌<◌, ◌++◌, filter, IfOk, OnOk};
ghost use Rattle.std.specs.List.{range_with_len};
ghost use Rattle.o2_model.specs.Volume.{Volume, blocks};
ghost use Rattle.o2_model.specs.Allocators.{are_inodes};
ghost use Rattle.o2_model.specs.Groups.{has_inode_bit};
ghost use Rattle.o2_tables.specs.Rows.{IsGroupTable};
ghost use Rattle.o2_survey.specs.GroupRows.{block_at as number_at, blocks_on_bits, inode_blocks_of};

use o2_disk::NoMemory;
use o2_model::BitUse;
use o2_tables::{GroupRow, has_bit};
use o2_tally::{in_order, put};
use std::alloc::Global;

/// Whether it is a group of inodes.
fn is_of_inodes(row: &GroupRow) -> bool
    ensures { result ≡ are_inodes row.now.group.of.bit_use }
{
    match row.group.of.bit_use {
        BitUse::Inodes => true,
        _ => false,
    }
}

/// The block that bit k of a group of blocks stands for. No group of a volume reaches beyond 2^64.
fn block_at(row: &GroupRow, k: u16) -> u64
    ensures { result ≡ number_at row.now k }
{
    row.group.block.wrapping_add(u64::from(k))
}

/// Puts the blocks of the set bits above 0 at the end.
fn add_blocks_on_bits(row: &GroupRow, found: &mut Vec<u64>) -> Result<(), NoMemory>
    ensures { OnOk result (found.new.items ≡ found.old.items ++ blocks_on_bits row.now) }
{
    for k in 1..row.group.bits {
        if has_bit(row.bitmap.as_slice(), k) {
            put(found, block_at(row, k))?;
        }
    }
    Ok(())
}

/// Puts them at the end where it is a group of inodes.
fn add_inode_blocks(row: &GroupRow, found: &mut Vec<u64>) -> Result<(), NoMemory>
    ensures { OnOk result (found.new.items ≡ found.old.items ++ inode_blocks_of row.now) }
{
    if !is_of_inodes(row) {
        return Ok(());
    }
    add_blocks_on_bits(row, found)
}

/// The blocks that stand for a set bit above 0 of a group of inodes, rising. NoMemory where memory runs out.
pub fn inode_blocks(alloc: Global, groups: &[GroupRow]) -> Result<Vec<u64>, NoMemory>
    ensures { IfOk result (λ found. (v : Volume) → blocks v < 2 ^ 64 → IsGroupTable v groups.now → found.items ≡ filter (has_inode_bit v) (range_with_len 0 (blocks v))) }
{
    let mut found = Vec::new(alloc);
    for row in groups {
        add_inode_blocks(row, &mut found)?;
    }
    Ok(in_order(found))
}
