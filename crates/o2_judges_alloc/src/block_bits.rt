// BLOCK_ALLOC_BIT: bit 0 of a group of an extent_alloc is set, and of the others just those of blocks in use.
ghost use Rattle.std.specs.Prelude.{◌≡◌, ◌^◌, ◌<◌, ◌&&◌, not, ℕ, map, filter, IfOk};
ghost use Rattle.std.specs.List.{list_all};
ghost use Rattle.o2_model.specs.declared.check.Check.TheVariants as check;
ghost use Rattle.o2_model.specs.Words.{among};
ghost use Rattle.o2_model.specs.Orders.{rising, from_to};
ghost use Rattle.o2_model.specs.Volume.{Volume, blocks};
ghost use Rattle.o2_model.specs.Allocators.{are_metadata};
ghost use Rattle.o2_model.specs.Checks.BlockAllocBit.{blocks_in_use};
ghost use Rattle.o2_model.specs.Failing.{faults};
ghost use Rattle.o2_tally.specs.Again.{has_number};
ghost use Rattle.o2_tables.specs.Rows.{IsGroupTable};
ghost use Rattle.o2_judges_alloc.specs.GroupRows.{is_set_for_use, has_bits_of_blocks as bits_are_of_blocks};

use crate::bit_use::{block_at, is_of_metadata};
use o2_disk::NoMemory;
use o2_tables::{GroupRow, has_bit};
use std::alloc::{AllocError, Global};
use std::collections::BTreeSet;

/// Whether bit k is set just where its block is in use.
fn is_right(row: &GroupRow, in_use: &BTreeSet<u64>, k: u16) -> bool
    ensures { result ≡ is_set_for_use in_use.now row.now k }
{
    has_bit(row.bitmap.as_slice(), k) == in_use.contains(&block_at(row, k))
}

/// Whether each bit above 0 is set just where its block is in use.
fn are_right(row: &GroupRow, in_use: &BTreeSet<u64>) -> bool
    ensures { result ≡ list_all (is_set_for_use in_use.now row.now) (from_to 1 row.now.group.bits) }
{
    let bits = row.group.bits;
    for k in 1..bits {
        if !is_right(row, in_use, k) {
            return false;
        }
    }
    true
}

fn has_bits_of_blocks(row: &GroupRow, in_use: &BTreeSet<u64>) -> bool
    ensures { result ≡ bits_are_of_blocks in_use.now row.now }
{
    has_bit(row.bitmap.as_slice(), 0) && are_right(row, in_use)
}

/// The blocks of the groups of the extent_allocs whose bits are not those of the blocks in use.
fn with_other_bits(
    alloc: Global,
    groups: &[GroupRow],
    in_use: &BTreeSet<u64>,
) -> Result<Vec<u64>, AllocError>
    ensures { IfOk result (λ blocks. blocks.items ≡ map (λ r. r.group.block) (filter (λ r. are_metadata r.group.of.bit_use && not (bits_are_of_blocks in_use.now r)) groups.now)) }
{
    groups
        .iter()
        .filter(|row| is_of_metadata(row) && !has_bits_of_blocks(row, in_use))
        .map(|row| row.group.block)
        .collect(alloc)
}

/// The groups at which BLOCK_ALLOC_BIT fails, where these blocks are in use. NoMemory where memory runs out.
pub fn block_alloc_bit(
    alloc: Global,
    groups: &[GroupRow],
    in_use: &BTreeSet<u64>,
) -> Result<Vec<u64>, NoMemory>
    ensures { IfOk result (λ found. (v : Volume) → blocks v < 2 ^ 64 → IsGroupTable v groups.now → ((b : ℕ) → has_number in_use.now b ≡ among (blocks_in_use v) b) → rising found.items ≡ rising (faults v check.BlockAllocBit)) }
{
    match with_other_bits(alloc, groups, in_use) {
        Ok(blocks) => Ok(blocks),
        Err(_) => Err(NoMemory),
    }
}
