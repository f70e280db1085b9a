// GROUP_FREE_BITS: bg_free_bits_count is the number of the group's clear bits.
ghost use Rattle.std.specs.Prelude.{◌≡◌, not, count_by, IfOk};
ghost use Rattle.std.specs.List.{range_with_len};
ghost use Rattle.o2_model.specs.declared.check.Check.TheVariants as check;
ghost use Rattle.o2_model.specs.Faults.{fails_at};
ghost use Rattle.o2_model.specs.Orders.{rising};
ghost use Rattle.o2_model.specs.Volume.{Volume};
ghost use Rattle.o2_model.specs.Groups.{is_bit_set_in};
ghost use Rattle.o2_model.specs.Failing.{faults};
ghost use Rattle.o2_tables.specs.Rows.{IsGroupTable};
ghost use Rattle.o2_judges_alloc.specs.GroupRows.{has_free_bits as free_bits_are};

use o2_disk::NoMemory;
use o2_tables::{GroupRow, has_bit};
use std::alloc::{AllocError, Global};

/// How many of the first bits are clear.
fn count_clear(bitmap: &[u8], bits: u16) -> u16
    ensures { result ≡ count_by (λ k. not (is_bit_set_in 0 bitmap.now k)) (range_with_len 0 bits) }
{
    let mut clear = 0;
    for k in 0..bits {
        if !has_bit(bitmap, k) {
            clear += 1;
        }
    }
    clear
}

fn has_free_bits(row: &GroupRow) -> bool
    ensures { result ≡ free_bits_are row.now }
{
    row.free_bits == count_clear(row.bitmap.as_slice(), row.group.bits)
}

/// The blocks of the groups with another count of clear bits.
fn with_other_count(alloc: Global, groups: &[GroupRow]) -> Result<Vec<u64>, AllocError>
    ensures { IfOk result (λ blocks. blocks.items ≡ fails_at (λ r. r.group.block) free_bits_are groups.now) }
{
    groups
        .iter()
        .filter(|row| !has_free_bits(row))
        .map(|row| row.group.block)
        .collect(alloc)
}

/// The groups at which GROUP_FREE_BITS fails. NoMemory where memory runs out.
pub fn group_free_bits(alloc: Global, groups: &[GroupRow]) -> Result<Vec<u64>, NoMemory>
    ensures { IfOk result (λ blocks. (v : Volume) → IsGroupTable v groups.now → rising blocks.items ≡ rising (faults v check.GroupFreeBits)) }
{
    match with_other_count(alloc, groups) {
        Ok(blocks) => Ok(blocks),
        Err(_) => Err(NoMemory),
    }
}
