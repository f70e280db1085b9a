// ALLOC_TOTALS: i_total and i_used are the sums over the allocator's chains.
ghost use Rattle.std.specs.Prelude.{◌≡◌, ◌%◌, ◌^◌, sum_by, IfOk};
ghost use Rattle.o2_model.specs.declared.check.Check.TheVariants as check;
ghost use Rattle.o2_model.specs.Faults.{fails_at};
ghost use Rattle.o2_model.specs.Orders.{rising};
ghost use Rattle.o2_model.specs.Volume.{Volume};
ghost use Rattle.o2_model.specs.Failing.{faults};
ghost use Rattle.o2_tables.specs.Rows.{IsAllocatorTable};
ghost use Rattle.o2_judges_alloc.specs.AllocatorRows.{has_totals as totals_are};

use o2_disk::NoMemory;
use o2_ondisk::ChainRec;
use o2_tables::AllocatorRow;
use std::alloc::{AllocError, Global};

/// The sum of c_total, modulo 2^32.
fn sum_of_totals(chains: &[ChainRec]) -> u32
    ensures { result ≡ sum_by (λ r. r.total) chains.now % 2 ^ 32 }
{
    let mut sum = 0u32;
    for record in chains {
        sum = sum.wrapping_add(record.total);
    }
    sum
}

/// The sum of c_free, modulo 2^32.
fn sum_of_free(chains: &[ChainRec]) -> u32
    ensures { result ≡ sum_by (λ r. r.free) chains.now % 2 ^ 32 }
{
    let mut sum = 0u32;
    for record in chains {
        sum = sum.wrapping_add(record.free);
    }
    sum
}

fn has_totals(row: &AllocatorRow) -> bool
    ensures { result ≡ totals_are row.now }
{
    let total = sum_of_totals(row.chains.as_slice());
    let free = sum_of_free(row.chains.as_slice());
    row.total == total && row.used.wrapping_add(free) == total
}

/// The blocks of the allocators with other totals.
fn with_other_totals(alloc: Global, allocators: &[AllocatorRow]) -> Result<Vec<u64>, AllocError>
    ensures { IfOk result (λ blocks. blocks.items ≡ fails_at (λ r. r.allocator.block) totals_are allocators.now) }
{
    allocators
        .iter()
        .filter(|row| !has_totals(row))
        .map(|row| row.allocator.block)
        .collect(alloc)
}

/// The allocators at which ALLOC_TOTALS fails. NoMemory where memory runs out.
pub fn alloc_totals(alloc: Global, allocators: &[AllocatorRow]) -> Result<Vec<u64>, NoMemory>
    ensures { IfOk result (λ blocks. (v : Volume) → IsAllocatorTable v allocators.now → rising blocks.items ≡ rising (faults v check.AllocTotals)) }
{
    match with_other_totals(alloc, allocators) {
        Ok(blocks) => Ok(blocks),
        Err(_) => Err(NoMemory),
    }
}
