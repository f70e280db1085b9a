// CHAIN_BITS: c_free and c_total of each chain are the sums over its groups.
ghost use Rattle.std.specs.Prelude.{◌≡◌, IfOk};
ghost use Rattle.o2_model.specs.declared.check.Check.TheVariants as check;
ghost use Rattle.o2_model.specs.Faults.{fails_at};
ghost use Rattle.o2_model.specs.Orders.{rising};
ghost use Rattle.o2_model.specs.Volume.{Volume};
ghost use Rattle.o2_model.specs.Failing.{faults};
ghost use Rattle.o2_tables.specs.Rows.{IsAllocatorTable, IsGroupTable};
ghost use Rattle.o2_judges_alloc.specs.ChainSums.{is_sum, has_sums_in_chains as sums_are};

use crate::sums::{ChainKey, Sums, sums_of_groups};
use o2_disk::NoMemory;
use o2_ondisk::ChainRec;
use o2_tables::{AllocatorRow, GroupRow};
use std::alloc::{AllocError, Global};

/// Whether the record of a chain has the sums over its groups.
fn has_sums(sums: &Sums, allocator: u64, chain: usize, told: &ChainRec) -> bool
    ensures { result ≡ is_sum sums.now allocator chain told.now }
{
    let sum = sums.of_chain(ChainKey { allocator, chain });
    told.free == sum.free && told.total == sum.total
}

fn has_sums_in_chains(row: &AllocatorRow, sums: &Sums) -> bool
    ensures { result ≡ sums_are sums.now row.now }
{
    let allocator = row.allocator.block;
    row.chains
        .as_slice()
        .iter()
        .enumerate()
        .all(|(chain, told)| has_sums(sums, allocator, chain, told))
}

/// The blocks of the allocators of which a chain has other sums.
fn with_other_sums(
    alloc: Global,
    allocators: &[AllocatorRow],
    sums: &Sums,
) -> Result<Vec<u64>, AllocError>
    ensures { IfOk result (λ blocks. blocks.items ≡ fails_at (λ r. r.allocator.block) (sums_are sums.now) allocators.now) }
{
    allocators
        .iter()
        .filter(|row| !has_sums_in_chains(row, sums))
        .map(|row| row.allocator.block)
        .collect(alloc)
}

/// The allocators at which CHAIN_BITS fails. NoMemory where memory runs out.
pub fn chain_bits(
    alloc: Global,
    allocators: &[AllocatorRow],
    groups: &[GroupRow],
) -> Result<Vec<u64>, NoMemory>
    ensures { IfOk result (λ blocks. (v : Volume) → IsAllocatorTable v allocators.now → IsGroupTable v groups.now → rising blocks.items ≡ rising (faults v check.ChainBits)) }
{
    let sums = sums_of_groups(alloc, groups)?;
    match with_other_sums(alloc, allocators, &sums) {
        Ok(blocks) => Ok(blocks),
        Err(_) => Err(NoMemory),
    }
}
