// CHAIN_HEADER: the chain list of an allocator is well formed.
ghost use Rattle.std.specs.Prelude.{◌≡◌, IfOk};
ghost use Rattle.o2_model.specs.declared.check.Check.TheVariants as check;
ghost use Rattle.o2_model.specs.Faults.{fails_at};
ghost use Rattle.o2_model.specs.Orders.{rising};
ghost use Rattle.o2_model.specs.Volume.{Volume};
ghost use Rattle.o2_model.specs.Failing.{faults};
ghost use Rattle.o2_tables.specs.Rows.{IsAllocatorTable};

use o2_disk::NoMemory;
use o2_tables::AllocatorRow;
use std::alloc::{AllocError, Global};

/// The blocks of the allocators whose chain list is not well formed.
fn with_bad_header(alloc: Global, allocators: &[AllocatorRow]) -> Result<Vec<u64>, AllocError>
    ensures { IfOk result (λ blocks. blocks.items ≡ fails_at (λ r. r.allocator.block) (λ r. r.has_sound_header) allocators.now) }
{
    allocators
        .iter()
        .filter(|row| !row.has_sound_header)
        .map(|row| row.allocator.block)
        .collect(alloc)
}

/// The allocators at which CHAIN_HEADER fails. NoMemory where memory runs out.
pub fn chain_header(alloc: Global, allocators: &[AllocatorRow]) -> Result<Vec<u64>, NoMemory>
    ensures { IfOk result (λ blocks. (v : Volume) → IsAllocatorTable v allocators.now → rising blocks.items ≡ rising (faults v check.ChainHeader)) }
{
    match with_bad_header(alloc, allocators) {
        Ok(blocks) => Ok(blocks),
        Err(_) => Err(NoMemory),
    }
}
