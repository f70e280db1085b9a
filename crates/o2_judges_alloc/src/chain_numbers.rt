// GROUP_CHAIN: bg_chain is the number of the group's chain.
ghost use Rattle.std.specs.Prelude.{◌≡◌, IfOk};
ghost use Rattle.o2_model.specs.declared.check.Check.TheVariants as check;
ghost use Rattle.o2_model.specs.Faults.{fails_at};
ghost use Rattle.o2_model.specs.Orders.{rising};
ghost use Rattle.o2_model.specs.Volume.{Volume};
ghost use Rattle.o2_model.specs.Failing.{faults};
ghost use Rattle.o2_tables.specs.Rows.{IsGroupTable};
ghost use Rattle.o2_judges_alloc.specs.GroupRows.{has_chain as chain_is};

use o2_disk::NoMemory;
use o2_tables::GroupRow;
use std::alloc::{AllocError, Global};

fn has_chain(row: &GroupRow) -> bool
    ensures { result ≡ chain_is row.now }
{
    row.chain == row.group.chain
}

/// The blocks of the groups with another bg_chain.
fn with_other_chain(alloc: Global, groups: &[GroupRow]) -> Result<Vec<u64>, AllocError>
    ensures { IfOk result (λ blocks. blocks.items ≡ fails_at (λ r. r.group.block) chain_is groups.now) }
{
    groups
        .iter()
        .filter(|row| !has_chain(row))
        .map(|row| row.group.block)
        .collect(alloc)
}

/// The groups at which GROUP_CHAIN fails. NoMemory where memory runs out.
pub fn group_chain(alloc: Global, groups: &[GroupRow]) -> Result<Vec<u64>, NoMemory>
    ensures { IfOk result (λ blocks. (v : Volume) → IsGroupTable v groups.now → rising blocks.items ≡ rising (faults v check.GroupChain)) }
{
    match with_other_chain(alloc, groups) {
        Ok(blocks) => Ok(blocks),
        Err(_) => Err(NoMemory),
    }
}
