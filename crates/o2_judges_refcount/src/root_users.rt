// REF_USERS: rf_count is the number of the tree's inodes.
ghost use Rattle.std.specs.Prelude.{◌≡◌, ◌&&◌, not, map, filter, IfOk};
ghost use Rattle.o2_model.specs.declared.check.Check.TheVariants as check;
ghost use Rattle.o2_model.specs.Orders.{rising};
ghost use Rattle.o2_model.specs.Volume.{Volume};
ghost use Rattle.o2_model.specs.Failing.{faults};
ghost use Rattle.o2_tables.specs.Rows.{IsRefcountTreeTable};
ghost use Rattle.o2_judges_refcount.specs.References.{AreReferences};
ghost use Rattle.o2_judges_refcount.specs.TreeRows.{has_users as users_are};

use crate::References;
use o2_disk::NoMemory;
use o2_tables::RefcountTreeRow;
use std::alloc::{AllocError, Global};

fn has_users(references: &References, tree: &RefcountTreeRow) -> bool
    ensures { result ≡ users_are references.now tree.now }
{
    u64::from(tree.users) == references.users(tree.root.block) % 0x1_0000_0000
}

/// The roots that are refcount blocks and tell another number of inodes.
fn with_other_users(
    alloc: Global,
    references: &References,
    trees: &[RefcountTreeRow],
) -> Result<Vec<u64>, AllocError>
    ensures { IfOk result (λ blocks. blocks.items ≡ map (λ t. t.root.block) (filter (λ t. t.root.is_refcount_block && not (users_are references.now t)) trees.now)) }
{
    trees
        .iter()
        .filter(|tree| tree.root.is_refcount_block && !has_users(references, tree))
        .map(|tree| tree.root.block)
        .collect(alloc)
}

/// The roots at which REF_USERS fails, where these are the references of the volume. The number of inodes is compared modulo
/// 2^32. NoMemory where memory runs out.
pub fn ref_users(
    alloc: Global,
    references: &References,
    trees: &[RefcountTreeRow],
) -> Result<Vec<u64>, NoMemory>
    ensures { IfOk result (λ blocks. (v : Volume) → AreReferences v references.now → IsRefcountTreeTable v trees.now → rising blocks.items ≡ rising (faults v check.RefUsers)) }
{
    match with_other_users(alloc, references, trees) {
        Ok(blocks) => Ok(blocks),
        Err(_) => Err(NoMemory),
    }
}
