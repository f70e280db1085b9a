// The roots of refcount trees that inodes name.
ghost use Rattle.std.specs.Prelude.{◌≡◌, ◌++◌, OnOk, IfOk, flat_map};
ghost use Rattle.o2_model.specs.RefcountTrees.{refcount_roots};
ghost use Rattle.o2_model.specs.Volume.{Volume};
ghost use Rattle.o2_tables.specs.Rows.{IsInodeTable};
ghost use Rattle.o2_refcount.specs.NamedRoots.{named_by};

use o2_disk::NoMemory;
use o2_extent::put;
use o2_tables::InodeRow;
use o2_tally::in_order;
use std::alloc::Global;

/// Puts the root that the inode names at the end, where it names one.
fn add_named(roots: &mut Vec<u64>, inode: &InodeRow) -> Result<(), NoMemory>
    ensures { OnOk result (roots.new.items ≡ roots.old.items ++ named_by inode.now) }
{
    if let Some(root) = inode.named_tree {
        put(roots, root)?;
    }
    Ok(())
}

/// The roots that these inodes name, in order of the inodes.
fn all_named(alloc: Global, inodes: &[InodeRow]) -> Result<Vec<u64>, NoMemory>
    ensures { IfOk result (λ roots. roots.items ≡ flat_map named_by inodes.now) }
{
    let mut roots = Vec::new(alloc);
    for inode in inodes {
        add_named(&mut roots, inode)?;
    }
    Ok(roots)
}

/// The roots of refcount trees that inodes name, in range or not, rising, each once. NoMemory where memory runs out.
pub fn roots_named(alloc: Global, inodes: &[InodeRow]) -> Result<Vec<u64>, NoMemory>
    ensures { IfOk result (λ roots. (v : Volume) → IsInodeTable v inodes.now → roots.items ≡ refcount_roots v) }
{
    Ok(in_order(all_named(alloc, inodes)?))
}
