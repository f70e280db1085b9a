// The references of all inodes.
ghost use Rattle.std.specs.Prelude.{IfOk};
ghost use Rattle.o2_model.specs.Volume.{Volume};
ghost use Rattle.o2_tables.specs.Rows.{IsInodeTable};
ghost use Rattle.o2_judges_refcount.specs.References.{AreOfRows, AreReferences};

use crate::References;
use o2_disk::NoMemory;
use o2_tables::InodeRow;
use std::alloc::Global;

/// What the inodes of these rows refer to.
fn references_of_rows(alloc: Global, inodes: &[InodeRow]) -> Result<References, NoMemory>
    ensures { IfOk result (λ references. AreOfRows inodes.now references) }
{
    let mut references = References::new(alloc);
    for row in inodes {
        references.add_inode(row)?;
    }
    Ok(references)
}

/// Counts for each refcount tree its inodes, and how often these refer to each cluster. An inode is of the tree that it names
/// with its root, in range or not. NoMemory where memory runs out.
pub fn references(alloc: Global, inodes: &[InodeRow]) -> Result<References, NoMemory>
    ensures { IfOk result (λ references. (v : Volume) → IsInodeTable v inodes.now → AreReferences v references) }
{
    references_of_rows(alloc, inodes)
}
