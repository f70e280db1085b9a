// The leaf records of an owner: a dinode, an index root or a refcount root.
ghost use Rattle.std.specs.Prelude.{◌≡◌, ◌⊎◌, true, IfOk};
ghost use Rattle.std.specs.Result.{IfErr};
ghost use Rattle.o2_view.specs.OwnChecks.{NoneFails, ReadFails};
ghost use Rattle.o2_view.specs.Counted.{CallsAtMost};
ghost use Rattle.o2_view.specs.Views.{view_state, view_blocks, Shows, OnlyReads};
ghost use Rattle.o2_model.specs.Volume.{Volume};
ghost use Rattle.o2_view.specs.Geos.{Reaches};
ghost use Rattle.o2_extent.specs.Readings.{Within};
ghost use Rattle.o2_extent.specs.Owners.{says_refcount_root, owner_records, owner_checks};

use crate::Leaves;
use crate::inode_records::records_in;
use crate::roots::{
    has_index_signature, has_refcount_signature, index_root_records, refcount_root_records,
};
use crate::tree::look;
use o2_disk::Disk;
use o2_model::{Check, Geo};
use o2_view::{ReadFault, View};
use std::alloc::Global;

/// The leaf records of the owner in this block, without those of 0 clusters. A block with the signature of an index root is read
/// as one, one with that of a refcount block as a refcount root, and any other as a dinode. Bad where EXTENT fails for the
/// dinode, or DX or REF_TREE for the root: the leaves of an index and those of a refcount tree are not looked at.
pub fn records<D: Disk, const N: usize>(
    alloc: Global,
    view: &mut View<'_, D, N>,
    geo: &Geo,
    owner: u64,
) -> Result<Leaves, ReadFault>
    requires { Reaches geo.now view.old owner }
    ensures told { IfOk result (λ leaves. (v : Volume) → Shows view.old geo.now v → NoneFails (owner_checks owner) v × (leaves ≡ owner_records v owner)) }
    // The records of a refcount root name blocks, and no clusters.
    ensures within { IfOk result (λ leaves. Within geo.now leaves ⊎ ((v : Volume) → Shows view.old geo.now v → says_refcount_root v owner ≡ true)) }
    ensures fails { IfErr result (ReadFails view.old view.new geo.now (owner_checks owner)) }
    // The disk is called at most as often as the view has blocks.
    ensures count { CallsAtMost (view_blocks view.old) (view_state view.old) (view_state view.new) }
    ensures reads { OnlyReads view.old view.new }
{
    let block = look(view, geo, owner)?;
    let bytes = block.as_slice();
    if has_index_signature(bytes) {
        let Some(leaves) = index_root_records(alloc, view, geo, owner, bytes)? else {
            return Err(ReadFault::Bad {
                check: Check::Dx,
                block: owner,
            });
        };
        return Ok(leaves);
    }
    if has_refcount_signature(bytes) {
        let Some(leaves) = refcount_root_records(alloc, view, geo, owner, bytes)? else {
            return Err(ReadFault::Bad {
                check: Check::RefTree,
                block: owner,
            });
        };
        return Ok(leaves);
    }
    records_in(alloc, view, geo, owner, bytes)
}
