// What the dinode of one of the volume's own inodes says.
ghost use Rattle.std.specs.Prelude.{◌≡◌, ◌≤◌, length};
ghost use Rattle.o2_model.specs.Volume.{Volume};
ghost use Rattle.o2_view.specs.Geos.{HasSizes};
ghost use Rattle.o2_survey.specs.SystemInodes.{IsSystemInode};

use o2_dir::is_valid_dinode;
use o2_model::Geo;
use o2_ondisk::{DynFeatures, InodeFlags, Kind, RoleData, read_dinode};

/// What the dinode of one of the volume's own inodes says.
#[derive(Clone, Copy, Debug, PartialEq, Eq)]
pub struct SystemInode {
    /// Whether it is a dinode in use of this volume and of its own block.
    pub is_valid: bool,
    /// None where its mode is none of the seven kinds.
    pub kind: Option<Kind>,
    pub flags: InodeFlags,
    /// Whether it shares clusters (HAS_REFCOUNT).
    pub has_refcount: bool,
    /// The totals of an allocator, or the flags of a journal.
    pub role_data: RoleData,
}

/// What these bytes of block b say as a dinode.
pub fn system_inode_in(geo: &Geo, b: u64, bytes: &[u8]) -> SystemInode
    requires sizes { HasSizes geo.now }
    requires long { 512 ≤ length bytes.now }
    ensures { (v : Volume) → v.geo ≡ geo.now → bytes.now ≡ v.at b → IsSystemInode v b result }
{
    let dinode = read_dinode(bytes);
    SystemInode {
        is_valid: is_valid_dinode(geo, b, &dinode),
        kind: dinode.kind(),
        flags: dinode.flags,
        has_refcount: dinode.dyn_features.has(DynFeatures::HAS_REFCOUNT),
        role_data: dinode.role_data,
    }
}
