// Which inodes have bytes.
ghost use Rattle.std.specs.Prelude.{◌≡◌, ◌||◌, true, false, IfOk};
ghost use Rattle.std.specs.Result.{IfErr};
ghost use Rattle.o2_ondisk.specs.Dinodes.{dinode_of};
ghost use Rattle.o2_ondisk.specs.Kinds.{kind_of_mode};
ghost use Rattle.o2_view.specs.Views.{Shows, OnlyReads};
ghost use Rattle.o2_view.specs.Geos.{Reaches, HasSizes};
ghost use Rattle.o2_view.specs.OwnChecks.{BlockFails};
ghost use Rattle.o2_model.specs.Volume.{Volume, is_valid};
ghost use Rattle.o2_model.specs.Inodes.{is_file_kind, is_link_kind};
ghost use Rattle.o2_dir.specs.FileData.{HasBytes};

use o2_disk::Disk;
use o2_extent::{look, volume_blocks};
use o2_model::Geo;
use o2_ondisk::{Dinode, InodeFlags, Kind, Signature, read_dinode};
use o2_view::{View, ViewFault};

/// Whether these bytes of block b are a valid dinode.
#[tactic(auto, unfolding(o2_model::specs::Volume::is_valid))]
pub fn is_valid_dinode(geo: &Geo, b: u64, dinode: &Dinode) -> bool
    requires { HasSizes geo.now }
    ensures { (v : Volume) → v.geo ≡ geo.now → dinode.now ≡ dinode_of (v.at b) → result ≡ is_valid v b }
{
    let blocks = volume_blocks(geo);
    0 < b
        && b < blocks
        && dinode.signature.0 == Signature::INODE01.0
        && dinode.blkno == b
        && dinode.fs_generation == geo.generation
        && dinode.flags.has(InodeFlags::VALID)
}

/// Whether the dinode is one of a file or of a link.
pub fn is_of_file_or_link(dinode: &Dinode) -> bool
    ensures { result ≡ (is_file_kind (kind_of_mode dinode.now.mode) || is_link_kind (kind_of_mode dinode.now.mode)) }
{
    match dinode.kind() {
        Some(Kind::File) => true,
        Some(Kind::Link) => true,
        _ => false,
    }
}

/// Whether block `inode` is a valid dinode of a file or a link, so that its bytes can be read.
pub fn has_bytes<D: Disk, const N: usize>(
    view: &mut View<'_, D, N>,
    geo: &Geo,
    inode: u64,
) -> Result<bool, ViewFault>
    requires inode { Reaches geo.now view.old inode }
    ensures yes { IfOk result (λ yes. yes ≡ true → (v : Volume) → Shows view.old geo.now v → HasBytes v inode) }
    ensures no { IfOk result (λ yes. yes ≡ false → (v : Volume) → Shows view.old geo.now v → HasBytes v inode → ⊥) }
    ensures reads { OnlyReads view.old view.new }
    ensures fails { IfErr result (BlockFails view.old view.new) }
{
    let block = look(view, geo, inode)?;
    let dinode = read_dinode(block.as_slice());
    if !is_valid_dinode(geo, inode, &dinode) {
        return Ok(false);
    }
    Ok(is_of_file_or_link(&dinode))
}
