// Features outside the profile.
ghost use Rattle.std.specs.Prelude.{◌≡◌};
ghost use Rattle.o2_ondisk.specs.Bits.{has_bits};
ghost use Rattle.o2_model.specs.Features.{unsupported_in};

use crate::Oddity;
use o2_ondisk::Super;

// Incompatible features outside the profile.
const HEARTBEAT_DEV: u32 = 0x2;

const RESIZE_INPROG: u32 = 0x4;

const LOCAL_MOUNT: u32 = 0x8;

const TUNEFS_INPROG: u32 = 0x20;

const META_ECC: u32 = 0x800;

const UNKNOWN_INCOMPAT: u32 = 0xffff_0001;

// Features that only forbid writing, outside the profile.
const USRQUOTA: u32 = 0x2;

const GRPQUOTA: u32 = 0x4;

const UNKNOWN_RO_COMPAT: u32 = 0xffff_fff8;

// The most clusters that a volume may have.
const MOST_CLUSTERS: u32 = 1 << 30;

fn has_any(flags: u32, mask: u32) -> bool
    ensures { result ≡ has_bits flags mask }
{
    flags & mask != 0
}

#[tactic(auto, unfolding(o2_model::specs::Features::unsupported_in))]
/// The first reason why a volume with this superblock and so many clusters is not supported.
pub fn unsupported(superblock: &Super, clusters: u32) -> Option<Oddity>
    ensures { result ≡ unsupported_in superblock.now clusters }
{
    let incompat = superblock.feature_incompat;
    let ro_compat = superblock.feature_ro_compat;
    if has_any(incompat, META_ECC) {
        Some(Oddity::Metaecc)
    } else if has_any(ro_compat, USRQUOTA | GRPQUOTA) {
        Some(Oddity::Quota)
    } else if has_any(incompat, HEARTBEAT_DEV) {
        Some(Oddity::HeartbeatDevice)
    } else if has_any(incompat, LOCAL_MOUNT) {
        Some(Oddity::LocalMount)
    } else if has_any(incompat, RESIZE_INPROG | TUNEFS_INPROG) {
        Some(Oddity::InProgress)
    } else if has_any(incompat, UNKNOWN_INCOMPAT) || has_any(ro_compat, UNKNOWN_RO_COMPAT) {
        Some(Oddity::UnknownFeatures)
    } else if clusters > MOST_CLUSTERS {
        Some(Oddity::Clusters)
    } else {
        None
    }
}
