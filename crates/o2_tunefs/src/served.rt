// Whether a volume is served, by its superblock.
ghost use Rattle.std.specs.Prelude.{◌≡◌};
ghost use Rattle.o2_tunefs.specs.Answer.{is_for_later};

use o2_ondisk::Super;
use o2_view::unsupported;

// The most bytes of a volume that has no copies of its superblock: 1 GiB.
const MOST_BYTES: u32 = 1 << 30;

#[tactic(auto, unfolding(crate::specs::Answer::is_for_later))]
/// Whether a later version serves the volume.
pub fn is_not_served(superblock: &Super, clusters: u32) -> bool
    ensures { result ≡ is_for_later superblock.now clusters }
{
    if unsupported(superblock, clusters).is_some() {
        return true;
    }
    let bits = superblock.clustersize_bits;
    if bits < 12 || bits > 20 {
        return true;
    }
    clusters > MOST_BYTES >> bits
}
