// How many blocks a volume has.
ghost use Rattle.std.specs.Prelude.{◌≡◌, IfOk};
ghost use Rattle.o2_model.specs.Volume.{Volume, blocks};

use o2_disk::NoMemory;
use o2_model::Geo;

/// The number of the volume's blocks. NoMemory where that does not fit 64 bits, as on no volume.
pub fn count_blocks(geo: &Geo) -> Result<usize, NoMemory>
    ensures { IfOk result (λ count. (v : Volume) → v.geo ≡ geo.now → count ≡ blocks v) }
{
    let Some(per_cluster) = 2usize.checked_pow(geo.cluster_bits.saturating_sub(geo.block_bits))
    else {
        return Err(NoMemory);
    };
    match per_cluster.checked_mul(geo.clusters as usize) {
        Some(count) => Ok(count),
        None => Err(NoMemory),
    }
}
