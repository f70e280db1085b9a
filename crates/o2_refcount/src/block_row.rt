// Rows of refcount blocks.
ghost use Rattle.std.specs.Prelude.{◌≡◌, ℕ, false};
ghost use Rattle.o2_model.specs.Metadata.{refcount_block_origin};
ghost use Rattle.o2_model.specs.RefcountTrees.{refcount_block};
ghost use Rattle.o2_model.specs.Volume.{Volume, is_in_range};
ghost use Rattle.o2_tables.specs.Rows.{IsRefcountBlockRow};
ghost use Rattle.o2_view.specs.Geos.{HasSizes};

use o2_extent::is_refcount_block_at;
use o2_model::{Geo, Origin};
use o2_ondisk::RefcountBlock;
use o2_tables::RefcountBlockRow;

/// What a refcount block says of where it is from.
fn origin_of(block: &RefcountBlock) -> Origin
    ensures { (v : Volume) (b : ℕ) → block.now ≡ refcount_block v b → result ≡ refcount_block_origin v b }
{
    Origin {
        slot: block.suballoc_slot,
        bit: block.suballoc_bit,
        loc: block.suballoc_loc,
    }
}

/// The row of block b, which has these fields.
pub fn row_of(geo: &Geo, b: u64, block: &RefcountBlock) -> RefcountBlockRow
    requires { HasSizes geo.now }
    ensures of { result.block ≡ b }
    ensures row { (v : Volume) → v.geo ≡ geo.now → block.now ≡ refcount_block v b → IsRefcountBlockRow v result }
{
    RefcountBlockRow {
        block: b,
        is_refcount_block: is_refcount_block_at(geo, b, block),
        origin: origin_of(block),
    }
}

/// The row of block b, where no structure can be in it.
#[tactic(auto, using(crate::proofs::TreesTold::none_out_of_range))]
pub fn row_out_of_range(b: u64) -> RefcountBlockRow
    ensures of { result.block ≡ b }
    ensures not { result.is_refcount_block ≡ false }
    ensures row { (v : Volume) → is_in_range v b ≡ false → IsRefcountBlockRow v result }
{
    RefcountBlockRow {
        block: b,
        is_refcount_block: false,
        origin: Origin {
            slot: 0,
            bit: 0,
            loc: 0,
        },
    }
}
