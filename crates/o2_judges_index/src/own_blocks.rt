// Whether an index is sound by itself, and has its blocks for itself.
ghost use Rattle.std.specs.Prelude.{◌≡◌};
ghost use Rattle.std.specs.List.{list_all};
ghost use Rattle.o2_model.specs.Volume.{Volume};
ghost use Rattle.o2_model.specs.SoundIndexes.{is_own_block};
ghost use Rattle.o2_tree.specs.TreeRows.{IsIndexRow};
ghost use Rattle.o2_judges_index.specs.IndexRows.{AreBlockUses, has_own_index_blocks};

use crate::block_uses::BlockUses;
use o2_tables::ExtentBlockRow;
use o2_tree::IndexRow;

/// Whether each of these extent blocks is from where it says, and is used once.
fn are_own(uses: &BlockUses, blocks: &[ExtentBlockRow]) -> bool
    ensures { (v : Volume) → AreBlockUses v uses.now → result ≡ list_all (λ r. is_own_block v r.origin r.block) blocks.now }
{
    for row in blocks {
        if !uses.is_own(&row.origin, row.block) {
            return false;
        }
    }
    true
}

/// Whether the index is sound by itself, and its root and extent blocks are its own.
pub fn has_own_blocks(uses: &BlockUses, row: &IndexRow) -> bool
    ensures { (v : Volume) → AreBlockUses v uses.now → IsIndexRow v row.now → result ≡ has_own_index_blocks v row.now.directory }
{
    row.is_sound_alone
        && uses.is_own(&row.root.origin, row.root.block)
        && are_own(uses, row.extent_blocks.as_slice())
}
