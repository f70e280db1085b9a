// META_BLOCK: an extent block or refcount block is from an extent_alloc, and is used once.
ghost use Rattle.std.specs.Prelude.{◌≡◌, ◌^◌, ◌<◌, IfOk};
ghost use Rattle.o2_model.specs.declared.check.Check.TheVariants as check;
ghost use Rattle.o2_model.specs.Faults.{fails_at};
ghost use Rattle.o2_model.specs.Orders.{rising};
ghost use Rattle.o2_model.specs.Volume.{Volume, blocks};
ghost use Rattle.o2_model.specs.Failing.{faults};
ghost use Rattle.o2_tables.specs.Rows.{IsGroupTable, IsInodeTable, IsRefcountTreeTable};
ghost use Rattle.o2_tally.specs.Gathered.{IsCount};
ghost use Rattle.o2_judges_alloc.specs.MetadataRows.{is_sound_use};

use crate::block_uses::metadata_uses;
use crate::given_blocks::given_blocks;
use o2_disk::NoMemory;
use o2_tables::{GroupRow, InodeRow, RefcountTreeRow};
use o2_tally::Counts;
use o2_view::RunSet;
use std::alloc::{AllocError, Global};

/// How often each block is used.
fn counts_of(alloc: Global, uses: &[u64]) -> Result<Counts, NoMemory>
    ensures { IfOk result (λ counts. IsCount uses.now counts) }
{
    let mut counts = Counts::new(alloc);
    for block in uses {
        counts.add(*block)?;
    }
    Ok(counts)
}

/// Whether the block is given out, and is used once.
fn is_sound(given: &RunSet, counts: &Counts, block: u64) -> bool
    ensures { result ≡ is_sound_use given.now counts.now block }
{
    given.has(block) && counts.count(block) == 1
}

/// The uses of blocks that are not given out, or are used more often.
fn unsound_uses(
    alloc: Global,
    uses: &[u64],
    given: &RunSet,
    counts: &Counts,
) -> Result<Vec<u64>, AllocError>
    ensures { IfOk result (λ found. found.items ≡ fails_at (λ b. b) (is_sound_use given.now counts.now) uses.now) }
{
    uses.iter()
        .filter(|block| !is_sound(given, counts, **block))
        .map(|block| *block)
        .collect(alloc)
}

/// The extent blocks and refcount blocks at which META_BLOCK fails: those that no group of an extent_alloc has at a bit above
/// 0, and those that are used more than once. A block comes once for each use. NoMemory where memory runs out.
pub fn meta_block(
    alloc: Global,
    groups: &[GroupRow],
    inodes: &[InodeRow],
    trees: &[RefcountTreeRow],
) -> Result<Vec<u64>, NoMemory>
    ensures { IfOk result (λ found. (v : Volume) → blocks v < 2 ^ 64 → IsGroupTable v groups.now → IsInodeTable v inodes.now → IsRefcountTreeTable v trees.now → rising found.items ≡ rising (faults v check.MetaBlock)) }
{
    let given = given_blocks(alloc, groups)?;
    let uses = metadata_uses(alloc, inodes, trees)?;
    let counts = counts_of(alloc, uses.as_slice())?;
    match unsound_uses(alloc, uses.as_slice(), &given, &counts) {
        Ok(found) => Ok(found),
        Err(_) => Err(NoMemory),
    }
}
