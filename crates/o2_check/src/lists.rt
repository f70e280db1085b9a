// Lists and sets of blocks.
ghost use Rattle.std.specs.Prelude.{◌≡◌, ◌++◌, ℕ, IfOk, OnOk};
ghost use Rattle.o2_model.specs.Words.{among, push};
ghost use Rattle.o2_model.specs.Volume.{Volume};
ghost use Rattle.o2_model.specs.Groups.{is_inode};
ghost use Rattle.o2_model.specs.Checks.BlockAllocBit.{blocks_in_use as in_use};
ghost use Rattle.o2_judges_index.specs.Judgements.{IsIndexJudgement};
ghost use Rattle.o2_tables.specs.Rows.{IsInodeTable};
ghost use Rattle.o2_tally.specs.Again.{has_number};
ghost use Rattle.o2_check.specs.WholeTables.{AreTables};
ghost use Rattle.o2_check.specs.Numbers.{AreNumbers};

use crate::tables::Tables;
use o2_disk::NoMemory;
use o2_judges_alloc::metadata_uses;
use o2_judges_index::IndexJudgement;
use o2_tables::InodeRow;
use o2_tally::add_number;
use std::alloc::Global;
use std::collections::BTreeSet;

/// Puts some blocks at the end.
pub fn put_all(found: &mut Vec<u64>, blocks: &[u64]) -> Result<(), NoMemory>
    ensures { OnOk result (found.new.items ≡ found.old.items ++ blocks.now) }
{
    match found.extend_from_slice(blocks) {
        Ok(()) => Ok(()),
        Err(_) => Err(NoMemory),
    }
}

/// These blocks, once more.
pub fn copied(alloc: Global, blocks: &[u64]) -> Result<Vec<u64>, NoMemory>
    ensures { IfOk result (λ copy. copy.items ≡ blocks.now) }
{
    let mut copy = Vec::new(alloc);
    put_all(&mut copy, blocks)?;
    Ok(copy)
}

/// These blocks and then those.
pub fn joined(alloc: Global, blocks: &[u64], more: &[u64]) -> Result<Vec<u64>, NoMemory>
    ensures { IfOk result (λ all. all.items ≡ blocks.now ++ more.now) }
{
    let mut all = copied(alloc, blocks)?;
    put_all(&mut all, more)?;
    Ok(all)
}

/// Puts a block among them.
fn add_block(set: &mut BTreeSet<u64>, block: u64) -> Result<(), NoMemory>
    ensures { OnOk result ((blocks : _) → AreNumbers blocks set.old → AreNumbers (push blocks block) set.new) }
{
    add_number(set, block)?;
    Ok(())
}

/// The set of these blocks.
fn set_of(alloc: Global, blocks: &[u64]) -> Result<BTreeSet<u64>, NoMemory>
    ensures { IfOk result (λ set. AreNumbers blocks.now set) }
{
    let mut set = BTreeSet::new(alloc);
    for block in blocks {
        add_block(&mut set, *block)?;
    }
    Ok(set)
}

/// The blocks that extent_allocs have in use: extent blocks, refcount blocks, and the blocks of the indexes that hold.
pub fn blocks_in_use(
    alloc: Global,
    tables: &Tables,
    indexes: &IndexJudgement,
) -> Result<BTreeSet<u64>, NoMemory>
    ensures { IfOk result (λ set. (v : Volume) → AreTables v tables.now → IsIndexJudgement v indexes.now → (b : ℕ) → has_number set b ≡ among (in_use v) b) }
{
    let mut blocks = metadata_uses(alloc, &tables.inodes.rows, &tables.trees.rows)?;
    put_all(&mut blocks, &indexes.blocks)?;
    set_of(alloc, &blocks)
}

/// The blocks of the inodes.
pub fn inode_numbers(alloc: Global, inodes: &[InodeRow]) -> Result<BTreeSet<u64>, NoMemory>
    ensures { IfOk result (λ set. (v : Volume) → IsInodeTable v inodes.now → (b : ℕ) → has_number set b ≡ is_inode v b) }
{
    let mut set = BTreeSet::new(alloc);
    for row in inodes {
        add_block(&mut set, row.block)?;
    }
    Ok(set)
}
