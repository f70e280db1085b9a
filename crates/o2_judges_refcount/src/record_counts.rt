// REF_COUNT: r_refcount is how often each cluster of the record is referred to, where they are referred to equally often.
ghost use Rattle.std.specs.Prelude.{◌≡◌, ◌++◌, flat_map, IfOk, OnOk};
ghost use Rattle.o2_model.specs.declared.check.Check.TheVariants as check;
ghost use Rattle.o2_model.specs.Orders.{rising};
ghost use Rattle.o2_model.specs.Volume.{Volume};
ghost use Rattle.o2_model.specs.Failing.{faults};
ghost use Rattle.o2_tables.specs.Rows.{IsRefcountTreeTable};
ghost use Rattle.o2_judges_refcount.specs.References.{AreReferences};
ghost use Rattle.o2_judges_refcount.specs.TreeRows.{has_count as count_is, record_faults, count_faults};

use crate::References;
use crate::even::is_shared_evenly;
use o2_disk::NoMemory;
use o2_model::PlacedRefcount;
use o2_tables::RefcountTreeRow;
use o2_tally::put;
use std::alloc::Global;

/// Whether the record tells how often its clusters are referred to, at most 2^32 - 1.
fn has_count(references: &References, root: u64, placed: &PlacedRefcount) -> Result<bool, NoMemory>
    ensures { IfOk result (λ is. is ≡ count_is references.now root placed.now) }
{
    let fields = &placed.fields;
    let times = references.times(root, fields.cpos);
    let is_even = is_shared_evenly(references, root, fields)?;
    Ok(!is_even || u64::from(fields.refcount) == times.min(0xffff_ffff))
}

/// Puts the block of the record with those found, unless it tells this.
#[tactic(auto, unfolding(crate::specs::TreeRows::record_faults))]
fn judge_record(
    found: &mut Vec<u64>,
    references: &References,
    root: u64,
    placed: &PlacedRefcount,
) -> Result<(), NoMemory>
    ensures { OnOk result (found.new.items ≡ found.old.items ++ record_faults references.now root placed.now) }
{
    if !has_count(references, root, placed)? {
        put(found, placed.block)?;
    }
    Ok(())
}

fn judge_records(
    found: &mut Vec<u64>,
    references: &References,
    root: u64,
    records: &[PlacedRefcount],
) -> Result<(), NoMemory>
    ensures { OnOk result (found.new.items ≡ found.old.items ++ flat_map (record_faults references.now root) records.now) }
{
    for placed in records {
        judge_record(found, references, root, placed)?;
    }
    Ok(())
}

/// Puts the blocks of its records with those found, where the root is a refcount block.
fn judge_tree(
    found: &mut Vec<u64>,
    references: &References,
    tree: &RefcountTreeRow,
) -> Result<(), NoMemory>
    ensures { OnOk result (found.new.items ≡ found.old.items ++ count_faults references.now tree.now) }
{
    if tree.root.is_refcount_block {
        judge_records(found, references, tree.root.block, tree.records.as_slice())?;
    }
    Ok(())
}

/// The blocks with records of these trees whose number is wrong.
fn with_other_count(
    alloc: Global,
    references: &References,
    trees: &[RefcountTreeRow],
) -> Result<Vec<u64>, NoMemory>
    ensures { IfOk result (λ blocks. blocks.items ≡ flat_map (count_faults references.now) trees.now) }
{
    let mut found = Vec::new(alloc);
    for tree in trees {
        judge_tree(&mut found, references, tree)?;
    }
    Ok(found)
}

/// The refcount blocks at which REF_COUNT fails, where these are the references of the volume; a block comes once for each of
/// its records that is wrong. NoMemory where memory runs out.
pub fn ref_count(
    alloc: Global,
    references: &References,
    trees: &[RefcountTreeRow],
) -> Result<Vec<u64>, NoMemory>
    ensures { IfOk result (λ blocks. (v : Volume) → AreReferences v references.now → IsRefcountTreeTable v trees.now → rising blocks.items ≡ rising (faults v check.RefCount)) }
{
    with_other_count(alloc, references, trees)
}
