// The blocks that extent_allocs give out.
ghost use Rattle.std.specs.Prelude.{◌≡◌, ◌+◌, ◌^◌, ◌&&◌, nat_lt, List, IfOk, OnOk};
ghost use Rattle.o2_model.specs.Words.{push};
ghost use Rattle.o2_model.specs.Allocators.{are_metadata};
ghost use Rattle.o2_tables.specs.declared.groups.GroupRow.{GroupRow};
ghost use Rattle.o2_judges_alloc.specs.MetadataRows.{AreGiven};

use crate::bit_use::is_of_metadata;
use o2_disk::NoMemory;
use o2_tables::GroupRow;
use o2_view::RunSet;
use std::alloc::Global;

/// Whether it is a group of metadata with a bit, whose blocks have numbers of 64 bits, as those of a volume do.
fn gives_blocks(row: &GroupRow) -> bool
    ensures { result ≡ (are_metadata row.now.group.of.bit_use && nat_lt 0 row.now.group.bits && nat_lt (row.now.group.block + row.now.group.bits) (2 ^ 64)) }
{
    let bits = row.group.bits;
    is_of_metadata(row) && bits > 0 && row.group.block <= u64::MAX - u64::from(bits)
}

/// Puts the blocks of a group's bits above 0 with those that are given out, if it is a group of metadata.
fn add_given(given: &mut RunSet, row: &GroupRow) -> Result<(), NoMemory>
    ensures { OnOk result ((rows : List GroupRow) → AreGiven rows given.old → AreGiven (push rows row.now) given.new) }
{
    if gives_blocks(row) {
        given.push(row.group.block + 1, u64::from(row.group.bits - 1))?;
    }
    Ok(())
}

/// The blocks that groups of metadata give out: those of their bits above 0.
pub fn given_blocks(alloc: Global, groups: &[GroupRow]) -> Result<RunSet, NoMemory>
    ensures { IfOk result (λ given. AreGiven groups.now given) }
{
    let mut given = RunSet::new(alloc);
    for row in groups {
        add_given(&mut given, row)?;
    }
    Ok(given)
}
