// The list in a block, and what is below it.
ghost use Rattle.std.specs.Prelude.{◌≡◌, ◌+◌, ◌-◌, ◌/◌, ◌^◌, ◌≤◌, true, length, IfOk};
ghost use Rattle.std.specs.Result.{IfErr};
ghost use Rattle.o2_view.specs.OwnChecks.{BlockFails};
ghost use Rattle.o2_view.specs.Counted.{CallsBut};
ghost use Rattle.o2_view.specs.Views.{view_state, view_blocks, ShowsBytes, OnlyReads};
ghost use Rattle.o2_model.specs.Extents.{read_list};
ghost use Rattle.o2_model.specs.Volume.{Volume, block_size};
ghost use Rattle.o2_view.specs.Geos.{LiesIn};
ghost use Rattle.o2_extent.specs.Readings.{Keeps, Within};
ghost use Rattle.o2_extent.specs.Rules.{rule_of, tells_clusters};

use crate::geometry::block_bytes;
use crate::list::{header_at, is_sound, records_at};
use crate::reading::{Reading, add_fault, start};
use crate::rule::LeafRule;
use crate::tree::read_into;
use o2_disk::Disk;
use o2_model::Geo;
use o2_view::{View, ViewFault};
use std::alloc::Global;

/// Reads the list that begins at byte `at` of block `holder`, where these are its bytes, and that has room to the block's end.
#[tactic(auto, using(crate::proofs::Sizes::some_bytes))]
pub fn read_block_list<D: Disk, const N: usize>(
    alloc: Global,
    view: &mut View<'_, D, N>,
    geo: &Geo,
    rule: LeafRule,
    holder: u64,
    at: usize,
    bytes: &[u8],
) -> Result<Reading, ViewFault>
    requires geo { LiesIn geo.now view.old }
    requires size { length bytes.now ≡ 2 ^ geo.now.block_bits }
    requires place { at + 0x10 ≤ 512 }
    ensures read { IfOk result (λ reading. (v : Volume) → ShowsBytes view.old geo.now holder bytes.now v
        → Keeps v reading (read_list v (rule_of rule) holder at ((block_size v - (at + 0x10)) / 16))) }
    ensures within { IfOk result (λ reading. tells_clusters rule ≡ true → Within geo.now reading.leaves.items) }
    // The disk is called for the extent blocks alone.
    ensures count { CallsBut 1 (view_blocks view.old) (view_state view.old) (view_state view.new) }
    ensures reads { OnlyReads view.old view.new }
    ensures fails { IfErr result (BlockFails view.old view.new) }
{
    let mut reading = start(alloc);
    let header = header_at(bytes, at);
    if !is_sound(&header, (block_bytes(geo) - (at as u64 + 0x10)) / 16) {
        add_fault(&mut reading, holder)?;
        return Ok(reading);
    }
    let records = records_at(alloc, bytes, at, header.next_free_rec)?;
    read_into(
        alloc,
        view,
        geo,
        rule,
        header.tree_depth,
        holder,
        records.as_slice(),
        &mut reading,
    )?;
    Ok(reading)
}
