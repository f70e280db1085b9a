// The tree of extents under a list.
ghost use Rattle.std.specs.Prelude.{◌≡◌, ◌+◌, ◌-◌, ◌^◌, ◌≤◌, ◌<◌, ◌∷◌, ℕ, List, length, Some, true, false, OnOk, IfOk};
ghost use Rattle.std.specs.Option.{IfNone, IfSome};
ghost use Rattle.std.specs.Result.{IfErr};
ghost use Rattle.o2_view.specs.OwnChecks.{BlockFails};
ghost use Rattle.o2_view.specs.Counted.{CallsAtMost};
ghost use Rattle.o2_view.specs.Views.{view_state, view_blocks, Shows, OnlyReads};
ghost use Rattle.o2_ondisk.specs.declared.extent_rec.ExtentRec.{ExtentRec as Record};
ghost use Rattle.o2_model.specs.Words.{Apart};
ghost use Rattle.o2_model.specs.Extents.{Extents, LeafRule as Rule, is_extent_block, names_new_block, with_met, records_in_block, read_records};
ghost use Rattle.o2_model.specs.Volume.{Volume};
ghost use Rattle.o2_view.specs.Geos.{HasSizes, LiesIn, Reaches};
ghost use Rattle.o2_extent.specs.Readings.{Keeps, Within, GoesOn, Stops, Enters, LooksAtMost};
ghost use Rattle.o2_extent.specs.Rules.{rule_of, tells_clusters};

use crate::geometry::{block_bytes, is_block_in_range};
use crate::list::{header_at, is_sound, records_at};
use crate::reading::{Reading, add_block, add_fault, add_leaf, add_seen, has_seen};
use crate::rule::LeafRule;
use o2_disk::{Disk, NoMemory};
use o2_model::Geo;
use o2_ondisk::{ExtentRec, Signature, read_extent_block};
use o2_view::{Block, View, ViewFault};
use std::alloc::Global;

/// Reads one record of a leaf list. False where it is bad.
fn read_leaf(
    geo: &Geo,
    rule: LeafRule,
    r: &ExtentRec,
    reading: &mut Reading,
) -> Result<bool, NoMemory>
    requires { HasSizes geo.now }
    ensures good { IfOk result (λ good. good ≡ true → (v : Volume) → v.geo ≡ geo.now → (t : Extents) → Keeps v reading.old t → GoesOn v (rule_of rule) t r.now reading.new) }
    ensures bad { IfOk result (λ good. good ≡ false → (v : Volume) → v.geo ≡ geo.now → (t : Extents) → Keeps v reading.old t → Stops v (rule_of rule) t r.now reading.new) }
    ensures seen { reading.new.seen ≡ reading.old.seen }
    ensures within { tells_clusters rule ≡ true → Within geo.now reading.old.leaves.items → Within geo.now reading.new.leaves.items }
{
    if r.size.leaf_clusters() == 0 {
        return Ok(true);
    }
    if !rule.allows(geo, reading.end, r) {
        return Ok(false);
    }
    add_leaf(reading, r)?;
    Ok(true)
}

/// Reads the records of a leaf list.
fn read_leaves(
    geo: &Geo,
    rule: LeafRule,
    holder: u64,
    records: &[ExtentRec],
    reading: &mut Reading,
) -> Result<(), NoMemory>
    requires { HasSizes geo.now }
    ensures read { OnOk result ((v : Volume) → v.geo ≡ geo.now → (t : Extents) → Keeps v reading.old t
        → Keeps v reading.new (read_records v (rule_of rule) 0 holder 0 records.now t)) }
    ensures seen { reading.new.seen ≡ reading.old.seen }
    ensures within { tells_clusters rule ≡ true → Within geo.now reading.old.leaves.items → Within geo.now reading.new.leaves.items }
{
    for r in records {
        if !read_leaf(geo, rule, r, reading)? {
            return add_fault(reading, holder);
        }
    }
    Ok(())
}

/// The bytes of a block of the volume.
#[tactic(auto, using(crate::proofs::Sizes::some_bytes, crate::proofs::Sizes::few_bytes))]
pub fn look<D: Disk, const N: usize>(
    view: &mut View<'_, D, N>,
    geo: &Geo,
    b: u64,
) -> Result<Block, ViewFault>
    requires { Reaches geo.now view.old b }
    ensures bytes { IfOk result (λ block. (v : Volume) → Shows view.old geo.now v → block ≡ v.at b) }
    ensures size { IfOk result (λ block. length block ≡ 2 ^ geo.now.block_bits) }
    ensures long { IfOk result (λ block. 512 ≤ length block) }
    ensures few { IfOk result (λ block. length block ≤ 4096) }
    ensures count { CallsAtMost 1 (view_state view.old) (view_state view.new) }
    ensures reads { OnlyReads view.old view.new }
    ensures fails { IfErr result (BlockFails view.old view.new) }
{
    view.block(b)
}

/// Whether these bytes of block b are an extent block with a list of this depth.
#[tactic(auto, unfolding(o2_model::specs::Extents::is_extent_block))]
fn has_extent_block(geo: &Geo, depth: u16, b: u64, bytes: &[u8]) -> bool
    requires { 512 ≤ length bytes.now }
    ensures { (v : Volume) → v.geo ≡ geo.now → bytes.now ≡ v.at b → result ≡ is_extent_block v depth b }
{
    let block = read_extent_block(bytes);
    let header = header_at(bytes, 0x30);
    block.signature.0 == Signature::EXBLK01.0
        && block.blkno == b
        && block.fs_generation == geo.generation
        && header.tree_depth == depth
}

/// The records of the list in an extent block, which is at fault where the list's head is.
#[tactic(auto, unfolding(o2_model::specs::Extents::with_met, o2_model::specs::Extents::records_in_block))]
fn meet(
    alloc: Global,
    geo: &Geo,
    b: u64,
    bytes: &[u8],
    reading: &mut Reading,
) -> Result<Vec<ExtentRec>, NoMemory>
    requires sizes { HasSizes geo.now }
    requires long { length bytes.now ≡ 2 ^ geo.now.block_bits }
    ensures records { IfOk result (λ records. (v : Volume) → v.geo ≡ geo.now → bytes.now ≡ v.at b
        → records.items ≡ records_in_block v b) }
    ensures met { OnOk result ((v : Volume) → v.geo ≡ geo.now → bytes.now ≡ v.at b
        → (t : Extents) → Keeps v reading.old t → Keeps v reading.new (with_met v b t)) }
    ensures seen { reading.new.seen ≡ reading.old.seen }
    ensures leaves { reading.new.leaves ≡ reading.old.leaves }
{
    add_block(reading, b, bytes)?;
    let header = header_at(bytes, 0x30);
    if !is_sound(&header, (block_bytes(geo) - 0x40) / 16) {
        add_fault(reading, b)?;
        return Ok(Vec::new(alloc));
    }
    records_at(alloc, bytes, 0x30, header.next_free_rec)
}

/// Whether a record of an inner list names a block that is to be looked at.
#[tactic(auto, unfolding(o2_model::specs::Extents::names_new_block))]
fn may_look(geo: &Geo, low: u64, r: &ExtentRec, reading: &Reading) -> bool
    requires { HasSizes geo.now }
    ensures { (v : Volume) → v.geo ≡ geo.now → result ≡ names_new_block v low reading.now.seen r.now }
{
    let cpos = u64::from(r.cpos);
    let is_in_range = is_block_in_range(geo, r.blkno);
    let was_seen = has_seen(reading, r.blkno);
    low <= cpos && is_in_range && !was_seen
}

/// Looks at the block that a record of an inner list names, and gives the records of the list in it. None where the
/// record is bad.
fn enter<D: Disk, const N: usize>(
    alloc: Global,
    view: &mut View<'_, D, N>,
    geo: &Geo,
    depth: u16,
    holder: u64,
    low: u64,
    r: &ExtentRec,
    reading: &mut Reading,
) -> Result<Option<Vec<ExtentRec>>, ViewFault>
    requires geo { LiesIn geo.now view.old }
    requires inner { 0 < depth }
    ensures bad { IfOk result (λ found. IfNone found ((v : Volume) → Shows view.old geo.now v → (rule : Rule) (rs : List Record) (t : Extents) → Keeps v reading.old t
        → Keeps v reading.new (read_records v rule depth holder low (r.now ∷ rs) t))) }
    ensures good { IfOk result (λ found. IfSome found (λ below. (v : Volume) → Shows view.old geo.now v → (t : Extents) → Keeps v reading.old t
        → Enters v depth low t r.now reading.new below.items)) }
    ensures leaves { reading.new.leaves ≡ reading.old.leaves }
    ensures apart { Apart (view_blocks view.old) reading.old.seen → Apart (view_blocks view.old) reading.new.seen }
    ensures count { LooksAtMost reading.old.seen reading.new.seen view.old view.new }
    ensures reads { OnlyReads view.old view.new }
    ensures fails { IfErr result (BlockFails view.old view.new) }
{
    if !may_look(geo, low, r, reading) {
        add_fault(reading, holder)?;
        return Ok(None);
    }
    add_seen(reading, r.blkno)?;
    let block = look(view, geo, r.blkno)?;
    let bytes = block.as_slice();
    if !has_extent_block(geo, depth - 1, r.blkno, bytes) {
        add_fault(reading, holder)?;
        return Ok(None);
    }
    let records = meet(alloc, geo, r.blkno, bytes, reading)?;
    Ok(Some(records))
}

/// Reads the records of a list of this depth, and what is below them.
#[tactic(auto, using(crate::proofs::Views::still_in, crate::proofs::Views::only_both, crate::proofs::Views::looks_both))]
pub fn read_into<D: Disk, const N: usize>(
    alloc: Global,
    view: &mut View<'_, D, N>,
    geo: &Geo,
    rule: LeafRule,
    depth: u16,
    holder: u64,
    records: &[ExtentRec],
    reading: &mut Reading,
) -> Result<(), ViewFault>
    requires geo { LiesIn geo.now view.old }
    ensures read { OnOk result ((v : Volume) → Shows view.old geo.now v → (t : Extents) → Keeps v reading.old t
        → Keeps v reading.new (read_records v (rule_of rule) depth holder 0 records.now t)) }
    ensures within { tells_clusters rule ≡ true → Within geo.now reading.old.leaves.items → Within geo.now reading.new.leaves.items }
    ensures apart { Apart (view_blocks view.old) reading.old.seen → Apart (view_blocks view.old) reading.new.seen }
    ensures count { LooksAtMost reading.old.seen reading.new.seen view.old view.new }
    ensures reads { OnlyReads view.old view.new }
    ensures fails { IfErr result (BlockFails view.old view.new) }
{
    if depth == 0 {
        read_leaves(geo, rule, holder, records, reading)?;
        return Ok(());
    }
    let mut low = 0;
    for r in records {
        let below = match enter(alloc, view, geo, depth, holder, low, r, reading)? {
            Some(below) => below,
            None => return Ok(()),
        };
        read_into(
            alloc,
            view,
            geo,
            rule,
            depth - 1,
            r.blkno,
            below.as_slice(),
            reading,
        )?;
        low = u64::from(r.cpos) + 1;
    }
    Ok(())
}
