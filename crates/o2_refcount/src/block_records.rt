// The records of one refcount block.
ghost use Rattle.std.specs.Prelude.{◌≡◌, ℕ, ◌+◌, ◌*◌, ◌^◌, ◌≤◌, true, List, length, drop, OnOk, IfOk};
ghost use Rattle.std.specs.Result.{IfErr};
ghost use Rattle.o2_ondisk.specs.RefcountListHeaders.{refcount_list_header_of};
ghost use Rattle.o2_ondisk.specs.RefcountRecs.{refcount_rec_of};
ghost use Rattle.o2_model.specs.RefcountTrees.{Refcounts, refcount_header, is_sound_refcount_header, read_refcounts, read_refcount_block as read_block_of};
ghost use Rattle.o2_model.specs.Volume.{Volume};
ghost use Rattle.o2_model.specs.Words.{table};
ghost use Rattle.o2_tables.specs.Rows.{IsRefcountBlockRow};
ghost use Rattle.o2_view.specs.Geos.{HasSizes, LiesIn};
ghost use Rattle.o2_view.specs.OwnChecks.{BlockFails};
ghost use Rattle.o2_view.specs.Views.{Shows, OnlyReads};
ghost use Rattle.o2_refcount.specs.Readings.{Keeps};

use crate::block_row::{row_of, row_out_of_range};
use crate::reading::{Reading, add_fault, add_record, is_sound_record};
use o2_disk::{Disk, NoMemory};
use o2_extent::{block_bytes, is_block_in_range, is_refcount_block_at, look};
use o2_model::Geo;
use o2_ondisk::{
    RefcountListHeader, read_refcount_block, read_refcount_list_header, read_refcount_rec,
};
use o2_tables::RefcountBlockRow;
use o2_view::{View, ViewFault};

/// Where the records begin in a refcount block; the header of their list stands 16 bytes before.
pub const RECORDS: usize = 0x90;

/// The header of the list of records in the bytes of a refcount block.
#[tactic(auto, using(std::proofs::lemmas::List::take_rest))]
pub fn header_of(bytes: &[u8]) -> RefcountListHeader
    requires { 512 ≤ length bytes.now }
    ensures { result ≡ refcount_list_header_of (drop 0x80 bytes.now) }
{
    read_refcount_list_header(&bytes[0x80..])
}

/// Whether the header is that of a list that fits a refcount block.
#[tactic(auto, using(o2_extent::proofs::Sizes::some_bytes))]
fn is_sound_header(geo: &Geo, header: &RefcountListHeader) -> bool
    requires { HasSizes geo.now }
    ensures test { (v : Volume) (b : ℕ) → v.geo ≡ geo.now → header.now ≡ refcount_header v b → result ≡ is_sound_refcount_header v b }
    ensures fits { result ≡ true → 0x90 + 16 * header.now.used ≤ 2 ^ geo.now.block_bits }
{
    let most = (block_bytes(geo) - RECORDS as u64) / 16;
    let count = header.count;
    let used = header.used;
    u64::from(count) <= most && used <= count
}

/// Reads the first `used` records of block b, where these are its bytes, up to one that may not follow those before it.
fn read_records(
    geo: &Geo,
    b: u64,
    bytes: &[u8],
    used: u16,
    reading: &mut Reading,
) -> Result<(), NoMemory>
    requires { 0x90 + 16 * used ≤ length bytes.now }
    ensures { OnOk result ((v : Volume) → v.geo ≡ geo.now → (before : List ℕ) (t : Refcounts) → Keeps before reading.old t
        → Keeps before reading.new (read_refcounts v b (table refcount_rec_of 16 0x90 used bytes.now) t)) }
{
    for k in 0..usize::from(used) {
        let r = read_refcount_rec(&bytes[RECORDS + 16 * k..]);
        if !is_sound_record(geo, reading.end, &r) {
            return add_fault(reading, b);
        }
        add_record(reading, b, &r)?;
    }
    Ok(())
}

/// Reads the records of block b, where these are its bytes.
#[tactic(auto, using(o2_extent::proofs::Sizes::some_bytes))]
pub fn read_bytes(geo: &Geo, b: u64, bytes: &[u8], reading: &mut Reading) -> Result<(), NoMemory>
    requires sizes { HasSizes geo.now }
    requires size { length bytes.now ≡ 2 ^ geo.now.block_bits }
    ensures { OnOk result ((v : Volume) → v.geo ≡ geo.now → bytes.now ≡ v.at b → (before : List ℕ) (t : Refcounts) → Keeps before reading.old t
        → Keeps before reading.new (read_block_of v t b)) }
{
    let block = read_refcount_block(bytes);
    let header = header_of(bytes);
    if !is_refcount_block_at(geo, b, &block) || !is_sound_header(geo, &header) {
        return add_fault(reading, b);
    }
    read_records(geo, b, bytes, header.used, reading)
}

/// Reads the records of block b, and answers its row. One that no structure can be in is at fault, and is not looked at.
pub fn read_block<D: Disk, const N: usize>(
    view: &mut View<'_, D, N>,
    geo: &Geo,
    b: u64,
    reading: &mut Reading,
) -> Result<RefcountBlockRow, ViewFault>
    requires { LiesIn geo.now view.old }
    ensures of { IfOk result (λ row. row.block ≡ b) }
    ensures row { IfOk result (λ row. (v : Volume) → Shows view.old geo.now v → IsRefcountBlockRow v row) }
    ensures read { OnOk result ((v : Volume) → Shows view.old geo.now v → (before : List ℕ) (t : Refcounts) → Keeps before reading.old t
        → Keeps before reading.new (read_block_of v t b)) }
    ensures reads { OnlyReads view.old view.new }
    ensures fails { IfErr result (BlockFails view.old view.new) }
{
    if !is_block_in_range(geo, b) {
        add_fault(reading, b)?;
        return Ok(row_out_of_range(b));
    }
    let block = look(view, geo, b)?;
    let bytes = block.as_slice();
    let row = row_of(geo, b, &read_refcount_block(bytes));
    read_bytes(geo, b, bytes, reading)?;
    Ok(row)
}
