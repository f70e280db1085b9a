// The truncate log of a slot: the clusters that are still to be freed.
ghost use Rattle.std.specs.Prelude.{◌≡◌, ◌+◌, ◌-◌, ◌*◌, ◌/◌, ◌^◌, ◌≤◌, nat_le, ◌&&◌, length, map, drop, IfOk};
ghost use Rattle.std.specs.Result.{IfErr};
ghost use Rattle.o2_ondisk.specs.Dinodes.{last_part_place, truncate_records_place};
ghost use Rattle.o2_ondisk.specs.TruncateLogHeaders.{truncate_log_header_of};
ghost use Rattle.o2_ondisk.specs.TruncateRecs.{truncate_rec_of};
ghost use Rattle.o2_model.specs.Words.{table};
ghost use Rattle.o2_model.specs.Volume.{Volume};
ghost use Rattle.o2_view.specs.Counted.{CallsAtMost};
ghost use Rattle.o2_view.specs.Geos.{HasSizes, Reaches};
ghost use Rattle.o2_view.specs.OwnChecks.{NoneFails, ReadFails};
ghost use Rattle.o2_view.specs.Views.{view_state, Shows, OnlyReads};
ghost use Rattle.o2_slots.specs.Truncations.{run_of, truncated_runs};
ghost use Rattle.o2_slots.specs.SlotChecks.{truncate_checks};

use o2_disk::{Disk, NoMemory};
use o2_extent::{block_bytes, look, put};
use o2_model::{Check, Geo};
use o2_ondisk::{TruncateLogHeader, read_truncate_log_header, read_truncate_rec};
use o2_view::{ReadFault, Run, Runs, View};
use std::alloc::Global;

/// Where the header of the log begins in its dinode.
const LOG_HEADER: usize = 0xc0;

/// Where its records begin.
const LOG_RECORDS: usize = 0xc8;

/// The clusters of the records of a truncate log, in order. A void record starts at cluster 0.
pub type TruncateRecords = Runs;

/// The header of the log in these bytes of a dinode.
fn header_of(bytes: &[u8]) -> TruncateLogHeader
    requires { 512 ≤ length bytes.now }
    ensures { result ≡ truncate_log_header_of (drop last_part_place bytes.now) }
{
    read_truncate_log_header(&bytes[LOG_HEADER..])
}

/// Whether the records in use fit the log, and the log its dinode.
fn fits(geo: &Geo, header: &TruncateLogHeader) -> bool
    requires { HasSizes geo.now }
    ensures { result ≡ (nat_le header.now.used header.now.count && nat_le header.now.count ((2 ^ geo.now.block_bits - truncate_records_place) / 8)) }
{
    let count = header.count;
    let most = (block_bytes(geo) - 0xc8) / 8;
    header.used <= count && u64::from(count) <= most
}

/// The clusters of the record that these bytes begin with.
fn run_of(bytes: &[u8]) -> Run
    requires { 8 ≤ length bytes.now }
    ensures { result ≡ run_of (truncate_rec_of bytes.now) }
{
    let record = read_truncate_rec(bytes);
    Run {
        start: record.start,
        clusters: record.clusters,
    }
}

/// The clusters of the first `used` records of a log in these bytes of its dinode.
fn runs_in(alloc: Global, bytes: &[u8], used: u16) -> Result<Vec<Run>, NoMemory>
    requires { truncate_records_place + 8 * used ≤ length bytes.now }
    ensures { IfOk result (λ runs. runs.items ≡ map run_of (table truncate_rec_of 8 truncate_records_place used bytes.now)) }
{
    let mut runs = Vec::new(alloc);
    for k in 0..usize::from(used) {
        put(&mut runs, run_of(&bytes[LOG_RECORDS + 8 * k..]))?;
    }
    Ok(runs)
}

/// The clusters of the records in use of the truncate log whose dinode is in block `inode`, void ones too. Bad where
/// TRUNCATE_LOG fails for it in the counts: where the records in use do not fit the log, or the log does not fit the dinode.
/// Which clusters the records have is not judged.
pub fn truncate_log<D: Disk, const N: usize>(
    alloc: Global,
    view: &mut View<'_, D, N>,
    geo: &Geo,
    inode: u64,
) -> Result<TruncateRecords, ReadFault>
    requires { Reaches geo.now view.old inode }
    ensures told { IfOk result (λ records. (v : Volume) → Shows view.old geo.now v → NoneFails (truncate_checks inode) v × (records ≡ truncated_runs v inode)) }
    ensures fails { IfErr result (ReadFails view.old view.new geo.now (truncate_checks inode)) }
    // The disk is called once at most.
    ensures count { CallsAtMost 1 (view_state view.old) (view_state view.new) }
    ensures reads { OnlyReads view.old view.new }
{
    let block = look(view, geo, inode)?;
    let bytes = block.as_slice();
    let header = header_of(bytes);
    if !fits(geo, &header) {
        return Err(ReadFault::Bad {
            check: Check::TruncateLog,
            block: inode,
        });
    }
    let runs = runs_in(alloc, bytes, header.used)?;
    Ok(TruncateRecords::from(runs))
}
