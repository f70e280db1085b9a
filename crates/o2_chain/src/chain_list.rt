// The chain list of an allocator.
ghost use Rattle.std.specs.Prelude.{◌≡◌, ◌+◌, ◌-◌, ◌*◌, ◌/◌, ◌^◌, ◌≤◌, ◌<◌, length, drop, true, false, IfOk, if◌then◌else◌};
ghost use Rattle.std.specs.Option.{IfNone, IfSome};
ghost use Rattle.o2_ondisk.specs.ChainRecs.{chain_rec_of};
ghost use Rattle.o2_ondisk.specs.ChainListHeaders.{chain_list_header_of};
ghost use Rattle.o2_ondisk.specs.Dinodes.{last_part_place, list_records_place};
ghost use Rattle.o2_model.specs.Words.{table};
ghost use Rattle.o2_model.specs.Volume.{Volume};
ghost use Rattle.o2_model.specs.Allocators.{are_clusters, chains, is_sound_chain_header, is_sound_chain_size, chain_list_header};
ghost use Rattle.o2_view.specs.Geos.{HasSizes};

use crate::places::group_size;
use o2_disk::NoMemory;
use o2_extent::{block_bytes, blocks_per_cluster, put};
use o2_model::{Allocator, BitUse, Geo};
use o2_ondisk::{ChainListHeader, ChainRec, read_chain_list_header, read_chain_rec};
use std::alloc::Global;

/// Where the chain list of a dinode begins.
pub const CHAIN_LIST: usize = 0xc0;

/// Where its records begin.
pub const CHAIN_RECORDS: usize = 0xd0;

/// Whether the allocator is the global bitmap.
pub fn is_bitmap(a: &Allocator) -> bool
    ensures { result ≡ are_clusters a.now.bit_use }
{
    match a.bit_use {
        BitUse::Clusters => true,
        _ => false,
    }
}

/// The header of the chain list in these bytes of a dinode.
fn header_of(bytes: &[u8]) -> ChainListHeader
    requires { 512 ≤ length bytes.now }
    ensures { result ≡ chain_list_header_of (drop last_part_place bytes.now) }
{
    read_chain_list_header(&bytes[CHAIN_LIST..])
}

/// Whether a group has the size that the allocator's groups have.
fn has_sound_size(geo: &Geo, a: &Allocator, header: &ChainListHeader) -> bool
    requires { HasSizes geo.now }
    ensures { (v : Volume) → v.geo ≡ geo.now → result ≡ is_sound_chain_size v a.now.bit_use header.now }
{
    let per_cluster = blocks_per_cluster(geo);
    let bits_of_cluster = u64::from(header.bpc);
    let clusters = u64::from(header.cpg);
    match a.bit_use {
        BitUse::Clusters => bits_of_cluster == 1 && clusters == group_size(geo),
        _ => bits_of_cluster == per_cluster && 2 <= clusters * per_cluster,
    }
}

/// Whether the header of the chain list fits the volume and the dinode.
#[tactic(auto, unfolding(o2_model::specs::Allocators::is_sound_chain_header))]
fn is_sound(geo: &Geo, a: &Allocator, header: &ChainListHeader) -> bool
    requires { HasSizes geo.now }
    ensures test { (v : Volume) → v.geo ≡ geo.now → header.now ≡ chain_list_header v a.now.block → result ≡ is_sound_chain_header v a.now }
    ensures fits { result ≡ true → 16 * header.now.next_free_rec + list_records_place ≤ 2 ^ geo.now.block_bits }
{
    let most = (block_bytes(geo) - 0xd0) / 16;
    let count = u64::from(header.count);
    let used = header.next_free_rec;
    has_sound_size(geo, a, header) && 1 <= count && count <= most && u64::from(used) <= count
}

/// The first `used` records of a chain list in these bytes of its dinode.
fn records_in_use(alloc: Global, bytes: &[u8], used: u16) -> Result<Vec<ChainRec>, NoMemory>
    requires { list_records_place + 16 * used ≤ length bytes.now }
    ensures { IfOk result (λ records. records.items ≡ table chain_rec_of 16 list_records_place used bytes.now) }
{
    let mut records = Vec::new(alloc);
    for k in 0..usize::from(used) {
        put(
            &mut records,
            read_chain_rec(&bytes[CHAIN_RECORDS + 16 * k..]),
        )?;
    }
    Ok(records)
}

/// The chain records in use of the allocator whose dinode has these bytes. None where the header of the list is not sound.
#[tactic(auto, using(o2_extent::proofs::Sizes::some_bytes))]
pub fn chains_in(
    alloc: Global,
    geo: &Geo,
    a: &Allocator,
    bytes: &[u8],
) -> Result<Option<Vec<ChainRec>>, NoMemory>
    requires sizes { HasSizes geo.now }
    requires size { length bytes.now ≡ 2 ^ geo.now.block_bits }
    ensures bad { IfOk result (λ found. IfNone found ((v : Volume) → v.geo ≡ geo.now → bytes.now ≡ v.at a.now.block → is_sound_chain_header v a.now ≡ false)) }
    ensures good { IfOk result (λ found. IfSome found (λ records. (v : Volume) → v.geo ≡ geo.now → bytes.now ≡ v.at a.now.block → is_sound_chain_header v a.now ≡ true)) }
    ensures records { IfOk result (λ found. IfSome found (λ records. (v : Volume) → v.geo ≡ geo.now → bytes.now ≡ v.at a.now.block → records.items ≡ chains v a.now)) }
    ensures few { IfOk result (λ found. IfSome found (λ records. length records.items < 2 ^ 16)) }
{
    let header = header_of(bytes);
    if !is_sound(geo, a, &header) {
        return Ok(None);
    }
    let records = records_in_use(alloc, bytes, header.next_free_rec)?;
    Ok(Some(records))
}
