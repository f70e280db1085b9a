// The counts of an allocator, in the bytes of its dinode.
ghost use Rattle.std.specs.Prelude.{◌≡◌, ◌≤◌, ◌<◌, ◌+◌, ◌*◌, ◌%◌, ◌^◌, ℕ, true, length, map, drop, slice_index};
ghost use Rattle.std.specs.List.{enumerate_from};
ghost use Rattle.o2_ondisk.specs.Fields.{IsOutside, IsOutsideSpan};
ghost use Rattle.o2_ondisk.specs.ChainRecs.{chain_rec_of};
ghost use Rattle.o2_ondisk.specs.Dinodes.{dinode_of, dinode_fields, list_records_place};
ghost use Rattle.o2_model.specs.declared.allocator.Allocator.{Allocator};
ghost use Rattle.o2_model.specs.Words.{table};
ghost use Rattle.o2_model.specs.Volume.{Volume};
ghost use Rattle.o2_model.specs.Allocators.{is_sound_chain_header, used_of, total_of};
ghost use Rattle.o2_view.specs.Geos.{HasSizes};
ghost use Rattle.o2_chain.specs.Edits.{IsEditedAllocator, shared_by, edited_chain, clear_after, set_after};
ghost use Rattle.o2_chain.specs.Walks.{group_in};

use crate::Group;
use crate::chain_list::{CHAIN_LIST, CHAIN_RECORDS};
use crate::shared::bits_of_run;
use o2_model::Geo;
use o2_ondisk::{
    RoleData, read_chain_list_header, read_chain_rec, read_dinode, write_chain_rec, write_dinode,
};
use o2_view::Run;

/// A count of clear bits once `count` bits more are set, or clear.
fn clear_bits(old: u32, count: u32, set: bool) -> u32
    ensures { result ≡ clear_after (2 ^ 32) set old count }
{
    if set {
        old.wrapping_sub(count)
    } else {
        old.wrapping_add(count)
    }
}

/// A count of set bits once `count` bits more are set, or clear.
fn set_bits(old: u32, count: u32, set: bool) -> u32
    ensures { result ≡ set_after (2 ^ 32) set old count }
{
    if set {
        old.wrapping_add(count)
    } else {
        old.wrapping_sub(count)
    }
}

/// Counts so many bits more of a chain as set, or clear, in its record.
fn change_chain(bytes: &mut [u8], chain: usize, count: u32, set: bool)
    requires { list_records_place + 16 * (chain + 1) ≤ length bytes.old }
    ensures record { chain_rec_of (drop (list_records_place + 16 * chain) bytes.new)
        ≡ record (chain_rec_of (drop (list_records_place + 16 * chain) bytes.old)) { free = clear_after (2 ^ 32) set (chain_rec_of (drop (list_records_place + 16 * chain) bytes.old)).free count } }
    ensures others { (i : ℕ) → IsOutsideSpan (list_records_place + 16 * chain) 16 i → slice_index bytes.new i ≡ slice_index bytes.old i }
{
    let place = &mut bytes[CHAIN_RECORDS + 16 * chain..];
    let mut chain_rec = read_chain_rec(place);
    chain_rec.free = clear_bits(chain_rec.free, count, set);
    write_chain_rec(place, &chain_rec);
}

/// Counts so many bits more of the allocator as set, or clear.
fn change_used(bytes: &mut [u8], count: u32, set: bool)
    requires { 0xc0 ≤ length bytes.old }
    ensures fields { dinode_of bytes.new ≡ record (dinode_of bytes.old) { role_data = record { 0 = set_after (2 ^ 32) set (used_of (dinode_of bytes.old).role_data) count + 2 ^ 32 * total_of (dinode_of bytes.old).role_data } } }
    ensures others { (i : ℕ) → IsOutside dinode_fields i → slice_index bytes.new i ≡ slice_index bytes.old i }
{
    let mut dinode = read_dinode(bytes);
    let used = set_bits(dinode.role_data.used(), count, set);
    let total = dinode.role_data.total();
    dinode.role_data = RoleData(u64::from(used) + 0x1_0000_0000 * u64::from(total));
    write_dinode(bytes, &dinode);
}

/// Counts the bits of a run in the chains of these groups, where `used` chain records are in use. Answers how many bits they are.
fn change_chains(
    bytes: &mut [u8],
    geo: &Geo,
    groups: &[Group],
    run: Run,
    used: usize,
    set: bool,
) -> u32
    requires sizes { HasSizes geo.now }
    requires room { list_records_place + 16 * used ≤ length bytes.old }
    ensures records { (v : Volume) → v.geo ≡ geo.now → (a : Allocator)
        → table chain_rec_of 16 list_records_place used bytes.new ≡ map (edited_chain v set run (map (group_in a) groups.now)) (enumerate_from 0 (table chain_rec_of 16 list_records_place used bytes.old)) }
    ensures total { (v : Volume) → v.geo ≡ geo.now → (a : Allocator) → result ≡ shared_by v run (map (group_in a) groups.now) % 2 ^ 32 }
    ensures others { (i : ℕ) → IsOutsideSpan list_records_place (16 * used) i → slice_index bytes.new i ≡ slice_index bytes.old i }
{
    let mut total = 0u32;
    for group in groups {
        let range = bits_of_run(geo, group, run);
        let count = range.end - range.first;
        let chain = group.chain as usize;
        if chain < used {
            change_chain(bytes, chain, count, set);
        }
        total = total.wrapping_add(count);
    }
    total
}

/// Counts the bits of a run as set, or clear, in the dinode of the allocator of these groups.
#[tactic(auto, using(o2_extent::proofs::Sizes::some_bytes))]
pub fn change_allocator(bytes: &mut [u8], geo: &Geo, groups: &[Group], run: Run, set: bool)
    requires sizes { HasSizes geo.now }
    requires size { length bytes.old ≡ 2 ^ geo.now.block_bits }
    ensures { (old new : Volume) → old.geo ≡ geo.now → new.geo ≡ geo.now → (a : Allocator) → is_sound_chain_header old a ≡ true → bytes.old ≡ old.at a.block → bytes.new ≡ new.at a.block
        → IsEditedAllocator old new set run a (map (group_in a) groups.now) }
{
    let header = read_chain_list_header(&bytes[CHAIN_LIST..]);
    let used = usize::from(header.next_free_rec).min((bytes.len() - CHAIN_RECORDS) / 16);
    let count = change_chains(bytes, geo, groups, run, used, set);
    change_used(bytes, count, set);
}
