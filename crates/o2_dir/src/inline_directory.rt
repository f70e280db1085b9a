// A directory whose entries stand in its dinode.
ghost use Rattle.std.specs.Prelude.{◌≡◌, ◌+◌, ◌-◌, take, drop, ◌&&◌, nat_le, true, ◌^◌, ◌≤◌, ℕ, length, IfOk};
ghost use Rattle.std.specs.Result.{IfErr};
ghost use Rattle.o2_ondisk.specs.Dinodes.{last_part_place, inline_data_place};
ghost use Rattle.o2_ondisk.specs.Number.{number_at};
ghost use Rattle.o2_model.specs.Volume.{Volume};
ghost use Rattle.o2_model.specs.Directories.{directory_entries};
ghost use Rattle.o2_view.specs.OwnChecks.{NoneFails, IsOwn, FailsFirst};
ghost use Rattle.o2_dir.specs.Blocks.{Keeps, blocks_in_dinode};
ghost use Rattle.o2_dir.specs.Fails.{IsInline, directory_checks};

use crate::reading::{Reading, add_block, settle, start};
use crate::{DirFault, Entries};
use o2_disk::NoMemory;
use o2_model::Check;
use o2_ondisk::u16_at;
use std::alloc::Global;

/// Whether so many bytes fit those that the dinode tells, and these its room.
pub fn has_room(size: u64, bytes: &[u8]) -> bool
    requires { 512 ≤ length bytes.now }
    ensures test { result ≡ (nat_le size (number_at last_part_place 2 bytes.now) && nat_le (number_at last_part_place 2 bytes.now) (length bytes.now - inline_data_place)) }
    ensures fits { result ≡ true → inline_data_place + size ≤ length bytes.now }
{
    let count = u64::from(u16_at(bytes, 0xc0));
    let room = (bytes.len() - 200) as u64;
    size <= count && count <= room
}

/// The first bytes of the inline data of a dinode.
#[tactic(auto, using(std::proofs::lemmas::List::take_rest))]
fn inline_part(bytes: &[u8], size: u64) -> &[u8]
    requires { inline_data_place + size ≤ length bytes.now }
    ensures part { result.now ≡ take size (drop inline_data_place bytes.now) }
    ensures few { length result.now ≤ length bytes.now }
{
    let behind = &bytes[0xc8..];
    &behind[..size as usize]
}

/// Reads the entries among the inline bytes of a dinode.
pub fn read_part(alloc: Global, inode: u64, size: u64, bytes: &[u8]) -> Result<Reading, NoMemory>
    requires long { inline_data_place + size ≤ length bytes.now }
    requires most { length bytes.now ≤ 4096 }
    ensures { IfOk result (λ reading. Keeps reading (blocks_in_dinode inode size bytes.now)) }
{
    let mut reading = start(alloc);
    let part = inline_part(bytes, size);
    add_block(alloc, part, 0, inode, &mut reading)?;
    Ok(reading)
}

/// The entries in a dinode of these bytes.
pub fn inlined(alloc: Global, inode: u64, size: u64, bytes: &[u8]) -> Result<Entries, DirFault>
    requires long { 512 ≤ length bytes.now }
    requires most { length bytes.now ≤ 4096 }
    ensures told { IfOk result (λ entries. (v : Volume) → length bytes.now ≡ 2 ^ v.geo.block_bits → IsInline v inode size bytes.now
        → NoneFails (directory_checks inode) v × (entries ≡ directory_entries v inode)) }
    ensures bad { IfErr result (λ fault. (check : Check) (b : ℕ) → fault ≡ DirFault.Bad check b
        → IsOwn (directory_checks inode) check × ((v : Volume) → length bytes.now ≡ 2 ^ v.geo.block_bits → IsInline v inode size bytes.now
        → FailsFirst (directory_checks inode) v check b)) }
    ensures present { IfErr result (λ fault. fault ≡ DirFault.Absent → ⊥) }
    ensures device { IfErr result (λ fault. fault ≡ DirFault.DeviceFault → ⊥) }
{
    if !has_room(size, bytes) {
        return Err(DirFault::Bad {
            check: Check::InodeSize,
            block: inode,
        });
    }
    let reading = read_part(alloc, inode, size, bytes)?;
    settle(reading)
}
