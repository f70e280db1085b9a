// Skeletons on a disk in memory: that of the whole volume, and one for each check that fails.
ghost use Rattle.std.specs.Prelude.{◌≡◌, ◌<◌};
ghost use Rattle.o2_disk.specs.Device.{SameDevice, IsWritable};

use super::judge_skeleton;
use o2_disk::{Disk, How, MemDisk};
use o2_model::Check;
use o2_ondisk::DxSeed;
use o2_test_volumes::put_whole_volume;
use o2_view::{Geo, ReadFault, View};
use std::alloc::Global;
use std::test::Fail;

// The numbers of the whole volume: 16 clusters of 4 KiB, blocks of 512 bytes, one slot.
fn numbers() -> Geo
    ensures { result.block_bits ≡ 9 }
{
    Geo {
        block_bits: 9,
        cluster_bits: 12,
        clusters: 16,
        slots: 1,
        root: 18,
        sysdir: 17,
        first_group: 8,
        generation: 5,
        compat: 0,
        incompat: 0x1550,
        seed: DxSeed {
            first: 1,
            second: 2,
            third: 3,
        },
    }
}

// What is judged of such a disk.
fn judge_on<D: Disk>(alloc: Global, disk: &mut D) -> Result<(), ReadFault>
    requires { (D.state disk.old).sectors ≡ 128 }
    ensures { SameDevice (D.state disk.old) (D.state disk.new) }
{
    let mut view = View::<D, 1>::new(alloc, disk, 9, 128)?;
    let judged = judge_skeleton(alloc, &mut view, &numbers());
    let _disk = view.into_disk();
    match judged {
        Ok(_skeleton) => Ok(()),
        Err(fault) => Err(fault),
    }
}

// Puts another byte at this place of the block, and judges.
fn judged_with<D: Disk>(
    alloc: Global,
    disk: &mut D,
    block: u64,
    at: usize,
    byte: u8,
) -> Result<Option<ReadFault>, Fail>
    requires disk { (D.state disk.old).sectors ≡ 128 }
    requires inside { block < 128 }
    requires within { at < 512 }
    requires writable { IsWritable (D.state disk.old).attached }
    ensures { SameDevice (D.state disk.old) (D.state disk.new) }
{
    let mut bytes = [0; 512];
    disk.read(block, &mut bytes)?;
    bytes[at] = byte;
    disk.write(block, &bytes)?;
    match judge_on(alloc, disk) {
        Ok(()) => Ok(None),
        Err(fault) => Ok(Some(fault)),
    }
}

fn bad(check: Check, block: u64) -> Option<ReadFault> {
    Some(ReadFault::Bad { check, block })
}

#[test]
fn accepts_a_sound_skeleton(rt: HostRuntime) -> Result<(), Fail> {
    let alloc = rt.alloc();
    let mut disk = MemDisk::new(alloc, 128)?;
    disk.attach(alloc, "disk", How::ReadWrite)?;
    put_whole_volume(&mut disk)?;
    assert_eq!(rt; judge_on(alloc, &mut disk), Ok(()));
    Ok(())
}

// A slot map without records, a journal without its magic, a bitmap of two blocks for each bit, a root and a journal of other
// kinds, a system directory that is a file, and a superblock of another block.
#[test]
fn tells_the_first_check_that_fails(rt: HostRuntime) -> Result<(), Fail> {
    let alloc = rt.alloc();
    let mut disk = MemDisk::new(alloc, 128)?;
    disk.attach(alloc, "disk", How::ReadWrite)?;
    put_whole_volume(&mut disk)?;
    let slot_map = judged_with(alloc, &mut disk, 21, 0xc4, 0)?;
    assert_eq!(rt; slot_map, bad(Check::SlotMap, 21));
    let journal = judged_with(alloc, &mut disk, 56, 0, 0)?;
    assert_eq!(rt; journal, bad(Check::Journal, 25));
    let header = judged_with(alloc, &mut disk, 19, 0xc2, 2)?;
    assert_eq!(rt; header, bad(Check::ChainHeader, 19));
    let root = judged_with(alloc, &mut disk, 18, 0x29, 0x81)?;
    assert_eq!(rt; root, bad(Check::Root, 18));
    let file = judged_with(alloc, &mut disk, 25, 0x2d, 0)?;
    assert_eq!(rt; file, bad(Check::Sysfile, 25));
    let directory = judged_with(alloc, &mut disk, 17, 0x29, 0x81)?;
    assert_eq!(rt; directory, bad(Check::Sysdir, 17));
    let superblock = judged_with(alloc, &mut disk, 2, 0x50, 3)?;
    assert_eq!(rt; superblock, bad(Check::Super, 2));
    Ok(())
}
