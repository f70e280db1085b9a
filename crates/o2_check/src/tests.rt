// The check of the whole volume, on which nothing fails, and of ones with a byte changed.
ghost use Rattle.std.specs.Prelude.{◌≡◌, ◌<◌};
ghost use Rattle.o2_disk.specs.Device.{SameDevice, IsWritable};

use crate::{CheckFault, Owners, Report, check, owners};
use o2_disk::{Disk, How, MemDisk};
use o2_model::{Check, Geo, Owner};
use o2_ondisk::DxSeed;
use o2_test_volumes::put_whole_volume;
use o2_view::{ReadFault, View};
use std::alloc::Global;
use std::process::Abort;
use std::test::Fail;

// The numbers of the whole volume: 16 clusters of 4 KiB, blocks of 512 bytes, one slot.
fn numbers() -> Geo
    ensures bits { result.block_bits ≡ 9 }
    ensures clusters { result.clusters ≡ 16 }
{
    Geo {
        block_bits: 9,
        cluster_bits: 12,
        clusters: 16,
        slots: 1,
        root: 18,
        sysdir: 17,
        first_group: 8,
        generation: 5,
        compat: 0,
        incompat: 0x1550,
        seed: DxSeed {
            first: 1,
            second: 2,
            third: 3,
        },
    }
}

// The report of such a disk.
fn report_on<D: Disk>(alloc: Global, disk: &mut D) -> Result<Report, CheckFault>
    requires { (D.state disk.old).sectors ≡ 128 }
    ensures { SameDevice (D.state disk.old) (D.state disk.new) }
{
    let mut view = View::<D, 1>::new(alloc, disk, 9, 128)?;
    let report = check(alloc, &mut view, &numbers());
    let _disk = view.into_disk();
    report
}

fn volume(rt: &impl Abort, alloc: Global) -> Result<MemDisk, Fail> {
    let mut disk = MemDisk::new(alloc, 128)?;
    disk.attach(alloc, "made", How::ReadWrite)?;
    assert!(rt; disk.sectors() == 128);
    put_whole_volume(&mut disk)?;
    Ok(disk)
}

#[test]
fn finds_nothing_on_a_sound_volume(rt: HostRuntime) -> Result<(), Fail> {
    let alloc = rt.alloc();
    let mut disk = volume(&rt, alloc)?;
    assert!(rt; disk.sectors() == 128);
    let report = report_on(alloc, &mut disk)?;
    assert!(rt; report.pairs().as_slice().is_empty());
    assert_eq!(rt; report.links(29), 2);
    assert_eq!(rt; report.orphans().as_slice(), [32].as_slice());
    assert_eq!(rt; report.claims().owner(0), Some(Owner::Super));
    Ok(())
}

// Sets a byte of the block to its bits turned.
fn turn<D: Disk>(disk: &mut D, block: u64, at: usize) -> Result<(), Fail>
    requires inside { block < (D.state disk.old).sectors }
    requires within { at < 512 }
    requires writable { IsWritable (D.state disk.old).attached }
{
    let mut bytes = [0; 512];
    disk.read(block, &mut bytes)?;
    bytes[at] = 0xff ^ bytes[at];
    Ok(disk.write(block, &bytes)?)
}

// The mode of the file in block 29 has no kind any more.
#[test]
fn tells_what_fails_in_order(rt: HostRuntime) -> Result<(), Fail> {
    let alloc = rt.alloc();
    let mut disk = volume(&rt, alloc)?;
    disk.attach(alloc, "made", How::ReadWrite)?;
    assert!(rt; disk.sectors() == 128);
    turn(&mut disk, 29, 0x28 + 1)?;
    assert!(rt; disk.sectors() == 128);
    let report = report_on(alloc, &mut disk)?;
    assert!(rt; !report.pairs().as_slice().is_empty());
    assert_eq!(rt; report.pairs().as_slice()[0], (Check::InodeKind, 29));
    Ok(())
}

// The owners of a cluster of such a disk.
fn owners_on<D: Disk>(alloc: Global, disk: &mut D, cluster: u32) -> Result<Owners, ReadFault>
    requires sectors { (D.state disk.old).sectors ≡ 128 }
    requires within { cluster < 16 }
{
    let mut view = View::<D, 1>::new(alloc, disk, 9, 128)?;
    owners(alloc, &mut view, &numbers(), cluster)
}

// Cluster 11 is shared by the files 30 and 31, and nobody has cluster 15.
#[test]
fn tells_all_owners_of_a_cluster(rt: HostRuntime) -> Result<(), Fail> {
    let alloc = rt.alloc();
    let mut disk = volume(&rt, alloc)?;
    for (cluster, owner) in [
        (0, [Owner::Super].as_slice()),
        (11, [Owner::Inode(30), Owner::Inode(31)].as_slice()),
        (14, [Owner::LocalAlloc(0)].as_slice()),
        (12, [Owner::TruncateLog(0)].as_slice()),
        (15, [].as_slice()),
    ] {
        assert!(rt; disk.sectors() == 128);
        assert!(rt; cluster < 16);
        let found = owners_on(alloc, &mut disk, cluster)?;
        assert_eq!(rt; found.as_slice(), owner, "{cluster}");
    }
    Ok(())
}
