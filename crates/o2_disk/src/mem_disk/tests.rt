ghost use Rattle.std.specs.Prelude.{◌≡◌, [], Some, IfOk};
ghost use Rattle.o2_disk.specs.Memory.{disk_state, failing_calls};

use super::MemDisk;
use crate::{AttachFault, Call, Disk, Failed, How, NoMemory};
use std::alloc::Global;
use std::test::Fail;

// A disk that is attached for writing.
fn attached(alloc: Global, sectors: u64) -> Result<MemDisk, AttachFault>
    ensures size { IfOk result (λ m. (disk_state m).sectors ≡ sectors) }
    ensures failing { IfOk result (λ m. failing_calls m ≡ []) }
    ensures writable { IfOk result (λ m. (disk_state m).attached ≡ Some How.ReadWrite) }
{
    let Ok(mut disk) = MemDisk::new(alloc, sectors) else {
        return Err(AttachFault::NoMemory);
    };
    disk.attach(alloc, "disk", How::ReadWrite)?;
    Ok(disk)
}

// The byte that fills a sector.
fn fill_of(mut disk: MemDisk, s: u64) -> Option<u8> {
    if s >= disk.sectors() {
        return None;
    }
    let mut out = [0; 512];
    disk.read(s, &mut out).ok()?;
    if out.iter().all(|b| *b == out[0]) {
        Some(out[0])
    } else {
        None
    }
}

// The byte that fills a sector behind a past call.
fn left(alloc: Global, disk: &MemDisk, call: u64, choice: u64, s: u64) -> Option<u8> {
    if call >= disk.calls() {
        return None;
    }
    fill_of(disk.stopped_at(alloc, call, choice).ok()?, s)
}

#[test]
fn writes_and_reads(rt: HostRuntime) -> Result<(), Fail> {
    let mut disk = attached(rt.alloc(), 4)?;
    let mut out = [0; 1024];
    disk.write(1, &[7; 1024])?;
    disk.sync()?;
    disk.read(2, &mut out)?;
    assert_eq!(rt; out[0], 7);
    assert_eq!(rt; out[511], 7);
    assert_eq!(rt; out[512], 0);
    assert_eq!(rt; disk.sectors(), 4);
    assert_eq!(rt; disk.calls(), 3);
    assert_eq!(rt; disk.starved(), 0);
    Ok(())
}

#[test]
fn tells_reads(rt: HostRuntime) -> Result<(), Fail> {
    let mut disk = attached(rt.alloc(), 1)?;
    let mut out = [0; 512];
    disk.fail_at(1);
    disk.write(0, &[7; 512])?;
    assert_eq!(rt; disk.read(0, &mut out), Err(Failed));
    disk.sync()?;
    assert_eq!(rt; disk.calls(), 3);
    assert_eq!(rt; disk.was_read(0), false);
    assert_eq!(rt; disk.was_read(1), true);
    assert_eq!(rt; disk.was_read(2), false);
    Ok(())
}

// Of v contents sector 4 holds number `5 * choice`, counted round. It is written twice with no sync between, which makes
// three; then after a sync, which makes two.
#[test]
fn stops(rt: HostRuntime) -> Result<(), Fail> {
    let mut disk = attached(rt.alloc(), 5)?;
    disk.write(4, &[1; 512])?;
    disk.write(4, &[2; 512])?;
    disk.sync()?;
    disk.write(4, &[3; 512])?;
    let wanted: [(u64, [u8; 4]); 8] = [
        (0, [0, 0, 2, 2]),
        (1, [1, 2, 2, 3]),
        (2, [0, 1, 2, 2]),
        (3, [1, 0, 2, 3]),
        (4, [0, 2, 2, 2]),
        (5, [1, 1, 2, 3]),
        (6, [0, 0, 2, 2]),
        (7, [1, 2, 2, 3]),
    ];
    for (choice, [once, twice, synced, again]) in wanted {
        assert_eq!(rt;
            left(rt.alloc(), &disk, 0, choice, 4),
            Some(once),
            "{choice}"
        );
        assert_eq!(rt;
            left(rt.alloc(), &disk, 1, choice, 4),
            Some(twice),
            "{choice}"
        );
        assert_eq!(rt;
            left(rt.alloc(), &disk, 2, choice, 4),
            Some(synced),
            "{choice}"
        );
        assert_eq!(rt;
            left(rt.alloc(), &disk, 3, choice, 4),
            Some(again),
            "{choice}"
        );
        assert_eq!(rt; left(rt.alloc(), &disk, 3, choice, 0), Some(0), "{choice}");
    }
    Ok(())
}

// 2 ^ 64 - 2 is 2 more than a multiple of 3, and so 5 times as much is 1 more.
#[test]
fn stops_at_a_large_choice(rt: HostRuntime) -> Result<(), Fail> {
    let mut disk = attached(rt.alloc(), 5)?;
    disk.write(4, &[1; 512])?;
    disk.write(4, &[2; 512])?;
    assert_eq!(rt; left(rt.alloc(), &disk, 1, u64::MAX - 1, 4), Some(1));
    Ok(())
}

#[test]
fn fails_as_asked(rt: HostRuntime) -> Result<(), Fail> {
    let mut disk = attached(rt.alloc(), 1)?;
    let mut out = [0; 512];
    disk.fail_at(0);
    disk.fail_at(2);
    disk.fail_at(4);
    assert_eq!(rt; disk.write(0, &[5; 512]), Err(Failed));
    disk.read(0, &mut out)?;
    assert_eq!(rt; out[0], 5);
    assert_eq!(rt; disk.sync(), Err(Failed));
    assert_eq!(rt; disk.calls(), 3);
    assert_eq!(rt; left(rt.alloc(), &disk, 2, 0, 0), Some(0));
    assert_eq!(rt; left(rt.alloc(), &disk, 2, 1, 0), Some(5));
    disk.sync()?;
    assert_eq!(rt; disk.read(0, &mut out), Err(Failed));
    assert_eq!(rt; disk.calls(), 5);
    assert_eq!(rt; left(rt.alloc(), &disk, 4, 0, 0), Some(5));
    assert_eq!(rt; disk.starved(), 0);
    Ok(())
}

#[test]
fn fails_an_attach_once(rt: HostRuntime) -> Result<(), Fail> {
    let mut disk = MemDisk::new(rt.alloc(), 3)?;
    disk.fail_attach();
    assert_eq!(rt;
        disk.attach(rt.alloc(), "a", How::ReadOnly),
        Err(AttachFault::Failed)
    );
    assert_eq!(rt; disk.attach(rt.alloc(), "b", How::ReadOnly), Ok(3));
    assert_eq!(rt; disk.calls(), 0);
    Ok(())
}

#[test]
fn resizes(rt: HostRuntime) -> Result<(), Fail> {
    let mut disk = attached(rt.alloc(), 2)?;
    disk.write(0, &[1; 512])?;
    disk.write(1, &[2; 512])?;
    let larger = disk.resized(rt.alloc(), 3)?;
    assert_eq!(rt; larger.sectors(), 3);
    assert_eq!(rt; larger.calls(), 0);
    assert_eq!(rt; fill_of(larger, 2), Some(0));
    assert_eq!(rt; fill_of(disk.resized(rt.alloc(), 3)?, 1), Some(2));
    let smaller = disk.resized(rt.alloc(), 1)?;
    assert_eq!(rt; smaller.sectors(), 1);
    assert_eq!(rt; fill_of(smaller.resized(rt.alloc(), 2)?, 1), Some(0));
    assert_eq!(rt; fill_of(smaller, 0), Some(1));
    Ok(())
}

// Zeros of that many bytes.
fn zeros_of(alloc: Global, count: usize) -> Result<Vec<u8>, NoMemory> {
    match vec![in alloc; 0; count] {
        Ok(zeros) => Ok(zeros),
        Err(_) => Err(NoMemory),
    }
}

// Writes a piece, where it fits the disk.
fn pour(alloc: Global, disk: &mut MemDisk, at: u64, piece: &[u8]) -> Result<(), Failed> {
    let Ok(sectors) = disk.attach(alloc, "disk", How::ReadWrite) else {
        return Err(Failed);
    };
    let count = (piece.len() / 512) as u64;
    if piece.len() % 512 != 0 || count > sectors || at > sectors - count {
        return Err(Failed);
    }
    disk.write(at, piece)
}

// A gigabyte of zeros, in pieces of 16 megabytes, over one sector that holds something.
#[test]
fn takes_no_memory_for_zeros(rt: HostRuntime) -> Result<(), Fail> {
    let mut disk = attached(rt.alloc(), 2_097_152)?;
    let piece = zeros_of(rt.alloc(), 16_777_216)?;
    pour(rt.alloc(), &mut disk, 5, &[1; 512])?;
    for k in 0..64 {
        pour(rt.alloc(), &mut disk, 32_768 * k, piece.as_slice())?;
    }
    assert_eq!(rt; disk.held.len(), 1);
    assert_eq!(rt; disk.calls.len(), 65);
    assert!(rt;
        matches!(
            disk.calls[64],
            Call::Zeros {
                at: 2_064_384,
                sectors: 32_768
            }
        )
    );
    assert_eq!(rt; fill_of(disk, 5), Some(0));
    Ok(())
}
