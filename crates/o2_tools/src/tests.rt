// A label given to a small volume in memory, at every stop and with every call failing; and the words of command lines.
ghost use Rattle.std.specs.Prelude.{◌≡◌, ◌<◌, ◌≤◌, ◌+◌, [], length, IfOk, Some};
ghost use Rattle.o2_disk.specs.Memory.{disk_state, failing_calls, recorded};
ghost use Rattle.o2_disk.specs.declared.disk.How.TheVariants.{ReadWrite};

use crate::run;
use o2_disk::{Disk, How, MemDisk, MemSink};
use std::alloc::Global;
use std::process::Abort;
use std::test::Fail;

// The device of 64 MiB, its superblock, and where that is.
const SECTORS: u64 = 131_072;

const SUPER_SECTOR: u64 = 16;

// What tunefs prints where all was done.
const DONE: &str = "tunefs: done\n";

// The first sector of block 2: block bits and cluster bits 12, so many clusters, and the label `old`.
fn super_sector(clusters: u32) -> [u8; 512] {
    let mut sector = [0; 512];
    sector[..8].copy_from_slice(b"OCFSV2\0\0");
    sector[0x14..0x18].copy_from_slice(&clusters.to_le_bytes());
    // the features 1550, and the one that forbids writing, 1
    sector[0xe0] = 0x50;
    sector[0xe1] = 0x15;
    sector[0xe4] = 1;
    sector[0xf8] = 12;
    sector[0xfc] = 12;
    sector[0x110..0x113].copy_from_slice(b"old");
    sector
}

// A device of zeros but for this one sector.
fn device(rt: &impl Abort, alloc: Global, at: u64, sector: &[u8; 512]) -> Result<MemDisk, Fail>
    ensures { IfOk result (λ disk. failing_calls disk ≡ []) }
{
    let mut disk = MemDisk::new(alloc, SECTORS)?;
    disk.attach(alloc, "made", How::ReadWrite)?;
    assert!(rt; at < disk.sectors());
    disk.write(at, sector)?;
    disk.sync()?;
    Ok(disk.resized(alloc, SECTORS)?)
}

// The end of a run: its status, and what the sink took.
#[derive(Drop)]
struct Ended {
    status: u8,
    text: Vec<u8>,
}

fn run_words(alloc: Global, disk: &mut MemDisk, words: &[&str]) -> Result<Ended, Fail> {
    let mut out = MemSink::new(alloc);
    run_into(alloc, disk, words, &mut out)
}

fn run_into(
    alloc: Global,
    disk: &mut MemDisk,
    words: &[&str],
    out: &mut MemSink,
) -> Result<Ended, Fail> {
    let mut line = Vec::new(alloc);
    for word in words {
        line.push(String::from_str(alloc, word)?)?;
    }
    let mut other = MemDisk::new(alloc, 0)?;
    let random = [7; 24];
    let done = run(alloc, &line, disk, &mut other, out, 1_700_000_000, &random);
    Ok(Ended {
        status: done.status,
        text: Vec::from_slice(alloc, out.bytes())?,
    })
}

fn read_sector(rt: &impl Abort, disk: &mut MemDisk, at: u64) -> Result<[u8; 512], Fail> {
    let mut sector = [0; 512];
    assert!(rt; at < disk.sectors());
    disk.read(at, &mut sector)?;
    Ok(sector)
}

// The sector of the superblock, where those on either side of it are zeros.
fn read_super(rt: &impl Abort, disk: &mut MemDisk) -> Result<[u8; 512], Fail> {
    assert!(rt; read_sector(rt, disk, SUPER_SECTOR - 1)? == [0; 512]);
    assert!(rt; read_sector(rt, disk, SUPER_SECTOR + 1)? == [0; 512]);
    read_sector(rt, disk, SUPER_SECTOR)
}

// The sector with this label.
fn with_label(sector: &[u8; 512], label: &[u8]) -> [u8; 512] {
    let mut changed = *sector;
    for (to, from) in changed[0x110..0x150].iter_mut().zip(label) {
        *to = *from;
    }
    changed
}

// Each line of words, parted by bars, and the line by which it is refused.
const REFUSED: [(&str, &str); 53] = [
    ("", "usage: word 0\n"),
    ("Tunefs", "usage: word 0\n"),
    ("tunefs ", "usage: word 0\n"),
    ("o2image", "usage: word 0\n"),
    ("o2image|-r|disk|file", "usage: word 0\n"),
    ("-L|vol|disk", "usage: word 0\n"),
    ("mk|fs", "usage: word 0\n"),
    ("|tunefs|-L|vol|disk", "usage: word 0\n"),
    ("tunefs", "usage: word 1\n"),
    ("tunefs|", "usage: word 1\n"),
    ("tunefs|disk", "usage: word 1\n"),
    ("tunefs|-l|vol|disk", "usage: word 1\n"),
    ("tunefs|-LL|vol|disk", "usage: word 1\n"),
    ("tunefs|--label|vol|disk", "usage: word 1\n"),
    ("tunefs|vol|-L|disk", "usage: word 1\n"),
    ("tunefs|-U|disk", "usage: word 1\n"),
    ("tunefs|-L", "usage: word 2\n"),
    ("tunefs|-L|vol", "usage: word 3\n"),
    ("tunefs|-L|", "usage: word 3\n"),
    ("tunefs|-L|-N", "usage: word 3\n"),
    ("tunefs|-L|vol|", "usage: word 3\n"),
    ("tunefs|-L|vol|-disk", "usage: word 3\n"),
    ("tunefs|-L|vol|-", "usage: word 3\n"),
    ("tunefs|-L|vol|-|disk", "usage: word 3\n"),
    ("tunefs|-L|vol|disk|", "usage: word 4\n"),
    ("tunefs|-L|vol|disk|disk", "usage: word 4\n"),
    ("tunefs|-L|vol|disk|-N|4", "usage: word 4\n"),
    ("mkfs", "mkfs: not built yet\n"),
    ("mkfs|-b|4096|disk", "mkfs: not built yet\n"),
    ("fsck|-n|-y|disk", "usage: word 2\n"),
    ("fsck|-f|disk", "usage: word 2\n"),
    ("fsck|-f|-n", "usage: word 3\n"),
    ("fsck|-fy|disk", "fsck: not built yet\n"),
    ("debugfs", "usage: word 1\n"),
    ("debugfs|disk", "usage: word 1\n"),
    ("debugfs|-R", "usage: word 2\n"),
    ("debugfs|-R|ls|disk", "usage: word 2\n"),
    ("debugfs|-R|ls /a/|disk", "usage: word 2\n"),
    ("debugfs|-R|ls ///|disk", "usage: word 2\n"),
    ("debugfs|-R|ls  /|disk", "usage: word 2\n"),
    ("debugfs|-R|cat a|disk", "usage: word 2\n"),
    ("debugfs|-R|stat|/|disk", "usage: word 2\n"),
    (
        "debugfs|-R|icheck 1234567890123456789|disk",
        "usage: word 2\n",
    ),
    ("debugfs|-R|ls /a b", "usage: word 3\n"),
    ("debugfs|-R|cat //a|-d", "usage: word 3\n"),
    ("debugfs|-R|stats|disk|more", "usage: word 4\n"),
    ("debugfs|-R|logdump 0|disk", "debugfs: not built yet\n"),
    (
        "debugfs|-R|icheck 123456789012345678|disk",
        "debugfs: not built yet\n",
    ),
    ("sample|1000|disk", "sample: not built yet\n"),
    ("tunefs|-N", "tunefs: not built yet\n"),
    ("tunefs|-N|4|disk", "tunefs: not built yet\n"),
    ("tunefs|-J|size=8M|disk", "tunefs: not built yet\n"),
    ("tunefs|-S|disk", "tunefs: not built yet\n"),
];

#[test]
fn refuses_words(rt: HostRuntime) -> Result<(), Fail> {
    let alloc = rt.alloc();
    let mut disk = device(&rt, alloc, SUPER_SECTOR, &super_sector(16_384))?;
    let done = run_words(alloc, &mut disk, &[])?;
    assert_eq!(rt;
        (done.status, done.text.as_slice()),
        (16, "usage: word 0\n".as_bytes())
    );
    for (line, text) in REFUSED {
        let words: Vec<&str> = line.split('|').collect(alloc)?;
        let done = run_words(alloc, &mut disk, &words)?;
        assert_eq!(rt; done.text.as_slice(), text.as_bytes(), "{line}");
        let is_usage = text.starts_with("usage");
        assert_eq!(rt; done.status, if is_usage { 16 } else { 1 }, "{line}");
    }
    assert_eq!(rt; disk.calls(), 0);
    Ok(())
}

#[test]
fn labels_a_volume(rt: HostRuntime) -> Result<(), Fail> {
    let alloc = rt.alloc();
    let long = "a".repeat(alloc, 65)?;
    // the clusters, the label, and the status and the line that they give
    for (clusters, label, status, line) in [
        (16_384, "vol", 0, DONE),
        (16_384, "", 0, DONE),
        (262_144, "vol", 0, DONE),
        (16_384, &long[..64], 0, DONE),
        (262_145, "vol", 1, "tunefs: not built yet\n"),
        (16_384, long.as_str(), 1, "tunefs: out of range: label 65\n"),
    ] {
        let before = super_sector(clusters);
        let mut disk = device(&rt, alloc, SUPER_SECTOR, &before)?;
        let done = run_words(alloc, &mut disk, &["tunefs", "-L", label, "disk"])?;
        assert_eq!(rt;
            (done.status, done.text.as_slice()),
            (status, line.as_bytes()),
            "{label}"
        );
        let mut field = [0; 64];
        field[..label.len().min(64)].copy_from_slice(&label.as_bytes()[..label.len().min(64)]);
        let after = if status == 0 {
            with_label(&before, &field)
        } else {
            before
        };
        assert!(rt; read_super(&rt, &mut disk)? == after, "{label}");
    }
    Ok(())
}

#[test]
fn finds_no_volume(rt: HostRuntime) -> Result<(), Fail> {
    let alloc = rt.alloc();
    let mut disk = MemDisk::new(alloc, SECTORS)?;
    let done = run_words(alloc, &mut disk, &["tunefs", "-L", "vol", "disk"])?;
    assert_eq!(rt;
        (done.status, done.text.as_slice()),
        (1, "tunefs: not an OCFS2 volume\n".as_bytes())
    );
    // nor where the device ends within block 2
    let mut short = device(&rt, alloc, SUPER_SECTOR, &super_sector(16_384))?.resized(alloc, 23)?;
    let done = run_words(alloc, &mut short, &["tunefs", "-L", "vol", "disk"])?;
    assert_eq!(rt;
        (done.status, done.text.as_slice()),
        (1, "tunefs: not an OCFS2 volume\n".as_bytes())
    );
    Ok(())
}

#[test]
fn stopped_at_any_call(rt: HostRuntime) -> Result<(), Fail> {
    let alloc = rt.alloc();
    let before = super_sector(16_384);
    let after = with_label(&before, b"vol");
    let mut disk = device(&rt, alloc, SUPER_SECTOR, &before)?;
    let done = run_words(alloc, &mut disk, &["tunefs", "-L", "vol", "disk"])?;
    assert_eq!(rt; done.status, 0);
    for call in 0..disk.calls() {
        for choice in 0..8 {
            let mut stopped = disk.stopped_at(alloc, call, choice)?;
            let sector = read_super(&rt, &mut stopped)?;
            assert!(rt; sector == before || sector == after, "{call} {choice}");
        }
    }
    Ok(())
}

#[test]
fn one_call_fails(rt: HostRuntime) -> Result<(), Fail> {
    let alloc = rt.alloc();
    let before = super_sector(16_384);
    let after = with_label(&before, b"vol");
    // four reads, a write and a sync
    for call in 0..6 {
        let mut disk = device(&rt, alloc, SUPER_SECTOR, &before)?;
        disk.fail_at(call);
        let done = run_words(alloc, &mut disk, &["tunefs", "-L", "vol", "disk"])?;
        assert_eq!(rt;
            (done.status, done.text.as_slice()),
            (8, "tunefs: device fault\n".as_bytes()),
            "{call}"
        );
        assert_eq!(rt; disk.calls(), call + 1);
        let last = disk.calls() - 1;
        for choice in 0..8 {
            let mut stopped = disk.stopped_at(alloc, last, choice)?;
            let sector = read_super(&rt, &mut stopped)?;
            assert!(rt; sector == before || sector == after, "{call} {choice}");
        }
    }
    let mut disk = device(&rt, alloc, SUPER_SECTOR, &before)?;
    disk.fail_attach();
    let done = run_words(alloc, &mut disk, &["tunefs", "-L", "vol", "disk"])?;
    assert_eq!(rt;
        (done.status, done.text.as_slice()),
        (8, "tunefs: device fault\n".as_bytes())
    );
    Ok(())
}

#[test]
fn bounded_on_a_gibibyte(rt: HostRuntime) -> Result<(), Fail> {
    let alloc = rt.alloc();
    let made = device(&rt, alloc, SUPER_SECTOR, &super_sector(262_144))?;
    let mut disk = made.resized(alloc, 1 << 21)?;
    let done = run_words(alloc, &mut disk, &["tunefs", "-L", "vol", "disk"])?;
    assert_eq!(rt; done.status, 0);
    // a read for each block size, one write and one sync
    assert_eq!(rt; disk.calls(), 6);
    for call in 0..disk.calls() {
        assert_eq!(rt; disk.was_read(call), call < 4);
    }
    // the label is there: nothing is written
    let done = run_words(alloc, &mut disk, &["tunefs", "-L", "vol", "disk"])?;
    assert_eq!(rt; done.status, 0);
    assert_eq!(rt; disk.calls(), 10);
    Ok(())
}
