// Each call once, on a disk in memory.
ghost use Rattle.std.specs.Prelude.{◌≡◌, ◌+◌, ◌*◌, ◌<◌, ◌≤◌, ◌^◌, length, IfOk, Some};
ghost use Rattle.std.specs.Result.{IfErr};
ghost use Rattle.o2_disk.specs.Device.{SameDevice, ReadsOnly};
ghost use Rattle.o2_model.specs.Image.{Image, block_at};
ghost use Rattle.o2_model.specs.Volume.{Volume};
ghost use Rattle.o2_model.specs.declared.geo.Geo.{Geo as VolumeNumbers};
ghost use Rattle.o2_view.specs.Blocks.{sectors_per_block};
ghost use Rattle.o2_view.specs.Counted.{CallsAtMost};
ghost use Rattle.o2_view.specs.OwnChecks.{BlockFails};
ghost use Rattle.o2_view.specs.Views.{view_state, view_bits, view_blocks, Shows, OnlyReads};

use crate::{
    Block, Bytes, Check, Geo, Numbers, ReadFault, Run, RunSet, Runs, SlotPart, View, ViewFault,
    Which, find_super,
};
use o2_disk::{Disk, How, MemDisk, NoMemory};
use o2_ondisk::DxSeed;
use std::alloc::Global;
use std::test::Fail;

// The first sector of block 2 of a volume with blocks of 1 KiB and clusters of 4 KiB.
fn super_sector() -> [u8; 512] {
    let mut bytes = [0; 512];
    bytes[..6].copy_from_slice(b"OCFSV2");
    bytes[0x14..0x18].copy_from_slice(&[0x04, 0x03, 0x02, 0x01]);
    bytes[0x60..0x64].copy_from_slice(&[0x44, 0x33, 0x22, 0x11]);
    bytes[0xdc] = 3;
    bytes[0xe0] = 0x50;
    bytes[0xe8] = 5;
    bytes[0xf0] = 6;
    bytes[0xf8] = 10;
    bytes[0xfc] = 12;
    bytes[0x100] = 8;
    bytes[0x108] = 64;
    bytes[0x17c] = 21;
    bytes[0x180] = 22;
    bytes[0x184] = 23;
    bytes
}

#[test]
fn finds_the_numbers_of_a_volume(rt: HostRuntime) -> Result<(), Fail> {
    let alloc = rt.alloc();
    let mut disk = MemDisk::new(alloc, 16)?;
    disk.attach(alloc, "disk", How::ReadWrite)?;
    assert_eq!(rt; find_super(alloc, &mut disk)?, None);
    assert_eq!(rt; disk.calls(), 3);
    disk.write(4, &super_sector())?;
    let found = Geo {
        block_bits: 10,
        cluster_bits: 12,
        clusters: 0x01020304,
        slots: 8,
        root: 5,
        sysdir: 6,
        first_group: 64,
        generation: 0x11223344,
        compat: 3,
        incompat: 0x50,
        seed: DxSeed {
            first: 21,
            second: 22,
            third: 23,
        },
    };
    assert_eq!(rt; find_super(alloc, &mut disk)?, Some(found));
    assert_eq!(rt; disk.calls(), 6);
    Ok(())
}

#[test]
fn tells_a_failed_search(rt: HostRuntime) -> Result<(), Fail> {
    let alloc = rt.alloc();
    let mut disk = MemDisk::new(alloc, 16)?;
    disk.fail_at(1);
    let answer = find_super(alloc, &mut disk);
    assert_eq!(rt; answer, Err(ViewFault::DeviceFault));
    assert_eq!(rt; disk.calls(), 2);
    Ok(())
}

// Two blocks of one volume.
fn two_blocks<D: Disk, const N: usize>(
    view: &mut View<'_, D, N>,
    a: u64,
    b: u64,
) -> Result<(Block, Block), ViewFault>
    requires a { a < view_blocks view.old }
    requires b { b < view_blocks view.old }
    ensures shown { IfOk result (λ both. (geo : VolumeNumbers) (v : Volume) → Shows view.old geo v → (both.0 ≡ v.at a) × (both.1 ≡ v.at b)) }
    ensures length { IfOk result (λ both. (length both.0 ≡ 2 ^ view_bits view.old) × (length both.1 ≡ 2 ^ view_bits view.old)) }
    ensures reads { OnlyReads view.old view.new }
    ensures fails { IfErr result (BlockFails view.old view.new) }
    ensures count { CallsAtMost 2 (view_state view.old) (view_state view.new) }
{
    let first = view.block(a)?;
    let second = view.block(b)?;
    Ok((first, second))
}

// Block 1 of the bare device, and the disk again.
fn second_block<D: Disk>(alloc: Global, disk: &mut D, bits: u32) -> Result<Block, ViewFault>
    requires least { 9 ≤ bits }
    requires most { bits ≤ 12 }
    requires within { sectors_per_block bits * 2 ≤ (D.state disk.old).sectors }
    ensures bytes { IfOk result (λ block. (I : Image) → (D.state disk.old).content ≡ Some I → block ≡ block_at (2 ^ bits) I 1) }
    ensures length { IfOk result (λ block. length block ≡ 2 ^ bits) }
    ensures reads { ReadsOnly (D.state disk.old) (D.state disk.new) }
    ensures device { SameDevice (D.state disk.old) (D.state disk.new) }
{
    let mut view = View::<D, 1>::new(alloc, disk, bits, 2)?;
    let block = view.block(1);
    let _disk = view.into_disk();
    block
}

#[test]
fn reads_blocks(rt: HostRuntime) -> Result<(), Fail> {
    let alloc = rt.alloc();
    let mut disk = MemDisk::new(alloc, 9)?;
    disk.attach(alloc, "disk", How::ReadWrite)?;
    disk.write(2, &[7; 512])?;
    disk.write(3, &[9; 512])?;
    disk.write(8, &[1; 512])?;
    let block = second_block(alloc, &mut disk, 10)?;
    assert_eq!(rt; &block.as_slice()[511..513], [7, 9].as_slice());
    assert_eq!(rt; disk.calls(), 4);
    let mut view = View::<MemDisk, 1>::new(alloc, &mut disk, 10, 4)?;
    let (first, second) = two_blocks(&mut view, 1, 3)?;
    assert_eq!(rt; &first.as_slice()[511..513], [7, 9].as_slice());
    assert_eq!(rt; second.into_vec().as_slice(), [0; 1024].as_slice());
    Ok(())
}

// A kind of piece of a plan.
#[derive(Clone, Copy)]
enum Part {
    Home,
    Fresh,
    Zeros,
}

// A view with blocks of 1 KiB.
#[derive(Drop)]
struct Planner<'a> {
    view: View<'a, MemDisk, 1>,
    ghost bits: { view_bits view ≡ 10 },
}

impl<'a> Planner<'a> {
    // Plans a block full of this byte, or a run of so many blocks of zeros, where the view has them.
    #[tactic(auto, using(crate::proofs::Rooms::block_has_room, crate::proofs::Rooms::run_has_room))]
    fn put(&mut self, part: Part, b: u64, n: u8) -> Result<(), NoMemory> {
        let blocks = self.view.blocks();
        if b >= blocks {
            return Ok(());
        }
        match part {
            Part::Home => self.view.home(b, &[n; 1024]),
            Part::Fresh => self.view.fresh(b, &[n; 1024]),
            Part::Zeros => self.view.zeros(b, u64::from(n).min(blocks - b)),
        }
    }

    // Plans that all blocks are zeros.
    #[tactic(auto, using(crate::proofs::Rooms::run_has_room))]
    fn clear(&mut self) -> Result<(), NoMemory> {
        let blocks = self.view.blocks();
        self.view.zeros(0, blocks)
    }

    fn put_all(&mut self, pieces: &[(Part, u64, u8)]) -> Result<(), NoMemory> {
        for (part, b, n) in pieces {
            self.put(*part, *b, *n)?;
        }
        Ok(())
    }

    // The first byte of block b.
    fn byte(&mut self, b: u64) -> Result<u8, ViewFault> {
        if b >= self.view.blocks() {
            return Ok(255);
        }
        let block = self.view.block(b)?;
        Ok(block.as_slice().first().copied().unwrap_or(255))
    }

    // The first bytes of five blocks.
    fn bytes(&mut self, blocks: [u64; 5]) -> Result<[u8; 5], ViewFault> {
        let mut bytes = [0; 5];
        for (place, b) in blocks.into_iter().enumerate() {
            let byte = self.byte(b)?;
            if let Some(there) = bytes.get_mut(place) {
                *there = byte;
            }
        }
        Ok(bytes)
    }

    // What block 5 shows after each of these pieces.
    fn shown(&mut self, pieces: &[(Part, u8)]) -> Result<[u8; 6], ViewFault> {
        let mut bytes = [0; 6];
        for (place, (part, n)) in pieces.iter().enumerate() {
            self.put(*part, 5, *n)?;
            let byte = self.byte(5)?;
            if let Some(there) = bytes.get_mut(place) {
                *there = byte;
            }
        }
        Ok(bytes)
    }

    // What blocks 5 to 9 show once these pieces are planned and closed.
    fn closed(&mut self, pieces: &[(Part, u64, u8)]) -> Result<[u8; 5], ViewFault> {
        self.put_all(pieces)?;
        let _plan = self.view.close_plan()?;
        self.bytes([5, 6, 7, 8, 9])
    }

    // And once they are planned and taken.
    fn taken(&mut self, pieces: &[(Part, u64, u8)]) -> Result<[u8; 5], ViewFault> {
        self.put_all(pieces)?;
        let _plan = self.view.take_plan();
        self.bytes([5, 6, 7, 8, 9])
    }

    // Three plans closed one over the other, and a fourth that is taken.
    fn in_turn(&mut self) -> Result<[[u8; 5]; 4], ViewFault> {
        let first = self.closed(&[
            (Part::Home, 5, 1),
            (Part::Home, 6, 1),
            (Part::Fresh, 7, 1),
            (Part::Fresh, 8, 1),
        ])?;
        let second = self.closed(&[(Part::Home, 5, 2), (Part::Zeros, 6, 2)])?;
        let third = self.closed(&[(Part::Fresh, 7, 3)])?;
        let last = self.taken(&[(Part::Home, 5, 4)])?;
        Ok([first, second, third, last])
    }

    // All blocks cleared, and a thousand home blocks, closed under a plan that clears some of them.
    fn many(&mut self) -> Result<[u8; 5], ViewFault> {
        self.clear()?;
        for b in 0..1000 {
            self.put(Part::Home, b, 7)?;
        }
        let _first = self.view.close_plan()?;
        self.put(Part::Zeros, 250, 250)?;
        let _second = self.view.close_plan()?;
        self.bytes([249, 250, 499, 500, 1000])
    }

    // How many runs of zeros, fresh blocks and home blocks are planned.
    fn counts(&self) -> (usize, usize, usize) {
        let plan = self.view.planned();
        let homes = plan.home_blocks().count();
        (plan.zero_runs().len(), plan.fresh_blocks().len(), homes)
    }
}

#[test]
fn shows_what_is_planned(rt: HostRuntime) -> Result<(), Fail> {
    let alloc = rt.alloc();
    let mut disk = MemDisk::new(alloc, 32)?;
    disk.attach(alloc, "disk", How::ReadWrite)?;
    disk.write(10, &[9; 1024])?;
    let view = View::new(alloc, &mut disk, 10, 16)?;
    let mut planner = Planner { view };
    let shown = planner.shown(&[
        (Part::Zeros, 2),
        (Part::Fresh, 2),
        (Part::Home, 3),
        (Part::Home, 4),
        (Part::Fresh, 6),
        (Part::Zeros, 1),
    ])?;
    let counts = planner.counts();
    assert_eq!(rt; (shown, counts), ([0, 2, 3, 4, 4, 4], (2, 2, 1)));
    Ok(())
}

#[test]
fn shows_closed_plans(rt: HostRuntime) -> Result<(), Fail> {
    let alloc = rt.alloc();
    let mut disk = MemDisk::new(alloc, 32)?;
    disk.attach(alloc, "disk", How::ReadWrite)?;
    disk.write(10, &[9; 1024])?;
    let view = View::new(alloc, &mut disk, 10, 16)?;
    let mut planner = Planner { view };
    let shown = planner.in_turn()?;
    let wanted = [
        [1, 1, 1, 1, 0],
        [2, 0, 0, 1, 0],
        [2, 0, 3, 1, 0],
        [9, 0, 0, 0, 0],
    ];
    assert_eq!(rt; shown, wanted);
    Ok(())
}

#[test]
fn holds_many_blocks(rt: HostRuntime) -> Result<(), Fail> {
    let alloc = rt.alloc();
    let mut disk = MemDisk::new(alloc, 1 << 41)?;
    let view = View::new(alloc, &mut disk, 10, 1 << 40)?;
    let mut planner = Planner { view };
    let bytes = planner.many()?;
    assert_eq!(rt; bytes, [7, 0, 0, 7, 0]);
    Ok(())
}

#[test]
fn lists_give_their_vectors_back(rt: HostRuntime) -> Result<(), Fail> {
    let alloc = rt.alloc();
    let mut numbers = Vec::new(alloc);
    numbers.push(5u64)?;
    numbers.push(8)?;
    let list = Numbers::from(numbers);
    assert_eq!(rt; list.as_slice(), [5, 8].as_slice());
    assert_eq!(rt; list.into_vec().len(), 2);
    let mut runs = Vec::new(alloc);
    let run = Run {
        start: 3,
        clusters: 4,
    };
    runs.push(run)?;
    assert_eq!(rt; Runs::from(runs).as_slice(), [run].as_slice());
    let mut bytes = Vec::new(alloc);
    bytes.push(1u8)?;
    assert_eq!(rt; Bytes::from(bytes).into_vec().as_slice(), [1].as_slice());
    Ok(())
}

#[test]
fn words_print(rt: HostRuntime) -> Result<(), Fail> {
    let alloc = rt.alloc();
    for (which, text) in [
        (Which::BlockSize, "block size"),
        (Which::ClusterSize, "cluster size"),
        (Which::Label, "label"),
        (Which::Slots, "slots"),
        (Which::Journal, "journal"),
        (Which::Clusters, "clusters"),
        (Which::Number, "number"),
        (Which::Slot, "slot"),
        (Which::Block, "block"),
    ] {
        assert_eq!(rt; which.to_string(alloc)?.as_str(), text);
    }
    for (part, text) in [
        (SlotPart::LocalAlloc, "local_alloc"),
        (SlotPart::TruncateLog, "truncate_log"),
        (SlotPart::Orphans, "orphans"),
        (SlotPart::Anchors, "anchors"),
    ] {
        assert_eq!(rt; part.to_string(alloc)?.as_str(), text);
    }
    Ok(())
}

#[test]
fn faults_print(rt: HostRuntime) -> Result<(), Fail> {
    let alloc = rt.alloc();
    for (fault, text) in [
        (ViewFault::NoMemory, "NoMemory"),
        (ViewFault::DeviceFault, "DeviceFault"),
    ] {
        assert_eq!(rt; fault.to_string(alloc)?.as_str(), text);
        assert_eq!(rt; ReadFault::from(fault).to_string(alloc)?.as_str(), text);
    }
    let bad = ReadFault::Bad {
        check: Check::Extent,
        block: 7,
    };
    assert_eq!(rt; bad.to_string(alloc)?.as_str(), "Bad");
    Ok(())
}

#[test]
fn runs_meet_what_shares_a_number(rt: HostRuntime) -> Result<(), Fail> {
    let mut runs = RunSet::new(rt.alloc());
    runs.push(20, 10)?;
    runs.push(4, 2)?;
    runs.push(22, 3)?;
    runs.push(40, 0)?;
    assert!(rt; runs.has(5) && !runs.has(6));
    assert!(rt; runs.meets(0, 5) && runs.meets(5, 15) && runs.meets(6, 100));
    assert!(rt; runs.meets(24, 1) && !runs.meets(24, 0));
    assert!(rt; !runs.meets(0, 4) && !runs.meets(6, 14) && !runs.meets(30, 100));
    Ok(())
}
