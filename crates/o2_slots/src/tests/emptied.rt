// Slot maps that are emptied from a slot on.
ghost use Rattle.std.specs.Prelude.{◌≤◌};

use super::{EXTENDED_SLOT_MAP, map_dinode, numbers};
use crate::empty_map;
use o2_disk::{Disk, How, MemDisk};
use o2_view::{ReadFault, View};
use std::alloc::Global;
use std::test::Fail;

// Some bytes of the slot map's first two blocks, once its entries from slot `from` on are empty in the plan.
fn bytes_after<D: Disk>(
    alloc: Global,
    disk: &mut D,
    slots: u16,
    incompat: u32,
    from: u16,
    places: &[usize; 6],
) -> Result<[u8; 6], ReadFault>
    requires disk { 320 ≤ (D.state disk.old).sectors }
    requires some { 1 ≤ slots }
    requires few { slots ≤ 255 }
{
    let mut view = View::<D, 1>::new(alloc, disk, 9, 320)?;
    empty_map(alloc, &mut view, &numbers(slots, incompat), 40, from)?;
    let first = view.block(48)?;
    let second = view.block(49)?;
    let mut found = [0; 6];
    for (byte, place) in found.iter_mut().zip(places) {
        *byte = byte_of(first.as_slice(), second.as_slice(), *place);
    }
    Ok(found)
}

// A byte of both blocks together; 0 where there is none.
fn byte_of(first: &[u8], second: &[u8], place: usize) -> u8 {
    if place < first.len() {
        return first[place];
    }
    match second.get(place - first.len()) {
        Some(byte) => *byte,
        None => 0,
    }
}

#[test]
fn empties_extended_entries(rt: HostRuntime) -> Result<(), Fail> {
    let alloc = rt.alloc();
    let mut disk = MemDisk::new(alloc, 320)?;
    disk.attach(alloc, "disk", How::ReadWrite)?;
    disk.write(40, &map_dinode())?;
    // Slots 62 to 64 have nodes. The first block ends with the entry of slot 63.
    let mut first = [0; 512];
    first[496] = 1;
    first[500] = 6;
    first[504] = 1;
    first[508] = 7;
    disk.write(48, &first)?;
    let mut second = [0; 512];
    second[0] = 1;
    second[4] = 8;
    disk.write(49, &second)?;
    let places = [496, 500, 504, 508, 512, 516];
    let bytes = bytes_after(alloc, &mut disk, 66, EXTENDED_SLOT_MAP, 63, &places)?;
    assert_eq!(rt; bytes, [1, 6, 0, 7, 0, 8]);
    Ok(())
}

#[test]
fn empties_short_entries(rt: HostRuntime) -> Result<(), Fail> {
    let alloc = rt.alloc();
    let mut disk = MemDisk::new(alloc, 320)?;
    disk.attach(alloc, "disk", How::ReadWrite)?;
    disk.write(40, &map_dinode())?;
    // Slots 0 and 1 have nodes, and what stands behind slot 2 is none of the map's.
    let mut first = [0; 512];
    first[0] = 2;
    first[2] = 3;
    first[6] = 4;
    disk.write(48, &first)?;
    let places = [0, 1, 2, 3, 5, 6];
    let bytes = bytes_after(alloc, &mut disk, 3, 0, 1, &places)?;
    assert_eq!(rt; bytes, [2, 0, 0xff, 0xff, 0xff, 4]);
    Ok(())
}
