// Entries that need two pieces.
ghost use Rattle.std.specs.Prelude.{◌≡◌, length, IfOk};
ghost use Rattle.o2_dir.specs.Packings.{HasName};

use super::build_directory;
use crate::{Entries, Entry};
use o2_view::{Blocks, Bytes};
use std::alloc::{AllocError, Global};
use std::test::Fail;

// The entry of a file in this block. It stands nowhere.
fn entry(alloc: Global, inode: u64, name: &[u8]) -> Result<Entry, AllocError>
    ensures { IfOk result (λ e. length e.name ≡ length name.now) }
{
    let name = Bytes::from(name.to_vec(alloc)?);
    Ok(Entry {
        inode,
        file_type: 1,
        name,
        block: 0,
        at: 0,
    })
}

// These entries, packed into pieces of 268 bytes.
fn pack(alloc: Global, first: Entry, second: Entry, third: Entry) -> Result<Blocks, Fail>
    requires first { HasName first }
    requires second { HasName second }
    requires third { HasName third }
{
    let entries = Vec::from_array(alloc, [first, second, third])?;
    Ok(build_directory(alloc, &Entries::from(entries), 268)?)
}

#[test]
fn packs_two_pieces(rt: HostRuntime) -> Result<(), Fail> {
    let alloc = rt.alloc();
    let first = entry(alloc, 0x0102_0304_0506_0708, &[b'x'; 197])?;
    let second = entry(alloc, 9, &[b'y'; 48])?;
    let third = entry(alloc, 0x0a0b_0c0d, b"b")?;
    let blocks = pack(alloc, first, second, third)?;
    let pieces = blocks.as_slice();
    assert_eq!(rt; pieces.len(), 2);

    // 212 bytes are needed by the first entry and 60 by the second, so it is alone in its piece of 268.
    let mut want = [0; 268];
    want[..12].copy_from_slice(&[8, 7, 6, 5, 4, 3, 2, 1, 0x0c, 0x01, 197, 1]);
    want[12..209].fill(b'x');
    assert!(rt; pieces[0].as_slice() == want.as_slice());

    // The last entry of the second piece has all of the 208 bytes that the one before it leaves.
    let mut want = [0; 268];
    want[..12].copy_from_slice(&[9, 0, 0, 0, 0, 0, 0, 0, 60, 0, 48, 1]);
    want[12..60].fill(b'y');
    want[60..73].copy_from_slice(&[0x0d, 0x0c, 0x0b, 0x0a, 0, 0, 0, 0, 208, 0, 1, 1, b'b']);
    assert!(rt; pieces[1].as_slice() == want.as_slice());
    Ok(())
}
