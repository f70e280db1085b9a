// The names of a few entries.
use crate::entry_names::is_sound_name;
use crate::{directory_row, dirent_dup, dirent_name};
use o2_model::{Bytes, Entry};
use o2_tree::EntryName;
use std::alloc::Global;
use std::test::Fail;

// An entry of this name in that block.
fn entry(alloc: Global, name: &[u8], block: u64) -> Result<Entry, Fail> {
    Ok(Entry {
        inode: 8,
        file_type: 1,
        name: Bytes::from(Vec::from_slice(alloc, name)?),
        block,
        at: 0,
    })
}

// The dots twice, `a` twice, and names that are none.
fn entries(alloc: Global) -> Result<Vec<Entry>, Fail> {
    let mut entries = Vec::new(alloc);
    entries.push(entry(alloc, b".", 40)?)?;
    entries.push(entry(alloc, b".", 41)?)?;
    entries.push(entry(alloc, b"a", 40)?)?;
    entries.push(entry(alloc, b"a/b", 42)?)?;
    entries.push(entry(alloc, b"", 43)?)?;
    entries.push(entry(alloc, b"a", 44)?)?;
    Ok(entries)
}

#[test]
fn judges_names(rt: HostRuntime) -> Result<(), Fail> {
    let alloc = rt.alloc();
    let entries = entries(alloc)?;
    let mut found = Vec::from_slice(alloc, &[7])?;
    dirent_name(&entries, &mut found)?;
    assert_eq!(rt; found.as_slice(), [7, 42, 43].as_slice());
    assert_eq!(rt; dirent_dup(alloc, &entries)?.as_slice(), [44].as_slice());
    Ok(())
}

#[test]
fn tells_what_a_name_may_be(rt: HostRuntime) {
    assert!(rt; is_sound_name(&[0x61; 255]));
    assert!(rt; !is_sound_name(&[0x61; 256]));
    assert!(rt; !is_sound_name(&[0x61, 0]));
}

#[test]
fn keeps_a_row(rt: HostRuntime) -> Result<(), Fail> {
    let alloc = rt.alloc();
    let row = directory_row(alloc, 9, &entries(alloc)?)?;
    assert_eq!(rt; row.block, 9);
    assert_eq!(rt; row.entries.as_slice().len(), 6);
    assert_eq!(rt; row.entries.as_slice()[0].name, EntryName::Itself);
    assert_eq!(rt; row.entries.as_slice()[3].block, 42);
    Ok(())
}
