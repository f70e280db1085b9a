// Rows of entries, and the search among rows.
use crate::{DirectoryRow, EntryName, EntryRow, entry_row, find_directory};
use o2_model::{Bytes, Entry, Items};
use std::test::Fail;

#[test]
fn tells_dots(rt: HostRuntime) -> Result<(), Fail> {
    let alloc = rt.alloc();
    let mut name = Vec::new(alloc);
    name.extend_from_slice(b"..")?;
    let entry = Entry {
        inode: 7,
        file_type: 2,
        name: Bytes::from(name),
        block: 12,
        at: 24,
    };
    let row = EntryRow {
        inode: 7,
        file_type: 2,
        name: EntryName::Parent,
        block: 12,
    };
    assert_eq!(rt; entry_row(&entry), row);
    Ok(())
}

#[test]
fn finds_a_row(rt: HostRuntime) -> Result<(), Fail> {
    let alloc = rt.alloc();
    let mut rows = Vec::new(alloc);
    for block in [4, 9, 11] {
        rows.push(DirectoryRow {
            block,
            entries: Items::from(Vec::new(alloc)),
        })?;
    }
    assert_eq!(rt; find_directory(&rows, 9).map(|row| row.block), Some(9));
    assert!(rt; find_directory(&rows, 10).is_none());
    Ok(())
}
