// What a check keeps of a directory.
ghost use Rattle.std.specs.Prelude.{◌≡◌, map, IfOk};
ghost use Rattle.o2_model.specs.Volume.{Volume};
ghost use Rattle.o2_model.specs.Directories.{directory_entries};
ghost use Rattle.o2_tree.specs.TreeRows.{IsDirectoryRow, row_of};

use o2_disk::NoMemory;
use o2_model::{Entry, Items};
use o2_tree::{DirectoryRow, EntryRow, entry_row};
use std::alloc::Global;

/// The rows of the entries, in order.
fn entry_rows(alloc: Global, entries: &[Entry]) -> Result<Vec<EntryRow>, NoMemory>
    ensures { IfOk result (λ rows. rows.items ≡ map row_of entries.now) }
{
    match entries.iter().map(|entry| entry_row(entry)).collect(alloc) {
        Ok(rows) => Ok(rows),
        Err(_) => Err(NoMemory),
    }
}

/// The row of the directory in block `d` with these entries. NoMemory where memory runs out.
pub fn directory_row(alloc: Global, d: u64, entries: &[Entry]) -> Result<DirectoryRow, NoMemory>
    ensures of { IfOk result (λ row. row.block ≡ d) }
    ensures told { IfOk result (λ row. (v : Volume) → entries.now ≡ directory_entries v d → IsDirectoryRow v row) }
{
    let rows = entry_rows(alloc, entries)?;
    Ok(DirectoryRow {
        block: d,
        entries: Items::from(rows),
    })
}
