// The entries of a slot map.
ghost use Rattle.std.specs.Prelude.{◌≡◌, ◌/◌, ◌≤◌, length, IfOk};
ghost use Rattle.o2_model.specs.Words.{table};
ghost use Rattle.o2_slots.specs.Entries.{has_extended_entries, entry_size, node_of};

use o2_disk::NoMemory;
use o2_extent::put;
use o2_model::Geo;
use o2_ondisk::{SLOT_ENTRY_SIZE, read_slot_entry, u16_at};
use std::alloc::Global;

/// The feature under which entries are extended ones: `OCFS2_FEATURE_INCOMPAT_EXTENDED_SLOT_MAP`.
const EXTENDED_SLOT_MAP: u32 = 0x100;

/// The number of no node, in an entry that is not extended.
const NO_NODE: u16 = 0xffff;

/// Whether entries are extended ones.
pub fn has_extended_entries(geo: &Geo) -> bool
    ensures { result ≡ has_extended_entries geo.now }
{
    geo.incompat & EXTENDED_SLOT_MAP != 0
}

/// The bytes of an entry.
pub fn entry_size(geo: &Geo) -> usize
    ensures { result ≡ entry_size geo.now }
{
    if has_extended_entries(geo) {
        SLOT_ENTRY_SIZE
    } else {
        2
    }
}

/// The node of the entry that these bytes begin with.
fn node_of(geo: &Geo, bytes: &[u8]) -> Option<u32>
    requires { entry_size geo.now ≤ length bytes.now }
    ensures { result ≡ node_of geo.now bytes.now }
{
    if has_extended_entries(geo) {
        let entry = read_slot_entry(bytes);
        if entry.valid == 0 {
            None
        } else {
            Some(entry.node)
        }
    } else {
        let number = u16_at(bytes, 0);
        if number == NO_NODE {
            None
        } else {
            Some(u32::from(number))
        }
    }
}

/// The nodes of the entries in these bytes, as many as there are in them.
pub fn nodes_in(alloc: Global, geo: &Geo, bytes: &[u8]) -> Result<Vec<Option<u32>>, NoMemory>
    ensures { IfOk result (λ nodes. nodes.items ≡ table (node_of geo.now) (entry_size geo.now) 0 (length bytes.now / entry_size geo.now) bytes.now) }
{
    let size = entry_size(geo);
    let mut nodes = Vec::new(alloc);
    for k in 0..bytes.len() / size {
        put(&mut nodes, node_of(geo, &bytes[size * k..]))?;
    }
    Ok(nodes)
}
