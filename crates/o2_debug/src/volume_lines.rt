// The lines that are printed of a volume as a whole.
ghost use Rattle.std.specs.Prelude.{◌≡◌, ◌^◌, IfOk};
ghost use Rattle.std.specs.List.{take_while};
ghost use Rattle.o2_view.specs.Geos.{HasSizes};
ghost use Rattle.o2_debug.specs.VolumeLines.{is_of_label, label_line, uuid_line, volume_lines as lines_of_volume, journal_line as line_of_journal, slot_lines as lines_of_slots};

use crate::lines::{Lines, number_text_line, pair_text_line};
use o2_extent::block_bytes;
use o2_model::Geo;
use o2_ondisk::Super;
use o2_slots::SlotMap;
use o2_view::Bytes;
use std::alloc::{AllocError, Global};
use uuid::Uuid;

/// The label's bytes up to the first NUL.
fn label_bytes(label: &[u8]) -> &[u8]
    ensures { result.now ≡ take_while is_of_label label.now }
{
    for (end, byte) in label.iter().enumerate() {
        if *byte == 0 {
            return &label[..end];
        }
    }
    label
}

fn label_text(alloc: Global, label: &[u8]) -> Result<Bytes, AllocError>
    ensures { IfOk result (λ line. line ≡ label_line label.now) }
{
    let mut line = Vec::from_slice(alloc, b"Label: ")?;
    line.extend_from_slice(label_bytes(label))?;
    line.push(b'\n')?;
    Ok(Bytes::from(line))
}

fn uuid_text(alloc: Global, uuid: [u8; 16]) -> Result<Bytes, AllocError>
    ensures { IfOk result (λ line. line ≡ uuid_line uuid) }
{
    let mut buffer = Uuid::encode_buffer();
    let text = Uuid::from_bytes(uuid)
        .hyphenated()
        .encode_lower(&mut buffer);
    let line = format!(in alloc; "UUID: {text}\n")?;
    Ok(Bytes::from(line.into_bytes()))
}

/// How many bytes a cluster has.
fn cluster_bytes(geo: &Geo) -> u64
    requires { HasSizes geo.now }
    ensures { result ≡ 2 ^ geo.now.cluster_bits }
{
    1 << geo.cluster_bits
}

/// The lines of `stats` but those of journals.
pub fn volume_lines(alloc: Global, geo: &Geo, part: &Super, used: u32) -> Result<Lines, AllocError>
    requires { HasSizes geo.now }
    ensures { IfOk result (λ lines. lines ≡ lines_of_volume geo.now part.now used) }
{
    let block_size = block_bytes(geo);
    let cluster_size = cluster_bytes(geo);
    let mut lines = Vec::new(alloc);
    lines.push(number_text_line(alloc, "Block size: ", block_size)?)?;
    lines.push(number_text_line(alloc, "Cluster size: ", cluster_size)?)?;
    lines.push(number_text_line(alloc, "Clusters: ", u64::from(geo.clusters))?)?;
    lines.push(number_text_line(alloc, "Used: ", u64::from(used))?)?;
    lines.push(number_text_line(alloc, "Slots: ", u64::from(geo.slots))?)?;
    lines.push(label_text(alloc, &part.label)?)?;
    lines.push(uuid_text(alloc, part.uuid)?)?;
    Ok(Lines::from(lines))
}

/// The line of the journal of a slot.
pub fn journal_line(alloc: Global, slot: u16, clusters: u64) -> Result<Bytes, AllocError>
    ensures { IfOk result (λ line. line ≡ line_of_journal slot clusters) }
{
    let line = format!(in alloc; "Journal {slot}: {clusters}\n")?;
    Ok(Bytes::from(line.into_bytes()))
}

/// The lines of `slotmap`.
pub fn slot_lines(alloc: Global, map: &SlotMap) -> Result<Lines, AllocError>
    ensures { IfOk result (λ lines. lines ≡ lines_of_slots map.now) }
{
    let mut lines = Vec::new(alloc);
    for (slot, node) in map.as_slice().iter().enumerate() {
        if let Some(node) = node {
            lines.push(pair_text_line(alloc, "", slot as u64, u64::from(*node))?)?;
        }
    }
    Ok(Lines::from(lines))
}
