// The lines of each query.
ghost use Rattle.std.specs.Prelude.{◌≡◌, IfOk, map, string_bytes, ◌++◌, codes};
ghost use Rattle.o2_ondisk.specs.declared.dinode.Dinode.{Dinode as Numbers};
ghost use Rattle.o2_debug.specs.Lines.{entry_line, kind_text, kind_line, mode_line, number_line, pair_line, dinode_lines as lines_of_dinode, extent_line, refcount_line};

use o2_dir::Entry;
use o2_extent::Leaf;
use o2_ondisk::{Dinode, Kind};
use o2_refcount::PlacedRefcount;
use o2_view::{Bytes, Items};
use std::alloc::{AllocError, Global};

/// Lines of text, each with its newline.
pub type Lines = Items<Bytes>;

fn entry_text(alloc: Global, entry: &Entry) -> Result<Bytes, AllocError>
    ensures { IfOk result (λ line. line ≡ entry_line entry.now) }
{
    let inode = entry.inode;
    let file_type = entry.file_type;
    let mut line = format!(in alloc; "{inode} {file_type} ")?.into_bytes();
    line.extend_from_slice(entry.name.as_slice())?;
    line.push(b'\n')?;
    Ok(Bytes::from(line))
}

/// The lines of `ls`: one for each entry.
pub fn entry_lines(alloc: Global, entries: &[Entry]) -> Result<Lines, AllocError>
    ensures { IfOk result (λ lines. lines ≡ map entry_line entries.now) }
{
    let mut lines = Vec::new(alloc);
    for entry in entries {
        lines.push(entry_text(alloc, entry)?)?;
    }
    Ok(Lines::from(lines))
}

fn extent_text(alloc: Global, leaf: &Leaf) -> Result<Bytes, AllocError>
    ensures { IfOk result (λ line. line ≡ extent_line leaf.now) }
{
    let cpos = leaf.cpos;
    let clusters = leaf.clusters;
    let block = leaf.block;
    let flags = leaf.flags;
    let line = format!(in alloc; "Extent: {cpos} {clusters} {block} {flags}\n")?;
    Ok(Bytes::from(line.into_bytes()))
}

fn refcount_text_line(alloc: Global, placed: &PlacedRefcount) -> Result<Bytes, AllocError>
    ensures { IfOk result (λ line. line ≡ refcount_line placed.now) }
{
    let cluster = placed.fields.cpos;
    let clusters = placed.fields.clusters;
    let count = placed.fields.refcount;
    let line = format!(in alloc; "{cluster} {clusters} {count}\n")?;
    Ok(Bytes::from(line.into_bytes()))
}

/// The lines of `refcount`: one for each record of the tree.
pub fn refcount_lines(alloc: Global, records: &[PlacedRefcount]) -> Result<Lines, AllocError>
    ensures { IfOk result (λ lines. lines ≡ map refcount_line records.now) }
{
    let mut lines = Vec::new(alloc);
    for placed in records {
        lines.push(refcount_text_line(alloc, placed)?)?;
    }
    Ok(Lines::from(lines))
}

/// The last lines of `stat`: one for each leaf record.
pub fn extent_lines(alloc: Global, leaves: &[Leaf]) -> Result<Lines, AllocError>
    ensures { IfOk result (λ lines. lines ≡ map extent_line leaves.now) }
{
    let mut lines = Vec::new(alloc);
    for leaf in leaves {
        lines.push(extent_text(alloc, leaf)?)?;
    }
    Ok(Lines::from(lines))
}

fn kind_word(kind: Option<Kind>) -> &'static str
    ensures { result.now ≡ kind_text kind }
{
    match kind {
        Some(Kind::File) => "file",
        Some(Kind::Directory) => "directory",
        Some(Kind::Character) => "character",
        Some(Kind::Block) => "block",
        Some(Kind::Fifo) => "fifo",
        Some(Kind::Socket) => "socket",
        Some(Kind::Link) => "link",
        None => "",
    }
}

fn kind_text_line(alloc: Global, kind: Option<Kind>) -> Result<Bytes, AllocError>
    ensures { IfOk result (λ line. line ≡ kind_line kind) }
{
    let word = kind_word(kind);
    let line = format!(in alloc; "Kind: {word}\n")?;
    Ok(Bytes::from(line.into_bytes()))
}

fn mode_text_line(alloc: Global, mode: u16) -> Result<Bytes, AllocError>
    ensures { IfOk result (λ line. line ≡ mode_line mode) }
{
    let special = mode / 512 % 8;
    let owner = mode / 64 % 8;
    let group = mode / 8 % 8;
    let others = mode % 8;
    let line = format!(in alloc; "Mode: {special}{owner}{group}{others}\n")?;
    Ok(Bytes::from(line.into_bytes()))
}

/// A line of one number.
pub fn number_text_line(alloc: Global, label: &str, n: u64) -> Result<Bytes, AllocError>
    ensures { IfOk result (λ line. line ≡ number_line label.now n) }
{
    let line = format!(in alloc; "{label}{n}\n")?;
    Ok(Bytes::from(line.into_bytes()))
}

/// A line of two numbers.
pub fn pair_text_line(alloc: Global, label: &str, m: u64, n: u64) -> Result<Bytes, AllocError>
    ensures { IfOk result (λ line. line ≡ pair_line label.now m n) }
{
    let line = format!(in alloc; "{label}{m} {n}\n")?;
    Ok(Bytes::from(line.into_bytes()))
}

/// The first lines of `stat`, for the dinode in this block.
pub fn dinode_lines(alloc: Global, block: u64, d: &Dinode) -> Result<Lines, AllocError>
    ensures { IfOk result (λ lines. lines ≡ lines_of_dinode block d.now) }
{
    let mut lines = Vec::new(alloc);
    lines.push(number_text_line(alloc, "Inode: ", block)?)?;
    lines.push(kind_text_line(alloc, d.kind())?)?;
    lines.push(mode_text_line(alloc, d.mode)?)?;
    lines.push(pair_text_line(alloc, "Owner: ", u64::from(d.uid), u64::from(d.gid))?)?;
    lines.push(number_text_line(alloc, "Links: ", u64::from(d.links()))?)?;
    lines.push(number_text_line(alloc, "Size: ", d.size)?)?;
    lines.push(number_text_line(alloc, "Clusters: ", u64::from(d.clusters))?)?;
    lines.push(pair_text_line(alloc, "Atime: ", d.atime, u64::from(d.atime_nsec))?)?;
    lines.push(pair_text_line(alloc, "Ctime: ", d.ctime, u64::from(d.ctime_nsec))?)?;
    lines.push(pair_text_line(alloc, "Mtime: ", d.mtime, u64::from(d.mtime_nsec))?)?;
    Ok(Lines::from(lines))
}
